// A set on a board, and its passes.
ghost use Rattle.std.specs.Prelude.{◌≡◌, []};

use crate::turning::Turning;
use rs_disk::Disk;
use turn_board::Board;

/// A replica set that threads step in turns, each with a pass of its own.
#[derive(Drop)]
pub struct SharedSet<D: Disk> {
    pub(crate) board: Board<Turning<D>>,
    ghost points: { board.points ≡ board.value.begun.sizes.nodes },
    ghost fresh: { board.value.tried ≡ [] },
}

/// The right of one thread to step a set. It takes no memory. Contracts see what it has seen of the history,
/// and its calls.
pub type Pass<D> = turn_board::Pass<Turning<D>>;
