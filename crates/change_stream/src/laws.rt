// What holds of all calls of a stream.
ghost use Rattle.safety_laws.specs.Laws.{InEveryRun};
ghost use Rattle.change_stream.specs.Law.{StreamLaw};

use safety_laws::{logs_rise, points_committed, safe, winner_completeness};

/// Whatever nodes a stream asks, what its calls gave is the part of each committed log after its start and
/// up to its token, each entry once, and a token that was given is never unknown later.
pub fn stream_law()
    ensures { InEveryRun StreamLaw }
{
    safe();
    points_committed();
    winner_completeness();
    logs_rise();
}
