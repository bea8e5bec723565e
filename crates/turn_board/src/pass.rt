// What a thread takes turns with.
use crate::turned::Turned;
use crate::view::View;
use atomic_table::Seat;
use std::marker::Model;

/// The right of one thread to take turns at a board. It has no bytes.
#[derive(Drop)]
pub struct Pass<T: Turned> {
    pub(crate) seat: Seat<Option<T>, View<T::Entry, T::Fixed>>,
}

impl<T: Turned> Model for Pass<T> {
    ghost use Rattle.std.specs.Prelude.{◌≡◌};
    ghost use Rattle.turn_board.specs.Known.{Known, carried};

    ghost Value = { Known T.Entry T.Fixed };

    ghost view = { λ p. record { board = p.seat.table_id; view = p.seat.me.0 } };

    ghost invariant = { λ p. p.seat.me.1 ≡ carried p.seat.me.0.stage };
}
