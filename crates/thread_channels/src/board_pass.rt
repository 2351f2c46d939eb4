// What a thread knows of a board.

ghost use Rattle.std.specs.Prelude.{◌≡◌, []};
ghost use Rattle.thread_channels.specs.BoardPasses.{Seen};

use crate::board_rule::View;
use atomic_table::Seat;
use std::marker::Model;

/// What a thread knows of one board. It takes no bytes. Contracts see which board it is, whether it publishes, and the
/// publications that were seen.
#[derive(Drop)]
pub struct BoardPass {
    pub(crate) seat: Seat<(), View>,
}

impl Model for BoardPass {
    ghost Value = { Seen };

    ghost view = { λ p. record { board = p.seat.table_id; publishes = p.seat.me.0.publishes; seen = p.seat.me.0.seen } };

    ghost invariant = { λ p. p.seat.me.1 ≡ [] };
}
