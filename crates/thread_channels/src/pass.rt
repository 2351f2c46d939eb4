// What a thread put and took.

use crate::rule::Hand;
use crate::ticket::Ticket;
use std::marker::Model;

/// What a thread put into a queue and took from it. It takes no bytes.
///
/// Contracts see its queue, the lists of what it put and what it took, and its parts: of all passes of a queue together 1,024,
/// and at least one each. Only the pass with all of them knows what is left in the queue.
#[derive(Drop)]
pub struct TicketPass {
    pub(crate) seat: crossbeam_channel::Pass<Ticket, Hand>,
}

impl Model for TicketPass {
    ghost use Rattle.std.specs.Prelude.{◌≡◌, ◌<◌, []};
    ghost use Rattle.thread_channels.specs.Passes.{Passed, passed_of};

    ghost Value = { Passed };

    ghost view = { λ p. passed_of p.seat };

    ghost invariant = { λ p. (p.seat.me.1 ≡ []) × (0 < (passed_of p.seat).parts) };
}
