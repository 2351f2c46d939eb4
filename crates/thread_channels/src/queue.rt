// The queue itself.

use crate::rule::{Balance, Hand};
use crate::ticket::Ticket;
use crossbeam_channel::{RuledReceiver, RuledSender};
use std::marker::Model;

/// A queue of tickets, which threads share by reference. Both its ends are here, so that nobody closes it.
///
/// Contracts see which queue it is.
#[derive(Drop)]
pub struct Tickets {
    pub(crate) sender: RuledSender<Ticket, Hand, Balance>,
    pub(crate) receiver: RuledReceiver<Ticket, Hand, Balance>,
}

impl Model for Tickets {
    ghost use Rattle.std.specs.Prelude.{◌≡◌};
    ghost use Rattle.crossbeam_channel.specs.Claims.{IsKeyed};
    ghost use Rattle.crossbeam_channel.specs.Ends.{sends_on, receives_on, ruled_capacity};
    ghost use Rattle.thread_channels.specs.Passes.{Queue, queue_of};

    ghost Value = { Queue };

    ghost view = { λ t. queue_of (sends_on t.sender) };

    ghost invariant = { λ t. (receives_on t.receiver ≡ sends_on t.sender) × IsKeyed (sends_on t.sender) × (ruled_capacity (sends_on t.sender) ≡ 512) };
}
