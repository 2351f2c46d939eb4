// A worker: it takes tickets and does their copies until it is told to stop.
ghost use Rattle.std.specs.Prelude.{◌≡◌, MatchOption};
ghost use Rattle.thread_channels.specs.Working.{HasPut, HasDone, IsEnded, IsWorked};
ghost use Rattle.thread_channels.specs.declared.ticket.PendingCopy.{PendingCopy};

use crate::pass::TicketPass;
use crate::queue::Tickets;
use crate::ticket::{PendingCopy, Ticket};
use std::sync::Wait;

/// What a worker does before the copy of a ticket, by the ticket's count. A test may hold a copy there.
pub trait Gate {
    fn before(&self, ticket: u64);
}

/// What does the copies.
pub trait Copies {
    /// What it says of doing one: what it was, the copy, and what it is then.
    ghost does: { Self → PendingCopy → Self → Type 0 };

    /// Does a pending copy. It may put tickets by the worker's pass, and takes none.
    fn copy<R: Wait>(&mut self, rt: &R, tickets: &Tickets, pass: &mut TicketPass, copy: PendingCopy)
        requires { pass.old.queue ≡ tickets.now }
        ensures does { does self.old copy self.new }
        ensures put { HasPut pass.old pass.new };
}

/// Why a worker ended.
#[derive(Clone, Copy, PartialEq, Eq)]
pub enum WorkerEnd {
    /// It took the word to stop.
    Stopped,
    /// A take gave none.
    NoTicket,
}

/// Takes tickets and does their copies, each after `gate.before` of its count, until a ticket says stop or none comes. Each
/// copy that it took a ticket for is done, once and in that order, and it took nothing after the word to stop.
pub fn work<G: Gate, C: Copies, R: Wait>(
    rt: &R,
    tickets: &Tickets,
    pass: &mut TicketPass,
    gate: &G,
    copies: &mut C,
) -> WorkerEnd
    requires { pass.old.queue ≡ tickets.now }
    ensures { IsWorked C.does result pass.old copies.old pass.new copies.new }
{
    for _ in rt.forever() {
        if let Some(ended) = turn(rt, tickets, pass, gate, copies) {
            return ended;
        }
    }
    unreachable!()
}

// Takes one ticket. Where it is a copy's, does the copy; else says why the worker ends.
fn turn<G: Gate, C: Copies, R: Wait>(
    rt: &R,
    tickets: &Tickets,
    pass: &mut TicketPass,
    gate: &G,
    copies: &mut C,
) -> Option<WorkerEnd>
    requires { pass.old.queue ≡ tickets.now }
    ensures { MatchOption result
        (HasDone C.does pass.old copies.old pass.new copies.new)
        (λ ended. IsEnded ended pass.old pass.new × (copies.new ≡ copies.old)) }
{
    match tickets.take(rt, pass) {
        Some(Ticket::Copy(copy)) => {
            gate.before(copy.count);
            copies.copy(rt, tickets, pass, copy);
            None
        }
        Some(Ticket::Stop) => Some(WorkerEnd::Stopped),
        None => Some(WorkerEnd::NoTicket),
    }
}
