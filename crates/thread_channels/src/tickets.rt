// What threads do with the queue.
ghost use Rattle.std.specs.Prelude.{◌≡◌, ◌+◌, ◌-◌, ◌++◌, ◌<◌, ◌≤◌, List, [], ◌∷◌, IfOk, MatchOption, MatchResult};
ghost use Rattle.thread_channels.specs.Balance.{IsLeft};
ghost use Rattle.thread_channels.specs.Passes.{passed, with_put, with_taken};
ghost use Rattle.thread_channels.specs.declared.ticket.Ticket.{Ticket};

use crate::ROOM;
use crate::pass::TicketPass;
use crate::queue::Tickets;
use crate::rule::{Left, Puts, Takes, Together};
use crate::ticket::Ticket;
use std::alloc::{AllocError, Global};
use std::sync::Wait;

impl Tickets {
    /// A queue with no ticket, and the pass with all parts. `AllocError` where there is no room for 512 tickets; no later call
    /// takes memory.
    pub fn new(alloc: Global) -> Result<(Tickets, TicketPass), AllocError>
        ensures { IfOk result (λ r. r.1 ≡ passed r.0 1024 [] []) }
    {
        let (sender, receiver, seat) = crossbeam_channel::bounded_with(alloc, ROOM)?;
        Ok((Tickets { sender, receiver }, TicketPass { seat }))
    }

    /// Puts a ticket at the back, and waits while the queue holds 512. A ticket that isn't put is handed back.
    pub fn put<R: Wait>(&self, rt: &R, pass: &mut TicketPass, ticket: Ticket) -> Result<(), Ticket>
        requires { pass.old.queue ≡ self.now }
        ensures { MatchResult result
            (λ _. pass.new ≡ with_put ticket pass.old)
            (λ back. (back ≡ ticket) × (pass.new ≡ pass.old)) }
    {
        match self.sender.send_as::<Puts, R>(rt, &mut pass.seat, ticket) {
            Ok(()) => Ok(()),
            Err(error) => Err(error.into_inner()),
        }
    }

    /// Takes the ticket at the front, and waits for one. At None the queue was found empty: then the pass with all parts knows
    /// that what was put was taken.
    pub fn take<R: Wait>(&self, rt: &R, pass: &mut TicketPass) -> Option<Ticket>
        requires { pass.old.queue ≡ self.now }
        ensures { MatchOption result
            ((pass.new ≡ pass.old) × (pass.old.parts ≡ 1024 → IsLeft pass.old.put pass.old.taken []))
            (λ ticket. pass.new ≡ with_taken ticket pass.old) }
    {
        match self.receiver.recv_as::<Takes, R>(rt, &mut pass.seat) {
            Ok(ticket) => Some(ticket),
            Err(_) => None,
        }
    }

    /// A pass for another thread, with one part of this one.
    pub fn another(&self, pass: &mut TicketPass) -> TicketPass
        requires queue { pass.old.queue ≡ self.now }
        requires parts { 1 < pass.old.parts }
        ensures rest { pass.new ≡ passed self.now (pass.old.parts - 1) pass.old.put pass.old.taken }
        ensures new { result ≡ passed self.now 1 [] [] }
    {
        TicketPass {
            seat: self.sender.another::<Together>(&mut pass.seat),
        }
    }

    /// Takes in another pass: its parts, and what it put and took.
    pub fn absorb(&self, pass: &mut TicketPass, other: TicketPass)
        requires { (pass.old.queue ≡ self.now) × (other.queue ≡ self.now) }
        ensures { pass.new ≡ passed self.now (pass.old.parts + other.parts) (pass.old.put ++ other.put) (pass.old.taken ++ other.taken) }
    {
        let TicketPass { seat } = other;
        self.sender.absorb::<Together>(&mut pass.seat, seat);
    }

    /// What was taken or is left is what was put, each as often, and at most 512 are left. Only the pass with all parts knows.
    pub fn settle(&self, pass: &mut TicketPass)
        requires { (pass.old.queue ≡ self.now) × (pass.old.parts ≡ 1024) }
        ensures same { pass.new ≡ pass.old }
        ensures left { (items : List Ticket) × IsLeft pass.old.put pass.old.taken items }
    {
        self.sender.learn_as::<Left>(&mut pass.seat);
    }
}
