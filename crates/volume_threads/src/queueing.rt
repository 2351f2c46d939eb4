// Tickets are put.
ghost use Rattle.std.specs.Prelude.{◌≡◌};
ghost use Rattle.thread_channels.specs.Working.{HasPut};

use crate::queue::{QueuePass, TicketQueue};
use locked_volume::Room;
use plain_machine::CopyId;
use std::sync::Wait;
use thread_channels::{PendingCopy, Ticket, TicketPass};

/// The copies that a call under a volume's lock started: those after the first number, up to the second.
#[derive(Clone, Copy, PartialEq, Eq)]
pub(crate) struct Started {
    pub after: CopyId,
    pub last: CopyId,
}

impl<J: Room> TicketQueue<J> {
    /// Counts and puts a ticket for each copy that was started. No volume's lock is held: a put may wait.
    pub(crate) fn put_by<R: Wait>(
        &self,
        rt: &R,
        pass: &mut TicketPass,
        volume: usize,
        started: Started,
    )
        requires { pass.old.queue ≡ J.queue }
        ensures put { HasPut pass.old pass.new }
    {
        for copy in started.after..started.last {
            let count = self.count.lock(rt).draw();
            let ticket = Ticket::Copy(PendingCopy {
                volume,
                copy: copy + 1,
                count,
            });
            let _ = self.tickets.put(rt, pass, ticket);
        }
    }

    /// The same by a seat's pass.
    pub(crate) fn put<R: Wait>(
        &self,
        rt: &R,
        pass: &mut QueuePass<J>,
        volume: usize,
        started: Started,
    ) {
        self.put_by(rt, &mut pass.pass, volume, started);
    }

    /// Tells a worker to stop.
    fn stop_one<R: Wait>(&self, rt: &R, pass: &mut QueuePass<J>) {
        let _ = self.tickets.put(rt, &mut pass.pass, Ticket::Stop);
    }

    /// Tells so many workers to stop.
    pub(crate) fn stop<R: Wait>(&self, rt: &R, pass: &mut QueuePass<J>, workers: usize) {
        for _ in 0..workers {
            self.stop_one(rt, pass);
        }
    }
}
