// Workers: they do the copies that have tickets.
ghost use Rattle.std.specs.Prelude.{◌≡◌, ⊤};

use crate::place::VolumePlace;
use crate::queue::QueuePass;
use crate::rig::Rig;
use crate::seat::Seat;
use crate::turns::copy;
use layers::Layered;
use locked_volume::Room;
use plain_machine::Event;
use std::sync::Wait;
use thread_channels::{Copies, Gate, PendingCopy, TicketPass, Tickets};

/// A worker of a rig, which one thread has at a time.
#[derive(Drop)]
pub struct Worker<J: Room> {
    pub(crate) pass: QueuePass<J>,
}

// Does copies of the volumes at these places.
#[derive(Drop)]
struct Copying<'a, B: Layered, J: Room> {
    places: &'a [VolumePlace<B, J>],
}

impl<'a, B: Layered, J: Room> Copies for Copying<'a, B, J> {
    ghost does = { λ before copy after. ⊤ };

    // A copy that is gone, since its snapshot was spoiled, is not due.
    fn copy<R: Wait>(
        &mut self,
        rt: &R,
        _tickets: &Tickets,
        _pass: &mut TicketPass,
        copied: PendingCopy,
    ) {
        if let Some(place) = self.places.get(copied.volume) {
            copy(rt, place, Event::CopyRead(copied.copy));
            copy(rt, place, Event::CopyWrite(copied.copy));
        }
    }
}

impl<B: Layered, G: Gate + Drop, J: Room> Rig<B, G, J> {
    /// Takes tickets and does their copies, each after `before` of the gate, until a ticket says stop.
    pub fn work<R: Wait>(&self, rt: &R, worker: &mut Worker<J>) {
        let mut copies = Copying {
            places: self.places.as_slice(),
        };
        let _ = thread_channels::work(
            rt,
            &self.queue.tickets,
            &mut worker.pass.pass,
            &self.gate,
            &mut copies,
        );
    }

    /// Tells each worker to stop.
    pub fn end<R: Wait>(&self, rt: &R, seat: &mut Seat<J>)
        ensures { seat.new ≡ seat.old }
    {
        self.queue.stop(rt, &mut seat.pass, self.workers);
    }
}
