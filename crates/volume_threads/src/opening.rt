// What a rig is made from is made, and seats and passes are dealt.
ghost use Rattle.std.specs.Prelude.{◌≡◌, ◌-◌, ◌<◌, IfOk};
ghost use Rattle.volume_threads.specs.Rigs.{AreOpened};

use crate::opened::Opened;
use crate::queue::QueuePass;
use locked_volume::{OpenedVolume, Room};
use std::alloc::{AllocError, Global};
use std::marker::PhantomData;
use thread_channels::Tickets;

impl Opened {
    /// Tables for so many volumes, and a queue. `AllocError` where memory is refused.
    pub fn new(alloc: Global, volumes: usize) -> Result<Opened, AllocError>
        ensures { IfOk result (λ o. AreOpened volumes o) }
    {
        let (tickets, pass) = Tickets::new(alloc)?;
        let mut opened = Vec::new(alloc);
        for _ in 0..volumes {
            opened.push(OpenedVolume::new(alloc)?)?;
        }
        Ok(Opened {
            volumes: opened,
            tickets,
            pass,
        })
    }

    /// A pass to the queue.
    pub(crate) fn queue_pass<J: Room>(&mut self) -> QueuePass<J>
        requires queue { self.old.queue ≡ J.queue }
        requires parts { 1 < self.old.parts }
        ensures { self.new ≡ record self.old { parts = self.old.parts - 1 } }
    {
        QueuePass {
            pass: self.tickets.another(&mut self.pass),
            room: PhantomData,
        }
    }
}
