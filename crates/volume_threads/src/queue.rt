// The tickets of a rig.
ghost use Rattle.std.specs.Prelude.{◌≡◌};

use locked_volume::Room;
use std::marker::PhantomData;
use std::sync::Mutex;
use thread_channels::{Count, TicketPass, Tickets};

/// The queue of tickets of all volumes, and how many were counted.
#[derive(Drop)]
pub struct TicketQueue<J: Room> {
    pub(crate) tickets: Tickets,
    pub(crate) count: Mutex<Count>,
    pub(crate) room: PhantomData<J>,
    ghost is_room: { tickets ≡ J.queue },
}

/// A thread's pass to the queue. It takes no bytes.
#[derive(Drop)]
pub struct QueuePass<J: Room> {
    pub(crate) pass: TicketPass,
    pub(crate) room: PhantomData<J>,
    ghost of_room: { pass.queue ≡ J.queue },
}
