// A seat: who makes requests of the volumes, one after the other.
use crate::queue::QueuePass;
use crate::sitting::Sitting;
use locked_volume::{Readers, Room};
use std::alloc::Global;
use std::marker::Model;

/// A seat of a rig, which one thread has at a time. Contracts see its number, from 1 to 8, and for each volume its receipts and
/// what it has seen of the boards.
#[derive(Drop)]
pub struct Seat<J: Room> {
    pub(crate) number: u8,
    pub(crate) sittings: Vec<Sitting<J>>,
    pub(crate) watches: Vec<Readers>,
    pub(crate) pass: QueuePass<J>,
    pub(crate) alloc: Global,
}

impl<J: Room> Model for Seat<J> {
    ghost use Rattle.volume_threads.specs.Rigs.{SeatShape};

    ghost Value = { SeatShape };

    ghost use Rattle.std.specs.Prelude.{◌≡◌, ◌<◌, length};
    ghost use Rattle.volume_threads.specs.Rigs.{AreIdle};
    ghost use Rattle.volume_threads.specs.Watching.{AreWatching};

    ghost view = { λ s. record { number = s.number; sittings = s.sittings.items; watches = s.watches.items } };

    ghost invariant = { λ s. (s.number < 9) × (length s.sittings.items ≡ J.volumes) × AreIdle s.number s.sittings.items × AreWatching J.boards J.volumes s.watches.items × (0 < s.number) };
}
