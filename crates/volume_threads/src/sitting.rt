// A seat at one volume.
use atomic_table::Badge;
use audited_volume::Receipt;
use locked_volume::{Room, View};
use std::marker::{Model, PhantomData};

/// The receipts of a seat at one volume, and the pass that knows that its journal has no other entries of it.
#[derive(Drop)]
pub struct Sitting<J: Room> {
    pub(crate) volume: usize,
    pub(crate) seat: u8,
    pub(crate) pass: Badge<View>,
    pub(crate) receipts: Vec<Receipt>,
    pub(crate) room: PhantomData<J>,
}

impl<J: Room> Model for Sitting<J> {
    ghost use Rattle.volume_threads.specs.Sittings.{SittingShape};

    ghost Value = { SittingShape };

    ghost use Rattle.std.specs.Prelude.{vec_capacity};
    ghost use Rattle.locked_volume.specs.Fixed.{count_at};
    ghost use Rattle.volume_threads.specs.Sittings.{SittingHolds, seen_of, waits_of};

    ghost view = { λ s. record { volume = s.volume; seat = s.seat; receipts = s.receipts.items; waits = waits_of s.pass.views; seen = seen_of s.pass.views; room = vec_capacity s.receipts } };

    ghost invariant = { λ s. SittingHolds (J.history s.volume) (count_at (J.fixed s.volume) (J.start s.volume) s.seat) s.seat s.pass s.receipts.items };
}
