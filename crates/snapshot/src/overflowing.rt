// What a write of a snapshot does that finds its store full, and that one did.
ghost use Rattle.std.specs.Prelude.{◌≡◌, true};
ghost use Rattle.plain_machine.specs.Plain.{overflow_of};
ghost use Rattle.plain_machine.specs.declared.request.Overflowing.TheVariants.{Did, May};
ghost use Rattle.volume_laws.specs.Steps.{Overflows};
ghost use Rattle.snapshot.specs.Kept.{books_of};
ghost use Rattle.snapshot.specs.Devices.{StaysInStep};

use crate::Snapshot;
use device::Block;
use plain_machine::Overflowing;

/// A new snapshot's: whether it may overflow is asked for.
pub(crate) fn overflowing(overflow: bool) -> Overflowing
    ensures { result ≡ overflow_of overflow }
{
    if overflow {
        Overflowing::May
    } else {
        Overflowing::Never
    }
}

impl<B: Block> Snapshot<B> {
    /// What a write of it does that finds its store full, and whether one did.
    pub fn overflow(&self) -> Overflowing
        ensures { result ≡ self.now.overflow }
    {
        self.overflow
    }

    /// A write of a live snapshot that may overflow found its store full: it is marked for that, and nothing else changes.
    pub fn mark(&mut self)
        requires live { self.old.live ≡ true }
        requires may { self.old.overflow ≡ May }
        ensures fields { self.new ≡ record self.old { overflow = Did } }
        ensures overflows { Overflows (books_of B.contents B.layers self.old) (books_of B.contents B.layers self.new) }
        ensures in_step { StaysInStep B.Block self.new }
    {
        self.overflow = Overflowing::Did;
    }
}
