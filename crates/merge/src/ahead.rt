// A merge does an operation of its store's device ahead.
ghost use Rattle.std.specs.Prelude.{◌≡◌, ℕ, false, true};
ghost use Rattle.device.specs.CanDoAhead.{CanDoAhead, IsWrite};
ghost use Rattle.device.specs.Layers.{fate, is_answered};
ghost use Rattle.device.specs.declared.operation.Operation.TheVariants.{Writes};
ghost use Rattle.merge.specs.Devices.{ChangesOnlyDevice, IsDoneAhead};

use crate::Merge;
use device::{Ahead, Operation};

impl<B: Ahead> Merge<B> {
    /// The number of the current area of its store.
    pub fn current_area(&self) -> u64
        ensures { result ≡ self.now.state.current }
    {
        self.store.state.current
    }

    /// Does an operation of its store's device ahead, and says whether it will be answered. Nothing else changes.
    pub fn ahead(&mut self, operation: Operation) -> bool
        ensures told { CanDoAhead (B.size self.old.device) operation → result ≡ is_answered (fate (B.layers self.new.device) operation) }
        ensures writes { (first count : ℕ) → IsWrite operation → result ≡ is_answered (fate (B.layers self.new.device) (Writes first count)) }
        ensures sure { CanDoAhead (B.size self.old.device) operation → B.unanswered self.new.device ≡ false → result ≡ true }
        ensures does { IsDoneAhead B.Block self.old self.new }
        ensures same { ChangesOnlyDevice self.old self.new }
    {
        self.store.ahead(operation)
    }
}
