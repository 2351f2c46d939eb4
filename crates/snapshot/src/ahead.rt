// A snapshot does an operation of its store's device ahead.
ghost use Rattle.std.specs.Prelude.{◌≡◌, ℕ, false, true};
ghost use Rattle.device.specs.CanDoAhead.{CanDoAhead, IsWrite};
ghost use Rattle.device.specs.Layers.{fate, is_answered};
ghost use Rattle.device.specs.declared.operation.Operation.TheVariants.{Writes};
ghost use Rattle.snapshot.specs.Devices.{ChangesOnlyDevice, IsDoneAhead};

use crate::Snapshot;
use device::{Ahead, Operation};

impl<B: Ahead> Snapshot<B> {
    /// Does an operation of its store's device ahead, and says whether it will be answered. Nothing else changes.
    /// A mark that is not tried has not failed.
    pub fn ahead(&mut self, operation: Operation) -> bool
        ensures told { CanDoAhead (B.size self.old.device) operation → result ≡ is_answered (fate (B.layers self.new.device) operation) }
        ensures writes { (first count : ℕ) → IsWrite operation → result ≡ is_answered (fate (B.layers self.new.device) (Writes first count)) }
        ensures sure { CanDoAhead (B.size self.old.device) operation → B.unanswered self.new.device ≡ false → result ≡ true }
        ensures does { IsDoneAhead B.Block self.old self.new }
        ensures same { ChangesOnlyDevice self.old self.new }
        ensures fresh { self.old.untried ≡ true → self.old.stale ≡ false }
    {
        self.store.ahead(operation)
    }
}
