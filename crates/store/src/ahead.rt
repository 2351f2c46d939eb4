// A store does an operation of its device ahead.
ghost use Rattle.std.specs.Prelude.{◌≡◌, ℕ, false, true};
ghost use Rattle.device.specs.CanDoAhead.{CanDoAhead, IsWrite};
ghost use Rattle.device.specs.Layers.{fate, is_answered};
ghost use Rattle.device.specs.declared.operation.Operation.TheVariants.{Writes};
ghost use Rattle.store.specs.Calls.{Foretold, IsDoneAhead, KeepsExceptions, KeepsState};

use crate::Store;
use device::{Ahead, Operation, do_ahead};

impl<B: Ahead> Store<B> {
    /// Does an operation of its device ahead, and says whether it will be answered. Nothing else changes.
    pub fn ahead(&mut self, operation: Operation) -> bool
        ensures told { Foretold operation result self.old self.new }
        ensures writes { (first count : ℕ) → IsWrite operation → result ≡ is_answered (fate (B.layers self.new.device) (Writes first count)) }
        ensures sure { CanDoAhead (B.size self.old.device) operation → B.unanswered self.new.device ≡ false → result ≡ true }
        ensures does { IsDoneAhead self.old self.new }
        ensures state { KeepsState self.old self.new }
        ensures exceptions { KeepsExceptions self.old self.new }
        ensures places { self.new.places ≡ self.old.places }
    {
        do_ahead(&mut self.device, operation)
    }
}
