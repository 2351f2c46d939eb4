// A device that does an operation before it is asked for it, so that its answer is known then.
ghost use Rattle.std.specs.Prelude.{◌≡◌, ℕ, ◌+◌, ◌<◌, ◌≤◌, Bool, true, false, IfOk, OnOk};
ghost use Rattle.device.specs.Ahead.{IsAhead, PassesBeside};
ghost use Rattle.device.specs.Layers.{fate, is_answered};
ghost use Rattle.device.specs.declared.operation.Operation.TheVariants.{Reads, Writes, Flushes};

use crate::Block;
use sector::Range;
use std::alloc::{AllocError, Global};

/// A device over a file: whether a read passes, or a flush, is known once it was done ahead. A write is done within `write`, and
/// counts as done there; where the file did not answer it, every later operation fails. While the file answers every call, all that is
/// done ahead passes.
pub trait Ahead: Block {
    /// Whether the file left unanswered what was answered here: a write, or a sync within `flush`.
    ghost failed: { Self → Bool };

    /// Whether the file left any call unanswered, a read too.
    ghost unanswered: { Self → Bool };

    /// Whether the file left unanswered what was answered here: a write, or a sync within `flush`.
    fn is_failed(&self) -> bool
        ensures { result ≡ failed self.now };

    /// Reads sectors ahead, and says whether it could: then reads within them pass up to the next write, and no others do.
    fn read_ahead(&mut self, range: Range) -> bool
        requires some { 0 < range.count }
        requires few { range.count ≤ 1024 }
        requires inside { range.first + range.count ≤ Self.size self.old }
        ensures told { result ≡ is_answered (fate (Self.layers self.new) (Reads range.first range.count)) }
        ensures sure { unanswered self.new ≡ false → result ≡ true }
        ensures does { IsAhead Self.may_hold Self.contents Self.layers Self.size Self.fault_count Self.done_count self.old self.new };

    /// Reads more sectors ahead, beside those that were, and says whether it could. If they overlap with some that were, those are
    /// let go.
    fn read_more(&mut self, alloc: Global, range: Range) -> Result<bool, AllocError>
        requires some { 0 < range.count }
        requires inside { range.first + range.count ≤ Self.size self.old }
        ensures told { IfOk result (λ b. b ≡ is_answered (fate (Self.layers self.new) (Reads range.first range.count))) }
        ensures sure { IfOk result (λ b. unanswered self.new ≡ false → b ≡ true) }
        ensures beside { IfOk result (λ b. b ≡ true → PassesBeside (Self.layers self.old) (Self.layers self.new) range.first range.count) }
        ensures does { IsAhead Self.may_hold Self.contents Self.layers Self.size Self.fault_count Self.done_count self.old self.new };

    /// Syncs the file ahead, and says whether it could: then a flush that comes before the next write needs no sync. Else every
    /// operation fails from then on.
    fn sync_ahead(&mut self) -> bool
        ensures told { result ≡ is_answered (fate (Self.layers self.new) Flushes) }
        ensures sure { unanswered self.new ≡ false → result ≡ true }
        ensures does { IsAhead Self.may_hold Self.contents Self.layers Self.size Self.fault_count Self.done_count self.old self.new };

    /// Says whether writes pass: from the first on that the file left unanswered none does.
    fn write_ahead(&mut self) -> bool
        ensures told { (first count : ℕ) → result ≡ is_answered (fate (Self.layers self.new) (Writes first count)) }
        ensures sure { unanswered self.new ≡ false → result ≡ true }
        ensures does { IsAhead Self.may_hold Self.contents Self.layers Self.size Self.fault_count Self.done_count self.old self.new };
}
