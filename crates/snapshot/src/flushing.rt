// The store is flushed: what was written to it counts as written, and what was committed may be published; or the mark that
// it is invalid was tried.
ghost use Rattle.std.specs.Prelude.{◌≡◌, length, map, not, is_ok, OnOk, true, false};
ghost use Rattle.device.specs.declared.operation.Operation.TheVariants.{Flushes};
ghost use Rattle.in_flight.specs.Flushed.{flushed_copy, safe_mark};
ghost use Rattle.store.specs.Operations.{IsOneOperation};
ghost use Rattle.volume_laws.specs.Steps.{FlushesStore, TriesMark};
ghost use Rattle.snapshot.specs.Kept.{books_of};
ghost use Rattle.snapshot.specs.Devices.{FirmOnOk, IsFlushed, IsZeroedIfFirm, KeepsBytes, KeepsRoom, KeepsSize, KeptOnErr, MayHoldNowIfLoud, StaysAsLoud, StaysInStep};

use crate::Snapshot;
use device::{Block, Io};
use in_flight::{ChunkCopy, Mark, flush_copies, flush_marks};

impl<B: Block> Snapshot<B> {
    /// Flushes the store of a live snapshot, as an event or for a request: the copies that are written may be committed,
    /// those that are committed may be published, an area that is zeroed is firm, and all pairs that are committed were
    /// flushed. At `Io` nothing changed but the device's counts and layers.
    pub fn flush_store(&mut self) -> Result<(), Io>
        requires live { self.old.live ≡ true }

        ensures operation { IsOneOperation Flushes (is_ok result) (B.layers self.old.device) (B.layers self.new.device) (B.fault_count self.old.device) (B.fault_count self.new.device) (B.done_count self.old.device) (B.done_count self.new.device) }
        ensures loud { StaysAsLoud B.Block self.old self.new }
        ensures contents { KeepsBytes B.Block self.old self.new }
        ensures durable { IsFlushed B.Block self.old self.new }
        ensures adds { MayHoldNowIfLoud B.Block self.old self.new }
        ensures firm { FirmOnOk B.Block result self.old self.new }
        ensures size { KeepsSize B.Block self.old self.new }

        ensures fields { OnOk result (self.new ≡ record self.old { device = self.new.device; state = record self.old.state { firm = self.old.state.zeroed; sure = length self.old.pairs }; copies = map flushed_copy self.old.copies; marks = map safe_mark self.old.marks }) }
        ensures ahead { IsZeroedIfFirm self.old.state }
        ensures flushes { OnOk result (FlushesStore (books_of B.contents B.layers self.old) (books_of B.contents B.layers self.new)) }
        ensures kept { KeptOnErr result self.old self.new }
        ensures in_step { StaysInStep B.Block self.new }
    {
        match self.store.flush() {
            Ok(()) => {
                flush_lists(&mut self.copies, &mut self.marks);
                Ok(())
            }
            Err(io) => Err(io),
        }
    }

    /// Flushes the store of a spoiled snapshot whose mark was written: whatever becomes of it, the mark was tried. At `Io`
    /// the store is stale.
    pub fn flush_mark(&mut self) -> Result<(), Io>
        requires untried { self.old.untried ≡ true }
        requires marked { self.old.marked ≡ true }

        ensures operation { IsOneOperation Flushes (is_ok result) (B.layers self.old.device) (B.layers self.new.device) (B.fault_count self.old.device) (B.fault_count self.new.device) (B.done_count self.old.device) (B.done_count self.new.device) }
        ensures loud { StaysAsLoud B.Block self.old self.new }
        ensures contents { KeepsBytes B.Block self.old self.new }
        ensures durable { IsFlushed B.Block self.old self.new }
        ensures adds { MayHoldNowIfLoud B.Block self.old self.new }
        ensures firm { FirmOnOk B.Block result self.old self.new }
        ensures size { KeepsSize B.Block self.old self.new }

        ensures fields { self.new ≡ record self.old { device = self.new.device; untried = false; stale = not (is_ok result) } }
        ensures tries { TriesMark (books_of B.contents B.layers self.old) (books_of B.contents B.layers self.new) }
        ensures in_step { StaysInStep B.Block self.new }
    {
        self.untried = false;
        match self.store.flush_last() {
            Ok(()) => Ok(()),
            Err(io) => {
                self.stale = true;
                Err(io)
            }
        }
    }
}

/// The copies that are written are flushed, and the marks are safe.
fn flush_lists(copies: &mut Vec<ChunkCopy>, marks: &mut Vec<Mark>)
    ensures copies { copies.new.items ≡ map flushed_copy copies.old.items }
    ensures marks { marks.new.items ≡ map safe_mark marks.old.items }
    ensures copies_capacity { KeepsRoom copies.old copies.new }
    ensures marks_capacity { KeepsRoom marks.old marks.new }
{
    flush_copies(copies.as_mut_slice());
    flush_marks(marks.as_mut_slice());
}
