// A snapshot is spoiled, and its store's header is marked invalid.
ghost use Rattle.std.specs.Prelude.{◌≡◌, ◌*◌, [], is_ok, OnOk, OnErr, IsTrue, None, true, false};
ghost use Rattle.sector.specs.Bytes.{with_sectors};
ghost use Rattle.device.specs.declared.operation.Operation.TheVariants.{Writes};
ghost use Rattle.device.specs.Layers.{is_loud};
ghost use Rattle.cow_format.specs.Places.{ChangesOnly};
ghost use Rattle.cow_header.specs.HeaderText.{header_bytes};
ghost use Rattle.store.specs.Operations.{IsOneOperation};
ghost use Rattle.volume_laws.specs.Steps.{SpoilsSnap, TriesMark, WritesMark};
ghost use Rattle.snapshot.specs.Kept.{books_of};
ghost use Rattle.snapshot.specs.Devices.{KeepsDurable, KeepsSize, MayHoldNowIfLoud, SameOnErr, StaysAsLoud, StaysInStep};

use crate::Snapshot;
use device::{Block, Io};

impl<B: Block> Snapshot<B> {
    /// Spoils a live snapshot: it shows nothing from then on, and has no copies and no marks. Its store's header is to be
    /// marked invalid.
    pub fn spoil(&mut self)
        requires live { self.old.live ≡ true }
        ensures fields { self.new ≡ record self.old { live = false; untried = true; state = record self.old.state { copying = false }; begun = []; copies = []; marks = []; kept_back = 0; spare = false; merging = None } }
        ensures spoils { SpoilsSnap (books_of B.contents B.layers self.old) (books_of B.contents B.layers self.new) }
        ensures in_step { StaysInStep B.Block self.new }
    {
        self.live = false;
        self.untried = true;
        self.store.drop_copies();
        self.copies.clear();
        self.marks.clear();
        self.left += self.kept_back;
        self.kept_back = 0;
        self.spare = None;
        self.merging = None;
    }

    /// Marks the header of a spoiled snapshot's store invalid. It is tried once: at `Io` the store is stale, and nothing of
    /// it changed but the device's counts and layers; else it counts as tried once the store is flushed.
    pub fn write_invalid(&mut self) -> Result<(), Io>
        requires untried { self.old.untried ≡ true }
        requires unmarked { self.old.marked ≡ false }

        ensures operation { IsOneOperation (Writes 0 self.old.state.chunk) (is_ok result) (B.layers self.old.device) (B.layers self.new.device) (B.fault_count self.old.device) (B.fault_count self.new.device) (B.done_count self.old.device) (B.done_count self.new.device) }
        ensures loud { StaysAsLoud B.Block self.old self.new }
        ensures written { OnOk result (IsTrue (is_loud (B.layers self.old.device)) → B.contents self.new.device ≡ with_sectors (B.contents self.old.device) 0 (header_bytes (512 * self.old.state.chunk) false self.old.state.chunk)) }
        ensures same { SameOnErr B.Block result self.old self.new }
        ensures only { ChangesOnly self.old.state.chunk 0 (B.contents self.old.device) (B.contents self.new.device) }
        ensures durable { KeepsDurable B.Block self.old self.new }
        ensures adds { MayHoldNowIfLoud B.Block self.old self.new }
        ensures size { KeepsSize B.Block self.old self.new }

        ensures fields { OnOk result (self.new ≡ record self.old { device = self.new.device; marked = true; state = record self.old.state { valid = false } }) }
        ensures writes { OnOk result (WritesMark (books_of B.contents B.layers self.old) (books_of B.contents B.layers self.new)) }
        ensures fails { OnErr result (self.new ≡ record self.old { device = self.new.device; untried = false; stale = true }) }
        ensures tries { OnErr result (TriesMark (books_of B.contents B.layers self.old) (books_of B.contents B.layers self.new)) }
        ensures in_step { StaysInStep B.Block self.new }
    {
        match self.store.write_invalid() {
            Ok(()) => {
                self.marked = true;
                Ok(())
            }
            Err(io) => {
                self.untried = false;
                self.stale = true;
                Err(io)
            }
        }
    }
}
