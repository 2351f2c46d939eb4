// Requests at the place of a copy that is committed.
ghost use Rattle.std.specs.Prelude.{◌≡◌, ℕ, ◌+◌, ◌*◌, ◌<◌, ◌≤◌, length, is_ok, OnOk, OnErr, Some};
ghost use Rattle.sector.specs.Bytes.{sectors_at};
ghost use Rattle.device.specs.declared.operation.Operation.TheVariants.{Reads, Writes};
ghost use Rattle.cow_format.specs.Picture.{place_of as place_in};
ghost use Rattle.store.specs.Operations.{IsOneOperation};
ghost use Rattle.volume_laws.specs.Steps.{WritesPlace};
ghost use Rattle.snapshot.specs.Kept.{books_of};
ghost use Rattle.snapshot.specs.Devices.{ChangesOnlyDevice, KeepsBytes, KeepsDurable, KeepsSize, MayHoldNowIfLoud, SameOnErr, StaysAsLoud, StaysInStep};

use crate::Snapshot;
use device::{Block, Io};
use sector::Chunk;

impl<B: Block> Snapshot<B> {
    /// Writes so many sectors at the place of a committed copy, from one of its sectors on. At `Io` nothing changed but the
    /// device's counts and layers.
    pub fn write_at(&mut self, place: Chunk, first: u32, count: u32, bytes: &[u8]) -> Result<(), Io>
        requires placed { (c : ℕ) × (place_in self.old.pairs c ≡ Some place) }
        requires some { 0 < count }
        requires part { first + count ≤ self.old.state.chunk }
        requires room { length bytes.now ≡ 512 * count }

        ensures operation { IsOneOperation (Writes (self.old.state.chunk * place + first) count) (is_ok result) (B.layers self.old.device) (B.layers self.new.device) (B.fault_count self.old.device) (B.fault_count self.new.device) (B.done_count self.old.device) (B.done_count self.new.device) }
        ensures loud { StaysAsLoud B.Block self.old self.new }
        ensures writes { OnOk result ((c : ℕ) → WritesPlace c place first bytes.now (books_of B.contents B.layers self.old) (books_of B.contents B.layers self.new)) }
        ensures same { SameOnErr B.Block result self.old self.new }
        ensures durable { KeepsDurable B.Block self.old self.new }
        ensures adds { MayHoldNowIfLoud B.Block self.old self.new }
        ensures size { KeepsSize B.Block self.old self.new }
        ensures fields { ChangesOnlyDevice self.old self.new }
        ensures in_step { StaysInStep B.Block self.new }
    {
        match self.store.write_chunk(place, first, count, bytes) {
            Ok(()) => Ok(()),
            Err(io) => Err(io),
        }
    }

    /// Reads so many sectors at the place of a committed copy, from one of its sectors on. At `Io` the buffer is as it was.
    pub fn read_at(
        &mut self,
        place: Chunk,
        first: u32,
        count: u32,
        out: &mut [u8],
    ) -> Result<(), Io>
        requires placed { (c : ℕ) × (place_in self.old.pairs c ≡ Some place) }
        requires some { 0 < count }
        requires part { first + count ≤ self.old.state.chunk }
        requires room { length out.old ≡ 512 * count }

        ensures operation { IsOneOperation (Reads (self.old.state.chunk * place + first) count) (is_ok result) (B.layers self.old.device) (B.layers self.new.device) (B.fault_count self.old.device) (B.fault_count self.new.device) (B.done_count self.old.device) (B.done_count self.new.device) }
        ensures loud { StaysAsLoud B.Block self.old self.new }
        ensures data { OnOk result (out.new ≡ sectors_at (B.contents self.old.device) (self.old.state.chunk * place + first) count) }
        ensures err { OnErr result (out.new ≡ out.old) }
        ensures same { KeepsBytes B.Block self.old self.new }
        ensures durable { KeepsDurable B.Block self.old self.new }
        ensures adds { MayHoldNowIfLoud B.Block self.old self.new }
        ensures size { KeepsSize B.Block self.old self.new }
        ensures fields { ChangesOnlyDevice self.old self.new }
        ensures in_step { StaysInStep B.Block self.new }
    {
        match self.store.read_chunk(place, first, count, out) {
            Ok(()) => Ok(()),
            Err(io) => Err(io),
        }
    }
}
