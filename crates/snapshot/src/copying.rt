// One copy is read from the origin disk, and written to its place.
ghost use Rattle.std.specs.Prelude.{◌≡◌, ◌*◌, ◌<◌, length, slice_index_or, is_ok, OnOk, OnErr, true, vec_capacity};
ghost use Rattle.sector.specs.Bytes.{sectors_at};
ghost use Rattle.device.specs.declared.operation.Operation.TheVariants.{Reads, Writes};
ghost use Rattle.in_flight.specs.Copies.{count_of};
ghost use Rattle.in_flight.specs.declared.copies.ChunkCopy.{ChunkCopy};
ghost use Rattle.in_flight.specs.declared.copies.Stage.TheVariants.{Read};
ghost use Rattle.store.specs.Operations.{IsOneOperation};
ghost use Rattle.snapshot.specs.Calls.{GoesTo, ReadsAt, StaysAt, WritesAt};
ghost use Rattle.snapshot.specs.Devices.{KeepsDurable, KeepsSize, KeptOnErr, MayHoldNowIfLoud, SameOnErr, StaysAsLoud, StaysInStep};
ghost use Rattle.store.specs.Devices.{AddsNowIfLoud, IsAsLoud, Keeps};

use crate::Snapshot;
use device::{Block, Io};
use in_flight::{ChunkCopy, Stage, sectors_of};
use sector::Range;

impl<B: Block> Snapshot<B> {
    /// Reads the chunk of a copy, counted from 0, from the origin disk into its buffer. At `Io` the copy is as it was.
    pub fn read_copy(&mut self, origin: &mut B, index: usize) -> Result<(), Io>
        requires within { index < length self.old.copies }
        requires sectors { B.size origin.old ≡ self.old.state.origin }

        ensures operation { (p : ChunkCopy) → p ≡ slice_index_or self.old.copies index p → IsOneOperation (Reads (self.old.state.chunk * p.pair.old) (count_of self.old.state.chunk self.old.state.origin p.pair.old)) (is_ok result) (B.layers origin.old) (B.layers origin.new) (B.fault_count origin.old) (B.fault_count origin.new) (B.done_count origin.old) (B.done_count origin.new) }
        ensures contents { Keeps B.contents origin.old origin.new }
        ensures durable { Keeps B.durable origin.old origin.new }
        ensures adds { AddsNowIfLoud B.Block origin.old origin.new }
        ensures size { Keeps B.size origin.old origin.new }
        ensures loud { IsAsLoud B.layers origin.old origin.new }

        ensures read { OnOk result ((p : ChunkCopy) × (q : ChunkCopy) × ReadsAt B.contents B.layers (B.contents origin.old) index p q self.old self.new) }
        ensures kept { OnErr result ((p : ChunkCopy) × (q : ChunkCopy) × StaysAt index p q self.old self.new) }
    {
        let size = self.store.state.origin;
        let chunk = self.store.state.chunk;
        let copy = &mut self.copies[index];
        match fill(origin, size, chunk, copy) {
            Ok(()) => {}
            Err(io) => return Err(io),
        }
        Ok(())
    }

    /// Writes a copy that was read, counted from 0, to its place. At `Io` nothing changed but the device's counts and
    /// layers.
    pub fn write_copy(&mut self, index: usize) -> Result<(), Io>
        requires live { self.old.live ≡ true }
        requires within { index < length self.old.copies }
        requires read { (d : ChunkCopy) → (slice_index_or self.old.copies index d).stage ≡ Read }

        ensures operation { (p : ChunkCopy) → p ≡ slice_index_or self.old.copies index p → IsOneOperation (Writes (self.old.state.chunk * p.pair.new) (count_of self.old.state.chunk self.old.state.origin p.pair.old)) (is_ok result) (B.layers self.old.device) (B.layers self.new.device) (B.fault_count self.old.device) (B.fault_count self.new.device) (B.done_count self.old.device) (B.done_count self.new.device) }
        ensures loud { StaysAsLoud B.Block self.old self.new }
        ensures same { SameOnErr B.Block result self.old self.new }
        ensures durable { KeepsDurable B.Block self.old self.new }
        ensures adds { MayHoldNowIfLoud B.Block self.old self.new }
        ensures size { KeepsSize B.Block self.old self.new }

        ensures wrote { OnOk result ((p : ChunkCopy) × (q : ChunkCopy) × WritesAt B.contents B.layers index p q self.old self.new) }
        ensures kept { KeptOnErr result self.old self.new }
        ensures in_step { StaysInStep B.Block self.new }
    {
        let copy = &self.copies[index];
        let count = sectors_of(
            self.store.state.chunk,
            self.store.state.origin,
            copy.pair.old,
        );
        let place = copy.pair.new;
        let bytes = copy.buffer.as_slice();
        match self.store.write_chunk(place, 0, count, bytes) {
            Ok(()) => {
                self.copies[index].stage = Stage::Written;
                Ok(())
            }
            Err(io) => Err(io),
        }
    }
}

/// Reads the chunk of a copy from the origin disk, which has so many sectors, into its buffer. At `Io` the copy is
/// as it was.
fn fill<B: Block>(origin: &mut B, size: u64, chunk: u32, copy: &mut ChunkCopy) -> Result<(), Io>
    requires size { size ≡ B.size origin.old }
    requires some { 0 < chunk }
    requires begins { chunk * copy.old.pair.old < B.size origin.old }
    requires whole { length copy.old.buffer.items ≡ 512 * count_of chunk (B.size origin.old) copy.old.pair.old }

    ensures operation { IsOneOperation (Reads (chunk * copy.old.pair.old) (count_of chunk (B.size origin.old) copy.old.pair.old)) (is_ok result) (B.layers origin.old) (B.layers origin.new) (B.fault_count origin.old) (B.fault_count origin.new) (B.done_count origin.old) (B.done_count origin.new) }
    ensures contents { Keeps B.contents origin.old origin.new }
    ensures durable { Keeps B.durable origin.old origin.new }
    ensures adds { AddsNowIfLoud B.Block origin.old origin.new }
    ensures size { Keeps B.size origin.old origin.new }

    ensures room { length copy.new.buffer.items ≡ length copy.old.buffer.items }
    ensures capacity { vec_capacity copy.new.buffer ≡ vec_capacity copy.old.buffer }
    ensures read { OnOk result (GoesTo Read (sectors_at (B.contents origin.old) (chunk * copy.old.pair.old) (count_of chunk (B.size origin.old) copy.old.pair.old)) copy.old copy.new) }
    ensures kept { OnErr result (GoesTo copy.old.stage copy.old.buffer.items copy.old copy.new) }
{
    let count = sectors_of(chunk, size, copy.pair.old);
    let range = Range {
        first: chunk as u64 * copy.pair.old,
        count,
        size,
    };
    match origin.read(range, copy.buffer.as_mut_slice()) {
        Ok(()) => {
            copy.stage = Stage::Read;
            Ok(())
        }
        Err(io) => Err(io),
    }
}
