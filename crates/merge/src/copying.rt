// The chunks of the group are copied back one after the other, and the origin disk is flushed.
ghost use Rattle.std.specs.Prelude.{◌≡◌, ◌+◌, ◌*◌, ◌^◌, ◌<◌, ◌&&◌, Bool, length, take, is_ok, OnOk, OnErr, Some, IsSome, IsTrue, true, false, if◌then◌else◌};
ghost use Rattle.sector.specs.Bytes.{sectors_at, with_sectors, with_part};
ghost use Rattle.sector.specs.declared.pair.Pair.{Pair};
ghost use Rattle.device.specs.declared.operation.Operation.TheVariants.{Reads, Writes, Flushes};
ghost use Rattle.device.specs.Bare.{can_copy_run, count_after};
ghost use Rattle.device.specs.Layers.{fate, is_passed, is_loud};
ghost use Rattle.cow_format.specs.Pairs.{IsInside};
ghost use Rattle.in_flight.specs.Copies.{count_of};
ghost use Rattle.store.specs.Held.{pending};
ghost use Rattle.store.specs.Operations.{IsOneOperation};
ghost use Rattle.merge.specs.Due.{next_read_of, full_of, can_flush_of, can_copy_of};
ghost use Rattle.merge.specs.Lists.{waiting_of, changed, taken_in, written_in, flushed_in, copied_in};
ghost use Rattle.merge.specs.Merging.{books_of, due_of};
ghost use Rattle.volume_laws.specs.Steps.{WritesDisk};
ghost use Rattle.volume_laws.specs.MergeSteps.{ReadsBack, WritesBack, FlushesBack};
ghost use Rattle.merge.specs.declared.group.Group.{Group};
ghost use Rattle.merge.specs.Steps.{ReadsInto, WritesOrigin, IsWaiting};
ghost use Rattle.crash_laws.specs.Firm.{AddsNow, IsFirm};
ghost use Rattle.merge.specs.Devices.{ChangesOnlyDevice, FirmOnOk, IsFlushed, KeepsBytes, KeepsDurable, KeepsSize, KeptOnErr, MayHoldNowIfLoud, StaysAsLoud};
ghost use Rattle.store.specs.Calls.{KeepsExceptions};
ghost use Rattle.store.specs.Devices.{AddsNowIfLoud, IsAsLoud, Keeps};

use crate::group::is_copyable;
use crate::{Group, Merge, Progress};
use device::{Block, Io};
use in_flight::sectors_of;
use sector::{Chunk, Pair, Range, SECTOR_BYTES};
use store::Store;

impl<B: Block> Merge<B> {
    /// Reads the chunk of the last pair that waits from its place into the buffer, as many sectors as the origin has there.
    /// At `Io` nothing changed but the device's counts and layers.
    pub fn read_chunk(&mut self) -> Result<(), Io>
        requires due { IsSome (next_read_of self.old.group) }

        ensures operation { (q : Pair) → next_read_of self.old.group ≡ Some q → IsOneOperation (Reads (self.old.state.chunk * q.new) (count_of self.old.state.chunk self.old.state.origin q.old)) (is_ok result) (B.layers self.old.device) (B.layers self.new.device) (B.fault_count self.old.device) (B.fault_count self.new.device) (B.done_count self.old.device) (B.done_count self.new.device) }
        ensures loud { StaysAsLoud B.Block self.old self.new }
        ensures same { KeepsBytes B.Block self.old self.new }
        ensures durable { KeepsDurable B.Block self.old self.new }
        ensures adds { MayHoldNowIfLoud B.Block self.old self.new }
        ensures size { KeepsSize B.Block self.old self.new }

        ensures fields { (q : Pair) → next_read_of self.old.group ≡ Some q → OnOk result (self.new ≡ record self.old { device = self.new.device; group = changed taken_in self.old.group; buffer = with_part self.old.buffer 0 (sectors_at (B.contents self.old.device) (self.old.state.chunk * q.new) (count_of self.old.state.chunk self.old.state.origin q.old)) }) }
        ensures step { (q : Pair) → next_read_of self.old.group ≡ Some q → OnOk result ((loud : Bool) → ReadsBack (waiting_of self.new.group) q self.new.buffer (due_of B.contents loud self.old) (due_of B.contents loud self.new) × ReadsInto q (books_of B.contents loud self.old) (books_of B.contents loud self.new)) }
        ensures kept { KeptOnErr result self.old self.new }
    {
        let Some(pair) = self.next_read() else {
            unreachable!()
        };
        match fetch(&mut self.store, self.buffer.as_mut_slice(), pair) {
            Ok(()) => {
                take_last(&mut self.group);
                Ok(())
            }
            Err(io) => Err(io),
        }
    }

    /// Writes the chunk in the buffer to its place on the origin disk, as many sectors as the origin has there. At `Io`
    /// nothing changed but that disk's counts and layers.
    pub fn write_chunk(&mut self, origin: &mut B) -> Result<(), Io>
        requires due { IsSome (full_of self.old.group) }
        requires sectors { B.size origin.old ≡ self.old.state.origin }

        ensures operation { (q : Pair) → full_of self.old.group ≡ Some q → IsOneOperation (Writes (self.old.state.chunk * q.old) (count_of self.old.state.chunk self.old.state.origin q.old)) (is_ok result) (B.layers origin.old) (B.layers origin.new) (B.fault_count origin.old) (B.fault_count origin.new) (B.done_count origin.old) (B.done_count origin.new) }
        ensures loud { IsAsLoud B.layers origin.old origin.new }
        ensures written { (q : Pair) → full_of self.old.group ≡ Some q → OnOk result (IsTrue (is_loud (B.layers origin.old)) → B.contents origin.new ≡ with_sectors (B.contents origin.old) (self.old.state.chunk * q.old) (take (512 * count_of self.old.state.chunk self.old.state.origin q.old) self.old.buffer)) }
        ensures same { OnErr result (B.contents origin.new ≡ B.contents origin.old) }
        ensures durable { Keeps B.durable origin.old origin.new }
        ensures adds { AddsNowIfLoud B.Block origin.old origin.new }
        ensures size { Keeps B.size origin.old origin.new }

        ensures fields { OnOk result (self.new ≡ record self.old { group = changed written_in self.old.group }) }
        ensures step { (q : Pair) → full_of self.old.group ≡ Some q → OnOk result ((loud : Bool) → (loud ≡ true → is_loud (B.layers origin.old) ≡ true) → WritesBack q (due_of B.contents loud self.old) (due_of B.contents loud self.new) × WritesOrigin q (B.contents origin.old) (B.contents origin.new) (books_of B.contents loud self.old)) }
        ensures kept { OnErr result (self.new ≡ self.old) }
    {
        let Some(pair) = self.full() else {
            unreachable!()
        };
        let size = self.store.state.origin;
        let chunk = self.store.state.chunk;
        match put_back(origin, size, chunk, pair.old, self.buffer.as_slice()) {
            Ok(()) => {
                count_copied(&mut self.group);
                Ok(())
            }
            Err(io) => Err(io),
        }
    }

    /// Copies the chunks of all pairs that wait back to the origin disk, as their reads and writes would, one after another, from
    /// the last on. It does so where at least two wait, no chunk is in the buffer, each lies whole on the origin, devices of this kind
    /// copy runs, and no layer stands above either of the two; else nothing changes, and it answers `false`.
    pub fn copy_chunks(&mut self, origin: &mut B) -> bool
        requires sectors { B.size origin.old ≡ self.old.state.origin }

        ensures answer { result ≡ (can_copy_of self.old.group self.old.state.chunk self.old.state.origin && can_copy_run B.copies_runs (B.layers origin.old) (B.layers self.old.device)) }
        ensures undone { result ≡ false → (origin.new ≡ origin.old) × (self.new ≡ self.old) }
        ensures waits { result ≡ true → (g : Group) → self.old.group ≡ Some g → IsWaiting g self.old }
        ensures copied { result ≡ true → (g : Group) → self.old.group ≡ Some g → B.contents origin.new ≡ with_sectors (B.contents origin.old) (self.old.state.chunk * g.first.old) (sectors_at (B.contents self.old.device) (self.old.state.chunk * g.first.new) (self.old.state.chunk * g.waiting)) }
        ensures fields { result ≡ true → (g : Group) → self.old.group ≡ Some g → self.new ≡ record self.old { device = self.new.device; group = Some (copied_in g); buffer = sectors_at (B.contents self.old.device) (self.old.state.chunk * g.first.new) self.old.state.chunk } }
        ensures same { KeepsBytes B.Block self.old self.new }
        ensures layers { (B.layers origin.new ≡ B.layers origin.old) × (B.layers self.new.device ≡ B.layers self.old.device) }
        ensures durable { (B.durable origin.new ≡ B.durable origin.old) × (B.durable self.new.device ≡ B.durable self.old.device) }
        ensures size { (B.size origin.new ≡ B.size origin.old) × (B.size self.new.device ≡ B.size self.old.device) }
        ensures faults { (B.fault_count origin.new ≡ B.fault_count origin.old) × (B.fault_count self.new.device ≡ B.fault_count self.old.device) }
        ensures done { result ≡ true → (g : Group) → self.old.group ≡ Some g → (B.done_count origin.new ≡ count_after (B.done_count origin.old) g.waiting) × (B.done_count self.new.device ≡ count_after (B.done_count self.old.device) g.waiting) }
    {
        let Some(group) = self.group else {
            return false;
        };
        let chunk = self.store.state.chunk;
        let size = self.store.state.origin;
        if !is_copyable(group, chunk, size) {
            return false;
        }
        let to = Range {
            first: chunk as u64 * group.first.old,
            count: chunk * group.waiting,
            size,
        };
        let reads = group.waiting - 1;
        if !self
            .store
            .copy_to(origin, to, group.first.new, reads, group.waiting)
        {
            return false;
        }
        // The first pair's chunk is the last to be read, and stays in the buffer.
        match fetch(&mut self.store, self.buffer.as_mut_slice(), group.first) {
            Ok(()) => {}
            Err(Io) => unreachable!(),
        }
        count_all(&mut self.group);
        true
    }

    /// Flushes the origin disk, to which all chunks of the group are copied. At `Io` nothing changed but that disk's counts
    /// and layers.
    pub fn flush(&mut self, origin: &mut B) -> Result<(), Io>
        requires due { can_flush_of self.old.group ≡ true }

        ensures operation { IsOneOperation Flushes (is_ok result) (B.layers origin.old) (B.layers origin.new) (B.fault_count origin.old) (B.fault_count origin.new) (B.done_count origin.old) (B.done_count origin.new) }
        ensures loud { IsAsLoud B.layers origin.old origin.new }
        ensures same { B.contents origin.new ≡ B.contents origin.old }
        ensures durable { B.durable origin.new ≡ (if is_passed (fate (B.layers origin.old) Flushes) then B.contents origin.old else B.durable origin.old) }
        ensures adds { AddsNowIfLoud B.Block origin.old origin.new }
        ensures firm { OnOk result (IsTrue (is_loud (B.layers origin.old)) → IsFirm (B.may_hold origin.new) (B.contents origin.new) (B.size origin.new)) }
        ensures size { Keeps B.size origin.old origin.new }

        ensures fields { OnOk result (self.new ≡ record self.old { group = changed flushed_in self.old.group }) }
        ensures step { OnOk result ((loud : Bool) → FlushesBack (due_of B.contents loud self.old) (due_of B.contents loud self.new)) }
        ensures kept { OnErr result (self.new ≡ self.old) }
    {
        match origin.flush() {
            Ok(()) => {
                mark_flushed(&mut self.group);
                Ok(())
            }
            Err(io) => Err(io),
        }
    }

    /// Flushes the store, for a Flush of the origin: what was written to its places and its areas lasts. Of the merge nothing
    /// changes, and at `Io` nothing but the device's counts and layers.
    pub fn flush_store(&mut self) -> Result<(), Io>
        ensures operation { IsOneOperation Flushes (is_ok result) (B.layers self.old.device) (B.layers self.new.device) (B.fault_count self.old.device) (B.fault_count self.new.device) (B.done_count self.old.device) (B.done_count self.new.device) }
        ensures loud { StaysAsLoud B.Block self.old self.new }
        ensures same { KeepsBytes B.Block self.old self.new }
        ensures durable { IsFlushed B.Block self.old self.new }
        ensures adds { MayHoldNowIfLoud B.Block self.old self.new }
        ensures firm { FirmOnOk B.Block result self.old self.new }
        ensures size { KeepsSize B.Block self.old self.new }
        ensures fields { ChangesOnlyDevice self.old self.new }
        ensures books { (loud : Bool) → due_of B.contents loud self.new ≡ due_of B.contents loud self.old }
    {
        self.store.flush_last()
    }
}

/// Reads the chunk of a pair from its place on the store into the front of a buffer of a chunk, as many sectors as the
/// origin has there. At `Io` the buffer is as it was.
fn fetch<B: Block>(store: &mut Store<B>, buffer: &mut [u8], pair: Pair) -> Result<(), Io>
    requires inside { IsInside store.old.state.chunk store.old.state.origin store.old.state.size pair }
    requires room { length buffer.old ≡ 512 * store.old.state.chunk }

    ensures operation { IsOneOperation (Reads (store.old.state.chunk * pair.new) (count_of store.old.state.chunk store.old.state.origin pair.old)) (is_ok result) (B.layers store.old.device) (B.layers store.new.device) (B.fault_count store.old.device) (B.fault_count store.new.device) (B.done_count store.old.device) (B.done_count store.new.device) }
    ensures data { OnOk result (buffer.new ≡ with_part buffer.old 0 (sectors_at (B.contents store.old.device) (store.old.state.chunk * pair.new) (count_of store.old.state.chunk store.old.state.origin pair.old))) }
    ensures err { OnErr result (buffer.new ≡ buffer.old) }
    ensures same { B.contents store.new.device ≡ B.contents store.old.device }
    ensures loud { is_loud (B.layers store.new.device) ≡ is_loud (B.layers store.old.device) }
    ensures durable { B.durable store.new.device ≡ B.durable store.old.device }
    ensures adds { IsTrue (is_loud (B.layers store.old.device)) → AddsNow (B.may_hold store.old.device) (B.may_hold store.new.device) (B.contents store.new.device) }
    ensures size { B.size store.new.device ≡ B.size store.old.device }

    ensures exceptions { KeepsExceptions store.old store.new }
    ensures places { store.new.places ≡ store.old.places }
    ensures state { store.new.state ≡ store.old.state }
{
    let count = sectors_of(store.state.chunk, store.state.origin, pair.old);
    store.read_chunk(
        pair.new,
        0,
        count,
        &mut buffer[..SECTOR_BYTES * count as usize],
    )
}

/// Writes the front of a buffer of a chunk to its place on the origin disk, which has so many sectors: as many as it has
/// there.
fn put_back<B: Block>(
    origin: &mut B,
    size: u64,
    chunk: u32,
    old: Chunk,
    buffer: &[u8],
) -> Result<(), Io>
    requires size { size ≡ B.size origin.old }
    requires some { 0 < chunk }
    requires begins { chunk * old < B.size origin.old }
    requires room { length buffer.now ≡ 512 * chunk }

    ensures operation { IsOneOperation (Writes (chunk * old) (count_of chunk (B.size origin.old) old)) (is_ok result) (B.layers origin.old) (B.layers origin.new) (B.fault_count origin.old) (B.fault_count origin.new) (B.done_count origin.old) (B.done_count origin.new) }
    ensures loud { IsAsLoud B.layers origin.old origin.new }
    ensures written { OnOk result (IsTrue (is_loud (B.layers origin.old)) → B.contents origin.new ≡ with_sectors (B.contents origin.old) (chunk * old) (take (512 * count_of chunk (B.size origin.old) old) buffer.now)) }
    ensures disk { WritesDisk (chunk * old) (count_of chunk (B.size origin.old) old) (B.contents origin.old) (B.contents origin.new) }
    ensures same { OnErr result (B.contents origin.new ≡ B.contents origin.old) }
    ensures durable { Keeps B.durable origin.old origin.new }
    ensures adds { AddsNowIfLoud B.Block origin.old origin.new }
    ensures size { Keeps B.size origin.old origin.new }
{
    let count = sectors_of(chunk, size, old);
    let range = Range {
        first: chunk as u64 * old,
        count,
        size,
    };
    origin.write(range, &buffer[..SECTOR_BYTES * count as usize])
}

/// Takes the last pair that waits into the buffer.
fn take_last(group: &mut Option<Group>)
    requires { IsSome (next_read_of group.old) }
    ensures { group.new ≡ changed taken_in group.old }
{
    if let Some(present) = group {
        present.waiting -= 1;
        present.progress = Progress::Full;
    }
}

/// Counts the chunk in the buffer as copied.
fn count_copied(group: &mut Option<Group>)
    requires few { (g : Group) → group.old ≡ Some g → g.copied + 1 < 2 ^ 32 }
    ensures { group.new ≡ changed written_in group.old }
{
    if let Some(present) = group {
        present.copied += 1;
        present.progress = Progress::Open;
    }
}

/// Counts all chunks that wait as copied.
fn count_all(group: &mut Option<Group>)
    requires few { (g : Group) → group.old ≡ Some g → g.copied + g.waiting < 2 ^ 32 }
    ensures { group.new ≡ changed copied_in group.old }
{
    if let Some(present) = group {
        present.copied += present.waiting;
        present.waiting = 0;
    }
}

/// Counts the group as flushed.
fn mark_flushed(group: &mut Option<Group>)
    ensures { group.new ≡ changed flushed_in group.old }
{
    if let Some(present) = group {
        present.progress = Progress::Flushed;
    }
}
