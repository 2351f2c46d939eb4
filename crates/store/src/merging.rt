// A merge takes pairs away, from the last backwards, and the areas that become empty with them.
ghost use Rattle.std.specs.Prelude.{◌≡◌, ℕ, ◌+◌, ◌-◌, ◌*◌, ◌<◌, ◌≤◌, List, length, take, replicate, slice_index_or, OnOk, OnErr, IsTrue, true, false};
ghost use Rattle.sector.specs.Bytes.{sectors_at, with_part, with_sectors};
ghost use Rattle.sector.specs.declared.pair.Pair.{Pair};
ghost use Rattle.device.specs.Bare.{can_copy_run, count_after};
ghost use Rattle.device.specs.Layers.{is_loud};
ghost use Rattle.cow_format.specs.Places.{area_place};
ghost use Rattle.store.specs.declared.state.Left.TheVariants.{Nothing};
ghost use Rattle.store.specs.Held.{committed, memory, pending, reserved};
ghost use Rattle.store.specs.Slots.{slot_start};
ghost use Rattle.store.specs.Calls.{ChangesOnlyArea, KeepsBytes, KeepsDurable, KeepsExceptions, KeepsMemory, KeepsPending, KeepsReserved, KeepsState, MayHoldNowIfLoud, ReadsBefore, StaysAsLoud, WritesArea};
ghost use Rattle.store.specs.Devices.{AddsOnlyNow};

use crate::Store;
use crate::chunks::{read_area, write_whole};
use crate::committing::copy_slots;
use device::{Block, Io};
use exception_arena::{Exceptions, remove_last};
use sector::{Chunk, Range};

impl<B: Block> Store<B> {
    /// Takes the last pairs away, so many of the current area, whose old chunks fall by one from `old`, that of the last
    /// pair: their slots are zeroed on the store. From then on no copy starts, and the status counts the places up to the
    /// pairs that are left. The slots are zeroed in the area in memory before it is written, and where that fails they are
    /// put back as they were.
    pub fn merge_commit(&mut self, old: Chunk, count: u32) -> Result<(), Io>
        requires ready { self.old.state.left ≡ Nothing }
        requires idle { length (pending self.old.exceptions) ≡ 0 }
        requires some { 0 < count }
        requires fits { count ≤ self.old.state.filled }
        requires falling { (i : ℕ) (d : Pair) → i < count → (slice_index_or (committed self.old.exceptions) (length (committed self.old.exceptions) - (i + 1)) d).old + i ≡ old }
        ensures operation { WritesArea result self.old self.new }
        ensures written { OnOk result (IsTrue (is_loud (B.layers self.old.device)) → B.contents self.new.device ≡ with_part (B.contents self.old.device) (slot_start self.old.state.chunk self.old.state.current (self.old.state.filled - count)) (replicate (16 * count) 0)) }
        ensures same { OnErr result (KeepsBytes self.old self.new) }
        ensures only { ChangesOnlyArea self.old self.new }
        ensures loud { StaysAsLoud self.old self.new }
        ensures durable { KeepsDurable self.old self.new }
        ensures adds { MayHoldNowIfLoud self.old self.new }
        ensures committed { OnOk result (committed self.new.exceptions ≡ take (length (committed self.old.exceptions) - count) (committed self.old.exceptions)) }
        ensures pending { KeepsPending self.old self.new }
        ensures reserved { KeepsReserved self.old self.new }
        ensures memory { KeepsMemory self.old self.new }
        ensures next { OnOk result (self.new.places.next ≡ area_place self.old.state.chunk self.old.state.current + (self.old.state.filled - count) + 1) }
        ensures state { OnOk result (self.new.state ≡ record self.old.state { filled = self.old.state.filled - count; sure = length (committed self.new.exceptions); copying = false }) }
        ensures kept { OnErr result ((self.new.state ≡ self.old.state) × (self.new.exceptions ≡ self.old.exceptions) × (self.new.places ≡ self.old.places)) }
    {
        let place = self.state.current * (32 * self.state.chunk as u64 + 1) + 1;
        let slot = self.state.filled - count;
        copy_slots(&mut self.spare, &self.area, slot, count);
        self.area.clear(slot, count);
        match write_whole(
            &mut self.device,
            self.state.size,
            self.state.chunk,
            place,
            self.area.encode(),
        ) {
            Ok(()) => {
                remove_last(&mut self.exceptions, old, count as usize);
                self.places.after_merge(self.state.current, slot);
                self.state.filled = slot;
                self.state.sure = self.exceptions.len() as u64;
                self.state.copying = false;
                Ok(())
            }
            Err(io) => {
                copy_slots(&mut self.area, &self.spare, slot, count);
                Err(io)
            }
        }
    }

    /// Copies sectors, from the first of a place on, to a device, as reads here and writes there would, one after another: so
    /// many of each, which together are of all these sectors. It does so where devices of this kind copy runs and no layer stands above
    /// either of the two; else nothing changes, and it answers `false`.
    pub fn copy_to(
        &mut self,
        origin: &mut B,
        to: Range,
        place: Chunk,
        reads: u32,
        writes: u32,
    ) -> bool
        requires some { 0 < to.count }
        requires inside { to.first + to.count ≤ B.size origin.old }
        requires there { self.old.state.chunk * place + to.count ≤ self.old.state.size }

        ensures answer { result ≡ can_copy_run B.copies_runs (B.layers origin.old) (B.layers self.old.device) }
        ensures undone { result ≡ false → (origin.new ≡ origin.old) × (self.new.device ≡ self.old.device) }
        ensures layers { (B.layers origin.new ≡ B.layers origin.old) × (B.layers self.new.device ≡ B.layers self.old.device) }
        ensures copied { result ≡ true → B.contents origin.new ≡ with_sectors (B.contents origin.old) to.first (sectors_at (B.contents self.old.device) (self.old.state.chunk * place) to.count) }
        ensures same { KeepsBytes self.old self.new }
        ensures durable { (B.durable origin.new ≡ B.durable origin.old) × (B.durable self.new.device ≡ B.durable self.old.device) }
        ensures size { (B.size origin.new ≡ B.size origin.old) × (B.size self.new.device ≡ B.size self.old.device) }
        ensures faults { (B.fault_count origin.new ≡ B.fault_count origin.old) × (B.fault_count self.new.device ≡ B.fault_count self.old.device) }
        ensures done { result ≡ true → (B.done_count origin.new ≡ count_after (B.done_count origin.old) writes) × (B.done_count self.new.device ≡ count_after (B.done_count self.old.device) reads) }
        ensures stop { AddsOnlyNow B.Block origin.old origin.new }
        ensures stop_here { (s : ℕ) (v : List ℕ) → B.may_hold self.new.device s v → B.may_hold self.old.device s v }

        ensures exceptions { KeepsExceptions self.old self.new }
        ensures places { self.new.places ≡ self.old.places }
        ensures state { KeepsState self.old self.new }
    {
        let first = self.state.chunk as u64 * place;
        origin.copy_sectors(to, &mut self.device, first, reads, writes)
    }

    /// Reads the area before the current one, which is empty, in its place. From then on no copy starts.
    pub fn merge_area_read(&mut self) -> Result<(), Io>
        requires ready { self.old.state.left ≡ Nothing }
        requires empty { self.old.state.filled ≡ 0 }
        requires before { 0 < self.old.state.current }
        ensures operation { ReadsBefore result self.old self.new }
        ensures same { KeepsBytes self.old self.new }
        ensures loud { StaysAsLoud self.old self.new }
        ensures durable { KeepsDurable self.old self.new }
        ensures adds { MayHoldNowIfLoud self.old self.new }
        ensures exceptions { KeepsExceptions self.old self.new }
        ensures places { self.new.places ≡ self.old.places }
        ensures state { OnOk result (self.new.state ≡ record self.old.state { current = self.old.state.current - 1; filled = 32 * self.old.state.chunk; zeroed = false; firm = false; copying = false }) }
        ensures kept { OnErr result (KeepsState self.old self.new) }
    {
        let place = (self.state.current - 1) * (32 * self.state.chunk as u64 + 1) + 1;
        match read_area(&mut self.device, self.state.size, &mut self.area, place) {
            Ok(()) => {
                self.state.current -= 1;
                self.state.filled = 32 * self.state.chunk;
                self.state.zeroed = false;
                self.state.firm = false;
                self.state.copying = false;
                Ok(())
            }
            Err(io) => Err(io),
        }
    }
}
