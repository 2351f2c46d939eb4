// Pairs are committed: they are written into the current area, after the next one is zeroed where they fill it.
ghost use Rattle.std.specs.Prelude.{◌≡◌, ◌+◌, ◌*◌, ◌<◌, ◌≤◌, ◌↔◌, ◌++◌, length, take, drop, OnOk, OnErr, IsTrue, true, false};
ghost use Rattle.sector.specs.Bytes.{with_part};
ghost use Rattle.device.specs.Layers.{is_loud};
ghost use Rattle.cow_format.specs.Places.{area_place, ChangesOnly};
ghost use Rattle.cow_format.specs.NextPlace.{LacksArea};
ghost use Rattle.store.specs.declared.state.Left.TheVariants.{Nothing};
ghost use Rattle.exception_arena.specs.Pending.{pairs};
ghost use Rattle.store.specs.Held.{committed, memory, pending, reserved};
ghost use Rattle.store.specs.Slots.{IsPut, pairs_bytes, slot_start};
ghost use Rattle.store.specs.Stored.{after_commit};
ghost use Rattle.store.specs.Calls.{ChangesOnlyArea, KeepsBytes, KeepsDurable, KeepsExceptions, KeepsMemory, KeepsReserved, KeepsSize, KeepsState, MayHoldNowIfLoud, StaysAsLoud, WritesArea, WritesNext, ZeroesNext};

use crate::Store;
use crate::chunks::write_whole;
use device::{Block, Io};
use exception_arena::{Exceptions, finish_first};
use metadata_area::Area;

/// The bytes of a slot: those of a pair.
const SLOT_BYTES: usize = 16;

impl<B: Block> Store<B> {
    /// Whether so many pairs, if they are committed next, fill the current area, so that the next area has to be zeroed
    /// first, and it is not yet.
    pub fn needs_next_area(&self, count: u32) -> bool
        ensures { IsTrue result ↔ ((self.now.state.filled + count ≡ 32 * self.now.state.chunk) × (self.now.state.zeroed ≡ false)) }
    {
        count == 32 * self.state.chunk - self.state.filled && !self.state.zeroed
    }

    /// Whether so many pairs, if they are committed next, fill the current area, so that the next area has to be zeroed
    /// and flushed first, and it is not yet.
    pub fn waits_for_next_area(&self, count: u32) -> bool
        ensures { IsTrue result ↔ ((self.now.state.filled + count ≡ 32 * self.now.state.chunk) × (self.now.state.firm ≡ false)) }
    {
        count == 32 * self.state.chunk - self.state.filled && !self.state.firm
    }

    /// Whether the area after the current one does not lie wholly inside the store.
    pub fn lacks_next_area(&self) -> bool
        ensures { IsTrue result ↔ LacksArea self.now.state.chunk self.now.state.size (self.now.state.current + 1) }
    {
        self.state.size
            < self.state.chunk as u64
                * ((self.state.current + 1) * (32 * self.state.chunk as u64 + 1) + 2)
    }

    /// Zeroes the area after the current one, which is not firm before the next flush.
    pub fn zero_next(&mut self) -> Result<(), Io>
        requires ready { self.old.state.left ≡ Nothing }
        requires part { self.old.state.filled < 32 * self.old.state.chunk }
        requires room { self.old.state.chunk * (area_place self.old.state.chunk (self.old.state.current + 1) + 1) ≤ self.old.state.size }
        ensures operation { WritesNext result self.old self.new }
        ensures written { OnOk result (ZeroesNext self.old self.new) }
        ensures same { OnErr result (KeepsBytes self.old self.new) }
        ensures only { ChangesOnly self.old.state.chunk (area_place self.old.state.chunk (self.old.state.current + 1)) (B.contents self.old.device) (B.contents self.new.device) }
        ensures durable { KeepsDurable self.old self.new }
        ensures adds { MayHoldNowIfLoud self.old self.new }
        ensures size { KeepsSize self.old self.new }
        ensures exceptions { KeepsExceptions self.old self.new }
        ensures places { self.new.places ≡ self.old.places }
        ensures zeroed { OnOk result (self.new.state ≡ record self.old.state { zeroed = true; firm = false }) }
        ensures kept { OnErr result (KeepsState self.old self.new) }
    {
        let place = (self.state.current + 1) * (32 * self.state.chunk as u64 + 1) + 1;
        self.spare.clear_from(0);
        match write_whole(
            &mut self.device,
            self.state.size,
            self.state.chunk,
            place,
            self.spare.encode(),
        ) {
            Ok(()) => {
                self.state.zeroed = true;
                self.state.firm = false;
                Ok(())
            }
            Err(io) => Err(io),
        }
    }

    /// Commits the pairs of the copies that began first, so many of them: they are written into the current area, from its
    /// first empty slot on. Where they fill it the next area, which is zeroed and was flushed since, becomes the current
    /// one. The pairs are put into the area in memory before it is written, and where that fails its slots are put back as
    /// they were.
    pub fn write_area(&mut self, count: u32) -> Result<(), Io>
        requires ready { self.old.state.left ≡ Nothing }
        requires pending { count ≤ length (pending self.old.exceptions) }
        requires fits { self.old.state.filled + count ≤ 32 * self.old.state.chunk }
        requires next { self.old.state.filled + count ≡ 32 * self.old.state.chunk → self.old.state.firm ≡ true }
        ensures operation { WritesArea result self.old self.new }
        ensures written { OnOk result (IsTrue (is_loud (B.layers self.old.device)) → B.contents self.new.device ≡ with_part (B.contents self.old.device) (slot_start self.old.state.chunk self.old.state.current self.old.state.filled) (pairs_bytes (pairs (take count (pending self.old.exceptions))))) }
        ensures same { OnErr result (KeepsBytes self.old self.new) }
        ensures only { ChangesOnlyArea self.old self.new }
        ensures loud { StaysAsLoud self.old self.new }
        ensures durable { KeepsDurable self.old self.new }
        ensures adds { MayHoldNowIfLoud self.old self.new }
        ensures size { KeepsSize self.old self.new }
        ensures committed { OnOk result (committed self.new.exceptions ≡ committed self.old.exceptions ++ pairs (take count (pending self.old.exceptions))) }
        ensures pending { OnOk result (pending self.new.exceptions ≡ drop count (pending self.old.exceptions)) }
        ensures reserved { KeepsReserved self.old self.new }
        ensures memory { KeepsMemory self.old self.new }
        ensures places { self.new.places ≡ self.old.places }
        ensures state { OnOk result (self.new.state ≡ after_commit self.old.state count) }
        ensures kept { OnErr result ((self.new.state ≡ self.old.state) × (self.new.exceptions ≡ self.old.exceptions)) }
    {
        let place = self.state.current * (32 * self.state.chunk as u64 + 1) + 1;
        let filled = self.state.filled;
        copy_slots(&mut self.spare, &self.area, filled, count);
        put_first(&mut self.area, &self.exceptions, filled, count);
        match write_whole(
            &mut self.device,
            self.state.size,
            self.state.chunk,
            place,
            self.area.encode(),
        ) {
            Ok(()) => {
                finish_first(&mut self.exceptions, count as usize);
                self.state.filled += count;
                if self.state.filled == 32 * self.state.chunk {
                    self.state.current += 1;
                    self.state.filled = 0;
                    self.state.zeroed = false;
                    self.state.firm = false;
                    self.area.clear_from(0);
                }
                Ok(())
            }
            Err(io) => {
                copy_slots(&mut self.area, &self.spare, filled, count);
                Err(io)
            }
        }
    }
}

/// Takes over so many slots, from one on, of an area that is as long. All their bytes are taken: those of an empty slot
/// need not be zeros.
pub fn copy_slots(area: &mut Area, from: &Area, slot: u32, count: u32)
    requires chunk { area.old.chunk ≡ from.now.chunk }
    requires fits { slot + count ≤ 32 * area.old.chunk }
    ensures chunk { area.new.chunk ≡ area.old.chunk }
    ensures bytes { area.new.bytes.items ≡ with_part area.old.bytes.items (16 * slot) (take (16 * count) (drop (16 * slot) from.now.bytes.items)) }
{
    let start = SLOT_BYTES * slot as usize;
    // The bytes of one slot, the usual number, need no loop.
    if count == 1 {
        let end = start + SLOT_BYTES;
        area.bytes[start..end].copy_from_slice(&from.bytes[start..end]);
        return;
    }
    let end = start + SLOT_BYTES * count as usize;
    area.bytes[start..end].copy_from_slice(&from.bytes[start..end]);
}

/// Puts the pairs of the copies that began first into an area, so many of them, from a slot on.
fn put_first<E: Exceptions>(area: &mut Area, exceptions: &E, slot: u32, count: u32)
    requires some { count ≤ length (E.pending exceptions.now) }
    requires room { slot + count ≤ 32 * area.old.chunk }
    ensures chunk { area.new.chunk ≡ area.old.chunk }
    ensures put { IsPut area.old.bytes.items slot (pairs (take count (E.pending exceptions.now))) area.new.bytes.items }
{
    for i in 0..count {
        area.put(slot + i, exceptions.pending_at(i as usize).pair);
    }
}
