// Copies are taken back into the origin.
ghost use Rattle.std.specs.Prelude.{◌≡◌, ◌⊎◌, ℕ, ◌+◌, ◌*◌, ◌-◌, ◌%◌, ◌/◌, ◌<◌, ◌≤◌, List, length, min, MatchOption, OnOk};
ghost use Rattle.std.specs.List.{All};
ghost use Rattle.sector.specs.Bytes.{sector_at, with_sectors};
ghost use Rattle.image.specs.Stops.{Elapses, HasCause};
ghost use Rattle.cow_merge.specs.Begun.{begun};
ghost use Rattle.cow_merge.specs.Holding.{Rolls, Passes, Copies, IsPairOf, AreInRow, IsBack, AreBack, Begin, pairs};

use crate::gathering::read_slots;
use crate::{Sizes, Stopped};
use cow_image::row_at;
use image::FileSet;
use metadata_area::Area;
use sector::Pair;
use std::io;

/// The number of the origin's file.
pub const ORIGIN: usize = 0;

/// The number of the store's file.
pub const STORE: usize = 1;

/// Where copies in a row are, and where they go.
#[derive(Clone, Copy)]
struct Place {
    /// The byte of the store where they begin.
    from: u64,
    /// The sector of the origin where they go.
    to: u64,
    /// How many sectors they have: those of their chunks, or less at the origin's end.
    count: u32,
}

/// The place of so many copies in a row, of which a pair has the first; none where the store has no such chunks, or the origin
/// ends before the first one.
fn place_of(sizes: Sizes, pair: Pair, count: u32) -> Option<Place>
    requires few { count ≤ 2048 }
    ensures found { MatchOption result (sizes.chunk * pair.old < sizes.origin → sizes.chunk * (pair.new + count) ≤ sizes.store → ⊥) (λ place. (place.from ≡ 512 * (sizes.chunk * pair.new)) × (place.to ≡ sizes.chunk * pair.old) × (sizes.chunk * pair.old < sizes.origin) × (sizes.chunk * (pair.new + count) ≤ sizes.store) × (place.count ≡ min (sizes.chunk * count) (sizes.origin - sizes.chunk * pair.old))) }
{
    let chunk = sizes.chunk as u64;
    let count = count as u64;
    let chunks = sizes.store / chunk;
    if chunks < count {
        return None;
    }
    if chunks - count < pair.new {
        return None;
    }
    let to = pair.old.checked_mul(chunk)?;
    if sizes.origin <= to {
        return None;
    }
    Some(Place {
        from: 512 * (chunk * pair.new),
        to,
        count: (sizes.origin - to).min(chunk * count) as u32,
    })
}

/// Writes sectors of the origin, also where they read the same: what reads give may have been lost where a sync failed, and
/// only what is written since is made to last by the next one.
fn put_back<F: FileSet>(files: &mut F, sector: u64, part: &[u8]) -> io::Result<()>
    requires whole { length part.now % 512 ≡ 0 }
    ensures written { OnOk result (F.is_known files.old → 512 * sector + length part.now ≤ length (F.bytes files.old 0) → F.bytes files.new 0 ≡ with_sectors (F.bytes files.old 0) sector part.now) }
    ensures beside { F.bytes files.new 1 ≡ F.bytes files.old 1 }
    ensures len { (f : ℕ) → length (F.bytes files.new f) ≡ length (F.bytes files.old f) }
    ensures known { F.is_known files.old → F.is_known files.new }
    ensures stop { (f s : ℕ) (v : List ℕ) → F.may_hold files.new f s v → F.may_hold files.old f s v ⊎ ((f ≡ 0) × (sector ≤ s) × (512 * (s - sector) < length part.now) × (v ≡ sector_at part.now (s - sector))) }
    ensures lasts { (f s : ℕ) → F.will_last files.old f s → F.will_last files.new f s }
    ensures fresh { OnOk result ((s : ℕ) → sector ≤ s → 512 * (s - sector) < length part.now → F.will_last files.new 0 s) }
    ensures time { Elapses (F.moment files.old) (F.moment files.new) (F.left_since files.old) (F.left_since files.new) (F.bytes files.new) (F.may_hold files.new) }
    ensures cause { HasCause (F.is_known files.old × (512 * sector + length part.now ≤ length (F.bytes files.old 0)) × (F.lacks_memory files.new → ⊥)) (F.fault_count files.old) (F.fault_count files.new) result }
{
    files.write_at(ORIGIN, sector, part)
}

/// Copies so many chunks in a row back, of which a pair has the first, through room for them.
fn copy_row<F: FileSet>(
    files: &mut F,
    sizes: Sizes,
    pair: Pair,
    count: u32,
    room: &mut [u8],
) -> Result<(), Stopped>
    requires some { 0 < count }
    requires few { count ≤ 2048 }
    requires room { 512 * (sizes.chunk * count) ≤ length room.old }
    ensures passes { (o c : List ℕ) (from : ℕ) → AreInRow (begun sizes o c) pair count → Rolls (begun sizes o c) from (F.is_known files.old) (F.bytes files.old) (F.may_hold files.old) → Passes (begun sizes o c) (F.moment files.old) (F.moment files.new) (F.left_since files.old) (F.left_since files.new) (F.is_known files.new) (F.bytes files.new) (F.may_hold files.new) }
    ensures copies { OnOk result ((o c : List ℕ) (from : ℕ) → AreInRow (begun sizes o c) pair count → Rolls (begun sizes o c) from (F.is_known files.old) (F.bytes files.old) (F.may_hold files.old) → Copies (begun sizes o c) from (F.is_known files.new) (F.bytes files.old) (F.bytes files.new) (F.may_hold files.old) (F.may_hold files.new) (F.will_last files.old) (F.will_last files.new)) }
    ensures back { OnOk result ((o c : List ℕ) (from : ℕ) → AreInRow (begun sizes o c) pair count → Rolls (begun sizes o c) from (F.is_known files.old) (F.bytes files.old) (F.may_hold files.old) → (q : ℕ) → q < count → IsBack (begun sizes o c) (F.bytes files.new 0) (F.will_last files.new) (pair.old + q)) }
    ensures cause { HasCause ((o : List ℕ) × (c : List ℕ) × (from : ℕ) × AreInRow (begun sizes o c) pair count × Rolls (begun sizes o c) from (F.is_known files.old) (F.bytes files.old) (F.may_hold files.old) × (F.lacks_memory files.new → ⊥)) (F.fault_count files.old) (F.fault_count files.new) result }
{
    let Some(place) = place_of(sizes, pair, count) else {
        return Err(Stopped::Changed);
    };
    let part = &mut room[..512 * place.count as usize];
    files.read_at(STORE, place.from, part)?;
    put_back(files, place.to, part)?;
    Ok(())
}

/// How many chunks are copied by one call: those that the room holds, and not more than 2048.
fn chunks_at_once(sizes: Sizes, room: &[u8]) -> u64
    requires room { 512 * sizes.chunk ≤ length room.now }
    ensures some { 0 < result }
    ensures few { result ≤ 2048 }
    ensures room { 512 * (sizes.chunk * result) ≤ length room.now }
{
    (room.len() / (512 * sizes.chunk as usize)).min(2048) as u64
}

/// Copies back what pairs have, those in a row by one call.
fn copy_slots<F: FileSet>(
    files: &mut F,
    sizes: Sizes,
    slots: &[Pair],
    room: &mut [u8],
) -> Result<(), Stopped>
    requires room { 512 * sizes.chunk ≤ length room.old }
    ensures passes { (o c : List ℕ) (from : ℕ) → All (IsPairOf (begun sizes o c)) slots.now → Rolls (begun sizes o c) from (F.is_known files.old) (F.bytes files.old) (F.may_hold files.old) → Passes (begun sizes o c) (F.moment files.old) (F.moment files.new) (F.left_since files.old) (F.left_since files.new) (F.is_known files.new) (F.bytes files.new) (F.may_hold files.new) }
    ensures copies { OnOk result ((o c : List ℕ) (from : ℕ) → All (IsPairOf (begun sizes o c)) slots.now → Rolls (begun sizes o c) from (F.is_known files.old) (F.bytes files.old) (F.may_hold files.old) → Copies (begun sizes o c) from (F.is_known files.new) (F.bytes files.old) (F.bytes files.new) (F.may_hold files.old) (F.may_hold files.new) (F.will_last files.old) (F.will_last files.new)) }
    ensures back { OnOk result ((o c : List ℕ) (from : ℕ) → All (IsPairOf (begun sizes o c)) slots.now → Rolls (begun sizes o c) from (F.is_known files.old) (F.bytes files.old) (F.may_hold files.old) → All (λ pair. IsBack (begun sizes o c) (F.bytes files.new 0) (F.will_last files.new) pair.old) slots.now) }
    ensures cause { HasCause ((o : List ℕ) × (c : List ℕ) × (from : ℕ) × All (IsPairOf (begun sizes o c)) slots.now × Rolls (begun sizes o c) from (F.is_known files.old) (F.bytes files.old) (F.may_hold files.old) × (F.lacks_memory files.new → ⊥)) (F.fault_count files.old) (F.fault_count files.new) result }
{
    let most = chunks_at_once(sizes, room);
    let mut at = 0;
    while at < slots.len() {
        let count = row_at(slots, at, most);
        copy_row(files, sizes, slots[at], count as u32, room)?;
        at += count as usize;
    }
    Ok(())
}

/// Copies back what the pairs of areas have, from one on and up to another, in the order of their old chunks.
pub fn copy_areas<F: FileSet>(
    files: &mut F,
    sizes: Sizes,
    area: &mut Area,
    slots: &mut [Pair],
    room: &mut [u8],
    from: u64,
    end: u64,
) -> Result<(), Stopped>
    requires chunk { area.old.chunk ≡ sizes.chunk }
    requires slots { (end - from) * (32 * sizes.chunk) ≤ length slots.old }
    requires room { 512 * sizes.chunk ≤ length room.old }
    requires low { end ≤ sizes.store }
    ensures chunk { area.new.chunk ≡ sizes.chunk }
    ensures passes { (o c : List ℕ) (first : ℕ) → end ≤ length (pairs (begun sizes o c)) / (32 * sizes.chunk) + 1 → Rolls (begun sizes o c) first (F.is_known files.old) (F.bytes files.old) (F.may_hold files.old) → Passes (begun sizes o c) (F.moment files.old) (F.moment files.new) (F.left_since files.old) (F.left_since files.new) (F.is_known files.new) (F.bytes files.new) (F.may_hold files.new) }
    ensures copies { OnOk result ((o c : List ℕ) (first : ℕ) → end ≤ length (pairs (begun sizes o c)) / (32 * sizes.chunk) + 1 → Rolls (begun sizes o c) first (F.is_known files.old) (F.bytes files.old) (F.may_hold files.old) → Copies (begun sizes o c) first (F.is_known files.new) (F.bytes files.old) (F.bytes files.new) (F.may_hold files.old) (F.may_hold files.new) (F.will_last files.old) (F.will_last files.new)) }
    ensures back { OnOk result ((o c : List ℕ) (first : ℕ) → end ≤ length (pairs (begun sizes o c)) / (32 * sizes.chunk) + 1 → Rolls (begun sizes o c) first (F.is_known files.old) (F.bytes files.old) (F.may_hold files.old) → AreBack (begun sizes o c) first (F.bytes files.new 0) (F.will_last files.new) (from * (32 * sizes.chunk)) (end * (32 * sizes.chunk))) }
    ensures cause { HasCause ((o : List ℕ) × (c : List ℕ) × (first : ℕ) × (end ≤ length (pairs (begun sizes o c)) / (32 * sizes.chunk) + 1) × Rolls (begun sizes o c) first (F.is_known files.old) (F.bytes files.old) (F.may_hold files.old) × (F.lacks_memory files.new → ⊥)) (F.fault_count files.old) (F.fault_count files.new) result }
{
    let count = read_slots(files, sizes, area, slots, from, end)?;
    let taken = &mut slots[..count];
    taken.sort_unstable_by_key(|pair| pair.old);
    copy_slots(files, sizes, taken, room)
}
