// A store's copies are taken back into its origin.
ghost use Rattle.std.specs.Prelude.{◌≡◌, ◌≢◌, ◌⊎◌, ℕ, ◌+◌, ◌*◌, ◌-◌, ◌/◌, ◌<◌, ◌≤◌, List, length, min, replicate, IfErr, IfOk, IsErr, OnOk, Err};
ghost use Rattle.cow_image.specs.Maps.{IsMapOf};
ghost use Rattle.image.specs.Stops.{AreLeft, HasCause};
ghost use Rattle.cow_merge.specs.Begun.{begun};
ghost use Rattle.cow_merge.specs.Holding.{Rolls, Passes, IsGone, Settles, Stays, Ends, Begin, pairs};
ghost use Rattle.cow_merge.specs.Merges.{IsMerging, StillShows, IsMerged};

use crate::clearing::clear_areas;
use crate::copying::{ORIGIN, STORE, copy_areas};
use crate::settling::settle;
use crate::{Sizes, Stopped};
use cow_image::CowMap;
use image::FileSet;
use metadata_area::Area;
use sector::Pair;
use std::alloc::{AllocError, Global};

/// Copies back what the pairs of areas have, and makes it last.
fn copy_batch<F: FileSet>(
    files: &mut F,
    sizes: Sizes,
    area: &mut Area,
    slots: &mut [Pair],
    room: &mut [u8],
    from: u64,
    end: u64,
) -> Result<(), Stopped>
    requires chunk { area.old.chunk ≡ sizes.chunk }
    requires slots { (end - from) * (32 * sizes.chunk) ≤ length slots.old }
    requires room { 512 * sizes.chunk ≤ length room.old }
    requires low { end ≤ sizes.store }
    requires order { from ≤ end }
    ensures chunk { area.new.chunk ≡ sizes.chunk }
    ensures passes { (o c : List ℕ) (first : ℕ) → first ≤ end → end ≤ length (pairs (begun sizes o c)) / (32 * sizes.chunk) + 1 → Rolls (begun sizes o c) first (F.is_known files.old) (F.bytes files.old) (F.may_hold files.old) → Passes (begun sizes o c) (F.moment files.old) (F.moment files.new) (F.left_since files.old) (F.left_since files.new) (F.is_known files.new) (F.bytes files.new) (F.may_hold files.new) }
    ensures rolls { OnOk result ((o c : List ℕ) (first : ℕ) → first ≤ end → end ≤ length (pairs (begun sizes o c)) / (32 * sizes.chunk) + 1 → Rolls (begun sizes o c) first (F.is_known files.old) (F.bytes files.old) (F.may_hold files.old) → Rolls (begun sizes o c) (min first from) (F.is_known files.new) (F.bytes files.new) (F.may_hold files.new)) }
    ensures store { OnOk result ((o c : List ℕ) (first : ℕ) → first ≤ end → end ≤ length (pairs (begun sizes o c)) / (32 * sizes.chunk) + 1 → Rolls (begun sizes o c) first (F.is_known files.old) (F.bytes files.old) (F.may_hold files.old) → (s : ℕ) (v : List ℕ) → F.may_hold files.new 1 s v → F.may_hold files.old 1 s v) }
    ensures cause { HasCause ((o : List ℕ) × (c : List ℕ) × (first : ℕ) × (end ≤ length (pairs (begun sizes o c)) / (32 * sizes.chunk) + 1) × Rolls (begun sizes o c) first (F.is_known files.old) (F.bytes files.old) (F.may_hold files.old) × (F.lacks_memory files.new → ⊥)) (F.fault_count files.old) (F.fault_count files.new) result }
{
    copy_areas(files, sizes, area, slots, room, from, end)?;
    files.sync(ORIGIN)?;
    Ok(())
}

/// Zeroes areas, and makes it last.
fn clear_batch<F: FileSet>(
    files: &mut F,
    sizes: Sizes,
    zeros: &[u8],
    from: u64,
    end: u64,
) -> Result<(), Stopped>
    requires zeros { zeros.now ≡ replicate (512 * sizes.chunk) 0 }
    requires low { end ≤ sizes.store }
    ensures passes { (o c : List ℕ) (first : ℕ) → first ≤ from → Rolls (begun sizes o c) first (F.is_known files.old) (F.bytes files.old) (F.may_hold files.old) → Passes (begun sizes o c) (F.moment files.old) (F.moment files.new) (F.left_since files.old) (F.left_since files.new) (F.is_known files.new) (F.bytes files.new) (F.may_hold files.new) }
    ensures rolls { OnOk result ((o c : List ℕ) (first : ℕ) → first ≤ from → Rolls (begun sizes o c) first (F.is_known files.old) (F.bytes files.old) (F.may_hold files.old) → Rolls (begun sizes o c) first (F.is_known files.new) (F.bytes files.new) (F.may_hold files.new)) }
    ensures gone { OnOk result ((o c : List ℕ) (first : ℕ) → first ≤ from → end ≤ length (pairs (begun sizes o c)) / (32 * sizes.chunk) + 1 → Rolls (begun sizes o c) first (F.is_known files.old) (F.bytes files.old) (F.may_hold files.old) → (area : ℕ) → from ≤ area → area < end → IsGone sizes.chunk (F.may_hold files.new) area) }
    ensures keeps { OnOk result ((o c : List ℕ) (first : ℕ) → first ≤ from → Rolls (begun sizes o c) first (F.is_known files.old) (F.bytes files.old) (F.may_hold files.old) → (area : ℕ) → IsGone sizes.chunk (F.may_hold files.old) area → IsGone sizes.chunk (F.may_hold files.new) area) }
    ensures cause { HasCause ((o : List ℕ) × (c : List ℕ) × (first : ℕ) × (first ≤ from) × (end ≤ length (pairs (begun sizes o c)) / (32 * sizes.chunk) + 1) × Rolls (begun sizes o c) first (F.is_known files.old) (F.bytes files.old) (F.may_hold files.old) × (F.lacks_memory files.new → ⊥)) (F.fault_count files.old) (F.fault_count files.new) result }
{
    clear_areas(files, sizes, zeros, from, end)?;
    files.sync(STORE)?;
    Ok(())
}

/// Takes the copies of areas up to one back, so many areas at a time, the last ones first.
fn merge_areas<F: FileSet>(
    files: &mut F,
    sizes: Sizes,
    area: &mut Area,
    slots: &mut [Pair],
    zeros: &[u8],
    room: &mut [u8],
    last: u64,
    step: u64,
) -> Result<(), Stopped>
    requires chunk { area.old.chunk ≡ sizes.chunk }
    requires slots { step * (32 * sizes.chunk) ≤ length slots.old }
    requires room { 512 * sizes.chunk ≤ length room.old }
    requires zeros { zeros.now ≡ replicate (512 * sizes.chunk) 0 }
    requires low { last < sizes.store }
    requires step { 0 < step }
    ensures passes { (o c : List ℕ) (first : ℕ) → first ≤ last + 1 → last ≤ length (pairs (begun sizes o c)) / (32 * sizes.chunk) → Rolls (begun sizes o c) first (F.is_known files.old) (F.bytes files.old) (F.may_hold files.old) → Passes (begun sizes o c) (F.moment files.old) (F.moment files.new) (F.left_since files.old) (F.left_since files.new) (F.is_known files.new) (F.bytes files.new) (F.may_hold files.new) }
    ensures ends { OnOk result ((o c : List ℕ) (first : ℕ) → first ≤ last + 1 → last ≤ length (pairs (begun sizes o c)) / (32 * sizes.chunk) → Rolls (begun sizes o c) first (F.is_known files.old) (F.bytes files.old) (F.may_hold files.old) → Ends (begun sizes o c) last (F.is_known files.new) (F.bytes files.new) (F.may_hold files.new)) }
    ensures cause { HasCause ((o : List ℕ) × (c : List ℕ) × (first : ℕ) × (first ≤ last + 1) × (last ≤ length (pairs (begun sizes o c)) / (32 * sizes.chunk)) × Rolls (begun sizes o c) first (F.is_known files.old) (F.bytes files.old) (F.may_hold files.old) × (F.lacks_memory files.new → ⊥)) (F.fault_count files.old) (F.fault_count files.new) result }
{
    let mut end = last + 1;
    while 0 < end {
        let from = end.saturating_sub(step);
        copy_batch(files, sizes, area, slots, room, from, end)?;
        clear_batch(files, sizes, zeros, from, end)?;
        end = from;
    }
    Ok(())
}

/// Room for a merge: an area, the pairs of the areas whose copies are taken back at a time, as many zeros as an area has, and
/// the copies of one call.
#[derive(Drop)]
pub struct Room {
    area: Area,
    slots: Vec<Pair>,
    /// How many areas are merged at a time.
    step: u64,
    zeros: Vec<u8>,
    part: Vec<u8>,
    ghost some: { 0 < step },
    ghost are_slots: { step * (32 * area.chunk) ≤ length slots.items },
    ghost are_zeros: { zeros.items ≡ replicate (512 * area.chunk) 0 },
    ghost is_chunk: { 512 * area.chunk ≤ length part.items },
}

impl Room {
    /// Room for a store whose chunks have so many sectors. A merge takes no memory beside it.
    pub fn new(alloc: Global, chunk: u32) -> Result<Room, AllocError>
        requires some { 0 < chunk }
        requires allowed { chunk ≤ 1024 }
        ensures { IfOk result (λ room. room.area.chunk ≡ chunk) }
    {
        let Ok(area) = Area::new(alloc, chunk) else {
            return Err(AllocError);
        };
        let step = areas_at_once(chunk);
        let slots = vec![in alloc; Pair { old: 0, new: 0 }; step as usize * (32 * chunk as usize)]?;
        let zeros = vec![in alloc; 0u8; 512 * chunk as usize]?;
        let part = vec![in alloc; 0u8; (512 * chunk as usize).max(MOST_BYTES)]?;
        Ok(Room {
            area,
            slots,
            step,
            zeros,
            part,
        })
    }
}

/// The bytes that a call copies, where a chunk has not more.
const MOST_BYTES: usize = 1_048_576;

/// The areas whose pairs are merged at a time, where a chunk has so many sectors: those of 64 MiB of copies, or one.
fn areas_at_once(chunk: u32) -> u64
    requires some { 0 < chunk }
    requires allowed { chunk ≤ 1024 }
    ensures some { 0 < result }
    ensures few { result ≤ 4096 }
{
    let chunk = chunk as u64;
    (4096 / (chunk * chunk)).max(1)
}

/// Takes a snapshot's copies back into its origin, which has so many sectors, and its pairs away from its store: what is
/// left where it fails, or is stopped, still shows the snapshot, and is merged by another call.
pub fn merge<F: FileSet>(
    files: &mut F,
    map: &CowMap,
    origin: u64,
    room: Room,
) -> Result<(), Stopped>
    requires { room.area.chunk ≡ map.now.chunk }
    ensures stops { F.is_known files.old → length (F.bytes files.old 0) ≡ 512 * origin → IsMapOf origin (F.bytes files.old 1) map.now → ((f s : ℕ) → F.will_last files.old f s) → (left : ℕ → List ℕ) → F.left_since files.new (F.moment files.old) left → AreLeft (F.bytes files.old) (F.may_hold files.old) left ⊎ StillShows map.now.chunk origin map.now.size (F.bytes files.old 0) (F.bytes files.old 1) left }
    ensures done { OnOk result (F.is_known files.old → length (F.bytes files.old 0) ≡ 512 * origin → IsMapOf origin (F.bytes files.old 1) map.now → ((f s : ℕ) → F.will_last files.old f s) → F.is_known files.new × ((left : ℕ → List ℕ) → AreLeft (F.bytes files.new) (F.may_hold files.new) left → IsMerged map.now.chunk map.now.size map.now.current (F.bytes files.old 0) (F.bytes files.old 1) left)) }
    ensures stops_again { (o c : List ℕ) (from : ℕ) → F.is_known files.old → IsMapOf origin (F.bytes files.old 1) map.now → IsMerging map.now.chunk origin map.now.size from o c (F.bytes files.old) (F.may_hold files.old) (F.will_last files.old) → (left : ℕ → List ℕ) → F.left_since files.new (F.moment files.old) left → AreLeft (F.bytes files.old) (F.may_hold files.old) left ⊎ StillShows map.now.chunk origin map.now.size o c left }
    ensures done_again { OnOk result ((o c : List ℕ) (from : ℕ) → F.is_known files.old → IsMapOf origin (F.bytes files.old 1) map.now → IsMerging map.now.chunk origin map.now.size from o c (F.bytes files.old) (F.may_hold files.old) (F.will_last files.old) → F.is_known files.new × ((left : ℕ → List ℕ) → AreLeft (F.bytes files.new) (F.may_hold files.new) left → IsMerged map.now.chunk map.now.size map.now.current o c left)) }
    ensures goes_on { (o c : List ℕ) (from : ℕ) → F.is_known files.old → IsMapOf origin (F.bytes files.old 1) map.now → IsMerging map.now.chunk origin map.now.size from o c (F.bytes files.old) (F.may_hold files.old) (F.will_last files.old) → ((f s : ℕ) (v : List ℕ) → F.may_hold files.new f s v → F.may_hold files.old f s v) ⊎ ((area : ℕ) × F.is_known files.new × IsMerging map.now.chunk origin map.now.size area o c (F.bytes files.new) (F.may_hold files.new) (λ _ _. ⊥)) }
    ensures cause { HasCause ((o : List ℕ) × (c : List ℕ) × (from : ℕ) × F.is_known files.old × IsMapOf origin (F.bytes files.old 1) map.now × IsMerging map.now.chunk origin map.now.size from o c (F.bytes files.old) (F.may_hold files.old) (F.will_last files.old) × (F.lacks_memory files.new → ⊥)) (F.fault_count files.old) (F.fault_count files.new) result }
{
    let sizes = Sizes {
        chunk: map.chunk,
        origin,
        store: map.size,
    };
    let Room {
        mut area,
        mut slots,
        step,
        zeros,
        mut part,
    } = room;
    let slots = slots.as_mut_slice();
    let zeros = zeros.as_slice();
    let part = part.as_mut_slice();
    settle(files)?;
    merge_areas(
        files,
        sizes,
        &mut area,
        slots,
        zeros,
        part,
        map.current,
        step,
    )
}
