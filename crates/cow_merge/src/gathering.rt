// The pairs of areas are read.
ghost use Rattle.std.specs.Prelude.{◌≡◌, ◌≢◌, ℕ, ◌+◌, ◌*◌, ◌-◌, ◌/◌, ◌<◌, ◌≤◌, List, length, take, slice_index_or, IfOk, OnOk};
ghost use Rattle.std.specs.List.{All};
ghost use Rattle.sector.specs.declared.pair.Pair.{Pair as PairOf};
ghost use Rattle.cow_format.specs.Places.{area_place, chunk_at};
ghost use Rattle.cow_format.specs.Slots.{pair_in};
ghost use Rattle.image.specs.Stops.{HasCause};
ghost use Rattle.cow_merge.specs.Begun.{begun};
ghost use Rattle.cow_merge.specs.Holding.{Rolls, Passes, Copies, IsPairOf, AreGathered, Begin, pairs};

use crate::copying::STORE;
use crate::{Sizes, Stopped};
use image::FileSet;
use metadata_area::Area;
use sector::Pair;

/// Reads an area of the store into memory.
fn read_area<F: FileSet>(
    files: &mut F,
    sizes: Sizes,
    area: &mut Area,
    index: u64,
) -> Result<(), Stopped>
    requires chunk { area.old.chunk ≡ sizes.chunk }
    requires low { index < sizes.store }
    ensures chunk { area.new.chunk ≡ sizes.chunk }
    ensures data { OnOk result (F.is_known files.old → area.new.bytes.items ≡ chunk_at sizes.chunk (F.bytes files.old 1) (area_place sizes.chunk index)) }
    ensures rolls { (o c : List ℕ) (from : ℕ) → Rolls (begun sizes o c) from (F.is_known files.old) (F.bytes files.old) (F.may_hold files.old) → Copies (begun sizes o c) from (F.is_known files.new) (F.bytes files.old) (F.bytes files.new) (F.may_hold files.old) (F.may_hold files.new) (F.will_last files.old) (F.will_last files.new) }
    ensures passes { (o c : List ℕ) (from : ℕ) → Rolls (begun sizes o c) from (F.is_known files.old) (F.bytes files.old) (F.may_hold files.old) → Passes (begun sizes o c) (F.moment files.old) (F.moment files.new) (F.left_since files.old) (F.left_since files.new) (F.is_known files.new) (F.bytes files.new) (F.may_hold files.new) }
    ensures cause { HasCause ((o : List ℕ) × (c : List ℕ) × (from : ℕ) × (index ≤ length (pairs (begun sizes o c)) / (32 * sizes.chunk)) × Rolls (begun sizes o c) from (F.is_known files.old) (F.bytes files.old) (F.may_hold files.old) × (F.lacks_memory files.new → ⊥)) (F.fault_count files.old) (F.fault_count files.new) result }
{
    let chunk = sizes.chunk as u64;
    let place = index * (32 * chunk + 1) + 1;
    if sizes.store < chunk * (place + 1) {
        return Err(Stopped::Changed);
    }
    files.read_at(STORE, 512 * (chunk * place), area.bytes.as_mut_slice())?;
    Ok(())
}

/// Puts the pairs of an area's slots in use into a list, and tells how many they are.
fn put_slots(area: &Area, slots: &mut [Pair]) -> usize
    requires room { 32 * area.now.chunk ≤ length slots.old }
    ensures few { result ≤ 32 * area.now.chunk }
    ensures put { (k : ℕ) → (d : PairOf) → k < result → slice_index_or slots.new k d ≡ pair_in area.now.bytes.items k }
    ensures used { (k : ℕ) → k < result → (pair_in area.now.bytes.items k).new ≢ 0 }
    ensures empty { result < 32 * area.now.chunk → (pair_in area.now.bytes.items result).new ≡ 0 }
{
    let count = area.first_empty();
    for slot in 0..count {
        slots[slot as usize] = area.pair(slot);
    }
    count as usize
}

/// Reads the pairs of areas, from one on and up to another, into a list, and tells how many they are.
pub fn read_slots<F: FileSet>(
    files: &mut F,
    sizes: Sizes,
    area: &mut Area,
    slots: &mut [Pair],
    from: u64,
    end: u64,
) -> Result<usize, Stopped>
    requires chunk { area.old.chunk ≡ sizes.chunk }
    requires slots { (end - from) * (32 * sizes.chunk) ≤ length slots.old }
    requires low { end ≤ sizes.store }
    ensures chunk { area.new.chunk ≡ sizes.chunk }
    ensures count { IfOk result (λ count. count ≤ length slots.new) }
    ensures passes { (o c : List ℕ) (first : ℕ) → Rolls (begun sizes o c) first (F.is_known files.old) (F.bytes files.old) (F.may_hold files.old) → Passes (begun sizes o c) (F.moment files.old) (F.moment files.new) (F.left_since files.old) (F.left_since files.new) (F.is_known files.new) (F.bytes files.new) (F.may_hold files.new) }
    ensures copies { (o c : List ℕ) (first : ℕ) → Rolls (begun sizes o c) first (F.is_known files.old) (F.bytes files.old) (F.may_hold files.old) → Copies (begun sizes o c) first (F.is_known files.new) (F.bytes files.old) (F.bytes files.new) (F.may_hold files.old) (F.may_hold files.new) (F.will_last files.old) (F.will_last files.new) }
    ensures pairs { IfOk result (λ count. (o c : List ℕ) (first : ℕ) → end ≤ length (pairs (begun sizes o c)) / (32 * sizes.chunk) + 1 → Rolls (begun sizes o c) first (F.is_known files.old) (F.bytes files.old) (F.may_hold files.old) → All (IsPairOf (begun sizes o c)) (take count slots.new)) }
    ensures gathered { IfOk result (λ count. (o c : List ℕ) (first : ℕ) → end ≤ length (pairs (begun sizes o c)) / (32 * sizes.chunk) + 1 → Rolls (begun sizes o c) first (F.is_known files.old) (F.bytes files.old) (F.may_hold files.old) → AreGathered (begun sizes o c) first (take count slots.new) (from * (32 * sizes.chunk)) (end * (32 * sizes.chunk))) }
    ensures cause { HasCause ((o : List ℕ) × (c : List ℕ) × (first : ℕ) × (end ≤ length (pairs (begun sizes o c)) / (32 * sizes.chunk) + 1) × Rolls (begun sizes o c) first (F.is_known files.old) (F.bytes files.old) (F.may_hold files.old) × (F.lacks_memory files.new → ⊥)) (F.fault_count files.old) (F.fault_count files.new) result }
{
    let mut count = 0;
    for index in from..end {
        read_area(files, sizes, area, index)?;
        count += put_slots(area, &mut slots[count..]);
    }
    Ok(count)
}
