// Areas of the store are zeroed.
ghost use Rattle.std.specs.Prelude.{◌≡◌, ℕ, ◌+◌, ◌*◌, ◌-◌, ◌/◌, ◌<◌, ◌≤◌, List, length, replicate, OnOk};
ghost use Rattle.image.specs.Stops.{HasCause};
ghost use Rattle.cow_merge.specs.Begun.{begun};
ghost use Rattle.cow_merge.specs.Holding.{Rolls, Passes, Clears, IsZero, Begin, pairs};

use crate::copying::STORE;
use crate::{Sizes, Stopped};
use image::FileSet;

/// Zeroes an area.
fn clear_area<F: FileSet>(
    files: &mut F,
    sizes: Sizes,
    zeros: &[u8],
    index: u64,
) -> Result<(), Stopped>
    requires zeros { zeros.now ≡ replicate (512 * sizes.chunk) 0 }
    requires low { index < sizes.store }
    ensures passes { (o c : List ℕ) (from : ℕ) → from ≤ index → Rolls (begun sizes o c) from (F.is_known files.old) (F.bytes files.old) (F.may_hold files.old) → Passes (begun sizes o c) (F.moment files.old) (F.moment files.new) (F.left_since files.old) (F.left_since files.new) (F.is_known files.new) (F.bytes files.new) (F.may_hold files.new) }
    ensures clears { OnOk result ((o c : List ℕ) (from : ℕ) → from ≤ index → Rolls (begun sizes o c) from (F.is_known files.old) (F.bytes files.old) (F.may_hold files.old) → Clears (begun sizes o c) from (F.is_known files.new) (F.bytes files.old) (F.bytes files.new) (F.may_hold files.old) (F.may_hold files.new) (F.will_last files.old) (F.will_last files.new)) }
    ensures zero { OnOk result ((o c : List ℕ) (from : ℕ) → from ≤ index → Rolls (begun sizes o c) from (F.is_known files.old) (F.bytes files.old) (F.may_hold files.old) → IsZero sizes.chunk (F.bytes files.new 1) (F.will_last files.new) index) }
    ensures cause { HasCause ((o : List ℕ) × (c : List ℕ) × (from : ℕ) × (from ≤ index) × (index ≤ length (pairs (begun sizes o c)) / (32 * sizes.chunk)) × Rolls (begun sizes o c) from (F.is_known files.old) (F.bytes files.old) (F.may_hold files.old) × (F.lacks_memory files.new → ⊥)) (F.fault_count files.old) (F.fault_count files.new) result }
{
    let chunk = sizes.chunk as u64;
    let place = index * (32 * chunk + 1) + 1;
    if sizes.store < chunk * (place + 1) {
        return Err(Stopped::Changed);
    }
    files.write_at(STORE, chunk * place, zeros)?;
    Ok(())
}

/// Zeroes areas, from one on and up to another, the last one first.
pub fn clear_areas<F: FileSet>(
    files: &mut F,
    sizes: Sizes,
    zeros: &[u8],
    from: u64,
    end: u64,
) -> Result<(), Stopped>
    requires zeros { zeros.now ≡ replicate (512 * sizes.chunk) 0 }
    requires low { end ≤ sizes.store }
    ensures passes { (o c : List ℕ) (first : ℕ) → first ≤ from → Rolls (begun sizes o c) first (F.is_known files.old) (F.bytes files.old) (F.may_hold files.old) → Passes (begun sizes o c) (F.moment files.old) (F.moment files.new) (F.left_since files.old) (F.left_since files.new) (F.is_known files.new) (F.bytes files.new) (F.may_hold files.new) }
    ensures clears { OnOk result ((o c : List ℕ) (first : ℕ) → first ≤ from → Rolls (begun sizes o c) first (F.is_known files.old) (F.bytes files.old) (F.may_hold files.old) → Clears (begun sizes o c) first (F.is_known files.new) (F.bytes files.old) (F.bytes files.new) (F.may_hold files.old) (F.may_hold files.new) (F.will_last files.old) (F.will_last files.new)) }
    ensures zero { OnOk result ((o c : List ℕ) (first : ℕ) → first ≤ from → Rolls (begun sizes o c) first (F.is_known files.old) (F.bytes files.old) (F.may_hold files.old) → (area : ℕ) → from ≤ area → area < end → IsZero sizes.chunk (F.bytes files.new 1) (F.will_last files.new) area) }
    ensures cause { HasCause ((o : List ℕ) × (c : List ℕ) × (first : ℕ) × (first ≤ from) × (end ≤ length (pairs (begun sizes o c)) / (32 * sizes.chunk) + 1) × Rolls (begun sizes o c) first (F.is_known files.old) (F.bytes files.old) (F.may_hold files.old) × (F.lacks_memory files.new → ⊥)) (F.fault_count files.old) (F.fault_count files.new) result }
{
    let mut index = end;
    while from < index {
        index -= 1;
        clear_area(files, sizes, zeros, index)?;
    }
    Ok(())
}
