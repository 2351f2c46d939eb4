// Where the list of a store's pairs ends.
ghost use Rattle.std.specs.Prelude.{◌≡◌, ◌≢◌, ℕ, ◌<◌, ◌≤◌, length, slice_index_or};
ghost use Rattle.cow_salvage.specs.declared.using.Slot.{Slot as SlotOf};

use crate::Slot;

/// How many of a store's slots that are not empty come before the first that is: slot 0 is the first of them, and each
/// other one follows the one before.
pub fn front_of(slots: &[Slot]) -> usize
    ensures few { result ≤ length slots.now }
    ensures each { (k : ℕ) → (d : SlotOf) → k < result → (slice_index_or slots.now k d).number ≡ k }
    ensures ends { (d : SlotOf) → result < length slots.now → (slice_index_or slots.now result d).number ≢ result }
{
    for (index, slot) in slots.iter().enumerate() {
        if slot.number != index as u64 {
            return index;
        }
    }
    slots.len()
}
