// An area is searched.
ghost use Rattle.std.specs.Prelude.{◌≡◌, ◌≢◌, ℕ, ◌+◌, ◌*◌, ◌<◌, ◌≤◌, length, slice_index, MatchBool};
ghost use Rattle.cow_format.specs.Slots.{pair_in};
ghost use Rattle.metadata_area.specs.Cleared.{HasTail, HasNoTail};

use crate::Area;
use crate::area::PAIR_BYTES;

impl Area {
    /// The first slot that is empty, or the number of slots where none is.
    pub fn first_empty(&self) -> u32
        ensures within { result ≤ 32 * self.now.chunk }
        ensures used { (k : ℕ) → k < result → (pair_in self.now.bytes.items k).new ≢ 0 }
        ensures empty { result < 32 * self.now.chunk → (pair_in self.now.bytes.items result).new ≡ 0 }
    {
        let slots = self.slots();
        for slot in 0..slots {
            if self.pair(slot).new == 0 {
                return slot;
            }
        }
        slots
    }

    /// Whether a byte other than 0 stands after a slot.
    pub fn has_tail(&self, slot: u32) -> bool
        requires { slot < 32 * self.now.chunk }
        ensures { MatchBool result (HasTail self.now.bytes.items slot) (HasNoTail self.now.bytes.items slot) }
    {
        any_after(
            self.bytes.as_slice(),
            PAIR_BYTES * slot as usize + PAIR_BYTES,
        )
    }
}

/// Whether a byte other than 0 stands from an offset on.
fn any_after(bytes: &[u8], at: usize) -> bool
    requires { at ≤ length bytes.now }
    ensures { MatchBool result ((i : ℕ) × (at ≤ i) × (slice_index bytes.now i ≢ 0)) ((i : ℕ) → at ≤ i → slice_index bytes.now i ≡ 0) }
{
    for byte in &bytes[at..] {
        if *byte != 0 {
            return true;
        }
    }
    false
}
