// Slots are emptied.
ghost use Rattle.std.specs.Prelude.{◌≡◌, ◌⊎◌, ℕ, ◌+◌, ◌*◌, ◌<◌, ◌≤◌, length, replicate};
ghost use Rattle.sector.specs.Bytes.{with_part};
ghost use Rattle.cow_format.specs.Slots.{pair_in};
ghost use Rattle.metadata_area.specs.Cleared.{zero_from, zero_slots, no_pair};

use crate::Area;
use crate::area::PAIR_BYTES;

impl Area {
    /// Zeroes a slot and all that follow it.
    pub fn clear_from(&mut self, slot: u32)
        requires { slot ≤ 32 * self.old.chunk }
        ensures chunk { self.new.chunk ≡ self.old.chunk }
        ensures bytes { self.new.bytes.items ≡ zero_from self.old.bytes.items slot }
        ensures before { (k : ℕ) → k < slot → pair_in self.new.bytes.items k ≡ pair_in self.old.bytes.items k }
        ensures cleared { (k : ℕ) → slot ≤ k → pair_in self.new.bytes.items k ≡ no_pair }
    {
        zero_after(self.bytes.as_mut_slice(), slot as usize);
    }

    /// Zeroes so many slots from one on, and leaves those that follow them.
    pub fn clear(&mut self, slot: u32, count: u32)
        requires { slot + count ≤ 32 * self.old.chunk }
        ensures chunk { self.new.chunk ≡ self.old.chunk }
        ensures bytes { self.new.bytes.items ≡ zero_slots self.old.bytes.items slot count }
        ensures others { (k : ℕ) → (k < slot) ⊎ (slot + count ≤ k) → pair_in self.new.bytes.items k ≡ pair_in self.old.bytes.items k }
        ensures cleared { (k : ℕ) → slot ≤ k → k < slot + count → pair_in self.new.bytes.items k ≡ no_pair }
    {
        zero_some(self.bytes.as_mut_slice(), slot as usize, count as usize);
    }

    /// Zeroes what follows a slot, and leaves the slot itself.
    pub fn clear_tail(&mut self, slot: u32)
        requires { slot < 32 * self.old.chunk }
        ensures chunk { self.new.chunk ≡ self.old.chunk }
        ensures bytes { self.new.bytes.items ≡ zero_from self.old.bytes.items (slot + 1) }
        ensures before { (k : ℕ) → k ≤ slot → pair_in self.new.bytes.items k ≡ pair_in self.old.bytes.items k }
        ensures cleared { (k : ℕ) → slot < k → pair_in self.new.bytes.items k ≡ no_pair }
    {
        zero_after(self.bytes.as_mut_slice(), slot as usize + 1);
    }
}

/// Zeroes a slot of an area's bytes and all that follow it.
fn zero_after(bytes: &mut [u8], slot: usize)
    requires { 16 * slot ≤ length bytes.old }
    ensures len { length bytes.new ≡ length bytes.old }
    ensures bytes { bytes.new ≡ zero_from bytes.old slot }
    ensures before { (k : ℕ) → k < slot → pair_in bytes.new k ≡ pair_in bytes.old k }
    ensures cleared { (k : ℕ) → slot ≤ k → pair_in bytes.new k ≡ no_pair }
{
    let at = PAIR_BYTES * slot;
    let count = bytes.len() - at;
    zero_bytes(bytes, at, count);
}

/// Zeroes so many slots of an area's bytes from one on.
fn zero_some(bytes: &mut [u8], slot: usize, count: usize)
    requires { 16 * (slot + count) ≤ length bytes.old }
    ensures len { length bytes.new ≡ length bytes.old }
    ensures bytes { bytes.new ≡ zero_slots bytes.old slot count }
    ensures others { (k : ℕ) → (k < slot) ⊎ (slot + count ≤ k) → pair_in bytes.new k ≡ pair_in bytes.old k }
    ensures cleared { (k : ℕ) → slot ≤ k → k < slot + count → pair_in bytes.new k ≡ no_pair }
{
    zero_bytes(bytes, PAIR_BYTES * slot, PAIR_BYTES * count);
}

/// Zeroes so many bytes from an offset on.
fn zero_bytes(bytes: &mut [u8], at: usize, count: usize)
    requires { at + count ≤ length bytes.old }
    ensures len { length bytes.new ≡ length bytes.old }
    ensures bytes { bytes.new ≡ with_part bytes.old at (replicate count 0) }
{
    // Those of one slot, the usual number, need no loop.
    if count == PAIR_BYTES {
        bytes[at..at + PAIR_BYTES].fill(0);
        return;
    }
    bytes[at..at + count].fill(0);
}
