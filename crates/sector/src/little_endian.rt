// The little-endian numbers of a store's bytes, read and written at an offset: `number_at` says each, so many bytes from an
// offset on, the lowest first.
ghost use Rattle.std.specs.Prelude.{◌≡◌, ◌⊎◌, ℕ, ◌+◌, ◌<◌, ◌≤◌, length, slice_index};
ghost use Rattle.sector.specs.Bytes.{with_part};
ghost use Rattle.sector.specs.Number.{number_at, number_bytes};

use byteorder::{ByteOrder, LittleEndian};

/// The number in the four bytes from an offset on.
#[tactic(auto, using(crate::proofs::Endian::number_read))]
pub fn u32_at(bytes: &[u8], at: usize) -> u32
    requires { at + 4 ≤ length bytes.now }
    ensures { result ≡ number_at bytes.now at 4 }
{
    LittleEndian::read_u32(&bytes[at..])
}

/// The number in the eight bytes from an offset on.
#[tactic(auto, using(crate::proofs::Endian::number_read))]
pub fn u64_at(bytes: &[u8], at: usize) -> u64
    requires { at + 8 ≤ length bytes.now }
    ensures { result ≡ number_at bytes.now at 8 }
{
    LittleEndian::read_u64(&bytes[at..])
}

/// Writes a number into the four bytes from an offset on, and changes no other byte.
#[tactic(auto, using(std::proofs::lemmas::List::places))]
pub fn put_u32(bytes: &mut [u8], at: usize, number: u32)
    requires { at + 4 ≤ length bytes.old }
    ensures all { bytes.new ≡ with_part bytes.old at (number_bytes 4 number) }
    ensures here { number_at bytes.new at 4 ≡ number }
    ensures rest { (i : ℕ) → (i < at) ⊎ (at + 4 ≤ i) → slice_index bytes.new i ≡ slice_index bytes.old i }
{
    LittleEndian::write_u32(&mut bytes[at..], number);
}

/// Writes a number into the eight bytes from an offset on, and changes no other byte.
#[tactic(auto, using(std::proofs::lemmas::List::places))]
pub fn put_u64(bytes: &mut [u8], at: usize, number: u64)
    requires { at + 8 ≤ length bytes.old }
    ensures all { bytes.new ≡ with_part bytes.old at (number_bytes 8 number) }
    ensures here { number_at bytes.new at 8 ≡ number }
    ensures rest { (i : ℕ) → (i < at) ⊎ (at + 8 ≤ i) → slice_index bytes.new i ≡ slice_index bytes.old i }
{
    LittleEndian::write_u64(&mut bytes[at..], number);
}
