// Whole sectors of bytes.
ghost use Rattle.std.specs.Prelude.{◌≡◌, ◌⊎◌, ℕ, ◌+◌, ◌*◌, ◌<◌, ◌≤◌, ◌++◌, length, slice_index, vec_capacity};
ghost use Rattle.sector.specs.Bytes.{sectors_at, with_sectors};

use sector::SECTOR_BYTES;

/// The bytes of sectors.
pub fn sectors_of(all: &[u8], first: usize, count: usize) -> &[u8]
    requires { 512 * (first + count) ≤ length all.now }
    ensures { result.now ≡ sectors_at all.now first count }
{
    let from = first * SECTOR_BYTES;
    &all[from..from + count * SECTOR_BYTES]
}

/// Writes whole sectors from sector `first` on.
#[tactic(auto, using(sector::proofs::Sectors::bytes_after))]
pub fn write_sectors(all: &mut [u8], first: usize, bytes: &[u8])
    requires { 512 * first + length bytes.now ≤ length all.old }
    ensures all { all.new ≡ with_sectors all.old first bytes.now }
    ensures rest { (i : ℕ) → (i < 512 * first) ⊎ (512 * first + length bytes.now ≤ i) → slice_index all.new i ≡ slice_index all.old i }
{
    let from = first * SECTOR_BYTES;
    all[from..from + bytes.len()].copy_from_slice(bytes);
}

/// Adds bytes at the end, where there is room for them. It takes no memory.
#[inline(always)]
pub fn append(all: &mut Vec<u8>, bytes: &[u8])
    requires { length all.old.items + length bytes.now ≤ vec_capacity all.old }
    ensures items { all.new.items ≡ all.old.items ++ bytes.now }
    ensures room { vec_capacity all.old ≤ vec_capacity all.new }
{
    let _ = all.extend_from_slice(bytes);
}
