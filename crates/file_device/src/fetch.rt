// Sectors of a file are read, and found among bytes.
ghost use Rattle.std.specs.Prelude.{◌≡◌, ◌+◌, ◌*◌, ◌≤◌, ◌∷◌, length, take, Some, None, if◌then◌else◌};
ghost use Rattle.sector.specs.Bytes.{sectors_at};
ghost use Rattle.file_calls.specs.Calls.{Read};

use file_calls::FileCalls;
use sector::{Range, SECTOR_BYTES};

/// Reads sectors of a file to the front of some bytes, and says whether it could.
pub(crate) fn fetch<C: FileCalls>(file: &mut C, range: Range, all: &mut [u8]) -> bool
    requires near { range.first + range.count ≤ 2_147_483_648 }
    requires room { 512 * range.count ≤ length all.old }
    ensures len { length all.new ≡ length all.old }
    ensures noted { C.history file.new ≡ Read (512 * range.first) (512 * range.count) (if result then Some (take (512 * range.count) all.new) else None) ∷ C.history file.old }
{
    let len = range.count as usize * SECTOR_BYTES;
    file.read_at(range.first * 512, &mut all[..len]).is_ok()
}

/// The bytes of sectors.
pub(crate) fn part(all: &[u8], first: usize, count: usize) -> &[u8]
    requires { 512 * (first + count) ≤ length all.now }
    ensures { result.now ≡ sectors_at all.now first count }
{
    let from = first * SECTOR_BYTES;
    &all[from..from + count * SECTOR_BYTES]
}
