// Text put into a room from its end to its beginning, as numbers are made: what is put there first ends it.
ghost use Rattle.std.specs.Prelude.{◌≡◌, ◌+◌, ◌≤◌, ◌++◌, drop, length, decimal};

use itoa::write_digits;

/// Puts some bytes before a place, and tells where they begin.
#[inline(always)]
pub fn put(room: &mut [u8], end: usize, bytes: &[u8]) -> usize
    requires within { end ≤ length room.old }
    requires space { length bytes.now ≤ end }
    ensures start { result + length bytes.now ≡ end }
    ensures written { drop result room.new ≡ bytes.now ++ drop end room.old }
{
    let start = end - bytes.len();
    room[start..end].copy_from_slice(bytes);
    start
}

/// Puts the digits of a number before a place, and tells where they begin.
#[tactic(auto, using(crate::proofs::Digits::short_digits))]
pub fn put_number(room: &mut [u8], end: usize, number: u64) -> usize
    requires within { end ≤ length room.old }
    requires space { 20 ≤ end }
    ensures start { result + length (decimal number) ≡ end }
    ensures written { drop result room.new ≡ decimal number ++ drop end room.old }
    ensures short { length (decimal number) ≤ 20 }
{
    write_digits(number, room, end)
}
