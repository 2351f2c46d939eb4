// Numbers of sectors.
ghost use Rattle.std.specs.Prelude.{◌≡◌, ◌≢◌, ◌≤◌, ◌<◌, ◌+◌, ◌*◌, length, MatchResult, IfErr, IfOk, OnOk, Ok, Err};
ghost use Rattle.sector.specs.declared.refusal.Refusal.TheVariants.{JournalFull};
ghost use Rattle.command.specs.Words.{sectors_of};
ghost use Rattle.command_semantics.specs.Raw.{fits, whole};

use sector::{Range, Refusal, SECTOR_BYTES};

/// The most sectors that one command reads or writes.
const MOST_SECTORS: usize = 2048;

/// A number of sectors that one command may move: 1 to 2048, else `OutOfRange`.
pub fn some_sectors(count: u32) -> Result<u32, Refusal>
    ensures value { result ≡ sectors_of count }
    ensures same { IfOk result (λ n. n ≡ count) }
    ensures some { IfOk result (λ n. 0 < n) }
    ensures few { IfOk result (λ n. n ≤ 2048) }
    ensures room { IfErr result (λ e. e ≢ JournalFull) }
{
    if 0 < count && count <= MOST_SECTORS as u32 {
        Ok(count)
    } else {
        Err(Refusal::OutOfRange)
    }
}

/// How many sectors some bytes are: `BadTable` where they are not whole ones, then `OutOfRange` outside 1 to 2048.
pub fn whole_sectors(bytes: &[u8]) -> Result<u32, Refusal>
    ensures value { result ≡ whole bytes.now }
    ensures whole { IfOk result (λ n. length bytes.now ≡ 512 * n) }
    ensures some { IfOk result (λ n. 0 < n) }
    ensures room { IfErr result (λ e. e ≢ JournalFull) }
{
    if bytes.len() % SECTOR_BYTES != 0 {
        return Err(Refusal::BadTable);
    }
    let count = bytes.len() / SECTOR_BYTES;
    if 0 < count && count <= MOST_SECTORS {
        Ok(count as u32)
    } else {
        Err(Refusal::OutOfRange)
    }
}

/// The sectors from `first` on of a device of `size` sectors. `OutOfRange` where they don't lie inside it.
pub fn range_in(size: u64, first: u32, count: u32) -> Result<Range, Refusal>
    ensures value { MatchResult result (λ _. fits size first count ≡ Ok tt) (λ e. fits size first count ≡ Err e) }
    ensures first { IfOk result (λ r. r.first ≡ first) }
    ensures count { IfOk result (λ r. r.count ≡ count) }
    ensures size { IfOk result (λ r. r.size ≡ size) }
    ensures inside { IfOk result (λ r. first + count ≤ size) }
{
    Range::new(u64::from(first), count, size)
}
