// Chunks in a row are found.
ghost use Rattle.std.specs.Prelude.{◌≡◌, ℕ, ◌+◌, ◌<◌, ◌≤◌, length, slice_index_or};
ghost use Rattle.sector.specs.declared.pair.Pair.{Pair as PairOf};
ghost use Rattle.cow_image.specs.Sorted.{IsRisingBy, old_of};
ghost use Rattle.cow_image.specs.Runs.{IsRun, IsRow};

use sector::{Chunk, Pair};

/// Chunks in a row that have no copies, or copies in a row.
#[derive(Clone, Copy)]
pub struct Run {
    /// Where the first one's copy is.
    pub place: Option<Chunk>,
    /// How many they are.
    pub chunks: u64,
}

/// How many of the pairs have old chunks that are less than a number.
fn below(pairs: &[Pair], number: Chunk) -> usize
    requires { IsRisingBy old_of pairs.now }
    ensures inside { result ≤ length pairs.now }
    ensures below { (k : ℕ) → (d : PairOf) → k < result → (slice_index_or pairs.now k d).old < number }
    ensures above { (k : ℕ) → (d : PairOf) → result ≤ k → k < length pairs.now → number ≤ (slice_index_or pairs.now k d).old }
{
    let mut low = 0;
    let mut high = pairs.len();
    while low < high {
        let middle = low + (high - low) / 2;
        if pairs[middle].old < number {
            low = middle + 1;
        } else {
            high = middle;
        }
    }
    low
}

/// How many pairs from one on have chunks in a row, old and new, if they are not more than so many.
pub fn row_at(pairs: &[Pair], low: usize, most: u64) -> u64
    requires { low < length pairs.now }
    ensures some { 0 < result }
    ensures few { 0 < most → result ≤ most }
    ensures row { IsRow pairs.now low result }
{
    let first = pairs[low];
    let mut count: u64 = 1;
    while count < most && count < (pairs.len() - low) as u64 {
        let next = pairs[low + count as usize];
        if first.old.checked_add(count) != Some(next.old) {
            return count;
        }
        if first.new.checked_add(count) != Some(next.new) {
            return count;
        }
        count += 1;
    }
    count
}

/// The chunks from one on that have no copies, or copies in a row, of which so many are looked for.
pub fn run_at(pairs: &[Pair], number: Chunk, most: u64) -> Run
    requires { IsRisingBy old_of pairs.now }
    ensures some { 0 < result.chunks }
    ensures run { IsRun pairs.now number result.place result.chunks }
{
    let low = below(pairs, number);
    if low == pairs.len() {
        return Run {
            place: None,
            chunks: u64::MAX,
        };
    }
    let first = pairs[low];
    if first.old != number {
        return Run {
            place: None,
            chunks: first.old - number,
        };
    }
    Run {
        place: Some(first.new),
        chunks: row_at(pairs, low, most),
    }
}
