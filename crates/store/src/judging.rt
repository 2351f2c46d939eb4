// Whether pairs are well formed.
ghost use Rattle.std.specs.Prelude.{◌≡◌, ◌↔◌, ℕ, ◌+◌, ◌*◌, ◌<◌, ◌≤◌, ◌^◌, List, length, map, replicate, slice_index_or, slice_set, false, true, IfOk, IfErr, MatchBool, IsTrue, AllPairs};
ghost use Rattle.std.specs.List.{All};
ghost use Rattle.sector.specs.declared.refusal.Refusal.TheVariants.{NoMemory};
ghost use Rattle.cow_format.specs.Pairs.{IsApart, IsInside};
ghost use Rattle.chunk_alloc.specs.Greatest.{IsGreatest};
ghost use Rattle.store.specs.Stored.{new_of, old_of};

use cow_format::is_area_place;
use sector::{Chunk, Pair, Refusal};
use std::alloc::Global;

/// Whether each pair's chunks are there, and no chunk stands in two of them. `NoMemory` where memory for as many numbers
/// is refused.
pub fn are_formed(
    alloc: Global,
    chunk: u32,
    origin: u64,
    size: u64,
    pairs: &[Pair],
) -> Result<bool, Refusal>
    requires some { 0 < chunk }
    requires allowed { chunk ≤ 1024 }
    requires small { size ≤ 2_147_483_648 }
    ensures formed { IfOk result (λ formed. MatchBool formed (All (IsInside chunk origin size) pairs.now × AllPairs IsApart pairs.now) (All (IsInside chunk origin size) pairs.now → AllPairs IsApart pairs.now → ⊥)) }
    ensures refusal { IfErr result (λ e. e ≡ NoMemory) }
    ensures starved { IfErr result (λ _. All (IsInside chunk origin size) pairs.now) }
{
    if !are_inside(chunk, origin, size, pairs) {
        return Ok(false);
    }
    are_apart(alloc, pairs)
}

/// Whether each pair's chunks are there.
fn are_inside(chunk: u32, origin: u64, size: u64, pairs: &[Pair]) -> bool
    requires some { 0 < chunk }
    requires allowed { chunk ≤ 1024 }
    requires small { size ≤ 2_147_483_648 }
    ensures { MatchBool result (All (IsInside chunk origin size) pairs.now) (All (IsInside chunk origin size) pairs.now → ⊥) }
{
    for pair in pairs {
        if !is_inside(chunk, origin, size, *pair) {
            return false;
        }
    }
    true
}

/// Whether a chunk begins before an end, which is a number of sectors.
fn begins_before(chunk: u32, number: Chunk, end: u64) -> bool
    ensures { IsTrue result ↔ (chunk * number < end) }
{
    match number.checked_mul(chunk as u64) {
        Some(first) => first < end,
        None => false,
    }
}

/// Whether a pair's chunks are there.
fn is_inside(chunk: u32, origin: u64, size: u64, pair: Pair) -> bool
    requires some { 0 < chunk }
    requires allowed { chunk ≤ 1024 }
    requires small { size ≤ 2_147_483_648 }
    ensures { IsTrue result ↔ IsInside chunk origin size pair }
{
    begins_before(chunk, pair.old, origin)
        && 0 < pair.new
        && pair.new < size / chunk as u64
        && !is_area_place(chunk, pair.new)
}

/// Whether no chunk stands in two of the pairs. `NoMemory` where a byte for each chunk up to the greatest is refused.
fn are_apart(alloc: Global, pairs: &[Pair]) -> Result<bool, Refusal>
    requires old { All (λ pair. pair.old + 1 < 2 ^ 64) pairs.now }
    requires new { All (λ pair. pair.new + 1 < 2 ^ 64) pairs.now }
    ensures apart { IfOk result (λ apart. MatchBool apart (AllPairs IsApart pairs.now) (AllPairs IsApart pairs.now → ⊥)) }
    ensures refusal { IfErr result (λ e. e ≡ NoMemory) }
{
    let mut olds = no_marks(alloc, greatest_old(pairs))?;
    let mut news = no_marks(alloc, greatest_new(pairs))?;
    for pair in pairs {
        if mark(&mut olds, pair.old) {
            return Ok(false);
        }
        if mark(&mut news, pair.new) {
            return Ok(false);
        }
    }
    Ok(true)
}

/// A mark for each number up to the greatest, none of which is set.
fn no_marks(alloc: Global, greatest: u64) -> Result<Vec<bool>, Refusal>
    requires { greatest + 1 < 2 ^ 64 }
    ensures marks { IfOk result (λ marks. marks.items ≡ replicate (greatest + 1) false) }
    ensures refusal { IfErr result (λ e. e ≡ NoMemory) }
{
    match vec![in alloc; false; greatest as usize + 1] {
        Ok(marks) => Ok(marks),
        Err(_) => Err(Refusal::NoMemory),
    }
}

/// Sets a number's mark, and says whether it was set.
fn mark(marks: &mut Vec<bool>, number: u64) -> bool
    requires { number < length marks.old.items }
    ensures was { result ≡ slice_index_or marks.old.items number false }
    ensures marks { marks.new.items ≡ slice_set marks.old.items number true }
{
    let was = marks[number as usize];
    marks[number as usize] = true;
    was
}

/// The greatest old chunk of the pairs, or 1 where none is greater.
fn greatest_old(pairs: &[Pair]) -> Chunk
    ensures { IsGreatest (map old_of pairs.now) result }
{
    let mut greatest: u64 = 1;
    for pair in pairs {
        greatest = greatest.max(pair.old);
    }
    greatest
}

/// The greatest new chunk of the pairs, or 1 where there is none.
pub fn greatest_new(pairs: &[Pair]) -> Chunk
    ensures { IsGreatest (map new_of pairs.now) result }
{
    let mut greatest: u64 = 1;
    for pair in pairs {
        greatest = greatest.max(pair.new);
    }
    greatest
}
