// Whether pairs are well formed.
ghost use Rattle.std.specs.Prelude.{◌≡◌, ◌↔◌, ◌⊎◌, ℕ, ◌+◌, ◌*◌, ◌<◌, ◌≤◌, IsTrue, MatchBool, AllPairs};
ghost use Rattle.std.specs.List.{All};
ghost use Rattle.std.specs.List.Sorted.{IsPermutation};
ghost use Rattle.cow_format.specs.Pairs.{IsApart, IsInside};
ghost use Rattle.cow_image.specs.Sorted.{IsRisingBy, old_of};

use crate::sorting::{sort_by_new, sort_by_old};
use cow_format::is_area_place;
use sector::{Chunk, Pair};

/// Judges pairs, for an origin and a store of so many sectors: whether each pair's chunks are there, and no chunk stands
/// in two of them. It leaves pairs that are well formed in the order of their old chunks, and others in any.
pub fn judge(chunk: u32, origin: u64, size: u64, pairs: &mut Vec<Pair>) -> bool
    requires some { 0 < chunk }
    requires allowed { chunk ≤ 1024 }
    ensures moved { IsPermutation pairs.old.items pairs.new.items }
    ensures rising { MatchBool result (IsRisingBy old_of pairs.new.items) (Unit {0}) }
    ensures formed { MatchBool result (All (IsInside chunk origin size) pairs.old.items × AllPairs IsApart pairs.old.items) (All (IsInside chunk origin size) pairs.old.items → AllPairs IsApart pairs.old.items → ⊥) }
{
    if !are_inside(chunk, origin, size, pairs.as_slice()) {
        return false;
    }
    if let Some(_) = sort_by_new(pairs) {
        return false;
    }
    if let Some(_) = sort_by_old(pairs) {
        return false;
    }
    true
}

/// Whether each pair's chunks are there.
fn are_inside(chunk: u32, origin: u64, size: u64, pairs: &[Pair]) -> bool
    requires some { 0 < chunk }
    requires allowed { chunk ≤ 1024 }
    ensures { MatchBool result (All (IsInside chunk origin size) pairs.now) (All (IsInside chunk origin size) pairs.now → ⊥) }
{
    for pair in pairs {
        if !is_inside(chunk, origin, size, *pair) {
            return false;
        }
    }
    true
}

/// Whether a pair's chunks are there.
fn is_inside(chunk: u32, origin: u64, size: u64, pair: Pair) -> bool
    requires some { 0 < chunk }
    requires allowed { chunk ≤ 1024 }
    ensures { IsTrue result ↔ IsInside chunk origin size pair }
{
    begins_before(chunk, pair.old, origin)
        && lies_within(chunk, size, pair.new)
        && !is_area_place(chunk, pair.new)
}

/// Whether a chunk begins before an end, which is a number of sectors.
pub fn begins_before(chunk: u32, number: Chunk, end: u64) -> bool
    ensures { IsTrue result ↔ (chunk * number < end) }
{
    match number.checked_mul(chunk as u64) {
        Some(first) => first < end,
        None => false,
    }
}

/// Whether a chunk of a store lies wholly inside it, past the header.
pub fn lies_within(chunk: u32, size: u64, number: Chunk) -> bool
    requires { 0 < chunk }
    ensures { MatchBool result ((0 < number) × (chunk * (number + 1) ≤ size)) ((number ≡ 0) ⊎ (size < chunk * (number + 1))) }
{
    0 < number && number < size / chunk as u64
}
