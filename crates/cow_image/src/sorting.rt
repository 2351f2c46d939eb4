// Pairs are put in the order of their chunks.
ghost use Rattle.std.specs.Prelude.{◌≡◌, ℕ, ◌+◌, ◌<◌, length, slice_index_or, MatchOption};
ghost use Rattle.std.specs.List.Sorted.{IsPermutation, IsNonDecreasingBy};
ghost use Rattle.cow_image.specs.Sorted.{IsRisingBy, StandsTwice, old_of, new_of};

use sector::{Chunk, Pair};

/// Puts pairs in the order of their old chunks, and tells one that stands in two of them.
pub fn sort_by_old(pairs: &mut Vec<Pair>) -> Option<Chunk>
    ensures moved { IsPermutation pairs.old.items pairs.new.items }
    ensures rising { MatchOption result (IsRisingBy old_of pairs.new.items) (StandsTwice old_of pairs.new.items) }
{
    pairs.sort_unstable_by_key(|pair| pair.old);
    twice_old(pairs.as_slice())
}

/// Puts pairs in the order of their new chunks, and tells one that stands in two of them.
pub fn sort_by_new(pairs: &mut Vec<Pair>) -> Option<Chunk>
    ensures moved { IsPermutation pairs.old.items pairs.new.items }
    ensures rising { MatchOption result (IsRisingBy new_of pairs.new.items) (StandsTwice new_of pairs.new.items) }
{
    pairs.sort_unstable_by_key(|pair| pair.new);
    twice_new(pairs.as_slice())
}

/// The first old chunk that is the next pair's too.
fn twice_old(pairs: &[Pair]) -> Option<Chunk>
    requires { IsNonDecreasingBy old_of pairs.now }
    ensures { MatchOption result (IsRisingBy old_of pairs.now) (StandsTwice old_of pairs.now) }
{
    for index in 1..pairs.len() {
        if pairs[index].old == pairs[index - 1].old {
            return Some(pairs[index].old);
        }
    }
    None
}

/// The first new chunk that is the next pair's too.
fn twice_new(pairs: &[Pair]) -> Option<Chunk>
    requires { IsNonDecreasingBy new_of pairs.now }
    ensures { MatchOption result (IsRisingBy new_of pairs.now) (StandsTwice new_of pairs.now) }
{
    for index in 1..pairs.len() {
        if pairs[index].new == pairs[index - 1].new {
            return Some(pairs[index].new);
        }
    }
    None
}
