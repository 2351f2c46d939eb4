// The pairs that a merge takes next.
ghost use Rattle.std.specs.Prelude.{◌≡◌, ℕ, ◌+◌, ◌-◌, ◌<◌, length, slice_index_or, MatchBool, MatchOption};
ghost use Rattle.store.specs.Held.{committed};
ghost use Rattle.store.specs.Grouping.{Follows, IsGroup};

use crate::Store;
use device::Block;
use exception_arena::Exceptions;
use sector::Pair;

/// Pairs whose chunks both rise by one: what a merge takes at once.
#[derive(Clone, Copy, PartialEq, Eq)]
pub struct Consecutive {
    pub first: Pair,
    /// How many they are.
    pub count: u32,
}

/// Whether both chunks of a pair are those after another pair's.
fn follows(before: Pair, after: Pair) -> bool
    ensures { MatchBool result (Follows before after) (Follows before after → ⊥) }
{
    before.old.checked_add(1) == Some(after.old) && before.new.checked_add(1) == Some(after.new)
}

impl<B: Block> Store<B> {
    /// The group that a merge takes next: the last pair of the current area, and those before it in that area while both
    /// chunks fall by one. `None` where that area has no slot in use.
    pub fn merge_group(&self) -> Option<Consecutive>
        ensures { MatchOption result (self.now.state.filled ≡ 0) (λ run. IsGroup self.now.state.filled (committed self.now.exceptions) run.first run.count) }
    {
        let filled = self.state.filled;
        if filled == 0 {
            return None;
        }
        let len = self.exceptions.len();
        let mut first = self.exceptions.committed_at(len - 1);
        for count in 1..filled {
            let before = self.exceptions.committed_at(len - 1 - count as usize);
            if !follows(before, first) {
                return Some(Consecutive { first, count });
            }
            first = before;
        }
        Some(Consecutive {
            first,
            count: filled,
        })
    }
}
