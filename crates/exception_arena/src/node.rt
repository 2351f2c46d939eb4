// The nodes of the arena.
ghost use Rattle.std.specs.Prelude.{◌≡◌};
ghost use Rattle.exception_arena.specs.Links.{pair_of};

use crate::link::Link;
use sector::Pair;

/// A committed pair, and the newest node before it whose old chunk belongs into the same bucket. Chunks are below 2^32, so
/// that it takes 12 bytes.
#[derive(Clone, Copy, PartialEq, Eq)]
pub struct Node {
    pub old: u32,
    pub new: u32,
    pub next: Link,
}

impl Node {
    /// Its pair.
    pub fn pair(self) -> Pair
        ensures { result ≡ pair_of self }
    {
        Pair {
            old: self.old as u64,
            new: self.new as u64,
        }
    }
}
