// What leads from one node to the next.
ghost use Rattle.std.specs.Prelude.{◌≡◌, ◌+◌, ◌<◌, ◌^◌, MatchOption};
ghost use Rattle.exception_arena.specs.Links.{nowhere, to};

/// Where a node leads to: to the node at a place of the arena, or nowhere. It takes 4 bytes, and 0 is nowhere, so that
/// places are below 2^32 - 1.
#[derive(Clone, Copy, PartialEq, Eq)]
pub struct Link {
    // One more than the place, or 0.
    code: u32,
}

impl Link {
    /// The link that leads nowhere.
    pub const NOWHERE: Link = Link { code: 0 };

    /// The link to the node at a place.
    pub fn to(place: usize) -> Link
        requires { place + 1 < 2 ^ 32 }
        ensures { result ≡ to place }
    {
        Link {
            code: place as u32 + 1,
        }
    }

    /// The place that the link leads to, if it leads anywhere.
    pub fn target(self) -> Option<usize>
        ensures { MatchOption result (self ≡ nowhere) (λ place. self ≡ to place) }
    {
        if self.code == 0 {
            return None;
        }
        Some(self.code as usize - 1)
    }
}
