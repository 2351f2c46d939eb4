// Ranges of bytes.
ghost use Rattle.std.specs.Prelude.{◌≡◌, ◌+◌};
ghost use Rattle.snapshot_extents.specs.Ranges.{goes_on as goes_on_by};

/// A range of bytes of a snapshot's array.
#[derive(Clone, Copy, PartialEq, Eq)]
pub struct Range {
    /// The byte of the array where it begins.
    pub start: u64,
    /// How many bytes it has.
    pub count: u64,
    /// The byte of the store where its copy begins, or none where it stands in the origin, at the same byte as in the array.
    pub copy: Option<u64>,
}

impl Range {
    /// Whether another range, which begins where this one ends, goes on with it.
    pub(crate) fn goes_on(self, next: Range) -> bool
        ensures { result ≡ goes_on_by self next }
    {
        match (self.copy, next.copy) {
            (None, None) => true,
            (Some(copy), Some(next)) => copy.checked_add(self.count) == Some(next),
            _ => false,
        }
    }
}
