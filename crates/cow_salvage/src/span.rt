// Runs of sectors.
ghost use Rattle.std.specs.Prelude.{◌+◌, ◌≤◌};

/// A run of sectors of an image.
#[derive(Clone, Copy, PartialEq, Eq)]
pub struct Span {
    pub first: u64,
    pub count: u64,
    pub ghost small: { first + count ≤ 68_719_476_736 },
}
