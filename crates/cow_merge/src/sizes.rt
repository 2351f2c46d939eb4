// How large an origin and its store are.
ghost use Rattle.std.specs.Prelude.{ℕ, ◌<◌, ◌≤◌};

/// How large an origin and its store are, in sectors.
#[derive(Clone, Copy)]
pub struct Sizes {
    /// A chunk.
    pub chunk: u32,
    /// The origin.
    pub origin: u64,
    /// The store.
    pub store: u64,
    pub ghost some: { 0 < chunk },
    pub ghost allowed: { chunk ≤ 1024 },
    pub ghost small: { store ≤ 68_719_476_736 },
}
