// The numbers that a snapshot's status line prints.

/// How much of a store is in use. All three are in sectors.
#[derive(Clone, Copy, PartialEq, Eq)]
pub struct Usage {
    /// The front of the store, up to the next place. It may pass `total`, since the place after the last one inside
    /// the store may be an area's, which is stepped over all the same.
    pub allocated: u64,
    /// The whole store.
    pub total: u64,
    /// The header and the areas up to the current one.
    pub metadata: u64,
}
