// Where a name stands.

/// What a name is in a volume.
#[derive(Clone, Copy)]
pub enum Role {
    /// The origin.
    Origin,
    /// The device so deep in the stack under the origin, counted from its top, from 0.
    Under(usize),
    /// The snapshot at this place of the order of attaching.
    Snapshot(usize),
    /// The device so deep in the stack of that snapshot's store.
    Store(usize, usize),
    /// The snapshot that is being merged into the origin.
    Merging,
    /// The device so deep in the stack of that snapshot's store.
    MergingStore(usize),
}

/// Where a device stands.
#[derive(Clone, Copy)]
pub enum Place {
    /// It stands in the stack at this place among those that nothing uses, so deep from its top.
    Free(usize, usize),
    /// It has this role in the volume at this place.
    In(usize, Role),
}
