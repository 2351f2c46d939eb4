// What a store knows of itself, besides its pairs and the bytes of its current area.

/// What is left of a load's writes. Before each of them, and once more after the last, the store is flushed.
#[derive(Clone, Copy, PartialEq, Eq)]
pub enum Left {
    /// The store is fresh: area 0 is to be zeroed, and then the header is to be written.
    FirstArea,
    /// Area 0 of a fresh store is zeroed, and its header is to be written.
    HeaderChunk,
    /// The current area has bytes other than 0 after its first empty slot, and is to be written with that tail zero.
    Tail,
    /// Nothing.
    Nothing,
}

/// What a store knows of itself, besides its pairs and the bytes of its current area.
#[derive(Clone, Copy, PartialEq, Eq)]
pub struct State {
    /// The sectors of a chunk.
    pub chunk: u32,
    /// The sectors of the origin.
    pub origin: u64,
    /// The sectors of the store.
    pub size: u64,
    /// The number of the current area, which is in memory.
    pub current: u64,
    /// How many of its slots are in use; the others are empty.
    pub filled: u32,
    /// Whether the area after the current one is zeroed.
    pub zeroed: bool,
    /// Whether it is, and the store was flushed since.
    pub firm: bool,
    /// How many of the pairs that are committed were flushed.
    pub sure: u64,
    /// What is left of the load's writes.
    pub left: Left,
    /// Whether a flush of the load is left, before its next write or before the store is ready.
    pub awaits: bool,
    /// Whether copies may start. None starts after a spoil, nor after a merge's commit.
    pub copying: bool,
    /// Whether its header was not marked invalid.
    pub valid: bool,
}
