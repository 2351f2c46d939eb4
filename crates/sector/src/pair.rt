// Numbers of sectors and chunks, and a pair of chunks.

/// The number of a sector of a device, counted from 0. A sector has 512 bytes.
pub type Sector = u64;

/// The number of a chunk of a device, counted from 0. A chunk is a run of sectors, of the store's chunk size.
pub type Chunk = u64;

/// A chunk of the origin, and the chunk of the store that has its copy: what the kernel calls an exception.
#[derive(Clone, Copy, PartialEq, Eq)]
pub struct Pair {
    pub old: Chunk,
    pub new: Chunk,
}
