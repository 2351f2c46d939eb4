// What the first sector of a store may say.

/// What the first sector of a store says, where it is not refused.
#[derive(Clone, Copy, PartialEq, Eq)]
pub enum Found {
    /// Magic number 0: a store without a header yet.
    Fresh,
    /// A good header, with the chunk size in sectors.
    Header { chunk: u32 },
}

/// The magic number: the bytes `SnAp`.
pub const MAGIC: u32 = 0x7041_6e53;

/// The version of the format.
pub const VERSION: u32 = 1;
