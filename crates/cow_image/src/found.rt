// What a store's bytes are read as.

use crate::{CowMap, Fault};
use sector::Refusal;

/// Why a store is refused: what a load asks of it first, and does not find.
#[derive(Clone, Copy, PartialEq, Eq)]
pub enum Reason {
    /// The store has no sector.
    Empty,
    /// The first sector is no good header: `BadHeader`, `BadVersion`, `BadChunk` or `Invalid`.
    Header(Refusal),
    /// The store is smaller than two of its chunks, which have so many sectors.
    TooSmall(u32),
    /// The store has no header yet, and less than two sectors: it is smaller than two chunks of any size.
    NoRoom,
    /// All areas before this one are full, and it does not lie wholly inside the store.
    NoArea(u64),
    /// The pairs are not well formed: the first of all faults.
    Pairs(Fault),
}

/// What a store's bytes are read as.
#[derive(Drop)]
pub enum Told {
    /// A store without a header yet, and so without pairs.
    Fresh,
    /// A store that no load accepts.
    Refused(Reason),
    /// A store with a good header and well-formed pairs.
    Written(CowMap),
}
