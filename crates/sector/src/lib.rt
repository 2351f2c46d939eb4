//! The units of every layer: sectors, chunks, runs of sectors, whole sectors of bytes, pairs of chunks,
//! the little-endian numbers of a store's bytes, and why a call is refused. It stands on `byteorder` alone, and promises that a
//! `Range` lies inside its size, and that a number is the one in the bytes from its offset on.
#![tactic(auto)]

mod buf;
mod little_endian;
mod pair;
mod range;
mod refusal;

pub use buf::Buf;
pub use little_endian::{put_u32, put_u64, u32_at, u64_at};
pub use pair::{Chunk, Pair, Sector};
pub use range::Range;
pub use refusal::Refusal;

/// The bytes of a sector.
pub const SECTOR_BYTES: usize = 512;
