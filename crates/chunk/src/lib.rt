//! Where the chunks of a device lie. A chunk is a run of sectors, a power of two of them from 1 to 1024; the last
//! chunk of a device may be short. It stands on `sector`, and promises that a range is cut into exactly one piece
//! for each chunk that it touches, in order, and that the pieces join to the range.
#![tactic(auto)]

mod geometry;
mod pieces;

pub use geometry::{Geometry, is_chunk_size};
pub use pieces::Pieces;
