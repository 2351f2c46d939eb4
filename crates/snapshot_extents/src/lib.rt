//! Where each byte of a snapshot's array stands: in ranges of the origin or of the store, from the front to the end. It stands on
//! `cow_image`, which finds runs of chunks.
//!
//! It promises that the ranges cover the whole array without gaps or overlaps, that each has just the bytes which the snapshot shows
//! there, and that none goes on with the one before it: such are one range.
#![tactic(auto)]

mod adding;
mod range;
mod ranging;

pub use range::Range;
pub use ranging::ranges;
