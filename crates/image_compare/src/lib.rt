//! Two images are compared, byte for byte. It stands on `image`, and on `cow_image` for the words of a failure.
//!
//! It promises that the answer is by the bytes: the first of them in which the images differ, if one does, and in how many of the
//! sectors that both have they differ.
#![tactic(auto)]

mod comparing;
mod piece;

pub use comparing::{Compared, compare};
