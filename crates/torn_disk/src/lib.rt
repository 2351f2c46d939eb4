//! A fuse: a disk that lets some writes and flushes pass, tears the next write or leaves the next flush undone, and fails from
//! then on, for tests of what a stop within an operation leaves.
//!
//! It stands on `sector`, `device` and `layers`. It promises when it is blown, that what it keeps aside then is the disk with
//! the write torn, each sector old or new as it was told, or as it was before the flush, and that to the code above it is a
//! device that fails and changes nothing.
#![tactic(auto)]

mod block;
mod blowing;
mod layered;
mod tear;
mod torn_disk;

pub use crate::torn_disk::TornDisk;
