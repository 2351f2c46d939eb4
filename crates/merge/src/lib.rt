//! The store of a snapshot that is being merged into its origin: the present group of its last pairs, and how far that is
//! copied back. Each call is one event of the merge, or one look at it.
//!
//! It stands on `store`, which keeps the pairs on the device. It promises of each event the relation between the merge
//! before and after that `volume_laws` has laws for, the one operation of its device or of the origin disk, and every field
//! of what contracts see. A device that fails changes nothing but that device's counts and layers; its volume then lets the
//! merge fail. No call needs memory.
#![tactic(auto)]

mod ahead;
mod committing;
mod copying;
mod due;
mod forming;
mod group;
mod layering;
mod merge;
mod placing;

pub use group::{Group, Progress};
pub use merge::Merge;
