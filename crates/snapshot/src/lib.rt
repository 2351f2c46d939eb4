//! One snapshot of a volume: its store, whether it is live, whether its store overflowed, the copies that are not committed,
//! and those that are committed and not published. Each call is one event of it, or one look at it.
//!
//! It stands on `store`, which keeps the pairs on the device, and on `in_flight`, whose lists it holds. It promises of each
//! event the relation between the snapshot before and after that `volume_laws` has laws for, the one operation of its
//! device, and every field of what contracts see. A device that fails changes nothing but that device's counts and layers;
//! what becomes of the snapshot then, its volume decides. No event takes memory: `reserve` and `take_buffer` do, before a
//! copy starts, and `keep_back`, before a merge begins. From its first commit on a snapshot may keep the buffer of a
//! committed copy, at most a chunk long, for its next one, until it goes.
#![tactic(auto)]

mod ahead;
mod committing;
mod copying;
mod flushing;
mod layering;
mod merging;
mod opening;
mod overflowing;
mod placing;
mod snapshot;
mod spoiling;
mod starting;

pub use opening::{StoreDev, open_snapshot};
pub use snapshot::Snapshot;
