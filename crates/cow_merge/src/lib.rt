//! The copies of a store are taken back into its origin, in place: what a merge of the snapshot leaves, without a kernel. It stands
//! on `image`, whose files may be stopped at any moment, on `cow_image`, which judged the store, and on `crash_laws`.
//!
//! The areas are taken from the last one on, some of them at a time: their pairs' copies are written to the origin in the order of
//! its chunks, those in a row by one call, the origin is synced, the areas are zeroed, and the store is synced. So the list of pairs is the only journal. It promises that what a stop
//! at any moment leaves of both files, each sector that was not synced old or new, still shows the snapshot, and that at `Ok` the
//! origin is what the snapshot showed, durably, and no pair is left (`specs/Merges`).
#![tactic(auto)]

mod clearing;
mod copying;
mod gathering;
mod merging;
mod settling;
mod sizes;
mod stopped;

pub use copying::{ORIGIN, STORE};
pub use merging::{Room, merge};
pub use sizes::Sizes;
pub use stopped::Stopped;
