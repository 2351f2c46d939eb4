//! All that may be done to a volume, as one list: requests, events, time, messages, snapshots that are taken and taken away, and
//! merges from their beginning to their end. `live` does such a list, and its contract says in one place what the volume
//! promises: at every deed the devices' own bytes stand for the plain machine of saved arrays, which takes the step that the
//! answer tells, with its cause; and where a merge begins of a snapshot over a fresh store that nobody wrote, the origin shows
//! what it showed when that snapshot was taken. The volume's other calls, a request that is served, a group that is copied, a list of calls,
//! are lists of such deeds (`at_once`).
//!
//! It stands on `volume`, whose contracts it joins, and adds nothing to what a volume does.
#![tactic(auto)]

mod asking;
mod at_once;
mod deed;
mod lived_volume;
mod living;

pub use at_once::{copy_group, run, serve, write_lent};
pub use deed::{Deed, Done};
pub use lived_volume::LivedVolume;
pub use living::live;
