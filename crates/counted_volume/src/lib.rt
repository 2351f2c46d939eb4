//! A volume with a count of the places that it takes in its journal (`CountedVolume`): the volume's own calls, of which those that
//! come to an entry are refused first of all where no place is left. Neither an entry nor an array is kept. What is known to follow
//! an event that was done is done one after the other, without a search for what is due (`follow`, `follow_reads`, `follow_merge`).
//!
//! It stands on `volume`, whose calls it passes on, and on `audited_volume`, whose audits it is made of and makes: an audit goes on from the
//! count, and gives it back. It promises of each call what the volume's own contract promises, but that one for which there is no
//! place is refused, and then nothing changed, and that this comes nowhere else; that there is a place for each request in flight,
//! for each live snapshot, and for the mark of each of these that may still overflow, so that no event is ever refused, and no mark
//! is left out; how many places each call takes, and that they are never more than its requests and snapshots earned; which entries
//! each call comes to, and that whatever journal led to what the volume showed before, with these behind it leads to what it shows
//! then; and that a checkpoint changes nothing that callers see. Of events that follow one another it promises that each was due
//! when it was done, and what the last reply is.
#![tactic(auto)]

mod asking;
mod changing;
mod counted_volume;
mod ending;
mod events;
mod following;
mod following_merge;
mod trace;

pub use counted_volume::CountedVolume;
pub use following::{follow, follow_reads};
pub use following_merge::follow_merge;
