//! A volume: an origin disk, the snapshots of it, and the requests in flight. Each event is one call, which does at most
//! one operation of one device, and which changes nothing that is seen but this: it answers the one request that it names, or
//! spoils the one snapshot whose device failed, or, where it starts copies, those whose stores are full.
//!
//! It stands on `snapshot_list` (the list of its snapshots: what is due of them, and which copies a write needs), on `snapshot`
//! (each of them, with its store), on `merge` (the one that is being merged), on `in_flight` (copies, marks and requests in
//! flight), on `volume_laws` (the laws of every event and of every request), on `cache_loss_laws` (what a stop leaves where some of
//! what was written is lost: its invariants are the volume's own), and on `event_machine`. Words of its contracts
//! are those of `plain_machine` (the machine that all layers above see), `sector`, `device`, `chunk`, `cow_format`, `cow_header`, `store`,
//! `chunk_alloc` and `whole_commands`.
//!
//! It promises that its devices' own bytes stand for one plain machine, of which every call is a step, and of each event
//! when it is due, that a whole number falls with it, and what made it fail; whatever the devices do, that a request leaves
//! only where it is answered, and that no snapshot is marked for a full store; and of each request which snapshots it spoils
//! or marks. Where no device drops writes, each event is exactly the event machine's, and so is each request that is accepted,
//! found invalid or refused for a store that overflowed, whatever is in flight. The time and messages change layers, and
//! nothing that callers see. A list of calls does what its calls do one after another, each with its answer, and `peek` copies
//! what the origin or a snapshot shows. The chunks of a merge's group are copied back by steps, or by one call, which does as those
//! steps do, one after another. Devices may have caches: whatever of what was written since the last flush of each a
//! stop loses, the stores are loaded again, and a call opens no value of an array but those that it writes.
#![tactic(auto)]

mod ahead;
mod ahead_issue;
mod ahead_reads;
mod at_once;
mod at_store;
mod attach;
mod calls;
mod close;
mod copies;
mod detach;
mod event_kinds;
mod events;
mod finishing;
mod group_copies;
mod issue;
mod issue_merging;
mod lent;
mod merge_copies;
mod merge_events;
mod merging;
mod messages;
mod peeking;
mod refusing;
mod requests;
mod snap_requests;
mod status;
mod stopping;
mod stores;
mod time;
mod trace;
mod volume;
mod ways;

pub use at_once::Served;
pub use calls::{Call, Returned};
pub use event_kinds::is_of_merge;
pub use stopping::Stopped;
pub use volume::{LARGEST_PIECE, MAX_SNAPSHOTS, Volume};
