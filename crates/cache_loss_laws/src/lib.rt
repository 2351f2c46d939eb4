//! Disks with caches: what a stop leaves of a snapshot, or of a merge, where some of what was written since the last flush is
//! lost.
//!
//! The machine may stop before, after or within a call of one operation, and each sector of a device is then left with a value
//! that the device may hold, each by itself: what was there at its last flush, or what was written since. Two invariants say what
//! holds while not all of a store is flushed. Of a snapshot (`specs/Kept`): some of its pairs are surely in the list that is loaded
//! again, the others perhaps, and these have nothing else to show than the origin's bytes; the next area is known once it was zeroed
//! and flushed. Of a merge (`specs/Merging`): the pairs that were taken away since its store was flushed may come back. `specs/Lost`
//! says what a call tells of itself.
//!
//! The laws are the contracts of functions that do nothing, one for each call: whatever a stop leaves is loaded again, and shows in
//! each sector a value that was open before the call or that it gives; and the invariant holds again after it. Most calls are
//! instances of one law (`specs/Calm`). A flush of one of two devices closes the sectors that every content takes from it, and
//! a flush of a snapshot's store its whole array.
//! `proofs/Clauses` turns what the laws say into the clauses of a stop (`crash_laws/specs/Clauses`). It stands on `crash_laws`;
//! `volume` keeps the order of these operations (a copy before its pair, an area before its publication, the origin before a
//! merge's commit), gives the laws their premises from what its own calls say, and keeps the two invariants in its own.
#![tactic(auto)]

mod closed;
mod merged;
mod saved;

pub use closed::{flush_of_origin, flush_of_snapshot, flush_of_store, stays_out};
pub use merged::{begin, clearing, disk_write, finish, merge_flushes, place_write};
pub use saved::{attach, calm, calm_calls, commit, flush};
