//! The snapshots of an origin as a list: what the kernel's `snapshot_map` and `origin_map` decide for a request. Which copies
//! a write needs, each snapshot of its own chunk, and how they are started; which a merge waits for first; where held
//! requests may go; which event is due first; and where an event that names a snapshot, a copy or a mark finds it, where a
//! place may be looked at first (`finding_near`). Beside a
//! merge: where origin requests go while one is begun (`routing_in_merge`), which event of it is due (`due_in_merge`), and what
//! each other snapshot keeps back for it and starts for it (`keeping`, `saving_next`; where that is sought: `seeking`). Nothing
//! here knows a volume, its origin disk or its numbers.
//!
//! It stands on `snapshot` (one snapshot, with its store), on `merge` (the one that is being merged) and on `in_flight` (copies,
//! marks and requests in flight, as lists), and speaks in the words of `volume_laws`, whose laws take what is promised here.
//!
//! It promises the whole list after a change, and of a look-up the first element that passes, or that none does. The room
//! for copies is taken before any of them starts, and starting them needs no more. No device is asked for anything.
#![tactic(auto)]

mod due;
mod due_in_merge;
mod finding;
mod finding_near;
mod keeping;
mod routing;
mod routing_in_merge;
mod saving_next;
mod seeking;
mod starting;

pub use due::{first_due, is_busy, waiting_due};
pub use due_in_merge::{
    is_area_due, is_commit_due, is_flush_due, is_group_due, is_read_due, is_release_due,
    is_write_due, merge_due,
};
pub use finding::{
    committing_at, find_copy, find_mark, flushing_at, snap_at, trying_at, zeroing_at,
};
pub use finding_near::{
    committing_near, find_copy_from, find_copy_near, find_mark_near, flushing_near,
};
pub use keeping::{keep_back_all, let_go_all};
pub use routing::{is_clear, is_clear_over, next_chunk, route_placed};
pub use routing_in_merge::{is_merged_at, merged_route, place_at, route_again};
pub use saving_next::{save_next_pair, save_waiting};
pub use starting::{
    is_lacking, is_lacking_chunk, own_chunk, pending_count, save_in, save_in_all, starting_count,
    starting_count_of, take_room, take_rooms,
};
