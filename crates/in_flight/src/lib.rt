//! The bookkeeping of a volume: the copies that its snapshots still need, the requests in flight with their routes,
//! and the look-ups, tests and changes of these lists. It stands on `sector` and `plain_machine`, and touches no device. Each
//! function promises a list function or a table of cases: which place a look-up finds, and what every element becomes.
#![tactic(auto)]

mod copies;
mod due;
mod flights;
mod routes;

pub use copies::{
    ChunkCopy, MAX_COPIES, Mark, Stage, flush_copies, flush_marks, flushed_stage, has_copy,
    has_unsafe, is_marked, sectors_of,
};
pub use due::{
    batch, copy_at, first_copy, first_publishable, first_routed, front_ready, front_unflushed,
    is_at, is_ready, is_routed, least, publishable_at,
};
pub use flights::{Flight, Kind, MAX_REQUESTS, Route, flight_at, request_kind};
pub use routes::{
    again_route, flush_route, is_being_read, placed_route, read_route, reads_origin, refuse,
    refused_route, write_route,
};
