//! The plain machine that a volume is measured by: saved arrays, each snapshot's state, and the requests in flight.
//! It stands on `sector` and keeps no device: a read of the origin or of a live snapshot answers what the one array
//! holds, a write changes that one array, a merge's beginning is the one assignment origin := snapshot. Here too are
//! the requests, events and replies that a volume and everything above it speak of.
#![tactic(auto)]

mod event;
mod request;

pub use event::{CopyId, Event, NotDue, Outcome};
pub use request::{
    Dev, Failure, Op, Overflowing, Replied, Reply, ReqId, Request, SnapId, refusal_for,
};
