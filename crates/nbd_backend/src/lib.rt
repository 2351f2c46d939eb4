//! An array of sectors that does pieces of requests in any order, for the sessions that serve it. It stands on `nbd_messages` and
//! `nbd_jobs`, and is a trait alone, whose contracts speak of its calls; a volume is made one above it.
#![tactic(auto)]

mod array;

pub use array::{Array, Refused, Stepped};
