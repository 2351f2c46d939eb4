//! A volume as an array that a client reads and writes: pieces of requests become requests of the volume, and its events are done
//! in rounds. It stands on `nbd_backend`, `nbd_jobs` and `nbd_messages` (what a session asks, and what it is told), on
//! `group_commit` and `in_flight` (which events are done together), on `copy_before_write_laws` (why an event saves first), and on `volume` with
//! what that is made of.
//!
//! It promises that a piece is handed on as just the request that it asks for, under the number that the volume gives it, or is
//! refused with the error that stands for the volume's reason; that a step does one event that is due, or none; and that what comes back
//! is the volume's own reply, a read's bytes whole, and has no error just where it was done and the files under it answered. Nothing is
//! done any more once the origin's file left something unanswered or a store can't be marked.
#![tactic(auto)]

mod answers;
mod faults;
mod gathering;
mod looking;
mod serving;
mod stepping;
mod submitting;
mod volume_array;

pub use faults::Fault;
pub use looking::look_at;
pub use volume_array::VolumeArray;
