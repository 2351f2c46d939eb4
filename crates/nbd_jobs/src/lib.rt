//! The requests of a client of the Network Block Device protocol that are not answered yet, as jobs: which piece of which is
//! to be done next, which may be answered, and how. No array, no file and no connection is in it: it stands on `nbd_messages`.
//!
//! It promises that a request that is taken in has one reply, under its cookie, and none before all its pieces came back; that
//! a write with FUA has a flush of its own after them, and a flush one that was begun after it arrived. A list of jobs has at
//! most `MOST_JOBS`, and of pieces at most `MOST_PIECES` are out at a time.
#![tactic(auto)]

mod bytes;
mod job;
mod jobs;
mod refusing;
mod replying;
mod work;

pub use bytes::Bytes;
pub use job::{Job, Stage};
pub use jobs::{Jobs, MOST_JOBS, MOST_PIECES, Piece};
pub use refusing::{LONGEST, refusal};
pub use replying::{push_failure, push_reply};
pub use work::{Kind, Work};
