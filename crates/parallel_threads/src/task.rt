// What a seat is to do.

use command_replies::SeatAnswer;
use plain_machine::{Dev, SnapId};
use sector::{Buf, Range, Refusal};

/// There are as many seats as this.
pub const SEATS: usize = 8;

/// One thing to do. A volume is told by its place among those that are given to the run.
#[derive(Drop)]
pub enum Job {
    /// Reads a range of a device.
    Read {
        volume: usize,
        dev: Dev,
        range: Range,
    },
    /// Writes bytes, as many as the range has, to a device.
    Write {
        volume: usize,
        dev: Dev,
        range: Range,
        bytes: Buf,
    },
    /// Merges a snapshot into its origin.
    Merge {
        volume: usize,
        snap: SnapId,
    },
    /// A read that is refused before its volume is asked.
    RefusedRead(Refusal),
    /// And a write or a merge.
    Refused(Refusal),
}

/// A job, and its answer once it has one.
#[derive(Drop)]
pub struct Task {
    pub job: Option<Job>,
    pub answer: Option<SeatAnswer>,
}
