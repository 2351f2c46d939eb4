// The single steps of a volume, and what comes of one.
use crate::{Reply, ReqId, SnapId};

/// The number of a copy in its volume, counted from 1.
pub type CopyId = u64;

/// One table decision or one device operation of a volume.
#[derive(Clone, Copy, PartialEq, Eq)]
pub enum Event {
    /// Does the read, the write or the flush of a request's route, and replies. A flush of the origin beside a merge takes two:
    /// the first flushes the merging store, and replies only where that fails.
    Issue(ReqId),
    /// Reads a copy's chunk from the origin disk.
    CopyRead(CopyId),
    /// Writes it to its chunk of the store.
    CopyWrite(CopyId),
    /// Zeroes the area after the one that the next pair fills.
    ZeroNext(SnapId),
    /// Writes the area with the first copies' pairs added.
    WriteArea(SnapId),
    /// From here on writes of the origin's chunk need not wait for the snapshot's copy, and its own writes go to it.
    Publish(CopyId),
    /// Writes a spoiled snapshot's header with its valid word 0.
    WriteInvalid(SnapId),
    /// Flushes a snapshot's store: the copies that are written may be committed, what is committed may be published, and a
    /// mark that is written is tried.
    FlushStore(SnapId),
    /// Takes the last run of pairs of the area for merging.
    MergeGroup,
    /// Reads the area before the one that is merged empty.
    MergeAreaRead,
    /// Reads a chunk of the group from the store.
    MergeRead,
    /// Writes it to the origin disk.
    MergeWrite,
    /// Flushes the origin, all chunks of the group being copied.
    MergeFlush,
    /// Writes the area with the group's slots cleared.
    MergeCommit,
    /// Ends the group.
    MergeRelease,
}

/// What came of an event that was due.
#[derive(Drop)]
pub enum Outcome {
    Done,
    /// A device failed in the event.
    Fault,
    Reply(ReqId, Reply),
}

/// The event is not due, and nothing changed.
#[derive(Clone, Copy, PartialEq, Eq)]
pub struct NotDue;
