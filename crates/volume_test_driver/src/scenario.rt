// What is done to a volume, as a list of steps.
use plain_machine::{Dev, Event, SnapId};

/// One thing that is done. Chunks are counted from 0; each sector of a chunk that is written is filled with one byte.
#[derive(Clone, Copy)]
pub enum Step {
    /// Attaches the next store, which is fresh.
    Attach,
    /// Attaches the next store, which is fresh, with chunks of so many sectors.
    AttachBy(u32),
    /// Attaches the next store, which has one sector of its own, with this byte.
    AttachWritten(u64, u8),
    /// Submits a write of a chunk.
    Start(Dev, u64, u8),
    /// Submits writes of so many chunks from one on, and does all that is due after every eighth and at the end.
    Fill(Dev, u64, u64, u8),
    /// Reads a chunk.
    Read(Dev, u64),
    /// Does one event.
    Do(Event),
    /// Does all that is due.
    Settle,
    /// Says that the write before found the store of this snapshot full.
    Full(SnapId),
    /// Says that from here on a merge may find the store of this snapshot full.
    FillsUp(SnapId),
    /// Says that a merge found the store of this snapshot full, where no device failed.
    IsFull(SnapId),
    /// Submits a write of a chunk to a snapshot whose store is full, or overflowed before: it is refused.
    Overflow(SnapId, u64),
    /// Begins to merge a snapshot.
    Merge(SnapId),
    /// Takes the merge out.
    Finish,
}

/// The steps of a volume with an origin of 128 sectors, and what it is made of.
#[derive(Clone, Copy)]
pub struct Scenario {
    /// Sectors of a chunk.
    pub chunk: u32,
    /// How many chunks each store has.
    pub stores: &'static [u64],
    /// Whether the first store has a pair, and behind it a slot that was left without its turn.
    pub written: bool,
    pub steps: &'static [Step],
}

/// A fresh store is attached.
pub static ATTACH: [Step; 1] = [Step::Attach];

/// A written store is attached.
pub static ATTACH_WRITTEN: [Step; 1] = [Step::AttachWritten(5, 0x77)];

/// A written store is attached, and chunks of the origin are copied: the one that it has is not.
pub static WRITTEN_COPY: [Step; 5] = [
    Step::AttachWritten(5, 0x77),
    Step::Fill(Dev::Origin, 4, 3, 0xaa),
    Step::Read(Dev::Origin, 5),
    Step::Read(Dev::Snap(1), 5),
    Step::Read(Dev::Snap(1), 4),
];

/// One chunk is copied.
pub static ONE_COPY: [Step; 4] = [
    Step::Attach,
    Step::Fill(Dev::Origin, 5, 1, 0xaa),
    Step::Read(Dev::Origin, 5),
    Step::Read(Dev::Snap(1), 5),
];

/// A whole area of pairs, in chunks of one sector, and one pair more.
pub static WHOLE_AREA: [Step; 3] = [
    Step::Attach,
    Step::Fill(Dev::Origin, 0, 32, 0xaa),
    Step::Fill(Dev::Origin, 32, 1, 0xaa),
];

/// Forty chunks are copied, and merged again.
pub static LONG_MERGE: [Step; 6] = [
    Step::Attach,
    Step::Fill(Dev::Origin, 0, 40, 0xaa),
    Step::Merge(1),
    Step::Read(Dev::Origin, 0),
    Step::Settle,
    Step::Finish,
];

/// A snapshot that was written is merged beside a second one.
pub static MERGE_BESIDE: [Step; 10] = [
    Step::Attach,
    Step::Attach,
    Step::Fill(Dev::Snap(1), 9, 1, 0x77),
    Step::Fill(Dev::Origin, 5, 1, 0xaa),
    Step::Merge(1),
    Step::Settle,
    Step::Read(Dev::Snap(2), 9),
    Step::Read(Dev::Snap(2), 5),
    Step::Read(Dev::Origin, 9),
    Step::Read(Dev::Origin, 5),
];

/// A snapshot that was not written is merged beside a second one. Nothing is written before both are attached.
pub static COPIED_BESIDE: [Step; 8] = [
    Step::Attach,
    Step::Attach,
    Step::Fill(Dev::Origin, 5, 2, 0xaa),
    Step::Merge(1),
    Step::Settle,
    Step::Read(Dev::Snap(2), 5),
    Step::Read(Dev::Origin, 5),
    Step::Finish,
];

/// A snapshot in chunks of four sectors is merged beside one of smaller chunks.
pub static WIDE_MERGE: [Step; 12] = [
    Step::Attach,
    Step::AttachBy(4),
    Step::Fill(Dev::Origin, 5, 1, 0xaa),
    Step::Fill(Dev::Origin, 6, 1, 0xbb),
    Step::Fill(Dev::Snap(2), 20, 1, 0x77),
    Step::Merge(2),
    Step::Read(Dev::Origin, 5),
    Step::Settle,
    Step::Read(Dev::Snap(1), 4),
    Step::Read(Dev::Snap(1), 20),
    Step::Finish,
    Step::Read(Dev::Origin, 20),
];

/// A chunk of four sectors is merged beside a snapshot of one, whose store is full after two of its four copies.
pub static FILLS_UP: [Step; 11] = [
    Step::AttachBy(4),
    Step::Attach,
    Step::Fill(Dev::Snap(1), 9, 1, 0x77),
    Step::Merge(1),
    Step::Do(Event::MergeGroup),
    Step::Do(Event::MergeRead),
    Step::FillsUp(2),
    Step::Settle,
    Step::IsFull(2),
    Step::Finish,
    Step::Read(Dev::Origin, 9),
];

/// The origin is written while a merge has its chunks: one is in the group and waits, the other is not.
pub static WRITTEN_MERGE: [Step; 10] = [
    Step::Attach,
    Step::Fill(Dev::Origin, 3, 1, 0xaa),
    Step::Fill(Dev::Origin, 8, 1, 0xaa),
    Step::Merge(1),
    Step::Do(Event::MergeGroup),
    Step::Start(Dev::Origin, 8, 0x55),
    Step::Start(Dev::Origin, 3, 0x44),
    Step::Do(Event::Issue(4)),
    Step::Settle,
    Step::Finish,
];

/// The store is full after two copies, and overflows. Of the origin those chunks are written that it has.
pub static OVERFLOWED: [Step; 7] = [
    Step::Attach,
    Step::Fill(Dev::Snap(1), 5, 2, 0x77),
    Step::Overflow(1, 9),
    Step::Fill(Dev::Origin, 5, 2, 0xaa),
    Step::Overflow(1, 5),
    Step::Read(Dev::Snap(1), 5),
    Step::Read(Dev::Snap(1), 9),
];

/// A whole area of pairs, in chunks of one sector, fills its store, and one write more spoils the snapshot.
pub static FULL_STORE: [Step; 5] = [
    Step::Attach,
    Step::Fill(Dev::Origin, 0, 32, 0xaa),
    Step::Start(Dev::Origin, 32, 0xbb),
    Step::Full(1),
    Step::Settle,
];
