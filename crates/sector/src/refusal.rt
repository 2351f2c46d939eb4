// Why a call is refused.
ghost use Rattle.std.specs.Prelude.{◌≡◌, ℕ, ◌≤◌};
ghost use Rattle.sector.specs.Refusal.{number_of, name_of};

/// Why a call is refused. The numbers go from 1, in this order. A refused call changed nothing.
#[derive(Clone, Copy, Debug, PartialEq, Eq)]
pub enum Refusal {
    /// A name or number that no device has.
    NoSuchDevice,
    /// Sectors or a block outside the device, or a size outside the limits.
    OutOfRange,
    /// In use.
    Busy,
    /// A request, a copy, a mark or a merge group is unfinished.
    NotQuiet,
    /// The allocator refused memory.
    NoMemory,
    /// The snapshot is spoiled, or the store's header says so.
    Invalid,
    /// The snapshot is being merged into its origin.
    MergingSnapshot,
    /// A device failed.
    Io,
    /// One more than the limit of this kind.
    TooMany,
    /// A line, word or message of a wrong form.
    BadTable,
    /// A chunk size that is not allowed.
    BadChunk,
    /// The store begins with another magic number.
    BadHeader,
    /// The store has another version.
    BadVersion,
    /// The store's pairs are not well formed.
    Damaged,
    /// The store is smaller than two chunks.
    StoreTooSmall,
    /// The store's invalid mark could not be written.
    Stale,
    /// A merge is begun and not finished.
    MergeInProgress,
    /// No merge is begun.
    NotMerging,
    /// The event is not due.
    NotDue,
    /// The journal has no room for the entries that may come.
    JournalFull,
    /// Answered no more, for the snapshots of one origin may have different chunk sizes; its number stays taken.
    ChunkMismatch,
    /// The merge has not come to its end.
    NotFinished,
    /// The store is full, and its snapshot refuses writes from now on.
    Overflow,
}

impl Refusal {
    /// Its number, from 1 to 23.
    pub fn number(&self) -> u8
        ensures { result ≡ number_of self.now }
    {
        *self as u8 + 1
    }

    /// Its name, as it is printed.
    pub fn name(&self) -> &'static str
        ensures { result.now ≡ name_of self.now }
    {
        match self {
            Refusal::NoSuchDevice => "NoSuchDevice",
            Refusal::OutOfRange => "OutOfRange",
            Refusal::Busy => "Busy",
            Refusal::NotQuiet => "NotQuiet",
            Refusal::NoMemory => "NoMemory",
            Refusal::Invalid => "Invalid",
            Refusal::MergingSnapshot => "MergingSnapshot",
            Refusal::Io => "Io",
            Refusal::TooMany => "TooMany",
            Refusal::BadTable => "BadTable",
            Refusal::BadChunk => "BadChunk",
            Refusal::BadHeader => "BadHeader",
            Refusal::BadVersion => "BadVersion",
            Refusal::Damaged => "Damaged",
            Refusal::StoreTooSmall => "StoreTooSmall",
            Refusal::Stale => "Stale",
            Refusal::MergeInProgress => "MergeInProgress",
            Refusal::NotMerging => "NotMerging",
            Refusal::NotDue => "NotDue",
            Refusal::JournalFull => "JournalFull",
            Refusal::ChunkMismatch => "ChunkMismatch",
            Refusal::NotFinished => "NotFinished",
            Refusal::Overflow => "Overflow",
        }
    }
}
