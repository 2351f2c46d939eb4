// What layers are told, and what they answer. The kernel's page on dm-dust has the messages; the texts of the answers are
// the command program's.

/// A message to a dust layer, or the time to a flakey layer. A block is told by its number, from 0.
#[derive(Clone, Copy, PartialEq, Eq)]
pub enum Message {
    /// Puts a block on the list.
    AddBadBlock(u64),
    /// Takes a block off the list.
    RemoveBadBlock(u64),
    /// Asks whether a block is on the list.
    QueryBlock(u64),
    /// Asks how many blocks are on the list.
    CountBadBlocks,
    /// Takes all blocks off the list.
    ClearBadBlocks,
    /// Has reads of bad blocks fail from now on.
    Enable,
    /// Has everything pass from now on.
    Disable,
    /// Lets so many seconds pass for a flakey layer, and for no other.
    Tick(u32),
}

/// The answer to a message.
#[derive(Clone, Copy, PartialEq, Eq)]
pub enum Answer {
    /// Done.
    Done,
    /// The block to be added was on the list.
    Already,
    /// The block to be removed was not on the list.
    Absent,
    /// The block is on the list.
    Bad,
    /// The block is not on the list.
    Good,
    /// So many blocks are on the list.
    Count(u64),
}
