// The present group of a merge, and the pairs in it.
ghost use Rattle.std.specs.Prelude.{◌≡◌, ◌==◌, ◌&&◌, ◌+◌, ◌-◌, ◌*◌, ◌^◌, ◌<◌, ◌≤◌, nat_lt, Bool};
ghost use Rattle.volume_laws.specs.Again.{has_chunk};
ghost use Rattle.store.specs.Grouping.{shifted};
ghost use Rattle.merge.specs.Held.{IsSmall};
ghost use Rattle.merge.specs.Lists.{total, all_in, has_place};
ghost use Rattle.merge.specs.Due.{last_in, read_at_progress, full_at, flush_at, copy_at};

use sector::{Chunk, Pair};

/// How far a group is.
#[derive(Clone, Copy, PartialEq, Eq)]
pub enum Progress {
    /// The chunk of its last waiting pair is to be read, or none is left to wait.
    Open,
    /// That chunk is in the buffer.
    Full,
    /// All chunks are copied, and the origin disk is flushed.
    Flushed,
    /// The area is written without the group's slots.
    Committed,
}

/// The present group: pairs whose chunks both rise by one. Until its commit they are the last of the list.
#[derive(Clone, Copy, PartialEq, Eq)]
pub struct Group {
    pub first: Pair,
    /// How many of its first pairs have chunks that were not read.
    pub waiting: u32,
    /// How many of its last pairs have chunks that are copied.
    pub copied: u32,
    pub progress: Progress,
}

/// Pair k of a group, counted from 0.
fn pair_at(group: Group, k: u32) -> Pair
    requires old { group.first.old + k < 2 ^ 64 }
    requires new { group.first.new + k < 2 ^ 64 }
    ensures { result ≡ shifted group.first k }
{
    Pair {
        old: group.first.old + k as u64,
        new: group.first.new + k as u64,
    }
}

/// The last pair that waits.
pub(crate) fn last_waiting(group: Group) -> Option<Pair>
    requires { IsSmall group }
    ensures { result ≡ last_in group }
{
    if 0 < group.waiting {
        Some(pair_at(group, group.waiting - 1))
    } else {
        None
    }
}

/// The pair whose chunk may be read.
pub(crate) fn read_next(group: Group) -> Option<Pair>
    requires { IsSmall group }
    ensures { result ≡ read_at_progress group.progress group }
{
    match group.progress {
        Progress::Open => last_waiting(group),
        Progress::Full => None,
        Progress::Flushed => None,
        Progress::Committed => None,
    }
}

/// The pair whose chunk is in the buffer.
pub(crate) fn in_buffer(group: Group) -> Option<Pair>
    requires { IsSmall group }
    ensures { result ≡ full_at group.progress group }
{
    match group.progress {
        Progress::Full => Some(pair_at(group, group.waiting)),
        Progress::Open => None,
        Progress::Flushed => None,
        Progress::Committed => None,
    }
}

/// How many pairs a group has.
fn total_of(group: Group) -> u64
    ensures { result ≡ total group }
{
    let copied = group.waiting as u64 + group.copied as u64;
    match group.progress {
        Progress::Full => copied + 1,
        Progress::Open => copied,
        Progress::Flushed => copied,
        Progress::Committed => copied,
    }
}

/// Whether a chunk of the origin is in a group.
pub(crate) fn is_in(group: Group, chunk: Chunk) -> bool
    ensures { result ≡ has_chunk (all_in group) chunk }
{
    group.first.old <= chunk && chunk - group.first.old < total_of(group)
}

/// Whether a place of the store has the copy of a group's chunk.
pub(crate) fn is_placed(group: Group, place: Chunk) -> bool
    ensures { result ≡ has_place (all_in group) place }
{
    group.first.new <= place && place - group.first.new < total_of(group)
}

/// Whether the chunks that wait may be copied back at once to an origin of so many sectors.
pub(crate) fn is_copyable(group: Group, chunk: u32, sectors: u64) -> bool
    requires small { IsSmall group }
    requires near { chunk * (group.first.old + group.waiting) < 2 ^ 64 }
    ensures { result ≡ copy_at group.progress group chunk sectors }
{
    match group.progress {
        Progress::Open => {
            1 < group.waiting && chunk as u64 * (group.first.old + group.waiting as u64) <= sectors
        }
        Progress::Full => false,
        Progress::Flushed => false,
        Progress::Committed => false,
    }
}

/// Whether all chunks of a group are copied, and the origin disk is not flushed.
pub(crate) fn is_copied(group: Group) -> bool
    ensures { result ≡ flush_at group.progress group }
{
    match group.progress {
        Progress::Open => group.waiting == 0,
        Progress::Full => false,
        Progress::Flushed => false,
        Progress::Committed => false,
    }
}
