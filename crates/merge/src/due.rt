// Looks at how far a merge is, and at which of its events may be due.
ghost use Rattle.std.specs.Prelude.{◌≡◌, Bool, false, true};
ghost use Rattle.volume_laws.specs.Again.{has_chunk};
ghost use Rattle.merge.specs.Lists.{group_pairs, has_place as has_place_in, next_of_group};
ghost use Rattle.merge.specs.Looks.{LooksAgree};
ghost use Rattle.merge.specs.Due.{has_group_of, is_finished_of, can_group_of, can_read_area_of, next_of, next_read_of, full_of, can_flush_of, can_commit_of, can_release_of};

use crate::group::{in_buffer, is_copied, is_in, is_placed, last_waiting, read_next};
use crate::{Merge, Progress};
use device::Block;
use sector::{Chunk, Pair};

impl<B: Block> Merge<B> {
    /// Whether one of its operations was answered by a fault, and it was not resumed.
    pub fn is_failed(&self) -> bool
        ensures { result ≡ self.now.failed }
    {
        self.failed
    }

    /// Whether a group is formed. Like all looks it is what the merge's books say.
    pub fn has_group(&self) -> bool
        ensures value { result ≡ has_group_of self.now.group }
        ensures looks { (loud : Bool) → LooksAgree B.contents loud self.now }
    {
        self.group.is_some()
    }

    /// Whether no pair is left, and no group: it has not failed then.
    pub fn is_finished(&self) -> bool
        ensures value { result ≡ is_finished_of self.now }
        ensures running { result ≡ true → self.now.failed ≡ false }
    {
        self.store.len() == 0 && self.group.is_none()
    }

    /// Whether the next group may be formed.
    pub fn can_group(&self) -> bool
        ensures { result ≡ can_group_of self.now }
    {
        !self.failed && self.group.is_none() && 0 < self.store.state.filled
    }

    /// Whether the area before the current one may be read.
    pub fn can_read_area(&self) -> bool
        ensures { result ≡ can_read_area_of self.now }
    {
        !self.failed
            && self.group.is_none()
            && self.store.state.filled == 0
            && 0 < self.store.state.current
    }

    /// Whether a chunk of the origin is in the present group.
    pub fn in_group(&self, chunk: Chunk) -> bool
        ensures { result ≡ has_chunk (group_pairs self.now.group) chunk }
    {
        match self.group {
            Some(group) => is_in(group, chunk),
            None => false,
        }
    }

    /// Whether a chunk of the store has the copy of one of them.
    pub fn has_place(&self, place: Chunk) -> bool
        ensures { result ≡ has_place_in (group_pairs self.now.group) place }
    {
        match self.group {
            Some(group) => is_placed(group, place),
            None => false,
        }
    }

    /// The last pair of the present group that waits, if one does: its chunk is read next.
    pub fn next(&self) -> Option<Pair>
        ensures { result ≡ next_of self.now.group }
    {
        match self.group {
            Some(group) => last_waiting(group),
            None => None,
        }
    }

    /// That pair, where its chunk may be read: the buffer is free.
    pub fn next_read(&self) -> Option<Pair>
        ensures { result ≡ next_read_of self.now.group }
    {
        match self.group {
            Some(group) => read_next(group),
            None => None,
        }
    }

    /// The pair whose chunk is in the buffer, if one is: the chunk may be written to the origin disk.
    pub fn full(&self) -> Option<Pair>
        ensures { result ≡ full_of self.now.group }
    {
        match self.group {
            Some(group) => in_buffer(group),
            None => None,
        }
    }

    /// The pair that is copied next: the one whose chunk is in the buffer, or else the last that waits.
    pub fn next_pair(&self) -> Option<Pair>
        ensures { result ≡ next_of_group self.now.group }
    {
        match self.full() {
            Some(pair) => Some(pair),
            None => self.next(),
        }
    }

    /// Whether all chunks of the group are copied, so that the origin disk may be flushed.
    pub fn can_flush(&self) -> bool
        ensures { result ≡ can_flush_of self.now.group }
    {
        match self.group {
            Some(group) => is_copied(group),
            None => false,
        }
    }

    /// Whether the origin disk is flushed, so that the area may be written without the group's slots.
    pub fn can_commit(&self) -> bool
        ensures { result ≡ can_commit_of self.now.group }
    {
        match self.group {
            Some(group) => match group.progress {
                Progress::Flushed => true,
                Progress::Open => false,
                Progress::Full => false,
                Progress::Committed => false,
            },
            None => false,
        }
    }

    /// Whether that area is written, so that the group may end.
    pub fn can_release(&self) -> bool
        ensures { result ≡ can_release_of self.now.group }
    {
        match self.group {
            Some(group) => match group.progress {
                Progress::Committed => true,
                Progress::Open => false,
                Progress::Full => false,
                Progress::Flushed => false,
            },
            None => false,
        }
    }
}
