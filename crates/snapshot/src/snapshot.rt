// A snapshot, and what callers ask of it.
ghost use Rattle.std.specs.Prelude.{◌≡◌, ◌==◌, ◌&&◌, not, ℕ, ◌+◌, ◌*◌, ◌<◌, ◌≤◌, length, MatchBool, Some, true, false};
ghost use Rattle.chunk.specs.Sizes.{is_chunk};
ghost use Rattle.cow_format.specs.NextPlace.{IsFull, LacksArea};
ghost use Rattle.cow_format.specs.Places.{area_place};
ghost use Rattle.cow_format.specs.Picture.{place_of as place_in};
ghost use Rattle.volume_laws.specs.Published.{is_published as is_published_in};
ghost use Rattle.device.specs.Layers.{is_loud};
ghost use Rattle.snapshot.specs.Kept.{batch_of, is_among, needs_area, waits_area};
ghost use Rattle.snapshot.specs.Rest.{IsStill};
ghost use Rattle.snapshot.specs.Devices.{HasAllocated, StaysInStep};
ghost use Rattle.store.specs.Usage.{HasMetadata};

use chunk_alloc::Usage;
use device::Block;
use in_flight::{ChunkCopy, Mark, batch, is_marked};
use plain_machine::{CopyId, Overflowing, SnapId};
use sector::Chunk;
use std::marker::Model;
use store::Store;

/// One snapshot of a volume. Contracts see its number, its flags, what a full store does to it, the device of its store with
/// the store's state, its pairs, its copies, its marks, for how many copies it has room, and what it keeps for a merge. From
/// its first commit on it may also keep the buffer of a committed copy, at most a chunk long, which contracts do not see.
#[derive(Drop)]
pub struct Snapshot<B: Block> {
    pub(crate) number: SnapId,
    pub(crate) live: bool,
    /// It is spoiled, and the mark that its store is invalid was not yet tried: written, and flushed since.
    pub(crate) untried: bool,
    /// Its store's header was written with that mark.
    pub(crate) marked: bool,
    /// The mark failed, or its flush did.
    pub(crate) stale: bool,
    /// What a write of it does that finds its store full, and whether one did.
    pub(crate) overflow: Overflowing,
    pub(crate) store: Store<B>,
    pub(crate) copies: Vec<ChunkCopy>,
    pub(crate) marks: Vec<Mark>,
    pub(crate) room: usize,
    /// For how many copies of a merge it has room, which requests do not take.
    pub(crate) kept_back: usize,
    /// For how many pairs more the store has room: a merge left it, or it was made ahead.
    pub(crate) left: usize,
    /// A chunk of room, for the next copy that a merge starts.
    pub(crate) spare: Option<Vec<u8>>,
    /// The copy that a merge started, until it is published.
    pub(crate) merging: Option<CopyId>,
    /// The buffer of the copy that was committed last, for the next one; empty where there is none. Its bytes and its length
    /// may be anything.
    pub(crate) idle: Vec<u8>,
}

impl<B: Block> Model for Snapshot<B> {
    ghost use Rattle.snapshot.specs.Kept.{Kept};

    ghost Value = { Kept B };

    ghost use Rattle.std.specs.Prelude.{length, vec_capacity};
    ghost use Rattle.std.specs.Option.{is_some};
    ghost use Rattle.store.specs.Held.{committed, pairs_pending, reserved};
    ghost use Rattle.snapshot.specs.Held.{IsSnapshot, HasRoom, IsSpared};

    ghost view = { λ s. record { number = s.number; live = s.live; untried = s.untried; marked = s.marked; stale = s.stale; overflow = s.overflow; device = s.store.device; state = s.store.state; next = s.store.places.next; pairs = committed s.store.exceptions; begun = pairs_pending s.store.exceptions; copies = s.copies.items; marks = s.marks.items; room = s.room; kept_back = s.kept_back; spare = is_some s.spare; merging = s.merging } };

    ghost invariant = { λ s. IsSnapshot s.live s.untried s.marked s.stale s.store.state (pairs_pending s.store.exceptions) s.copies.items s.marks.items × HasRoom s.room s.kept_back s.left (reserved s.store.exceptions) (length s.copies.items) (length s.marks.items) (vec_capacity s.copies) (vec_capacity s.marks) (is_some s.spare) s.merging × IsSpared s.store.state.chunk s.spare s.merging s.copies.items };
}

impl<B: Block> Snapshot<B> {
    /// Its number in the volume.
    pub fn number(&self) -> SnapId
        ensures { result ≡ self.now.number }
    {
        self.number
    }

    /// Whether it is live: it was not spoiled.
    pub fn is_live(&self) -> bool
        ensures { result ≡ self.now.live }
    {
        self.live
    }

    /// Whether it is spoiled, and the mark that its store is invalid was not yet tried: written, and flushed since.
    pub fn is_untried(&self) -> bool
        ensures { result ≡ self.now.untried }
    {
        self.untried
    }

    /// Whether its store's header was written with the mark that the store is invalid.
    pub fn is_marked(&self) -> bool
        ensures { result ≡ self.now.marked }
    {
        self.marked
    }

    /// Whether that mark failed, or its flush did.
    pub fn is_stale(&self) -> bool
        ensures { result ≡ self.now.stale }
    {
        self.stale
    }

    /// The sectors of a chunk.
    pub fn chunk(&self) -> u32
        ensures is { result ≡ self.now.state.chunk }
        ensures allowed { is_chunk result ≡ true }
    {
        self.store.chunk()
    }

    /// The sectors of the origin.
    pub fn sectors(&self) -> u64
        ensures { result ≡ self.now.state.origin }
    {
        self.store.state.origin
    }

    /// The device of its store.
    pub fn device(&self) -> &B
        ensures { result.now ≡ self.now.device }
    {
        self.store.device()
    }

    /// The copies that are not committed, in the order in which they started.
    pub fn copies(&self) -> &[ChunkCopy]
        ensures { result.now ≡ self.now.copies }
    {
        self.copies.as_slice()
    }

    /// The copies that are committed and not published, in the order of their commits.
    pub fn marks(&self) -> &[Mark]
        ensures { result.now ≡ self.now.marks }
    {
        self.marks.as_slice()
    }

    /// Whether it has neither a copy that is not published, nor an invalid mark that is untried. Where it is live then, over
    /// a store that drops no writes, all that it knows stands in the store's bytes, no area is zeroed ahead, and its store is
    /// not marked invalid.
    pub fn is_done(&self) -> bool
        ensures value { result ≡ ((length self.now.copies == 0) && (length self.now.marks == 0) && not self.now.untried) }
        ensures still { result ≡ true → self.now.live ≡ true → is_loud (B.layers self.now.device) ≡ true → self.now.state.origin ≤ 2_147_483_648 → IsStill B.contents self.now }
    {
        self.copies.is_empty() && self.marks.is_empty() && !self.untried
    }

    /// How many committed pairs it has.
    pub fn len(&self) -> usize
        ensures { result ≡ length self.now.pairs }
    {
        self.store.len()
    }

    /// The numbers of a status line, in sectors.
    pub fn usage(&self) -> Usage
        ensures allocated { HasAllocated result self.now }
        ensures total { result.total ≡ self.now.state.size }
        ensures metadata { HasMetadata result self.now.state }
    {
        self.store.usage()
    }

    /// A look at its store, which does nothing: store and snapshot are in step, after every call.
    pub fn look_at_store(&self)
        ensures in_step { StaysInStep B.Block self.now }
    {
        let _ = &self.store;
    }

    /// How many of the first copies the next write of the area commits: those that are written, with a flush since, up to
    /// the first that is not, and up to the end of the area.
    pub fn batch(&self) -> u32
        ensures { result ≡ batch_of self.now.state self.now.copies }
    {
        batch(
            self.copies.as_slice(),
            32 * self.store.state.chunk - self.store.state.filled,
        )
    }

    /// Whether the last pair that is committed next fills the current area, so that the next area has to be zeroed first,
    /// and it is not yet.
    pub fn needs_next_area(&self) -> bool
        ensures { result ≡ needs_area self.now.state self.now.copies }
    {
        self.store.needs_next_area(self.batch())
    }

    /// Whether the last pair that is committed next fills the current area, and the next area is not firm: it is not zeroed
    /// yet, or the store was not flushed since.
    pub fn waits_for_next_area(&self) -> bool
        ensures { result ≡ waits_area self.now.state self.now.copies }
    {
        self.store.waits_for_next_area(self.batch())
    }

    /// Whether the area after the current one is zeroed.
    pub fn is_zeroed(&self) -> bool
        ensures { result ≡ self.now.state.zeroed }
    {
        self.store.state.zeroed
    }

    /// Whether it is, and the store was flushed since.
    pub fn is_firm(&self) -> bool
        ensures { result ≡ self.now.state.firm }
    {
        self.store.state.firm
    }

    /// Whether the area after the current one does not lie wholly inside the store.
    pub fn lacks_next_area(&self) -> bool
        ensures { MatchBool result (LacksArea self.now.state.chunk self.now.state.size (self.now.state.current + 1)) (self.now.state.chunk * (area_place self.now.state.chunk (self.now.state.current + 1) + 1) ≤ self.now.state.size) }
    {
        self.store.lacks_next_area()
    }

    /// Whether the next place is not wholly inside the store.
    pub fn is_full(&self) -> bool
        ensures { MatchBool result (IsFull self.now.state.chunk self.now.state.size self.now.next) (self.now.state.chunk * (self.now.next + 1) ≤ self.now.state.size) }
    {
        self.store.is_full()
    }

    /// Whether one copy more may start without more memory.
    pub fn has_room(&self) -> bool
        ensures { MatchBool result (0 < self.now.room) (self.now.room ≡ 0) }
    {
        0 < self.room
    }

    /// The number of the copy that a merge started, until that is published. It is one of the copies that are not committed,
    /// where the buffer for a merge's next copy is not there.
    pub fn merging(&self) -> Option<CopyId>
        ensures is { result ≡ self.now.merging }
        ensures copied { (n : ℕ) → result ≡ Some n → self.now.spare ≡ false → is_among result self.now.copies ≡ true }
    {
        self.merging
    }

    /// The chunk of the store with the committed copy of a chunk of the origin.
    pub fn place_of(&self, chunk: Chunk) -> Option<Chunk>
        ensures { result ≡ place_in self.now.pairs chunk }
    {
        self.store.get(chunk)
    }

    /// Whether a chunk of the origin is published: its copy is committed, and bears no mark.
    pub fn is_published(&self, chunk: Chunk) -> bool
        ensures { result ≡ is_published_in self.now.pairs self.now.marks chunk }
    {
        !is_marked(self.marks.as_slice(), chunk) && self.store.get(chunk).is_some()
    }
}
