// What a snapshot keeps for the copies that a merge starts, and such a copy is started. A merge's events take no memory.
ghost use Rattle.std.specs.Prelude.{◌≡◌, ◌==◌, ℕ, ◌*◌, ◌<◌, ◌≤◌, [], length as len, vec_capacity, OnOk, OnErr, IfErr, MatchBool, None, Some, true, false};
ghost use Rattle.std.specs.List.{list_any};
ghost use Rattle.std.specs.Global.{Vec as GlobalVec};
ghost use Rattle.sector.specs.declared.refusal.Refusal.TheVariants.{NoMemory};
ghost use Rattle.chunk.specs.Sizes.{is_chunk};
ghost use Rattle.cow_format.specs.Picture.{place_of as place_in};
ghost use Rattle.store.specs.declared.state.Left.TheVariants.{Nothing};
ghost use Rattle.store.specs.Held.{committed, pending as pending_of};
ghost use Rattle.snapshot.specs.Calls.{StartsMerging, started};
ghost use Rattle.snapshot.specs.Devices.{StaysInStep, TellsPlace};

use crate::Snapshot;
use crate::starting::reserve_slots;
use device::Block;
use in_flight::{ChunkCopy, Stage, sectors_of};
use plain_machine::CopyId;
use sector::{Chunk, Refusal, SECTOR_BYTES};
use store::Store;

impl<B: Block> Snapshot<B> {
    /// Keeps room for so many copies that a merge will start, one at a time, and a buffer with room for a chunk, in place of
    /// what it kept. Copies that requests start do not take it. `NoMemory` where that is refused, and then nothing changed.
    pub fn keep_back(&mut self, count: usize, buffer: Vec<u8>) -> Result<(), Refusal>
        requires { 512 * self.old.state.chunk ≤ vec_capacity buffer }
        ensures ok { OnOk result (self.new ≡ record self.old { kept_back = count; spare = true; merging = None }) }
        ensures err { OnErr result (self.new ≡ self.old) }
        ensures refusal { IfErr result (λ e. e ≡ NoMemory) }
    {
        let Some(slots) = self.room.checked_add(1) else {
            return Err(Refusal::NoMemory);
        };
        match reserve_slots(&mut self.copies, &mut self.marks, slots) {
            Ok(()) => {}
            Err(refusal) => return Err(refusal),
        }
        let had = self.kept_back + self.left;
        match self.store.reserve(count.saturating_sub(had)) {
            Ok(()) => {}
            Err(refusal) => return Err(refusal),
        }
        self.left = had.saturating_sub(count);
        self.kept_back = count;
        self.spare = Some(buffer);
        self.merging = None;
        Ok(())
    }

    /// Whether a merge can start a copy: room is kept for it, the buffer is there, and its last copy is published.
    pub fn can_merge(&self) -> bool
        ensures { MatchBool result ((0 < self.now.kept_back) × (self.now.spare ≡ true) × (self.now.merging ≡ None)) ((0 < self.now.kept_back) → (self.now.spare ≡ true) → (self.now.merging ≡ None) → ⊥) }
    {
        0 < self.kept_back && self.spare.is_some() && self.merging.is_none()
    }

    /// Keeps nothing for a merge from then on.
    pub fn let_go(&mut self)
        ensures fields { self.new ≡ record self.old { kept_back = 0; spare = false; merging = None } }
        ensures in_step { StaysInStep B.Block self.new }
    {
        self.left += self.kept_back;
        self.kept_back = 0;
        self.spare = None;
        self.merging = None;
    }

    /// Starts the copy of a chunk of the origin that has none, for a merge, and tells whether it could: it takes the store's
    /// next place, room that is kept back, and the buffer for a merge's next copy. Where that place is not wholly inside the
    /// store, nothing changed. It takes no memory.
    pub fn start_merging(&mut self, number: CopyId, chunk: Chunk) -> bool
        requires live { self.old.live ≡ true }
        requires kept { 0 < self.old.kept_back }
        requires spare { self.old.spare ≡ true }
        requires alone { self.old.merging ≡ None }
        requires own { list_any (λ p. p.number == number) self.old.copies ≡ false }
        requires begins { self.old.state.chunk * chunk < self.old.state.origin }
        requires absent { place_in self.old.pairs chunk ≡ None }
        requires idle { list_any (λ p. p.pair.old == chunk) self.old.copies ≡ false }
        ensures place { TellsPlace result self.old }
        ensures started { MatchBool result ((buffer : GlobalVec ℕ) × StartsMerging B.contents B.layers (started number chunk self.old.next buffer) self.old self.new) (self.new ≡ self.old) }
        ensures in_step { StaysInStep B.Block self.new }
    {
        let Some(begun) = self.store.start(chunk) else {
            return false;
        };
        let Some(mut buffer) = self.spare.take() else {
            unreachable!()
        };
        let count = sectors_of(self.store.state.chunk, self.store.state.origin, chunk);
        fit(&mut buffer, SECTOR_BYTES * count as usize);
        self.kept_back -= 1;
        self.merging = Some(number);
        self.copies.push_reserved(ChunkCopy {
            number,
            pair: begun.pair,
            stage: Stage::Waiting,
            buffer,
        });
        true
    }

    /// Gives the store of a live snapshot, of which nothing is under way, for its merge.
    pub fn into_store(self) -> Store<B>
        requires live { self.live ≡ true }
        requires copied { self.copies ≡ [] }
        requires published { self.marks ≡ [] }
        ensures device { result.device ≡ self.device }
        ensures state { result.state ≡ self.state }
        ensures next { result.places.next ≡ self.next }
        ensures pairs { committed result.exceptions ≡ self.pairs }
        ensures allowed { is_chunk result.state.chunk ≡ true }
        ensures ready { result.state.left ≡ Nothing }
        ensures valid { result.state.valid ≡ true }
        ensures idle { len (pending_of result.exceptions) ≡ 0 }
    {
        let Snapshot {
            number: _,
            live: _,
            untried: _,
            marked: _,
            stale: _,
            overflow: _,
            store,
            copies: _,
            marks: _,
            room: _,
            kept_back: _,
            left: _,
            spare: _,
            merging: _,
            idle: _,
        } = self;
        store
    }
}

/// Makes a buffer so many bytes long, inside its capacity.
fn fit(buffer: &mut Vec<u8>, length: usize)
    requires room { length ≤ vec_capacity buffer.old }
    ensures sized { len buffer.new.items ≡ length }
    ensures room { vec_capacity buffer.old ≤ vec_capacity buffer.new }
{
    match buffer.resize(length, 0) {
        Ok(()) => {}
        Err(_) => unreachable!(),
    }
}
