// A snapshot begins over its store, and ends; room is made for a copy, and a copy is started.
ghost use Rattle.std.specs.Prelude.{◌≡◌, ◌==◌, ℕ, ◌+◌, ◌-◌, ◌*◌, ◌<◌, ◌≤◌, List, [], ◌∷◌, ◌++◌, length, max, OnOk, OnErr, IfOk, IfErr, IsOk, MatchBool, None, vec_capacity, true, false};
ghost use Rattle.std.specs.List.{list_any};
ghost use Rattle.sector.specs.declared.refusal.Refusal.TheVariants.{NoMemory};
ghost use Rattle.chunk.specs.Sizes.{is_chunk};
ghost use Rattle.cow_format.specs.Picture.{place_of as place_in};
ghost use Rattle.plain_machine.specs.Plain.{overflow_of};
ghost use Rattle.in_flight.specs.Copies.{count_of};
ghost use Rattle.store.specs.declared.state.Left.TheVariants.{Nothing};
ghost use Rattle.store.specs.Held.{committed, pending as pending_of, reserved};
ghost use Rattle.volume_laws.specs.Steps.{IsNewSnap};
ghost use Rattle.snapshot.specs.Kept.{books_of};
ghost use Rattle.snapshot.specs.Calls.{StartsAt, started};
ghost use Rattle.snapshot.specs.Devices.{StaysInStep, TellsPlace};

use crate::Snapshot;
use crate::overflowing::overflowing;
use device::Block;
use in_flight::{ChunkCopy, Mark, Stage};
use plain_machine::{CopyId, SnapId};
use sector::{Chunk, Refusal};
use std::alloc::Global;
use std::mem;
use store::Store;

/// So many pairs more than the one that is asked for find room at once, for the next copies.
const MORE_PAIRS: usize = 15;

impl<B: Block> Snapshot<B> {
    /// A live snapshot over a store that was opened, and which the load's writes have left ready; whether it may overflow is
    /// asked for. It takes no memory.
    pub fn over(alloc: Global, number: SnapId, store: Store<B>, overflow: bool) -> Snapshot<B>
        requires allowed { is_chunk store.state.chunk ≡ true }
        requires ready { store.state.left ≡ Nothing }
        requires copying { store.state.copying ≡ true }
        requires unzeroed { store.state.zeroed ≡ false }
        requires unfirm { store.state.firm ≡ false }
        requires sure { store.state.sure ≡ length (committed store.exceptions) }
        requires idle { length (pending_of store.exceptions) ≡ 0 }
        requires valid { store.state.valid ≡ true }
        requires unreserved { reserved store.exceptions ≡ 0 }
        ensures fields { result ≡ record { number = number; live = true; untried = false; marked = false; stale = false; overflow = overflow_of overflow; device = store.device; state = store.state; next = store.places.next; pairs = committed store.exceptions; begun = []; copies = []; marks = []; room = 0; kept_back = 0; spare = false; merging = None } }
        ensures new { (origin : List ℕ) → length origin ≡ 512 * store.state.origin → IsNewSnap origin (books_of B.contents B.layers result) }
        ensures counted { length result.pairs ≡ result.state.current * (32 * result.state.chunk) + result.state.filled }
        ensures unfilled { result.state.filled < 32 * result.state.chunk }
        ensures in_step { StaysInStep B.Block result }
    {
        Snapshot {
            number,
            live: true,
            untried: false,
            marked: false,
            stale: false,
            overflow: overflowing(overflow),
            store,
            copies: Vec::new(alloc),
            marks: Vec::new(alloc),
            room: 0,
            kept_back: 0,
            left: 0,
            spare: None,
            merging: None,
            idle: Vec::new(alloc),
        }
    }

    /// Gives the device of the store back, as it is.
    pub fn into_device(self) -> B
        ensures { result ≡ self.device }
    {
        let Snapshot {
            number: _,
            live: _,
            untried: _,
            marked: _,
            stale: _,
            overflow: _,
            store,
            copies: _,
            marks: _,
            room: _,
            kept_back: _,
            left: _,
            spare: _,
            merging: _,
            idle: _,
        } = self;
        store.into_device()
    }

    /// Makes room for one more copy, where there is none; `NoMemory` where that is refused, and then nothing changed.
    #[inline(always)]
    pub fn reserve(&mut self) -> Result<(), Refusal>
        ensures ok { OnOk result (self.new ≡ record self.old { room = max self.old.room 1 }) }
        ensures err { OnErr result (self.new ≡ self.old) }
        ensures ready { 0 < self.old.room → IsOk result }
        ensures refusal { IfErr result (λ e. e ≡ NoMemory) }
    {
        if 0 < self.room {
            return Ok(());
        }
        match reserve_slots(&mut self.copies, &mut self.marks, 2) {
            Ok(()) => {}
            Err(refusal) => return Err(refusal),
        }
        if 0 < self.left {
            self.left -= 1;
            self.room = 1;
            return Ok(());
        }
        let Some(_) = self.kept_back.checked_add(MORE_PAIRS) else {
            return Err(Refusal::NoMemory);
        };
        match self.store.reserve(MORE_PAIRS + 1) {
            Ok(()) => {
                self.left = MORE_PAIRS;
                self.room = 1;
                Ok(())
            }
            Err(refusal) => Err(refusal),
        }
    }

    /// A buffer for a copy, so many bytes long, whatever they are: the one that it kept of the copy that was committed last,
    /// where that is as long, and else a new one. `NoMemory` where a new one is refused, and nothing else. Nothing changes
    /// that contracts see.
    pub fn take_buffer(&mut self, alloc: Global, bytes: usize) -> Result<Vec<u8>, Refusal>
        ensures same { self.new ≡ self.old }
        ensures ok { IfOk result (λ buffer. length buffer.items ≡ bytes) }
        ensures refusal { IfErr result (λ e. e ≡ NoMemory) }
    {
        if self.idle.len() == bytes {
            return Ok(mem::replace(&mut self.idle, Vec::new(alloc)));
        }
        match vec![in alloc; 0u8; bytes] {
            Ok(buffer) => Ok(buffer),
            Err(_) => Err(Refusal::NoMemory),
        }
    }

    /// Starts the copy of a chunk of the origin that has none, and tells whether it could: it takes the store's next
    /// place, and the buffer, which is as long as the chunk. Where that place is not wholly inside the store, nothing
    /// changed.
    #[inline(always)]
    pub fn start(&mut self, number: CopyId, chunk: Chunk, buffer: Vec<u8>) -> bool
        requires live { self.old.live ≡ true }
        requires room { 0 < self.old.room }
        requires begins { self.old.state.chunk * chunk < self.old.state.origin }
        requires absent { place_in self.old.pairs chunk ≡ None }
        requires idle { list_any (λ p. p.pair.old == chunk) self.old.copies ≡ false }
        requires buffer { length buffer.items ≡ 512 * count_of self.old.state.chunk self.old.state.origin chunk }
        ensures place { TellsPlace result self.old }
        ensures started { MatchBool result (StartsAt B.contents B.layers (started number chunk self.old.next buffer) self.old self.new) (self.new ≡ self.old) }
        ensures in_step { StaysInStep B.Block self.new }
    {
        let Some(begun) = self.store.start(chunk) else {
            return false;
        };
        self.room -= 1;
        self.copies.push_reserved(ChunkCopy {
            number,
            pair: begun.pair,
            stage: Stage::Waiting,
            buffer,
        });
        true
    }
}

/// Makes room in both lists for so many more copies. Where that is refused the lists may have more room.
#[inline(always)]
pub(crate) fn reserve_slots(
    copies: &mut Vec<ChunkCopy>,
    marks: &mut Vec<Mark>,
    count: usize,
) -> Result<(), Refusal>
    ensures copies { copies.new.items ≡ copies.old.items }
    ensures marks { marks.new.items ≡ marks.old.items }
    ensures copies_kept { vec_capacity copies.old ≤ vec_capacity copies.new }
    ensures marks_kept { vec_capacity marks.old ≤ vec_capacity marks.new }
    ensures for_copies { OnOk result (length copies.new.items + count ≤ vec_capacity copies.new) }
    ensures for_marks { OnOk result (length marks.new.items + (length copies.new.items + count) ≤ vec_capacity marks.new) }
    ensures refusal { IfErr result (λ e. e ≡ NoMemory) }
{
    let Ok(()) = copies.reserve(count) else {
        return Err(Refusal::NoMemory);
    };
    let Some(all) = copies.len().checked_add(count) else {
        return Err(Refusal::NoMemory);
    };
    match marks.reserve(all) {
        Ok(()) => Ok(()),
        Err(_) => Err(Refusal::NoMemory),
    }
}
