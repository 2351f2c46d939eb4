// A store: its device, its pairs, the area that the next pair goes to, and the next place.
ghost use Rattle.std.specs.Prelude.{◌≡◌, ℕ, ◌+◌, ◌*◌, ◌<◌, ◌≤◌, List, length, slice_index_or, OnOk, OnErr, MatchBool, IsTrue, true, false};
ghost use Rattle.device.specs.Layers.{is_loud};
ghost use Rattle.cow_format.specs.NextPlace.{IsFull};
ghost use Rattle.exception_arena.specs.declared.begun.Begun.{Begun};
ghost use Rattle.store.specs.Held.{committed, pending, pairs_pending, reserved};
ghost use Rattle.store.specs.Loading.{is_left};
ghost use Rattle.store.specs.Stored.{IsFront, IsStored, AreGiven};
ghost use Rattle.crash_laws.specs.Firm.{IsFirm};
ghost use Rattle.store.specs.Usage.{HasMetadata};

use crate::State;
use chunk_alloc::{Alloc, Usage};
use device::{Block, Io};
use exception_arena::{Arena, Begun, Exceptions};
use metadata_area::Area;

/// A store that was opened.
#[derive(Drop)]
pub struct Store<B: Block> {
    pub device: B,
    /// The pairs, committed and under way.
    pub exceptions: Arena,
    /// The current area.
    pub area: Area,
    /// A chunk of room, in which the next text of a chunk is put together, or slots of the area are kept while a commit
    /// writes over them or a merge clears them.
    pub spare: Area,
    /// The places that are left.
    pub places: Alloc,
    pub state: State,
    pub ghost area_chunk: { area.chunk ≡ state.chunk },
    pub ghost spare_chunk: { spare.chunk ≡ state.chunk },
    pub ghost places_chunk: { places.chunk ≡ state.chunk },
    pub ghost places_size: { places.sectors ≡ state.size },
    pub ghost size: { state.size ≡ B.size device },
    pub ghost near: { state.origin ≤ 2_147_483_648 },
    pub ghost front: { IsFront (committed exceptions) state area.bytes.items },
    pub ghost given: { AreGiven state.chunk state.origin state.size places.next state.copying (committed exceptions) (pairs_pending exceptions) },
    pub ghost firm: { IsTrue (is_loud (B.layers device)) → is_left state.left ≡ true → state.awaits ≡ false → IsFirm (B.may_hold device) (B.contents device) state.size },
    pub ghost stored: { IsTrue (is_loud (B.layers device)) → IsStored (B.contents device) (committed exceptions) state area.bytes.items },
}

impl<B: Block> Store<B> {
    ghost use Rattle.store.specs.Calls.{DoesFlush, EndsFirm, IsFlushed, KeepsBytes, KeepsExceptions, KeepsState, MayHoldNowIfLoud, StaysAsLoud};

    /// The sectors of a chunk.
    pub fn chunk(&self) -> u32
        ensures { result ≡ self.now.state.chunk }
    {
        self.state.chunk
    }

    /// How many pairs are committed.
    pub fn len(&self) -> usize
        ensures { result ≡ length (committed self.now.exceptions) }
    {
        self.exceptions.len()
    }

    /// How many copies are under way.
    pub fn pending_len(&self) -> usize
        ensures { result ≡ length (pending self.now.exceptions) }
    {
        self.exceptions.pending_len()
    }

    /// A copy that is under way, counted from 0 in the order in which they began.
    pub fn pending_at(&self, index: usize) -> Begun
        requires { index < length (pending self.now.exceptions) }
        ensures { (d : Begun) → result ≡ slice_index_or (pending self.now.exceptions) index d }
    {
        self.exceptions.pending_at(index)
    }

    /// Whether the next place is not wholly inside the store.
    pub fn is_full(&self) -> bool
        ensures { MatchBool result (IsFull self.now.state.chunk self.now.state.size self.now.places.next) (self.now.state.chunk * (self.now.places.next + 1) ≤ self.now.state.size) }
    {
        self.places.is_full()
    }

    /// The numbers of a status line: the front of the store up to the next place, its size, and its header with the areas
    /// up to the current one, all in sectors.
    pub fn usage(&self) -> Usage
        ensures allocated { result.allocated ≡ self.now.places.next * self.now.state.chunk }
        ensures total { result.total ≡ self.now.state.size }
        ensures metadata { HasMetadata result self.now.state }
    {
        self.places.usage(self.state.current)
    }

    /// The device.
    pub fn device(&self) -> &B
        ensures { result.now ≡ self.now.device }
    {
        &self.device
    }

    /// Makes all that was written last through a stop and a loss of the cache: a zeroed next area is then firm, and all pairs
    /// that are committed were flushed. At `Io` it is as before.
    #[tactic(auto, using(crate::proofs::Writes::front_flushed, crate::proofs::Writes::stored_flushed))]
    pub fn flush(&mut self) -> Result<(), Io>
        ensures operation { DoesFlush result self.old self.new }
        ensures same { KeepsBytes self.old self.new }
        ensures durable { IsFlushed self.old self.new }
        ensures adds { MayHoldNowIfLoud self.old self.new }
        ensures firm { OnOk result (EndsFirm self.old self.new) }
        ensures loud { StaysAsLoud self.old self.new }
        ensures exceptions { KeepsExceptions self.old self.new }
        ensures places { self.new.places ≡ self.old.places }
        ensures state { OnOk result (self.new.state ≡ record self.old.state { firm = self.old.state.zeroed; sure = length (committed self.old.exceptions) }) }
        ensures kept { OnErr result (KeepsState self.old self.new) }
    {
        match self.device.flush() {
            Ok(()) => {
                self.state.firm = self.state.zeroed;
                self.state.sure = self.exceptions.len() as u64;
                Ok(())
            }
            Err(io) => Err(io),
        }
    }

    /// The same of a store to which no pair is written any more: what it knows stays as it is.
    pub fn flush_last(&mut self) -> Result<(), Io>
        ensures operation { DoesFlush result self.old self.new }
        ensures same { KeepsBytes self.old self.new }
        ensures durable { IsFlushed self.old self.new }
        ensures adds { MayHoldNowIfLoud self.old self.new }
        ensures firm { OnOk result (EndsFirm self.old self.new) }
        ensures loud { StaysAsLoud self.old self.new }
        ensures exceptions { KeepsExceptions self.old self.new }
        ensures places { self.new.places ≡ self.old.places }
        ensures state { KeepsState self.old self.new }
    {
        self.device.flush()
    }

    /// Gives the device back, as it is.
    pub fn into_device(self) -> B
        ensures { result ≡ self.device }
    {
        let Store {
            device,
            exceptions: _,
            area: _,
            spare: _,
            places: _,
            state: _,
        } = self;
        device
    }
}
