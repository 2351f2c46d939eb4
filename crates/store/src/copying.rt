// Copies of the origin's chunks: a place is taken, the chunk is written there, and is read again.
ghost use Rattle.std.specs.Prelude.{◌≡◌, ◌+◌, ◌*◌, ◌<◌, ◌≤◌, [], ◌∷◌, ◌++◌, length, OnOk, OnErr, IfErr, MatchOption, IsTrue, None, true, false};
ghost use Rattle.sector.specs.Bytes.{sectors_at, with_sectors};
ghost use Rattle.sector.specs.declared.refusal.Refusal.TheVariants.{NoMemory};
ghost use Rattle.device.specs.Layers.{is_loud};
ghost use Rattle.cow_format.specs.Places.{ChangesOnly, is_area_place};
ghost use Rattle.cow_format.specs.Pairs.{IsInside};
ghost use Rattle.cow_format.specs.NextPlace.{IsFull, stepped};
ghost use Rattle.cow_format.specs.Picture.{place_of};
ghost use Rattle.exception_arena.specs.Pending.{begun_under};
ghost use Rattle.exception_arena.specs.declared.begun.Begun.{Begun};
ghost use Rattle.store.specs.Held.{committed, memory, pending, pairs_pending, reserved};
ghost use Rattle.store.specs.declared.state.Left.TheVariants.{Nothing};
ghost use Rattle.store.specs.Calls.{KeepsBytes, KeepsCommitted, KeepsDurable, KeepsExceptions, KeepsMemory, KeepsPending, KeepsReserved, KeepsSize, KeepsState, MayHoldNowIfLoud, ReadsPlace, StaysAsLoud, WritesPlace};

use crate::Store;
use crate::chunks::{read_part, write_part};
use device::{Block, Io};
use exception_arena::{Begun, Exceptions, abandon_all};
use sector::{Chunk, Pair, Refusal};

impl<B: Block> Store<B> {
    /// Makes room for so many more copies to start; `NoMemory` where that is refused, and then nothing changed.
    pub fn reserve(&mut self, count: usize) -> Result<(), Refusal>
        ensures ok { OnOk result (reserved self.new.exceptions ≡ reserved self.old.exceptions + count) }
        ensures err { OnErr result (reserved self.new.exceptions ≡ reserved self.old.exceptions) }
        ensures refusal { IfErr result (λ e. e ≡ NoMemory) }
        ensures committed { KeepsCommitted self.old self.new }
        ensures pending { KeepsPending self.old self.new }
        ensures device { self.new.device ≡ self.old.device }
        ensures places { self.new.places ≡ self.old.places }
        ensures state { KeepsState self.old self.new }
    {
        self.exceptions.reserve(count)
    }

    /// The chunk of the store with the committed copy of a chunk of the origin.
    pub fn get(&self, old: Chunk) -> Option<Chunk>
        ensures { result ≡ place_of (committed self.now.exceptions) old }
    {
        self.exceptions.get(old)
    }

    /// Starts the copy of a chunk of the origin that has none: its pair takes the next place. `None` where that place is
    /// not wholly inside the store, and then nothing changed.
    #[inline(always)]
    pub fn start(&mut self, old: Chunk) -> Option<Begun>
        requires copying { self.old.state.copying ≡ true }
        requires reserved { 0 < reserved self.old.exceptions }
        requires begins { self.old.state.chunk * old < self.old.state.origin }
        requires absent { place_of (committed self.old.exceptions) old ≡ None }
        requires idle { place_of (pairs_pending self.old.exceptions) old ≡ None }

        ensures full { MatchOption result (IsFull self.old.state.chunk self.old.state.size self.old.places.next × (self.new.exceptions ≡ self.old.exceptions)) (λ begun. self.old.state.chunk * (self.old.places.next + 1) ≤ self.old.state.size) }
        ensures inside { MatchOption result (Unit {0}) (λ begun. IsInside self.old.state.chunk self.old.state.origin self.old.state.size begun.pair) }
        ensures pair { MatchOption result (Unit {0}) (λ begun. begun.pair ≡ record { old = old; new = self.old.places.next }) }
        ensures pending { MatchOption result (Unit {0}) (λ begun. pending self.new.exceptions ≡ pending self.old.exceptions ++ begun ∷ []) }
        ensures own { MatchOption result (Unit {0}) (λ begun. begun_under begun.id (pending self.old.exceptions) ≡ None) }
        ensures next { MatchOption result (self.new.places.next ≡ self.old.places.next) (λ begun. self.new.places.next ≡ stepped self.old.state.chunk (self.old.places.next + 1)) }
        ensures used { MatchOption result (Unit {0}) (λ begun. reserved self.new.exceptions + 1 ≡ reserved self.old.exceptions) }
        ensures committed { KeepsCommitted self.old self.new }
        ensures memory { KeepsMemory self.old self.new }
        ensures device { self.new.device ≡ self.old.device }
        ensures state { KeepsState self.old self.new }
    {
        match self.places.take() {
            None => None,
            Some(new) => {
                let id = self.exceptions.begin(old, new);
                let pair = Pair { old, new };
                Some(Begun { id, pair })
            }
        }
    }

    /// Drops the copies that are under way; from then on no copy starts.
    pub fn drop_copies(&mut self)
        ensures committed { KeepsCommitted self.old self.new }
        ensures pending { pending self.new.exceptions ≡ [] }
        ensures reserved { KeepsReserved self.old self.new }
        ensures memory { KeepsMemory self.old self.new }
        ensures device { self.new.device ≡ self.old.device }
        ensures places { self.new.places ≡ self.old.places }
        ensures state { self.new.state ≡ record self.old.state { copying = false } }
    {
        abandon_all(&mut self.exceptions);
        self.state.copying = false;
    }

    /// Writes so many sectors of a chunk that is no area's, from one of its sectors on: of a copy, or of a chunk whose copy
    /// stands there.
    pub fn write_chunk(
        &mut self,
        place: Chunk,
        first: u32,
        count: u32,
        bytes: &[u8],
    ) -> Result<(), Io>
        requires ready { self.old.state.left ≡ Nothing }
        requires some { 0 < count }
        requires part { first + count ≤ self.old.state.chunk }
        requires low { 0 < place }
        requires free { is_area_place self.old.state.chunk place ≡ false }
        requires inside { self.old.state.chunk * (place + 1) ≤ self.old.state.size }
        requires room { length bytes.now ≡ 512 * count }

        ensures operation { WritesPlace place first count result self.old self.new }
        ensures written { OnOk result (IsTrue (is_loud (B.layers self.old.device)) → B.contents self.new.device ≡ with_sectors (B.contents self.old.device) (self.old.state.chunk * place + first) bytes.now) }
        ensures same { OnErr result (KeepsBytes self.old self.new) }
        ensures only { ChangesOnly self.old.state.chunk place (B.contents self.old.device) (B.contents self.new.device) }
        ensures loud { StaysAsLoud self.old self.new }
        ensures durable { KeepsDurable self.old self.new }
        ensures adds { MayHoldNowIfLoud self.old self.new }
        ensures size { KeepsSize self.old self.new }

        ensures exceptions { KeepsExceptions self.old self.new }
        ensures places { self.new.places ≡ self.old.places }
        ensures state { KeepsState self.old self.new }
    {
        write_part(
            &mut self.device,
            self.state.size,
            self.state.chunk,
            place,
            first,
            count,
            bytes,
        )
    }

    /// Reads so many sectors of a chunk, from one of its sectors on. At `Io` the buffer is as it was.
    pub fn read_chunk(
        &mut self,
        place: Chunk,
        first: u32,
        count: u32,
        out: &mut [u8],
    ) -> Result<(), Io>
        requires some { 0 < count }
        requires part { first + count ≤ self.old.state.chunk }
        requires inside { self.old.state.chunk * (place + 1) ≤ self.old.state.size }
        requires room { length out.old ≡ 512 * count }

        ensures operation { ReadsPlace place first count result self.old self.new }
        ensures data { OnOk result (out.new ≡ sectors_at (B.contents self.old.device) (self.old.state.chunk * place + first) count) }
        ensures err { OnErr result (out.new ≡ out.old) }
        ensures same { KeepsBytes self.old self.new }
        ensures loud { StaysAsLoud self.old self.new }
        ensures durable { KeepsDurable self.old self.new }
        ensures adds { MayHoldNowIfLoud self.old self.new }
        ensures size { KeepsSize self.old self.new }

        ensures exceptions { KeepsExceptions self.old self.new }
        ensures places { self.new.places ≡ self.old.places }
        ensures state { KeepsState self.old self.new }
    {
        let size = self.state.size;
        let chunk = self.state.chunk;
        read_part(&mut self.device, size, chunk, place, first, count, out)
    }
}
