// What every form of the list of pairs promises.
ghost use Rattle.std.specs.Prelude.{◌≡◌, ℕ, ◌+◌, ◌-◌, ◌<◌, ◌≤◌, ◌^◌, List, [], ◌∷◌, ◌++◌, length, take, IfErr, IfSome, IsSome, None, OnOk, OnErr, slice_index_or};
ghost use Rattle.sector.specs.declared.pair.Pair.{Pair};
ghost use Rattle.sector.specs.declared.refusal.Refusal.TheVariants.{NoMemory};
ghost use Rattle.cow_format.specs.Picture.{place_of};
ghost use Rattle.exception_arena.specs.Pending.{begun_under, without};
ghost use Rattle.exception_arena.specs.declared.begun.Begun.{Begun};
ghost use Rattle.exception_arena.specs.Keeping.{Keeps};

use crate::{Begun, Id};
use sector::{Chunk, Pair, Refusal};
use std::alloc::Global;

/// The pairs of a store. Where two pairs name one chunk of the origin, the first of them counts.
pub trait Exceptions: Drop {
    /// The committed pairs, in the order of their slots.
    ghost committed: { Self → List Pair };

    /// The pairs that are begun and not committed, in the order in which they began.
    ghost pending: { Self → List Begun };

    /// How many more may begin.
    ghost reserved: { Self → ℕ };

    /// For how many elements each of its lists in memory has room. Of the methods here only `reserve` changes it, and of an
    /// arena's own only `hold`, so nothing else takes memory.
    ghost memory: { Self → List ℕ };

    /// No pairs, and room for none. It takes no memory.
    fn new(alloc: Global) -> Self
        ensures committed { committed result ≡ [] }
        ensures pending { pending result ≡ [] }
        ensures reserved { reserved result ≡ 0 };

    /// Makes room for so many more pairs to begin; `NoMemory` where that is refused, and then nothing changed.
    fn reserve(&mut self, count: usize) -> Result<(), Refusal>
        ensures committed { Keeps committed self.old self.new }
        ensures pending { Keeps pending self.old self.new }
        ensures ok { OnOk result (reserved self.new ≡ reserved self.old + count) }
        ensures err { OnErr result (reserved self.new ≡ reserved self.old) }
        ensures refusal { IfErr result (λ e. e ≡ NoMemory) };

    /// Begins a pair of chunks below 2^32, in one of the reserved places, and answers its number.
    fn begin(&mut self, old_chunk: Chunk, new_chunk: Chunk) -> Id
        requires reserved { 0 < reserved self.old }
        requires old { old_chunk < 2 ^ 32 }
        requires new { new_chunk < 2 ^ 32 }
        ensures committed { Keeps committed self.old self.new }
        ensures pending { pending self.new ≡ pending self.old ++ (record { id = result; pair = record { old = old_chunk; new = new_chunk } }) ∷ [] }
        ensures own { begun_under result (pending self.old) ≡ None }
        ensures reserved { reserved self.new + 1 ≡ reserved self.old }
        ensures memory { Keeps memory self.old self.new };

    /// Commits a pending pair: it goes to the end of the list.
    fn finish(&mut self, id: Id)
        requires { IsSome (begun_under id (pending self.old)) }
        ensures committed { IfSome (begun_under id (pending self.old)) (λ pair. committed self.new ≡ committed self.old ++ pair ∷ []) }
        ensures pending { pending self.new ≡ without id (pending self.old) }
        ensures reserved { Keeps reserved self.old self.new }
        ensures memory { Keeps memory self.old self.new };

    /// Drops a pending pair. The places that are reserved stay as many.
    fn abandon(&mut self, id: Id)
        requires { IsSome (begun_under id (pending self.old)) }
        ensures committed { Keeps committed self.old self.new }
        ensures pending { pending self.new ≡ without id (pending self.old) }
        ensures reserved { Keeps reserved self.old self.new }
        ensures memory { Keeps memory self.old self.new };

    /// The chunk of the store with the committed copy of a chunk of the origin.
    fn get(&self, old_chunk: Chunk) -> Option<Chunk>
        ensures { result ≡ place_of (committed self.now) old_chunk };

    /// Takes the last committed pair away, whose chunk of the origin is given.
    fn remove(&mut self, old_chunk: Chunk)
        requires some { 0 < length (committed self.old) }
        requires last { (d : Pair) → (slice_index_or (committed self.old) (length (committed self.old) - 1) d).old ≡ old_chunk }
        ensures committed { committed self.new ≡ take (length (committed self.old) - 1) (committed self.old) }
        ensures pending { Keeps pending self.old self.new }
        ensures reserved { Keeps reserved self.old self.new }
        ensures memory { Keeps memory self.old self.new };

    /// How many pairs are committed.
    fn len(&self) -> usize
        ensures { result ≡ length (committed self.now) };

    /// How many pairs are pending.
    fn pending_len(&self) -> usize
        ensures { result ≡ length (pending self.now) };

    /// A pending pair, counted from 0 in the order in which they began.
    fn pending_at(&self, index: usize) -> Begun
        requires { index < length (pending self.now) }
        ensures { (d : Begun) → result ≡ slice_index_or (pending self.now) index d };

    /// A committed pair, counted from 0 in the order of their slots.
    fn committed_at(&self, index: usize) -> Pair
        requires { index < length (committed self.now) }
        ensures { (d : Pair) → result ≡ slice_index_or (committed self.now) index d };
}
