// The plain form: two vectors, the committed and the pending pairs, searched from the front and grown by `reserve` alone.
ghost use Rattle.std.specs.Prelude.{◌≡◌, ℕ, [], ◌∷◌, ◌+◌, ◌^◌, ◌<◌, ◌≤◌, length, vec_capacity, IsSome, IfSome, slice_index_or, IsTrue};
ghost use Rattle.std.specs.List.{All, remove};
ghost use Rattle.cow_format.specs.Picture.{place_of};
ghost use Rattle.exception_arena.specs.Pending.{begun_under, without};
ghost use Rattle.sector.specs.declared.pair.Pair.{Pair};
ghost use Rattle.exception_arena.specs.declared.begun.Begun.{Begun};

use crate::{Begun, Exceptions, Id};
use sector::{Chunk, Pair, Refusal};
use std::alloc::Global;

/// Two vectors, the committed and the pending pairs, searched from the front and grown by `reserve` alone. A number is
/// given once: where `reserve` would run out of numbers it answers `NoMemory` too.
#[derive(Drop)]
pub struct PlainExceptions {
    committed: Vec<Pair>,
    pending: Vec<Begun>,
    reserved: usize,
    next: Id,
    ghost room: { length committed.items + length pending.items + reserved ≤ vec_capacity committed },
    ghost places: { length pending.items + reserved ≤ vec_capacity pending },
    ghost numbers: { next + reserved < 2 ^ 64 },
    ghost given: { All (λ begun. begun.id < next) pending.items },
}

impl Exceptions for PlainExceptions {
    ghost committed = { λ e. e.committed.items };

    ghost pending = { λ e. e.pending.items };

    ghost reserved = { λ e. e.reserved };

    ghost memory = { λ e. vec_capacity e.committed ∷ vec_capacity e.pending ∷ [] };

    fn new(alloc: Global) -> PlainExceptions {
        PlainExceptions {
            committed: Vec::new(alloc),
            pending: Vec::new(alloc),
            reserved: 0,
            next: 0,
        }
    }

    fn reserve(&mut self, count: usize) -> Result<(), Refusal> {
        let Some(more) = self.reserved.checked_add(count) else {
            return Err(Refusal::NoMemory);
        };
        let Some(all) = more.checked_add(self.pending.len()) else {
            return Err(Refusal::NoMemory);
        };
        if self.next.checked_add(more as u64).is_none() {
            return Err(Refusal::NoMemory);
        }
        let Ok(()) = self.committed.reserve(all) else {
            return Err(Refusal::NoMemory);
        };
        let Ok(()) = self.pending.reserve(more) else {
            return Err(Refusal::NoMemory);
        };
        self.reserved = more;
        Ok(())
    }

    fn begin(&mut self, old_chunk: Chunk, new_chunk: Chunk) -> Id {
        let id = self.next;
        let pair = Pair {
            old: old_chunk,
            new: new_chunk,
        };
        self.pending.push_reserved(Begun { id, pair });
        self.reserved -= 1;
        self.next += 1;
        id
    }

    fn finish(&mut self, id: Id) {
        let place = place_under(self.pending.as_slice(), id);
        let begun = self.pending.remove(place);
        self.committed.push_reserved(begun.pair);
    }

    fn abandon(&mut self, id: Id) {
        let place = place_under(self.pending.as_slice(), id);
        let _ = self.pending.remove(place);
    }

    fn get(&self, old_chunk: Chunk) -> Option<Chunk> {
        find(self.committed.as_slice(), old_chunk)
    }

    fn remove(&mut self, _old_chunk: Chunk) {
        let _ = self.committed.pop();
    }

    fn len(&self) -> usize {
        self.committed.len()
    }

    fn pending_len(&self) -> usize {
        self.pending.len()
    }

    fn pending_at(&self, index: usize) -> Begun {
        self.pending[index]
    }

    fn committed_at(&self, index: usize) -> Pair {
        self.committed[index]
    }
}

/// The place of the first pending pair that has a number.
fn place_under(pending: &[Begun], id: Id) -> usize
    requires { IsSome (begun_under id pending.now) }
    ensures within { result < length pending.now }
    ensures here { (d : Begun) → IfSome (begun_under id pending.now) (λ pair. (slice_index_or pending.now result d).pair ≡ pair) }
    ensures rest { remove pending.now result ≡ without id pending.now }
{
    for (place, begun) in pending.iter().enumerate() {
        if begun.id == id {
            return place;
        }
    }
    unreachable!()
}

/// The place of a chunk's copy, by the first pair that names the chunk.
fn find(pairs: &[Pair], old: Chunk) -> Option<Chunk>
    ensures { result ≡ place_of pairs.now old }
{
    for pair in pairs {
        if pair.old == old {
            return Some(pair.new);
        }
    }
    None
}
