// The arena: the lasting form. Its committed pairs stand in one vector of nodes, and chains lead through them.
ghost use Rattle.std.specs.Prelude.{◌≡◌, ◌<◌, [], ◌∷◌, ◌++◌, vec_capacity, slice_index_or, OnOk, OnErr, IfOk, IfErr};
ghost use Rattle.std.specs.List.{All};
ghost use Rattle.std.specs.VecDeque.{deque_capacity};
ghost use Rattle.sector.specs.declared.refusal.Refusal.TheVariants.{NoMemory};
ghost use Rattle.exception_arena.specs.Kept.{Kept};
ghost use Rattle.exception_arena.specs.Links.{IsSmall};
ghost use Rattle.exception_arena.specs.Arenas.{IsSound, kept};

use crate::chains::{find, make_room, pop, push};
use crate::link::Link;
use crate::node::Node;
use crate::pending::take_out;
use crate::{Begun, Exceptions, Id};
use sector::{Chunk, Pair, Refusal};
use std::alloc::Global;
use std::collections::VecDeque;
use std::marker::Model;

/// The pairs. The committed ones stand in nodes, in the order of their slots, each on the chain of its bucket; the pending
/// ones in a queue, in the order in which they began. A number is given once. A node takes 12 bytes, and the head of a
/// bucket 4.
#[derive(Drop)]
pub struct Arena {
    nodes: Vec<Node>,
    heads: Vec<Link>,
    pending: VecDeque<Begun>,
    next: Id,
    reserved: usize,
}

impl Model for Arena {
    ghost Value = { Kept };

    ghost view = { λ a. kept a.nodes.items a.pending.items a.reserved (vec_capacity a.nodes ∷ vec_capacity a.heads ∷ deque_capacity a.pending ∷ []) };

    ghost invariant = { λ a. IsSound a.nodes.items a.heads.items a.pending.items a.next a.reserved (vec_capacity a.nodes) (deque_capacity a.pending) };
}

impl Arena {
    /// No pairs, and memory for so many committed ones, taken at once and untouched until they come; `NoMemory` where it is
    /// refused.
    pub fn with_room(alloc: Global, pairs: usize) -> Result<Arena, Refusal>
        ensures committed { IfOk result (λ arena. arena.committed ≡ []) }
        ensures pending { IfOk result (λ arena. arena.pending ≡ []) }
        ensures reserved { IfOk result (λ arena. arena.reserved ≡ 0) }
        ensures room { IfOk result (λ arena. slice_index_or arena.memory 0 0 ≡ pairs) }
        ensures refusal { IfErr result (λ e. e ≡ NoMemory) }
    {
        let Some(buckets) = pairs.checked_next_power_of_two() else {
            return Err(Refusal::NoMemory);
        };
        let Ok(nodes) = Vec::with_capacity(alloc, pairs) else {
            return Err(Refusal::NoMemory);
        };
        let Ok(heads) = Vec::with_capacity(alloc, buckets) else {
            return Err(Refusal::NoMemory);
        };
        Ok(Arena {
            nodes,
            heads,
            pending: VecDeque::new(alloc),
            next: 0,
            reserved: 0,
        })
    }

    /// Holds these pairs as committed ones, behind the others; `NoMemory` where memory for them is refused, and then nothing
    /// changed.
    pub fn hold(&mut self, pairs: &[Pair]) -> Result<(), Refusal>
        requires small { All IsSmall pairs.now }
        ensures committed { OnOk result (self.new.committed ≡ self.old.committed ++ pairs.now) }
        ensures err { OnErr result (self.new.committed ≡ self.old.committed) }
        ensures pending { self.new.pending ≡ self.old.pending }
        ensures reserved { self.new.reserved ≡ self.old.reserved }
        ensures refusal { IfErr result (λ e. e ≡ NoMemory) }
    {
        let Some(begun) = self.pending.len().checked_add(self.reserved) else {
            return Err(Refusal::NoMemory);
        };
        let Some(more) = begun.checked_add(pairs.len()) else {
            return Err(Refusal::NoMemory);
        };
        let Ok(()) = make_room(&mut self.nodes, &mut self.heads, more) else {
            return Err(Refusal::NoMemory);
        };
        for pair in pairs {
            push(&mut self.nodes, &mut self.heads, *pair);
        }
        Ok(())
    }
}

impl Exceptions for Arena {
    ghost committed = { λ e. e.committed };

    ghost pending = { λ e. e.pending };

    ghost reserved = { λ e. e.reserved };

    ghost memory = { λ e. e.memory };

    fn new(alloc: Global) -> Arena {
        Arena {
            nodes: Vec::new(alloc),
            heads: Vec::new(alloc),
            pending: VecDeque::new(alloc),
            next: 0,
            reserved: 0,
        }
    }

    #[inline(always)]
    fn reserve(&mut self, count: usize) -> Result<(), Refusal> {
        let Some(more) = self.reserved.checked_add(count) else {
            return Err(Refusal::NoMemory);
        };
        let Some(wanted) = self.pending.len().checked_add(more) else {
            return Err(Refusal::NoMemory);
        };
        if self.next.checked_add(more as u64).is_none() {
            return Err(Refusal::NoMemory);
        }
        let Ok(()) = self.pending.reserve(more) else {
            return Err(Refusal::NoMemory);
        };
        let Ok(()) = make_room(&mut self.nodes, &mut self.heads, wanted) else {
            return Err(Refusal::NoMemory);
        };
        self.reserved = more;
        Ok(())
    }

    fn begin(&mut self, old_chunk: Chunk, new_chunk: Chunk) -> Id {
        let id = self.next;
        let pair = Pair {
            old: old_chunk,
            new: new_chunk,
        };
        self.pending.push_back_reserved(Begun { id, pair });
        self.reserved -= 1;
        self.next += 1;
        id
    }

    #[inline(always)]
    fn finish(&mut self, id: Id) {
        let begun = take_out(&mut self.pending, id);
        push(&mut self.nodes, &mut self.heads, begun.pair);
    }

    fn abandon(&mut self, id: Id) {
        take_out(&mut self.pending, id);
    }

    fn get(&self, old_chunk: Chunk) -> Option<Chunk> {
        find(self.nodes.as_slice(), self.heads.as_slice(), old_chunk)
    }

    fn remove(&mut self, _old_chunk: Chunk) {
        pop(&mut self.nodes, &mut self.heads);
    }

    fn len(&self) -> usize {
        self.nodes.len()
    }

    fn pending_len(&self) -> usize {
        self.pending.len()
    }

    fn pending_at(&self, index: usize) -> Begun {
        self.pending[index]
    }

    fn committed_at(&self, index: usize) -> Pair {
        self.nodes[index].pair()
    }
}
