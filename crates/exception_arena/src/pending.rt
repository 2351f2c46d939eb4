// The pending pairs of the arena, in the order in which they began, and how one of them leaves.
ghost use Rattle.std.specs.Prelude.{◌≡◌, ◌<◌, length, IsSome, IfSome, slice_index_or};
ghost use Rattle.std.specs.List.{remove};
ghost use Rattle.std.specs.VecDeque.{deque_capacity};
ghost use Rattle.exception_arena.specs.Pending.{begun_under, without};
ghost use Rattle.exception_arena.specs.declared.begun.Begun.{Begun};

use crate::{Begun, Id};
use std::collections::VecDeque;

/// The place of the first pending pair that has a number.
fn place_under(pending: &VecDeque<Begun>, id: Id) -> usize
    requires { IsSome (begun_under id pending.now.items) }
    ensures within { result < length pending.now.items }
    ensures here { (d : Begun) → IfSome (begun_under id pending.now.items) (λ pair. (slice_index_or pending.now.items result d).pair ≡ pair) }
    ensures rest { remove pending.now.items result ≡ without id pending.now.items }
{
    for place in 0..pending.len() {
        if pending[place].id == id {
            return place;
        }
    }
    unreachable!()
}

/// Takes the first pending pair that has a number out of the queue.
#[inline(always)]
pub fn take_out(pending: &mut VecDeque<Begun>, id: Id) -> Begun
    requires { IsSome (begun_under id pending.old.items) }
    ensures taken { IfSome (begun_under id pending.old.items) (λ pair. result.pair ≡ pair) }
    ensures rest { pending.new.items ≡ without id pending.old.items }
    ensures capacity { deque_capacity pending.new ≡ deque_capacity pending.old }
{
    let place = place_under(pending, id);
    // The first of all, which is the usual one, leaves without a step for those behind it.
    let taken = if place == 0 {
        pending.pop_front()
    } else {
        pending.remove(place)
    };
    let Some(begun) = taken else { unreachable!() };
    begun
}
