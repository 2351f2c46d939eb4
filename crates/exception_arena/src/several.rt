// Several pairs at once, for every form of the list.
ghost use Rattle.std.specs.Prelude.{◌≡◌, ℕ, ◌+◌, ◌-◌, ◌<◌, ◌≤◌, [], ◌++◌, length, take, drop, slice_index_or};
ghost use Rattle.sector.specs.declared.pair.Pair.{Pair};
ghost use Rattle.exception_arena.specs.Pending.{pairs};

use crate::Exceptions;
use sector::Chunk;

/// Commits the pairs that began first, so many of them, in the order in which they began.
pub fn finish_first<E: Exceptions>(exceptions: &mut E, count: usize)
    requires { count ≤ length (E.pending exceptions.old) }
    ensures committed { E.committed exceptions.new ≡ E.committed exceptions.old ++ pairs (take count (E.pending exceptions.old)) }
    ensures pending { E.pending exceptions.new ≡ drop count (E.pending exceptions.old) }
    ensures reserved { E.reserved exceptions.new ≡ E.reserved exceptions.old }
    ensures memory { E.memory exceptions.new ≡ E.memory exceptions.old }
{
    for _i in 0..count {
        let first = exceptions.pending_at(0);
        exceptions.finish(first.id);
    }
}

/// Drops all pending pairs. The committed ones stay.
pub fn abandon_all<E: Exceptions>(exceptions: &mut E)
    ensures committed { E.committed exceptions.new ≡ E.committed exceptions.old }
    ensures pending { E.pending exceptions.new ≡ [] }
    ensures reserved { E.reserved exceptions.new ≡ E.reserved exceptions.old }
    ensures memory { E.memory exceptions.new ≡ E.memory exceptions.old }
{
    let count = exceptions.pending_len();
    for _i in 0..count {
        let first = exceptions.pending_at(0);
        exceptions.abandon(first.id);
    }
}

/// Takes the last committed pairs away, so many of them, whose chunks of the origin fall by one from `old_chunk`, that
/// of the last pair, to that of the first of them.
pub fn remove_last<E: Exceptions>(exceptions: &mut E, old_chunk: Chunk, count: usize)
    requires count { count ≤ length (E.committed exceptions.old) }
    requires falling { (i : ℕ) (d : Pair) → i < count → (slice_index_or (E.committed exceptions.old) (length (E.committed exceptions.old) - (i + 1)) d).old + i ≡ old_chunk }
    ensures committed { E.committed exceptions.new ≡ take (length (E.committed exceptions.old) - count) (E.committed exceptions.old) }
    ensures pending { E.pending exceptions.new ≡ E.pending exceptions.old }
    ensures reserved { E.reserved exceptions.new ≡ E.reserved exceptions.old }
    ensures memory { E.memory exceptions.new ≡ E.memory exceptions.old }
{
    for i in 0..count {
        exceptions.remove(old_chunk - i as u64);
    }
}
