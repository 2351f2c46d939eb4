// From where on the first chunk is sought that a snapshot has not published, so that no chunk is asked for twice while a merged
// chunk's are published one after the other.
ghost use Rattle.std.specs.Prelude.{◌≤◌, [], ◌∷◌, map};
ghost use Rattle.snapshot_list.specs.MergeStarting.{IsLeastFrom, pending_of};

use device::Block;
use in_flight::{ChunkCopy, Mark};
use sector::Chunk;
use snapshot::Snapshot;

/// The least of the chunks of these copies from one on, if it is less than another, or else that.
fn least_copied(copies: &[ChunkCopy], low: Chunk, most: Chunk) -> Chunk
    requires { low ≤ most }
    ensures { IsLeastFrom low most (map (λ p. p.pair.old) copies.now) result }
{
    let mut least = most;
    for copy in copies {
        least = lesser_from(low, least, copy.pair.old);
    }
    least
}

/// The same of the chunks of marks.
fn least_marked(marks: &[Mark], low: Chunk, most: Chunk) -> Chunk
    requires { low ≤ most }
    ensures { IsLeastFrom low most (map (λ m. m.chunk) marks.now) result }
{
    let mut least = most;
    for mark in marks {
        least = lesser_from(low, least, mark.chunk);
    }
    least
}

/// The lesser of two chunks, the second only where it lies from another one on.
fn lesser_from(low: Chunk, least: Chunk, chunk: Chunk) -> Chunk
    requires { low ≤ least }
    ensures { IsLeastFrom low least (chunk ∷ []) result }
{
    if low <= chunk && chunk < least {
        chunk
    } else {
        least
    }
}

/// From where on the first chunk that a snapshot has not published is sought, once a chunk is that lies from `low` on: the
/// least of this and of those from `low` on of which a copy is not published.
pub(crate) fn sought_from<B: Block>(snap: &Snapshot<B>, low: Chunk, published: Chunk) -> Chunk
    requires { low ≤ published }
    ensures { IsLeastFrom low published (pending_of snap.now) result }
{
    let least = least_copied(snap.copies(), low, published);
    least_marked(snap.marks(), low, least)
}
