// The copies of the chunks that a merged chunk touches are started, the first in each snapshot that it has not published. They
// take no memory: each snapshot keeps room back for its copy.
ghost use Rattle.std.specs.Prelude.{◌≡◌, ◌+◌, ◌*◌, ◌^◌, ◌<◌, ◌≤◌, Some, length, slice_index_or};
ghost use Rattle.std.specs.List.{All};
ghost use Rattle.sector.specs.declared.pair.Pair.{Pair};
ghost use Rattle.in_flight.specs.Copies.{count_of as count_in};
ghost use Rattle.volume_laws.specs.MergeDue.{last_of};
ghost use Rattle.snapshot_list.specs.Starting.{next_chunk_of};
ghost use Rattle.merge.specs.Lists.{next_of_group, waiting_of};
ghost use Rattle.merge.specs.Merging.{Merging};
ghost use Rattle.snapshot.specs.Kept.{Kept};
ghost use Rattle.snapshot_list.specs.MergeStarting.{AreNextSavedIn, CanSaveNext, GoesOnBehind, IsNextSaved, IsNextSavedBeside, IsNextSavedIn, KeepsRoomFor, LacksAtMost, LacksBehind};

use crate::routing::next_chunk_from;
use crate::seeking::sought_from;
use crate::{is_lacking_chunk, next_chunk, own_chunk};
use device::Block;
use in_flight::{Flight, refuse, sectors_of};
use merge::Merge;
use sector::{Chunk, Pair};
use snapshot::Snapshot;

/// The sector where a merged chunk begins.
pub(crate) fn first_of<B: Block>(merge: &Merge<B>, pair: Pair) -> u64
    requires { merge.now.state.chunk * pair.old < merge.now.state.origin }
    ensures { result ≡ merge.now.state.chunk * pair.old }
{
    // A look: the origin's sectors are counted in 64 bits.
    let _ = merge.sectors();
    merge.chunk() as u64 * pair.old
}

/// How many sectors it has: the origin's last chunk may be short.
pub(crate) fn count_of<B: Block>(merge: &Merge<B>, pair: Pair) -> u32
    requires { merge.now.state.chunk * pair.old < merge.now.state.origin }
    ensures is { result ≡ count_in merge.now.state.chunk merge.now.state.origin pair.old }
    ensures fits { merge.now.state.chunk * pair.old + result ≤ merge.now.state.origin }
    ensures counted { merge.now.state.origin < 2 ^ 64 }
    ensures some { 0 < result }
{
    sectors_of(merge.chunk(), merge.sectors(), pair.old)
}

/// Starts the copy of a chunk of a snapshot for a merge, where it lacks it, under the next number, and tells how many numbers
/// were given then. A snapshot whose store is full is spoiled, and its requests are refused.
fn save_chunk<B: Block>(
    snap: &mut Snapshot<B>,
    flights: &mut [Flight],
    copies: u64,
    chunk: Chunk,
) -> u64
    requires begins { snap.old.state.chunk * chunk < snap.old.state.origin }
    requires room { KeepsRoomFor chunk copies snap.old }
    requires few { copies + 1 < 2 ^ 64 }
    ensures saved { IsNextSavedIn B.contents B.layers chunk snap.old snap.new copies result flights.old flights.new }
{
    if !is_lacking_chunk(snap, chunk) {
        return copies;
    }
    if snap.start_merging(copies + 1, chunk) {
        copies + 1
    } else {
        let number = snap.number();
        snap.spoil();
        refuse(flights, number);
        copies
    }
}

/// The same for the first chunk that the snapshot has not published, of those that so many sectors of the origin touch from
/// this one on.
fn save_next_in<B: Block>(
    snap: &mut Snapshot<B>,
    flights: &mut [Flight],
    copies: u64,
    first: u64,
    count: u32,
) -> u64
    requires some { 0 < count }
    requires begins { first + count ≤ snap.old.state.origin }
    requires room { KeepsRoomFor (next_chunk_of first count snap.old) copies snap.old }
    requires few { copies + 1 < 2 ^ 64 }
    ensures saved { IsNextSavedIn B.contents B.layers (next_chunk_of first count snap.old) snap.old snap.new copies result flights.old flights.new }
{
    // A merge's copy that is under way is the one that is waited for: it is not sought among all that are touched.
    if snap.merging().is_some() {
        return copies;
    }
    // Looks: a chunk has a sector at least, and the origin's are counted in 64 bits.
    let _ = snap.chunk();
    let _ = snap.sectors();
    let chunk = next_chunk(snap, first, count);
    save_chunk(snap, flights, copies, chunk)
}

/// The same in all snapshots, in their order.
fn save_next<B: Block>(
    snaps: &mut [Snapshot<B>],
    flights: &mut [Flight],
    copies: u64,
    first: u64,
    count: u32,
) -> u64
    requires some { 0 < count }
    requires begins { All (λ s. first + count ≤ s.state.origin) snaps.old }
    requires room { All (λ s. KeepsRoomFor (next_chunk_of first count s) copies s) snaps.old }
    requires few { copies + length snaps.old < 2 ^ 64 }
    ensures saved { AreNextSavedIn B.contents B.layers (next_chunk_of first count) snaps.old snaps.new copies result flights.old flights.new }
{
    let mut given = copies;
    for k in 0..snaps.len() {
        given = save_next_in(&mut snaps[k], flights, given, first, count);
    }
    given
}

/// The same for the chunk of a pair, if there is one.
fn save_pair<B: Block>(
    merge: &Merge<B>,
    pair: Option<Pair>,
    snaps: &mut [Snapshot<B>],
    flights: &mut [Flight],
    copies: u64,
) -> u64
    requires room { (q : Pair) → pair ≡ Some q → CanSaveNext merge.now.state.chunk merge.now.state.origin copies snaps.old q }
    requires few { (q : Pair) → pair ≡ Some q → copies + length snaps.old < 2 ^ 64 }
    ensures saved { IsNextSaved B.contents B.layers merge.now.state.chunk merge.now.state.origin pair snaps.old snaps.new copies result flights.old flights.new }
{
    match pair {
        Some(pair) => save_next(
            snaps,
            flights,
            copies,
            first_of(merge, pair),
            count_of(merge, pair),
        ),
        None => copies,
    }
}

/// The same for the last pair of the merge's group that waits, if one does.
fn save_last<B: Block>(
    merge: &Merge<B>,
    snaps: &mut [Snapshot<B>],
    flights: &mut [Flight],
    copies: u64,
) -> u64
    requires room { (q : Pair) → last_of (waiting_of merge.now.group) ≡ Some q → CanSaveNext merge.now.state.chunk merge.now.state.origin copies snaps.old q }
    requires few { copies + length snaps.old < 2 ^ 64 }
    ensures saved { IsNextSaved B.contents B.layers merge.now.state.chunk merge.now.state.origin (last_of (waiting_of merge.now.group)) snaps.old snaps.new copies result flights.old flights.new }
{
    // A look: what the merge's looks say of its books is known from here on.
    let _ = merge.has_group();
    save_pair(merge, merge.next(), snaps, flights, copies)
}

/// What `save_next_in` does, once a chunk of the snapshot is published: no chunk before that is lacking, so none is asked for
/// again.
fn save_behind<B: Block>(
    snap: &mut Snapshot<B>,
    flights: &mut [Flight],
    copies: u64,
    first: u64,
    count: u32,
    published: Chunk,
) -> u64
    requires some { 0 < count }
    requires begins { first + count ≤ snap.old.state.origin }
    requires room { KeepsRoomFor (next_chunk_of first count snap.old) copies snap.old }
    requires few { copies + 1 < 2 ^ 64 }
    requires behind { LacksBehind published first count snap.old }
    ensures saved { IsNextSavedIn B.contents B.layers (next_chunk_of first count snap.old) snap.old snap.new copies result flights.old flights.new }
{
    if !snap.is_live() || snap.merging().is_some() {
        return copies;
    }
    // Looks: a chunk has a sector at least, and the origin's are counted in 64 bits.
    let _ = snap.chunk();
    let _ = snap.sectors();
    let low = own_chunk(snap, first);
    if published < low {
        return copies;
    }
    let from = sought_from(snap, low, published);
    let chunk = next_chunk_from(snap, first, count, from);
    save_chunk(snap, flights, copies, chunk)
}

/// The same in the snapshot at this place, where no other lacks what the merge waits for in it.
fn save_at<B: Block>(
    snaps: &mut [Snapshot<B>],
    flights: &mut [Flight],
    copies: u64,
    first: u64,
    count: u32,
    place: usize,
    published: Chunk,
) -> u64
    requires some { 0 < count }
    requires within { place < length snaps.old }
    requires begins { All (λ s. first + count ≤ s.state.origin) snaps.old }
    requires room { All (λ s. KeepsRoomFor (next_chunk_of first count s) copies s) snaps.old }
    requires few { copies + 1 < 2 ^ 64 }
    requires others { LacksAtMost (next_chunk_of first count) place snaps.old }
    requires behind { (d : Kept B) → LacksBehind published first count (slice_index_or snaps.old place d) }
    ensures saved { AreNextSavedIn B.contents B.layers (next_chunk_of first count) snaps.old snaps.new copies result flights.old flights.new }
{
    save_behind(&mut snaps[place], flights, copies, first, count, published)
}

/// The same for the chunk of a pair, if there is one.
fn save_pair_at<B: Block>(
    merge: &Merge<B>,
    pair: Option<Pair>,
    snaps: &mut [Snapshot<B>],
    flights: &mut [Flight],
    copies: u64,
    place: usize,
    published: Chunk,
) -> u64
    requires room { (q : Pair) → pair ≡ Some q → CanSaveNext merge.now.state.chunk merge.now.state.origin copies snaps.old q }
    requires few { (q : Pair) → pair ≡ Some q → copies + length snaps.old < 2 ^ 64 }
    requires behind { (q : Pair) → pair ≡ Some q → GoesOnBehind place published merge.now.state.chunk merge.now.state.origin snaps.old q }
    ensures saved { IsNextSaved B.contents B.layers merge.now.state.chunk merge.now.state.origin pair snaps.old snaps.new copies result flights.old flights.new }
{
    match pair {
        Some(pair) => save_at(
            snaps,
            flights,
            copies,
            first_of(merge, pair),
            count_of(merge, pair),
            place,
            published,
        ),
        None => copies,
    }
}

/// The same for the pair that is copied next, beside a merge that is begun, if one is.
fn save_beside<B: Block>(
    merge: &Option<Merge<B>>,
    snaps: &mut [Snapshot<B>],
    flights: &mut [Flight],
    copies: u64,
    place: usize,
    published: Chunk,
) -> u64
    requires room { (m : Merging B) → merge.now ≡ Some m → (q : Pair) → next_of_group m.group ≡ Some q → CanSaveNext m.state.chunk m.state.origin copies snaps.old q }
    requires few { (m : Merging B) → merge.now ≡ Some m → (q : Pair) → next_of_group m.group ≡ Some q → copies + length snaps.old < 2 ^ 64 }
    requires behind { (m : Merging B) → merge.now ≡ Some m → (q : Pair) → next_of_group m.group ≡ Some q → GoesOnBehind place published m.state.chunk m.state.origin snaps.old q }
    ensures saved { IsNextSavedBeside B.contents B.layers merge.now snaps.old snaps.new copies result flights.old flights.new }
{
    match merge {
        Some(merge) => save_pair_at(
            merge,
            merge.next_pair(),
            snaps,
            flights,
            copies,
            place,
            published,
        ),
        None => copies,
    }
}

/// Where a pair of the merge's group waits: starts the copies of the chunks that the last one's chunk touches, the first in
/// each snapshot that it has not published, where it lacks that, and tells how many numbers were given then. Snapshots whose
/// stores are full are spoiled, and their requests refused.
#[inline(always)]
pub fn save_waiting<B: Block>(
    merge: &Merge<B>,
    snaps: &mut Vec<Snapshot<B>>,
    flights: &mut Vec<Flight>,
    copies: u64,
) -> u64
    requires room { (q : Pair) → last_of (waiting_of merge.now.group) ≡ Some q → CanSaveNext merge.now.state.chunk merge.now.state.origin copies snaps.old.items q }
    requires few { copies + length snaps.old.items < 2 ^ 64 }
    ensures saved { IsNextSaved B.contents B.layers merge.now.state.chunk merge.now.state.origin (last_of (waiting_of merge.now.group)) snaps.old.items snaps.new.items copies result flights.old.items flights.new.items }
{
    if snaps.is_empty() {
        return copies;
    }
    save_last(merge, snaps, flights, copies)
}

/// The same for the pair that is copied next: the one whose chunk is in the merge's buffer, or else the last that waits. It is
/// called once a chunk is published in the snapshot at this place, where no other lacks what the merge waits for in it; so that
/// one alone is looked at, and what it waits for is sought from the chunk on. Where no merge is begun, or no pair is left to be
/// copied, nothing is done.
pub fn save_next_pair<B: Block>(
    merge: &Option<Merge<B>>,
    snaps: &mut Vec<Snapshot<B>>,
    flights: &mut Vec<Flight>,
    copies: u64,
    place: usize,
    published: Chunk,
) -> u64
    requires room { (m : Merging B) → merge.now ≡ Some m → (q : Pair) → next_of_group m.group ≡ Some q → CanSaveNext m.state.chunk m.state.origin copies snaps.old.items q }
    requires few { (m : Merging B) → merge.now ≡ Some m → (q : Pair) → next_of_group m.group ≡ Some q → copies + length snaps.old.items < 2 ^ 64 }
    requires behind { (m : Merging B) → merge.now ≡ Some m → (q : Pair) → next_of_group m.group ≡ Some q → GoesOnBehind place published m.state.chunk m.state.origin snaps.old.items q }
    ensures saved { IsNextSavedBeside B.contents B.layers merge.now snaps.old.items snaps.new.items copies result flights.old.items flights.new.items }
{
    save_beside(merge, snaps, flights, copies, place, published)
}
