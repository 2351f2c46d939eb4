// Which event of a merge is due, by the merge, the snapshots and the requests in flight.
ghost use Rattle.std.specs.Prelude.{◌≡◌, ◌*◌, ◌<◌, Some, map, true};
ghost use Rattle.std.specs.List.{list_any};
ghost use Rattle.sector.specs.declared.pair.Pair.{Pair};
ghost use Rattle.in_flight.specs.declared.flights.Kind.TheVariants.{OriginRead, OriginWrite};
ghost use Rattle.volume_laws.specs.MergeDue.{can_commit_group, can_flush, can_group, can_read, can_read_area, can_release, can_write, goes_to, is_using, is_writing, merge_due as due_of_merge};
ghost use Rattle.snapshot.specs.Kept.{books_of};
ghost use Rattle.merge.specs.Due.{full_of};
ghost use Rattle.merge.specs.Lists.{group_pairs};
ghost use Rattle.merge.specs.Merging.{books_of as merging_books, due_of as merging_due};

use crate::is_clear_over;
use crate::saving_next::{count_of, first_of};
use device::Block;
use in_flight::{Flight, Kind, Route, request_kind};
use merge::Merge;
use plain_machine::Event;
use sector::Chunk;
use snapshot::Snapshot;

/// Whether an origin request with this route goes to a place of the present group.
fn is_routed_there<B: Block>(merge: &Merge<B>, route: Route) -> bool
    ensures read { result ≡ list_any (λ q. goes_to q.new OriginRead route) (group_pairs merge.now.group) }
    ensures write { result ≡ list_any (λ q. goes_to q.new OriginWrite route) (group_pairs merge.now.group) }
{
    match route {
        Route::Store(place) => merge.has_place(place),
        Route::Held => false,
        Route::Origin => false,
        Route::Whole => false,
        Route::Refused => false,
    }
}

/// Whether a request is an origin's, and goes to a place of the present group.
fn is_using_group<B: Block>(merge: &Merge<B>, flight: &Flight) -> bool
    ensures { result ≡ is_using (group_pairs merge.now.group) flight.now }
{
    match request_kind(&flight.request) {
        Kind::OriginRead => is_routed_there(merge, flight.route),
        Kind::OriginWrite => is_routed_there(merge, flight.route),
        Kind::OriginFlush => false,
        Kind::SnapRead(_) => false,
        Kind::SnapWrite(_) => false,
        Kind::SnapFlush(_) => false,
    }
}

/// Whether one of these requests does.
fn is_any_using<B: Block>(merge: &Merge<B>, flights: &[Flight]) -> bool
    ensures { result ≡ list_any (is_using (group_pairs merge.now.group)) flights.now }
{
    for f in flights {
        if is_using_group(merge, f) {
            return true;
        }
    }
    false
}

/// Whether an origin write with this route goes to a place.
fn is_routed_to(route: Route, place: Chunk) -> bool
    ensures { result ≡ goes_to place OriginWrite route }
{
    match route {
        Route::Store(other) => other == place,
        Route::Held => false,
        Route::Origin => false,
        Route::Whole => false,
        Route::Refused => false,
    }
}

/// Whether a request is an origin write to a place of the merging store.
fn is_writing_at(flight: &Flight, place: Chunk) -> bool
    ensures { result ≡ is_writing place flight.now }
{
    match request_kind(&flight.request) {
        Kind::OriginWrite => is_routed_to(flight.route, place),
        Kind::OriginRead => false,
        Kind::OriginFlush => false,
        Kind::SnapRead(_) => false,
        Kind::SnapWrite(_) => false,
        Kind::SnapFlush(_) => false,
    }
}

/// Whether one of these requests is.
fn is_any_writing(flights: &[Flight], place: Chunk) -> bool
    ensures { result ≡ list_any (is_writing place) flights.now }
{
    for f in flights {
        if is_writing_at(f, place) {
            return true;
        }
    }
    false
}

/// Whether MergeRelease is due: the area is written without the group's slots, and no origin request in flight goes to a
/// place of the group.
pub fn is_release_due<B: Block>(merge: &Merge<B>, flights: &[Flight]) -> bool
    ensures { result ≡ can_release flights.now (merging_books B.contents true merge.now) }
{
    // A look: what the merge's looks say of its books is known from here on.
    let _ = merge.has_group();
    merge.can_release() && !is_any_using(merge, flights)
}

/// Whether MergeCommit is due: all chunks of the group are copied, and the origin disk was flushed since.
pub fn is_commit_due<B: Block>(merge: &Merge<B>) -> bool
    ensures { result ≡ can_commit_group (merging_due B.contents true merge.now) }
{
    let _ = merge.has_group();
    merge.can_commit()
}

/// Whether MergeFlush is due: all chunks of the group are copied, and the origin disk was not flushed since.
pub fn is_flush_due<B: Block>(merge: &Merge<B>) -> bool
    ensures { result ≡ can_flush (merging_due B.contents true merge.now) }
{
    let _ = merge.has_group();
    merge.can_flush()
}

/// Whether MergeWrite is due: a chunk is in the buffer, each live snapshot has published each of its own chunks that it
/// touches, and no invalid mark is untried.
pub fn is_write_due<B: Block>(merge: &Merge<B>, snaps: &[Snapshot<B>]) -> bool
    requires begins { (q : Pair) → full_of merge.now.group ≡ Some q → merge.now.state.chunk * q.old < merge.now.state.origin }
    ensures { result ≡ can_write (map (books_of B.contents B.layers) snaps.now) (merging_books B.contents true merge.now) }
{
    let _ = merge.has_group();
    match merge.full() {
        Some(pair) => is_clear_over(snaps, first_of(merge, pair), count_of(merge, pair)),
        None => false,
    }
}

/// Whether MergeRead is due: a pair waits, no chunk is in the buffer, and no write in flight goes to the place of the pair
/// whose chunk is read next.
pub fn is_read_due<B: Block>(merge: &Merge<B>, flights: &[Flight]) -> bool
    ensures { result ≡ can_read flights.now (merging_books B.contents true merge.now) }
{
    let _ = merge.has_group();
    match merge.next_read() {
        Some(pair) => !is_any_writing(flights, pair.new),
        None => false,
    }
}

/// Whether MergeAreaRead is due: the merge runs, no group is formed, and the area has no pairs and is not the first.
pub fn is_area_due<B: Block>(merge: &Merge<B>) -> bool
    ensures { result ≡ can_read_area (merging_due B.contents true merge.now) }
{
    let _ = merge.has_group();
    merge.can_read_area()
}

/// Whether MergeGroup is due: the merge runs, no group is formed, and the area has pairs.
pub fn is_group_due<B: Block>(merge: &Merge<B>) -> bool
    ensures { result ≡ can_group (merging_due B.contents true merge.now) }
{
    let _ = merge.has_group();
    merge.can_group()
}

/// The event of a merge that is due first: what ends a group comes first.
pub fn merge_due<B: Block>(
    merge: &Merge<B>,
    snaps: &[Snapshot<B>],
    flights: &[Flight],
) -> Option<Event>
    requires begins { (q : Pair) → full_of merge.now.group ≡ Some q → merge.now.state.chunk * q.old < merge.now.state.origin }
    ensures { result ≡ due_of_merge (map (books_of B.contents B.layers) snaps.now) flights.now (merging_due B.contents true merge.now) }
{
    if is_release_due(merge, flights) {
        return Some(Event::MergeRelease);
    }
    if is_commit_due(merge) {
        return Some(Event::MergeCommit);
    }
    if is_flush_due(merge) {
        return Some(Event::MergeFlush);
    }
    if is_write_due(merge, snaps) {
        return Some(Event::MergeWrite);
    }
    if is_read_due(merge, flights) {
        return Some(Event::MergeRead);
    }
    if is_area_due(merge) {
        return Some(Event::MergeAreaRead);
    }
    if is_group_due(merge) {
        Some(Event::MergeGroup)
    } else {
        None
    }
}
