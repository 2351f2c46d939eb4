// Whether an origin write may go to the disk, or a merge's; which chunk that it waits for comes first; and held writes of a
// snapshot are routed again, after a publication.
ghost use Rattle.std.specs.Prelude.{◌≡◌, ℕ, ◌+◌, ◌/◌, ◌^◌, ◌<◌, ◌≤◌, true, false, map, Option};
ghost use Rattle.std.specs.List.{All, list_all, list_any};
ghost use Rattle.chunk.specs.Pieces.{chunks_over};
ghost use Rattle.in_flight.specs.Routes.{placed_route_of};
ghost use Rattle.volume_laws.specs.Again.{placed_of, published_place as place_if_published};
ghost use Rattle.volume_laws.specs.Published.{is_published, is_clear as is_clear_in, is_clear_over as is_clear_in_all, is_saved as is_saved_in, is_saved_over as is_saved_in_all, next_over, unpublished_in};
ghost use Rattle.snapshot.specs.Kept.{books_of};

use crate::starting::own_chunk;
use device::Block;
use in_flight::{Flight, Kind, Route, placed_route, request_kind};
use plain_machine::SnapId;
use sector::Chunk;
use snapshot::Snapshot;

/// Whether a snapshot has published the chunk of this sector of the origin, if it is live.
fn is_saved<B: Block>(snap: &Snapshot<B>, first: u64) -> bool
    requires { 0 < snap.now.state.chunk }
    ensures { result ≡ is_saved_in first (books_of B.contents B.layers snap.now) }
{
    !snap.is_live() || snap.is_published(own_chunk(snap, first))
}

/// Whether every live snapshot has published the chunk of this sector of the origin. The last are asked first: their copies
/// are the last that are published.
fn are_saved<B: Block>(snaps: &[Snapshot<B>], first: u64) -> bool
    requires { All (λ s. 0 < s.state.chunk) snaps.now }
    ensures { result ≡ list_all (is_saved_in first) (map (books_of B.contents B.layers) snaps.now) }
{
    for k in (0..snaps.len()).rev() {
        if !is_saved(&snaps[k], first) {
            return false;
        }
    }
    true
}

/// Whether the header of some spoiled snapshot's store is to be marked invalid.
fn is_any_untried<B: Block>(snaps: &[Snapshot<B>]) -> bool
    ensures { result ≡ list_any (λ s. s.untried) (map (books_of B.contents B.layers) snaps.now) }
{
    for s in snaps {
        if s.is_untried() {
            return true;
        }
    }
    false
}

/// Whether an origin write at this sector may go to the origin disk: every live snapshot has published its chunk of it, and
/// no header is left to be marked invalid.
#[inline(always)]
pub fn is_clear<B: Block>(snaps: &[Snapshot<B>], first: u64) -> bool
    requires { All (λ s. 0 < s.state.chunk) snaps.now }
    ensures { result ≡ is_clear_in (map (books_of B.contents B.layers) snaps.now) first }
{
    are_saved(snaps, first) && !is_any_untried(snaps)
}

/// The first chunk that a snapshot has not published, of those that so many sectors of the origin touch from this one on. It is
/// sought from a chunk on, before which it has published each of them.
fn first_unpublished_from<B: Block>(
    snap: &Snapshot<B>,
    first: u64,
    count: u32,
    from: Chunk,
) -> Option<Chunk>
    requires fits { first + count < 2 ^ 64 }
    requires begins { first / snap.now.state.chunk ≤ from }
    requires before { All (λ c. c < from → is_published snap.now.pairs snap.now.marks c ≡ true) (chunks_over snap.now.state.chunk first count) }
    ensures { result ≡ unpublished_in first count (books_of B.contents B.layers snap.now) }
{
    if count == 0 {
        return None;
    }
    let sectors = snap.chunk() as u64;
    let last = (first + (count - 1) as u64) / sectors;
    for chunk in from..last + 1 {
        if !snap.is_published(chunk) {
            return Some(chunk);
        }
    }
    None
}

/// The same, sought among all that they touch.
fn first_unpublished<B: Block>(snap: &Snapshot<B>, first: u64, count: u32) -> Option<Chunk>
    requires { first + count < 2 ^ 64 }
    ensures { result ≡ unpublished_in first count (books_of B.contents B.layers snap.now) }
{
    first_unpublished_from(snap, first, count, own_chunk(snap, first))
}

/// That chunk: a merge waits for its copy next. Where the snapshot has published each, the first of all.
pub(crate) fn next_chunk_from<B: Block>(
    snap: &Snapshot<B>,
    first: u64,
    count: u32,
    from: Chunk,
) -> Chunk
    requires fits { first + count < 2 ^ 64 }
    requires begins { first / snap.now.state.chunk ≤ from }
    requires before { All (λ c. c < from → is_published snap.now.pairs snap.now.marks c ≡ true) (chunks_over snap.now.state.chunk first count) }
    ensures { result ≡ next_over first count (books_of B.contents B.layers snap.now) }
{
    match first_unpublished_from(snap, first, count, from) {
        Some(chunk) => chunk,
        None => own_chunk(snap, first),
    }
}

/// The same, sought among all that they touch.
pub fn next_chunk<B: Block>(snap: &Snapshot<B>, first: u64, count: u32) -> Chunk
    requires { first + count < 2 ^ 64 }
    ensures { result ≡ next_over first count (books_of B.contents B.layers snap.now) }
{
    next_chunk_from(snap, first, count, own_chunk(snap, first))
}

/// Whether a snapshot has published each chunk that so many sectors of the origin touch from this one on, if it is live.
fn is_saved_over<B: Block>(snap: &Snapshot<B>, first: u64, count: u32) -> bool
    requires { first + count < 2 ^ 64 }
    ensures { result ≡ is_saved_in_all first count (books_of B.contents B.layers snap.now) }
{
    !snap.is_live() || !first_unpublished(snap, first, count).is_some()
}

/// Whether every live snapshot has.
fn are_saved_over<B: Block>(snaps: &[Snapshot<B>], first: u64, count: u32) -> bool
    requires { first + count < 2 ^ 64 }
    ensures { result ≡ list_all (is_saved_in_all first count) (map (books_of B.contents B.layers) snaps.now) }
{
    for s in snaps {
        if !is_saved_over(s, first, count) {
            return false;
        }
    }
    true
}

/// Whether so many sectors from this one on may be written to the origin disk at once: every live snapshot has published
/// each chunk that they touch, and no header is left to be marked invalid.
pub fn is_clear_over<B: Block>(snaps: &[Snapshot<B>], first: u64, count: u32) -> bool
    requires { first + count < 2 ^ 64 }
    ensures { result ≡ is_clear_in_all (map (books_of B.contents B.layers) snaps.now) first count }
{
    !is_any_untried(snaps) && are_saved_over(snaps, first, count)
}

/// Whether a request is a held write of the snapshot with this number: every other keeps its route.
fn waits_for(snap: SnapId, kind: Kind, route: Route) -> bool
    ensures { result ≡ false → (place : Option ℕ) → placed_route_of snap kind route place ≡ route }
{
    match kind {
        Kind::OriginRead | Kind::OriginWrite | Kind::OriginFlush => false,
        Kind::SnapRead(_) | Kind::SnapFlush(_) => false,
        Kind::SnapWrite(other) => match route {
            Route::Held => other == snap,
            Route::Origin | Route::Store(_) | Route::Whole | Route::Refused => false,
        },
    }
}

/// The place of a chunk of the origin, where the snapshot has published it.
fn published_place<B: Block>(snap: &Snapshot<B>, chunk: Chunk) -> Option<Chunk>
    ensures { result ≡ place_if_published snap.now.pairs snap.now.marks chunk }
{
    if snap.is_published(chunk) {
        snap.place_of(chunk)
    } else {
        None
    }
}

/// The route of a request after its snapshot published a chunk: that is looked up for a held write of the snapshot alone.
fn placed_for<B: Block>(snap: &Snapshot<B>, flight: &Flight) -> Route
    requires { 0 < snap.now.state.chunk }
    ensures { result ≡ (placed_of (books_of B.contents B.layers snap.now) flight.now).route }
{
    let kind = request_kind(&flight.request);
    if !waits_for(snap.number(), kind, flight.route) {
        return flight.route;
    }
    let place = published_place(snap, own_chunk(snap, flight.request.range.first));
    placed_route(snap.number(), kind, flight.route, place)
}

/// Routes the held writes of a snapshot again, each to its chunk's place if that is published.
pub fn route_placed<B: Block>(snap: &Snapshot<B>, flights: &mut Vec<Flight>)
    requires { 0 < snap.now.state.chunk }
    ensures { flights.new.items ≡ map (placed_of (books_of B.contents B.layers snap.now)) flights.old.items }
{
    route_all_placed(snap, flights);
}

/// The same, over a slice.
fn route_all_placed<B: Block>(snap: &Snapshot<B>, flights: &mut [Flight])
    requires { 0 < snap.now.state.chunk }
    ensures { flights.new ≡ map (placed_of (books_of B.contents B.layers snap.now)) flights.old }
{
    for f in flights.iter_mut() {
        f.route = placed_for(snap, f);
    }
}
