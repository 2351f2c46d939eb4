// Requests of the origin are routed beside a merge, and held writes routed again, by the snapshots and by the merge.
ghost use Rattle.std.specs.Prelude.{◌≡◌, ◌<◌, ◌/◌, false, map, true};
ghost use Rattle.std.specs.List.{All};
ghost use Rattle.cow_format.specs.Picture.{place_of as place_in};
ghost use Rattle.in_flight.specs.declared.flights.Route.{Route};
ghost use Rattle.in_flight.specs.Routes.{again_route_of, write_route_of};
ghost use Rattle.volume_laws.specs.Again.{again_of, has_chunk, new_route};
ghost use Rattle.volume_laws.specs.Published.{is_clear as is_clear_in};
ghost use Rattle.snapshot.specs.Kept.{books_of};
ghost use Rattle.merge.specs.Lists.{group_pairs};
ghost use Rattle.snapshot_list.specs.Rooms.{merge_books};
ghost use Rattle.snapshot_list.specs.Routing.{is_grouped_at as is_grouped_in, is_merged_at as is_merged_in, place_at as place_beside};

use crate::is_clear;
use device::Block;
use in_flight::{Flight, Kind, Route, again_route, request_kind, write_route};
use merge::Merge;
use sector::Chunk;
use snapshot::Snapshot;

/// Whether the chunk of a sector is in the merge's present group.
fn is_grouped_at<B: Block>(merge: &Option<Merge<B>>, first: u64) -> bool
    ensures { result ≡ is_grouped_in first merge.now }
{
    match merge {
        None => false,
        Some(merge) => merge.in_group(first / merge.chunk() as u64),
    }
}

/// Where the merging store has the chunk of a sector.
pub fn place_at<B: Block>(merge: &Option<Merge<B>>, first: u64) -> Option<Chunk>
    ensures { result ≡ place_beside first merge.now }
{
    match merge {
        None => None,
        Some(merge) => merge.place_of(first / merge.chunk() as u64),
    }
}

/// Whether a write of the origin at this sector is the merge's, and starts no copies: its chunk is in the present group, or
/// has its copy on the merging store.
pub fn is_merged_at<B: Block>(merge: &Option<Merge<B>>, first: u64) -> bool
    ensures { result ≡ is_merged_in first merge.now }
{
    is_grouped_at(merge, first) || place_at(merge, first).is_some()
}

/// The route of such a write: it is held while its chunk is in the present group, and else goes to the chunk's place.
pub fn merged_route<B: Block>(merge: &Option<Merge<B>>, first: u64) -> Route
    ensures { result ≡ write_route_of (is_grouped_in first merge.now) (place_beside first merge.now) false }
{
    write_route(is_grouped_at(merge, first), place_at(merge, first), false)
}

/// The route of an origin write at this sector beside a merge: held while its chunk is in the present group, and else the
/// chunk's place on the merging store, if it has one there.
fn route_beside<B: Block>(snaps: &[Snapshot<B>], merge: &Merge<B>, first: u64) -> Route
    requires { All (λ s. 0 < s.state.chunk) snaps.now }
    ensures { result ≡ write_route_of (has_chunk (group_pairs merge.now.group) (first / merge.now.state.chunk)) (place_in merge.now.pairs (first / merge.now.state.chunk)) (is_clear_in (map (books_of B.contents B.layers) snaps.now) first) }
{
    let chunk = first / merge.chunk() as u64;
    if merge.in_group(chunk) {
        return Route::Held;
    }
    match merge.place_of(chunk) {
        Some(place) => Route::Store(place),
        None => write_route(false, None, is_clear(snaps, first)),
    }
}

/// The route of an origin write.
fn route_of<B: Block>(snaps: &[Snapshot<B>], merge: &Option<Merge<B>>, flight: &Flight) -> Route
    requires { All (λ s. 0 < s.state.chunk) snaps.now }
    ensures { result ≡ new_route (merge_books B.contents B.layers true merge.now) (is_clear_in (map (books_of B.contents B.layers) snaps.now)) flight.now }
{
    let first = flight.request.range.first;
    match merge {
        None => write_route(false, None, is_clear(snaps, first)),
        Some(merge) => route_beside(snaps, merge, first),
    }
}

/// Whether a request is a held origin write: every other keeps its route.
fn is_held_write(kind: Kind, route: Route) -> bool
    ensures { result ≡ false → (new : Route) → again_route_of kind route new ≡ route }
{
    match route {
        Route::Held => match kind {
            Kind::OriginWrite => true,
            Kind::OriginRead | Kind::OriginFlush => false,
            Kind::SnapRead(_) | Kind::SnapWrite(_) | Kind::SnapFlush(_) => false,
        },
        Route::Origin | Route::Store(_) | Route::Whole | Route::Refused => false,
    }
}

/// The route of a request after held origin writes were routed again: a new one is sought for those alone.
fn again_for<B: Block>(snaps: &[Snapshot<B>], merge: &Option<Merge<B>>, flight: &Flight) -> Route
    requires { All (λ s. 0 < s.state.chunk) snaps.now }
    ensures { result ≡ (again_of (merge_books B.contents B.layers true merge.now) (is_clear_in (map (books_of B.contents B.layers) snaps.now)) flight.now).route }
{
    if !is_held_write(request_kind(&flight.request), flight.route) {
        return flight.route;
    }
    let new = route_of(snaps, merge, flight);
    again_route(request_kind(&flight.request), flight.route, new)
}

/// Routes the held origin writes again: those that may go somewhere now go there.
pub fn route_again<B: Block>(
    snaps: &[Snapshot<B>],
    merge: &Option<Merge<B>>,
    flights: &mut Vec<Flight>,
)
    requires { All (λ s. 0 < s.state.chunk) snaps.now }
    ensures { flights.new.items ≡ map (again_of (merge_books B.contents B.layers true merge.now) (is_clear_in (map (books_of B.contents B.layers) snaps.now))) flights.old.items }
{
    route_all_again(snaps, merge, flights);
}

/// The same, over a slice.
fn route_all_again<B: Block>(
    snaps: &[Snapshot<B>],
    merge: &Option<Merge<B>>,
    flights: &mut [Flight],
)
    requires { All (λ s. 0 < s.state.chunk) snaps.now }
    ensures { flights.new ≡ map (again_of (merge_books B.contents B.layers true merge.now) (is_clear_in (map (books_of B.contents B.layers) snaps.now))) flights.old }
{
    for f in flights.iter_mut() {
        f.route = again_for(snaps, merge, f);
    }
}
