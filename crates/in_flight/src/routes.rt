// How requests are routed, and routed again.
ghost use Rattle.std.specs.Prelude.{◌≡◌, ◌==◌, ◌/◌, ◌<◌, ◌&&◌, ◌∷◌, [], map};
ghost use Rattle.std.specs.List.{list_any};
ghost use Rattle.in_flight.specs.Routes.{again_route_of, flush_route_of, is_reading, placed_route_of, read_route_of, reads_origin_of, refused_of, refused_route_of, write_route_of};

use crate::flights::{Flight, Kind, Route, request_kind};
use plain_machine::SnapId;
use sector::Chunk;

/// The route of a read, of the origin or of a snapshot, by the place of its chunk's copy.
pub fn read_route(place: Option<Chunk>) -> Route
    ensures { result ≡ read_route_of place }
{
    match place {
        Some(place) => Route::Store(place),
        None => Route::Origin,
    }
}

/// The route of an origin write: whether its chunk is in the group that is being merged, its place on the merging
/// store, and whether each live snapshot has its own copy and no invalid mark is untried.
pub fn write_route(grouped: bool, place: Option<Chunk>, clear: bool) -> Route
    ensures { result ≡ write_route_of grouped place clear }
{
    if grouped {
        return Route::Held;
    }
    match place {
        Some(place) => Route::Store(place),
        None => if clear { Route::Origin } else { Route::Held },
    }
}

/// The route of a flush of the origin: with a merge it goes to the store that is being merged first.
pub fn flush_route(begun: bool) -> Route
    ensures { result ≡ flush_route_of begun }
{
    if begun { Route::Whole } else { Route::Origin }
}

/// The route of a request after held origin writes got this new one.
pub fn again_route(kind: Kind, route: Route, new: Route) -> Route
    ensures { result ≡ again_route_of kind route new }
{
    match route {
        Route::Held => match kind {
            Kind::OriginWrite => new,
            Kind::OriginRead => route,
            Kind::OriginFlush => route,
            Kind::SnapRead(_) => route,
            Kind::SnapWrite(_) => route,
            Kind::SnapFlush(_) => route,
        },
        Route::Origin => route,
        Route::Store(_) => route,
        Route::Whole => route,
        Route::Refused => route,
    }
}

/// The route of a request after this snapshot published its chunk at this place, if it did.
pub fn placed_route(snap: SnapId, kind: Kind, route: Route, place: Option<Chunk>) -> Route
    ensures { result ≡ placed_route_of snap kind route place }
{
    match kind {
        Kind::OriginRead => route,
        Kind::OriginWrite => route,
        Kind::OriginFlush => route,
        Kind::SnapRead(_) => route,
        Kind::SnapFlush(_) => route,
        Kind::SnapWrite(other) => match route {
            Route::Origin => route,
            Route::Store(_) => route,
            Route::Whole => route,
            Route::Refused => route,
            Route::Held => match place {
                None => route,
                Some(place) => if other == snap {
                    Route::Store(place)
                } else {
                    route
                },
            },
        },
    }
}

/// The route of a request after this snapshot was spoiled.
pub fn refused_route(snap: SnapId, kind: Kind, route: Route) -> Route
    ensures { result ≡ refused_route_of (snap ∷ []) kind route }
{
    match kind {
        Kind::OriginRead => route,
        Kind::OriginWrite => route,
        Kind::OriginFlush => route,
        Kind::SnapRead(other) => if snap == other { Route::Refused } else { route },
        Kind::SnapWrite(other) => if snap == other { Route::Refused } else { route },
        Kind::SnapFlush(other) => if snap == other { Route::Refused } else { route },
    }
}

/// Requests of a spoiled snapshot are answered Invalid; origin writes stay as they are.
pub fn refuse(flights: &mut [Flight], snap: SnapId)
    ensures { flights.new ≡ map (refused_of (snap ∷ [])) flights.old }
{
    for f in flights.iter_mut() {
        f.route = refused_route(snap, request_kind(&f.request), f.route);
    }
}

/// Whether a request of this kind, so routed, reads this snapshot from the origin disk.
pub fn reads_origin(snap: SnapId, kind: Kind, route: Route) -> bool
    ensures { result ≡ reads_origin_of snap kind route }
{
    match kind {
        Kind::OriginRead => false,
        Kind::OriginWrite => false,
        Kind::OriginFlush => false,
        Kind::SnapWrite(_) => false,
        Kind::SnapFlush(_) => false,
        Kind::SnapRead(other) => match route {
            Route::Origin => other == snap,
            Route::Held => false,
            Route::Store(_) => false,
            Route::Whole => false,
            Route::Refused => false,
        },
    }
}

/// Whether a request reads this chunk of the snapshot from the origin disk, in chunks of so many sectors.
pub fn is_being_read(flights: &[Flight], snap: SnapId, chunk_sectors: u32, chunk: Chunk) -> bool
    requires { 0 < chunk_sectors }
    ensures { result ≡ list_any (is_reading snap chunk_sectors chunk) flights.now }
{
    flights.iter().any(|f| {
        f.request.range.first / chunk_sectors as u64 == chunk
            && reads_origin(snap, request_kind(&f.request), f.route)
    })
}
