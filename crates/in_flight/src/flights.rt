// Requests in flight.
ghost use Rattle.std.specs.Prelude.{◌≡◌, ◌==◌, ◌*◌, IfOk, length};
ghost use Rattle.std.specs.List.{position};
ghost use Rattle.in_flight.specs.Kinds.{kind_of, room_of};

use plain_machine::{Dev, Op, ReqId, Request, SnapId};
use sector::Chunk;
use std::alloc::{AllocError, Global};

/// A volume has at most so many requests in flight.
pub const MAX_REQUESTS: usize = 64;

/// What a request is, without its range and its bytes.
#[derive(Clone, Copy, PartialEq, Eq)]
pub enum Kind {
    OriginRead,
    OriginWrite,
    OriginFlush,
    SnapRead(SnapId),
    SnapWrite(SnapId),
    SnapFlush(SnapId),
}

/// Where a request goes.
#[derive(Clone, Copy, PartialEq, Eq)]
pub enum Route {
    /// Nowhere yet: it waits for copies, for an invalid mark, or for a merge's group.
    Held,
    /// To the origin disk.
    Origin,
    /// To this chunk of its snapshot's store, or of the store that is being merged.
    Store(Chunk),
    /// To the store itself: its snapshot's, or the one that is being merged.
    Whole,
    /// It is answered Invalid, its snapshot being spoiled.
    Refused,
}

/// A request that was accepted and is not answered.
#[derive(Drop)]
pub struct Flight {
    /// Its number in the volume.
    pub number: ReqId,
    pub request: Request,
    pub route: Route,
    /// The buffer of a read's reply, as long as its range; that of a write or of a flush is empty.
    pub room: Vec<u8>,
}

/// What a request is.
pub fn request_kind(request: &Request) -> Kind
    ensures { result ≡ kind_of request.now }
{
    match (request.dev, &request.op) {
        (Dev::Origin, Op::Read) => Kind::OriginRead,
        (Dev::Origin, Op::Write(_)) => Kind::OriginWrite,
        (Dev::Origin, Op::Flush) => Kind::OriginFlush,
        (Dev::Snap(snap), Op::Read) => Kind::SnapRead(snap),
        (Dev::Snap(snap), Op::Write(_)) => Kind::SnapWrite(snap),
        (Dev::Snap(snap), Op::Flush) => Kind::SnapFlush(snap),
    }
}

impl Flight {
    /// A request with a number and a route. The buffer of its reply is the only memory that it needs.
    pub fn new(
        alloc: Global,
        number: ReqId,
        request: Request,
        route: Route,
    ) -> Result<Flight, AllocError>
        ensures number { IfOk result (λ f. f.number ≡ number) }
        ensures request { IfOk result (λ f. f.request ≡ request) }
        ensures route { IfOk result (λ f. f.route ≡ route) }
        ensures room { IfOk result (λ f. length f.room.items ≡ room_of request) }
    {
        let room = match &request.op {
            Op::Read => vec![in alloc; 0u8; 512 * request.range.count as usize]?,
            Op::Write(_) => Vec::new(alloc),
            Op::Flush => Vec::new(alloc),
        };
        Ok(Flight {
            number,
            request,
            route,
            room,
        })
    }
}

/// The place of the request with this number, the first that has it.
pub fn flight_at(flights: &[Flight], number: ReqId) -> Option<usize>
    ensures { result ≡ position (λ f. f.number == number) flights.now }
{
    flights.iter().position(|f| f.number == number)
}
