// What an Issue will ask, by its request's route.
ghost use Rattle.std.specs.Prelude.{◌≡◌, ◌≢◌, ◌==◌, ◌+◌, ◌*◌, ◌%◌, ◌<◌, ◌≤◌, Some, slice_index_or};
ghost use Rattle.std.specs.List.{position};
ghost use Rattle.in_flight.specs.declared.flights.Flight.{Flight};
ghost use Rattle.in_flight.specs.declared.flights.Route.TheVariants.{Store, Whole};
ghost use Rattle.plain_machine.specs.declared.event.Event.TheVariants.{Issue};
ghost use Rattle.plain_machine.specs.declared.request.Dev.TheVariants.{Origin as ToOrigin};
ghost use Rattle.volume.specs.Answered.{operation_of, reads_many};
ghost use Rattle.volume.specs.Asks.{AsksAs, AsksIfDue, IsShortAt};

use crate::ahead::Ask;
use crate::issue::{going, holder_at};
use crate::{LARGEST_PIECE, Volume};
use device::{Ahead, Operation};
use in_flight::{Flight, Route};
use plain_machine::{Dev, Op, ReqId, Request};
use sector::{Chunk, Range};

/// Whether a request reads more sectors than a chunk may have: a device does not read so many ahead.
fn is_long(request: &Request) -> bool
    ensures { result ≡ reads_many request.now.op request.now.range.count }
{
    match &request.op {
        Op::Read => LARGEST_PIECE < request.range.count,
        Op::Write(_) => false,
        Op::Flush => false,
    }
}

/// A request's operation, on a range of the device that it goes to.
fn operation_on(request: &Request, range: Range) -> Operation
    ensures { result ≡ operation_of request.now.op range.first range.count }
{
    match &request.op {
        Op::Read => Operation::Reads(range.first, range.count),
        Op::Write(_) => Operation::Writes(range.first, range.count),
        Op::Flush => Operation::Flushes,
    }
}

/// A request's sectors in a chunk of a store of so many sectors.
fn range_in(request: &Request, chunk: u32, at: Chunk, size: u64) -> Range
    requires some { 0 < chunk }
    requires piece { request.now.range.first % chunk + request.now.range.count ≤ chunk }
    requires inside { chunk * (at + 1) ≤ size }
    ensures first { result.first ≡ chunk * at + request.now.range.first % chunk }
    ensures count { result.count ≡ request.now.range.count }
{
    let chunk = u64::from(chunk);
    Range {
        first: chunk * at + request.range.first % chunk,
        count: request.range.count,
        size,
    }
}

impl<B: Ahead> Volume<B> {
    /// The device that a request goes to by its route is asked for its operation.
    pub(crate) fn asked_by_issue(&self, number: ReqId) -> Ask
        ensures { AsksIfDue B.Block (Issue number) result self.now }
    {
        let Some((place, dev, route)) = going(&self.flights, number) else {
            return Ask::Nobody;
        };
        let request = &self.flights[place].request;
        if is_long(request) {
            return Ask::TooMany;
        }
        match route {
            Route::Held => Ask::Nobody,
            Route::Refused => Ask::Nobody,
            Route::Origin => Ask::Origin(operation_on(request, request.range)),
            Route::Store(at) => match dev {
                Dev::Origin => self.asked_at_merge(number, place, at),
                Dev::Snap(_) => self.asked_at_store(number, place, at),
            },
            Route::Whole => match dev {
                Dev::Origin => Ask::Merging(Operation::Flushes),
                Dev::Snap(_) => self.asked_to_flush(number, place),
            },
        }
    }

    /// The store of its snapshot, at a chunk of it.
    fn asked_at_store(&self, number: ReqId, place: usize, at: Chunk) -> Ask
        requires found { position (λ f. f.number == number) self.now.flights ≡ Some place }
        requires route { (f : Flight) → (slice_index_or self.now.flights place f).route ≡ Store at }
        requires dev { (f : Flight) → (slice_index_or self.now.flights place f).request.dev ≢ ToOrigin }
        requires few { IsShortAt place self.now.flights }
        ensures { AsksAs B.Block (Issue number) result self.now }
    {
        let request = &self.flights[place].request;
        match holder_at(&self.snaps, request.dev) {
            Some(index) => {
                let snap = &self.snaps[index];
                let size = snap.device().sectors();
                let range = range_in(request, snap.chunk(), at, size);
                Ask::Store(index, operation_on(request, range))
            }
            None => Ask::Nobody,
        }
    }

    /// The merging store, at a chunk of it.
    fn asked_at_merge(&self, number: ReqId, place: usize, at: Chunk) -> Ask
        requires found { position (λ f. f.number == number) self.now.flights ≡ Some place }
        requires route { (f : Flight) → (slice_index_or self.now.flights place f).route ≡ Store at }
        requires dev { (f : Flight) → (slice_index_or self.now.flights place f).request.dev ≡ ToOrigin }
        requires few { IsShortAt place self.now.flights }
        ensures { AsksAs B.Block (Issue number) result self.now }
    {
        let request = &self.flights[place].request;
        match &self.merge {
            Some(merge) => {
                let size = merge.device().sectors();
                let range = range_in(request, merge.chunk(), at, size);
                Ask::Merging(operation_on(request, range))
            }
            None => Ask::Nobody,
        }
    }

    /// The store of its snapshot, for a flush.
    fn asked_to_flush(&self, number: ReqId, place: usize) -> Ask
        requires found { position (λ f. f.number == number) self.now.flights ≡ Some place }
        requires route { (f : Flight) → (slice_index_or self.now.flights place f).route ≡ Whole }
        requires dev { (f : Flight) → (slice_index_or self.now.flights place f).request.dev ≢ ToOrigin }
        requires few { IsShortAt place self.now.flights }
        ensures { AsksAs B.Block (Issue number) result self.now }
    {
        match holder_at(&self.snaps, self.flights[place].request.dev) {
            Some(index) => Ask::Store(index, Operation::Flushes),
            None => Ask::Nobody,
        }
    }
}
