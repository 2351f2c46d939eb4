// A request that waits for nothing is answered at once, and is never in flight.
ghost use Rattle.std.specs.Prelude.{◌≡◌, ◌≢◌, ◌*◌, ◌+◌, ◌^◌, ◌<◌, List, None, Ok, [], false, length, map, true, ℕ};
ghost use Rattle.plain_machine.specs.declared.event.Event.TheVariants.{Issue};
ghost use Rattle.plain_machine.specs.declared.event.Outcome.TheVariants.{Reply as Replied};
ghost use Rattle.plain_machine.specs.declared.request.Op.TheVariants.{Flush as IsFlush, Write};
ghost use Rattle.in_flight.specs.declared.flights.Route.TheVariants.{Origin};
ghost use Rattle.in_flight.specs.Kinds.{kind_of};
ghost use Rattle.in_flight.specs.declared.flights.Flight.{Flight};
ghost use Rattle.in_flight.specs.declared.flights.Kind.TheVariants.{OriginWrite};
ghost use Rattle.volume_laws.specs.Published.{is_clear as is_clear_in};
ghost use Rattle.snapshot.specs.Kept.{books_of as snap_books};
ghost use Rattle.volume.specs.AtDisk.{GoesToDisk};
ghost use Rattle.volume.specs.DoesStep.{DoesStep};
ghost use Rattle.volume.specs.Leaving.{is_quiet_of};
ghost use Rattle.volume.specs.Lent.{IsNextWrite};
ghost use Rattle.volume.specs.Submitting.{entered_of};
ghost use Rattle.volume.specs.Whole.{IsWhole};
ghost use Rattle.volume.specs.Calls.{Refuses, Serves, StaysQuiet, Submits};

use crate::Volume;
use crate::ways::Way;
use device::{Block, Io};
use in_flight::{Flight, Route};
use plain_machine::{Failure, Op, Reply, ReqId, Request};
use sector::{Buf, Range, Refusal};
use std::alloc::Global;

/// What became of a request that was accepted.
#[derive(Drop)]
pub enum Served {
    /// It is in flight, by its number.
    InFlight(ReqId),
    /// It was answered at once: its number, and its reply.
    Answered(ReqId, Reply),
}

impl<B: Block> Volume<B> {
    /// Accepts a request, and answers it at once where it waits for nothing: where the volume is quiet and no merge is begun, a read
    /// of the origin, a write of it whose chunk each live snapshot has published, and a read of a live snapshot. What is done then
    /// is just what `submit` and the Issue do that is due first. Any other request is in flight afterwards. It is refused as by
    /// `submit`.
    #[inline(always)]
    pub fn serve(&mut self, alloc: Global, request: Request) -> Result<Served, Refusal>
        requires bytes { (bytes : List ℕ) → request.op ≡ Write bytes → length bytes ≡ 512 * request.range.count }
        ensures does { Serves B.Block request result self.old self.new }
        ensures refused { Refuses B.Block request result self.old self.new }
    {
        match self.way_of(&request) {
            Way::Disk => self.serve_at_disk(alloc, request),
            Way::Store(k, at) => self.serve_at_store(alloc, request, k, at),
            Way::Copies => match self.submit_waiting(alloc, request) {
                Ok(number) => Ok(Served::InFlight(number)),
                Err(refusal) => Err(refusal),
            },
            Way::Other => match self.submit(alloc, request) {
                Ok(number) => Ok(Served::InFlight(number)),
                Err(refusal) => Err(refusal),
            },
        }
    }

    /// Accepts a write of the origin that waits, where no merge is begun.
    fn submit_waiting(&mut self, alloc: Global, request: Request) -> Result<ReqId, Refusal>
        requires alone { self.old.merge ≡ None }
        requires kind { kind_of request ≡ OriginWrite }
        requires waits { is_clear_in (map (snap_books B.contents B.layers) self.old.snaps) request.range.first ≡ false }
        requires bytes { (bytes : List ℕ) → request.op ≡ Write bytes → length bytes ≡ 512 * request.range.count }
        ensures does { Submits B.Block request result self.old self.new }
        ensures refused { Refuses B.Block request result self.old self.new }
    {
        // A look at a field: what the type keeps is known from here on.
        let _ = &self.flights;
        match self.submit_refused(&request) {
            Some(refusal) => return Err(refusal),
            None => {}
        }
        self.save_and_enter(alloc, request)
    }

    /// Serves a request that waits for nothing, and goes to the origin disk.
    fn serve_at_disk(&mut self, alloc: Global, request: Request) -> Result<Served, Refusal>
        requires quiet { is_quiet_of self.old ≡ true }
        requires alone { self.old.merge ≡ None }
        requires goes { GoesToDisk B.contents B.layers request self.old.snaps }
        requires bytes { (bytes : List ℕ) → request.op ≡ Write bytes → length bytes ≡ 512 * request.range.count }
        ensures does { Serves B.Block request result self.old self.new }
        ensures refused { Refuses B.Block request result self.old self.new }
    {
        // A look at a field: what the type keeps is known from here on.
        let _ = &self.flights;
        match self.submit_refused(&request) {
            Some(refusal) => return Err(refusal),
            None => {}
        }
        let Ok(flight) = Flight::new(alloc, self.requests + 1, request, Route::Origin) else {
            return Err(Refusal::NoMemory);
        };
        let number = flight.number;
        Ok(Served::Answered(number, self.answer_at_disk(flight)))
    }

    /// Answers a read or a write of the origin disk, as if it had been put in flight there and then issued.
    fn answer_at_disk(&mut self, flight: Flight) -> Reply
        requires still { self.old.flights ≡ [] }
        requires alone { self.old.merge ≡ None }
        requires next { flight.number ≡ self.old.requests + 1 }
        requires left { self.old.requests + 1 < 2 ^ 64 }
        requires route { flight.route ≡ Origin }
        requires moves { flight.request.op ≢ IsFlush }
        requires whole { IsWhole B.contents B.layers B.size (entered_of flight self.old) }
        ensures does { DoesStep B.may_hold B.contents B.layers B.size B.fault_count B.done_count true (Issue flight.number) (Ok (Replied flight.number result)) (entered_of flight self.old) self.new }
        ensures quiet { StaysQuiet self.old self.new }
    {
        let Flight {
            number: _,
            request,
            route: _,
            mut room,
        } = flight;
        let Request { dev: _, op, range } = request;
        match op {
            Op::Read => {
                self.requests += 1;
                match self.origin.read(range, room.as_mut_slice()) {
                    Ok(()) => Reply::Data(Buf::from_vec(room)),
                    Err(Io) => Reply::Refused(Failure::Io),
                }
            }
            Op::Write(bytes) => self.write_at_disk(range, bytes.as_slice()),
            Op::Flush => unreachable!(),
        }
    }

    /// Answers a write of the origin disk, as if it had been put in flight there and then issued.
    #[inline(always)]
    pub(crate) fn write_at_disk(&mut self, range: Range, bytes: &[u8]) -> Reply
        requires still { self.old.flights ≡ [] }
        requires alone { self.old.merge ≡ None }
        requires left { self.old.requests + 1 < 2 ^ 64 }
        requires next { (f : Flight) × IsNextWrite B.contents B.layers B.size range bytes.now f self.old }
        ensures does { (f : Flight) → IsNextWrite B.contents B.layers B.size range bytes.now f self.old → DoesStep B.may_hold B.contents B.layers B.size B.fault_count B.done_count true (Issue f.number) (Ok (Replied f.number result)) (entered_of f self.old) self.new }
        ensures quiet { StaysQuiet self.old self.new }
    {
        self.requests += 1;
        match self.origin.write(range, bytes) {
            Ok(()) => Reply::Written,
            Err(Io) => Reply::Refused(Failure::Io),
        }
    }
}
