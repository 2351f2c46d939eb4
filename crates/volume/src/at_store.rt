// A read of a snapshot is answered at once at its chunk's place on the snapshot's store.
ghost use Rattle.std.specs.Prelude.{◌≡◌, ◌*◌, ◌+◌, ◌^◌, ◌<◌, List, None, Ok, Some, [], length, true, ℕ};
ghost use Rattle.plain_machine.specs.declared.event.Event.TheVariants.{Issue};
ghost use Rattle.plain_machine.specs.declared.event.Outcome.TheVariants.{Reply as Replied};
ghost use Rattle.plain_machine.specs.declared.request.Op.TheVariants.{Write};
ghost use Rattle.in_flight.specs.declared.flights.Route.TheVariants.{Store};
ghost use Rattle.volume.specs.AtDisk.{IsReadOf};
ghost use Rattle.volume.specs.DoesStep.{DoesStep};
ghost use Rattle.volume.specs.Leaving.{is_quiet_of};
ghost use Rattle.volume.specs.Submitting.{entered_of};
ghost use Rattle.volume.specs.Whole.{IsWhole};
ghost use Rattle.volume.specs.Calls.{Refuses, Serves, StaysQuiet};

use crate::Volume;
use crate::at_once::Served;
use device::{Block, Io};
use in_flight::{Flight, Route};
use plain_machine::{Failure, Reply, Request};
use sector::{Buf, Chunk, Refusal};
use std::alloc::Global;

impl<B: Block> Volume<B> {
    /// Serves a read of the snapshot at place `k` that waits for nothing, and goes to the chunk `at` of its store.
    pub(crate) fn serve_at_store(
        &mut self,
        alloc: Global,
        request: Request,
        k: usize,
        at: Chunk,
    ) -> Result<Served, Refusal>
        requires quiet { is_quiet_of self.old ≡ true }
        requires alone { self.old.merge ≡ None }
        requires read { IsReadOf request k (Some at) self.old.snaps }
        requires bytes { (bytes : List ℕ) → request.op ≡ Write bytes → length bytes ≡ 512 * request.range.count }
        ensures does { Serves B.Block request result self.old self.new }
        ensures refused { Refuses B.Block request result self.old self.new }
    {
        // A look at a field: what the type keeps is known from here on.
        let _ = &self.flights;
        match self.submit_refused(&request) {
            Some(refusal) => return Err(refusal),
            None => {}
        }
        let Ok(flight) = Flight::new(alloc, self.requests + 1, request, Route::Store(at)) else {
            return Err(Refusal::NoMemory);
        };
        let number = flight.number;
        Ok(Served::Answered(number, self.answer_at_store(flight, k, at)))
    }

    /// Answers a read of the snapshot at place `k` at the chunk `at` of its store, as if it had been put in flight there and then
    /// issued.
    fn answer_at_store(&mut self, flight: Flight, k: usize, at: Chunk) -> Reply
        requires still { self.old.flights ≡ [] }
        requires alone { self.old.merge ≡ None }
        requires next { flight.number ≡ self.old.requests + 1 }
        requires left { self.old.requests + 1 < 2 ^ 64 }
        requires route { flight.route ≡ Store at }
        requires read { IsReadOf flight.request k (Some at) self.old.snaps }
        requires whole { IsWhole B.contents B.layers B.size (entered_of flight self.old) }
        ensures does { DoesStep B.may_hold B.contents B.layers B.size B.fault_count B.done_count true (Issue flight.number) (Ok (Replied flight.number result)) (entered_of flight self.old) self.new }
        ensures quiet { StaysQuiet self.old self.new }
    {
        let Flight {
            number: _,
            request,
            route: _,
            mut room,
        } = flight;
        let range = request.range;
        self.requests += 1;
        let snap = &mut self.snaps[k];
        let first = (range.first % snap.chunk() as u64) as u32;
        match snap.read_at(at, first, range.count, room.as_mut_slice()) {
            Ok(()) => Reply::Data(Buf::from_vec(room)),
            Err(Io) => Reply::Refused(Failure::Io),
        }
    }
}
