// Issue of a request of the origin whose chunk the merging store still has, and the first of a flush of the origin.
ghost use Rattle.std.specs.Prelude.{◌≡◌, ◌==◌, Some, slice_index_or};
ghost use Rattle.std.specs.List.{position};
ghost use Rattle.plain_machine.specs.declared.request.Dev.TheVariants.{Origin as ToOrigin};
ghost use Rattle.in_flight.specs.declared.flights.Flight.{Flight};
ghost use Rattle.in_flight.specs.declared.flights.Route.TheVariants.{Store, Whole};
ghost use Rattle.volume.specs.Calls.{IssueCloses, IssueIsExact, IssueSteps, OriginLastsBy, SnapsLastBy};

use crate::Volume;
use device::{Block, Io};
use in_flight::{Flight, Route};
use plain_machine::{Failure, Op, Outcome, Reply, ReqId, Request};
use sector::{Buf, Chunk};

impl<B: Block> Volume<B> {
    /// Issues a request of the origin at its chunk's place on the merging store. Where the store fails, the reply is Io, and
    /// the merge goes on.
    pub(crate) fn issue_merging(&mut self, number: ReqId, place: usize, at: Chunk) -> Outcome
        requires found { position (λ f. f.number == number) self.old.flights ≡ Some place }
        requires route { (f : Flight) → (slice_index_or self.old.flights place f).route ≡ Store at }
        requires dev { (f : Flight) → (slice_index_or self.old.flights place f).request.dev ≡ ToOrigin }
        ensures step { IssueSteps B.Block number result self.old self.new }
        ensures exact { IssueIsExact B.Block number result self.old self.new }
        ensures stops_snaps { SnapsLastBy B.Block number self.old self.new }
        ensures stops_origin { OriginLastsBy B.Block number self.old self.new }
        ensures closes { IssueCloses B.Block number result self.old self.new }
    {
        let flight = self.flights.remove(place);
        let Flight {
            number: _,
            request,
            route: _,
            mut room,
        } = flight;
        let Request { dev: _, op, range } = request;
        let merge = match &mut self.merge {
            Some(merge) => merge,
            None => unreachable!(),
        };
        let first = (range.first % merge.chunk() as u64) as u32;
        match op {
            Op::Read => match merge.read_at(at, first, range.count, room.as_mut_slice()) {
                Ok(()) => Outcome::Reply(number, Reply::Data(Buf::from_vec(room))),
                Err(Io) => Outcome::Reply(number, Reply::Refused(Failure::Io)),
            },
            Op::Write(bytes) => match merge.write_at(at, first, range.count, bytes.as_slice()) {
                Ok(()) => Outcome::Reply(number, Reply::Written),
                Err(Io) => Outcome::Reply(number, Reply::Refused(Failure::Io)),
            },
            Op::Flush => unreachable!(),
        }
    }

    /// Issues a flush of the origin at the merging store: it has the pairs whose chunks are not merged, and their copies. Where
    /// that is flushed, nothing is answered, and the request goes to the origin disk from then on; where it fails, the reply is
    /// Io, and the merge goes on.
    pub(crate) fn flush_merging(&mut self, number: ReqId, place: usize) -> Outcome
        requires found { position (λ f. f.number == number) self.old.flights ≡ Some place }
        requires route { (f : Flight) → (slice_index_or self.old.flights place f).route ≡ Whole }
        requires dev { (f : Flight) → (slice_index_or self.old.flights place f).request.dev ≡ ToOrigin }
        ensures step { IssueSteps B.Block number result self.old self.new }
        ensures exact { IssueIsExact B.Block number result self.old self.new }
        ensures stops_snaps { SnapsLastBy B.Block number self.old self.new }
        ensures stops_origin { OriginLastsBy B.Block number self.old self.new }
        ensures closes { IssueCloses B.Block number result self.old self.new }
    {
        let merge = match &mut self.merge {
            Some(merge) => merge,
            None => unreachable!(),
        };
        match merge.flush_store() {
            Ok(()) => {
                self.flights[place].route = Route::Origin;
                Outcome::Done
            }
            Err(Io) => {
                let _ = self.flights.remove(place);
                Outcome::Reply(number, Reply::Refused(Failure::Io))
            }
        }
    }
}
