// Issue: the one read, write or flush of a request's route, and its reply.
ghost use Rattle.std.specs.Prelude.{◌≡◌, ◌≢◌, ◌==◌, ◌<◌, ℕ, false, length, IfNone, IfOk, IfSome, MatchOption, OnErr, Some, is_ok, slice_index_or, OnOk, map};
ghost use Rattle.std.specs.List.{list_any, position};
ghost use Rattle.plain_machine.specs.declared.event.Event.TheVariants.{Issue};
ghost use Rattle.plain_machine.specs.declared.request.Dev.TheVariants.{Origin as ToOrigin, Snap};
ghost use Rattle.in_flight.specs.declared.flights.Flight.{Flight};
ghost use Rattle.in_flight.specs.declared.flights.Route.TheVariants.{Origin, Refused, Store, Whole};
ghost use Rattle.in_flight.specs.Due.{is_routed as goes_somewhere};
ghost use Rattle.volume_laws.specs.Due.{is_due, is_issued};
ghost use Rattle.snapshot.specs.Kept.{Kept};
ghost use Rattle.volume.specs.Volumed.{dues_of};
ghost use Rattle.volume.specs.Stepping.{IsStepped};
ghost use Rattle.volume.specs.Exact.{IsExact};
ghost use Rattle.in_flight.specs.Kinds.{in_flight};
ghost use Rattle.volume.specs.Closing.{ClosesBy};
ghost use Rattle.volume.specs.Lasting.{StopsSnaps};
ghost use Rattle.volume.specs.MergeLasting.{StopsOriginOn};
ghost use Rattle.volume.specs.Stopping.{given_by};
ghost use Rattle.volume.specs.Calls.{IssueCloses, IssueIsExact, IssueSteps, OriginLastsBy, SnapsLastBy};

use crate::Volume;
use device::{Block, Io};
use in_flight::{Flight, Route, flight_at};
use plain_machine::{Dev, Failure, NotDue, Op, Outcome, Reply, ReqId, Request, SnapId};
use sector::{Buf, Chunk};
use snapshot::Snapshot;
use snapshot_list::snap_at;

/// The place of the snapshot that a request is of.
pub(crate) fn holder_at<B: Block>(snaps: &[Snapshot<B>], dev: Dev) -> Option<usize>
    ensures found { IfSome result (λ k. (k < length snaps.now) × ((s : Kept B) → dev ≡ Snap (slice_index_or snaps.now k s).number)) }
    ensures none { IfNone result ((n : ℕ) → dev ≡ Snap n → list_any (λ s. s.number == n) snaps.now ≡ false) }
{
    match dev {
        Dev::Origin => None,
        Dev::Snap(number) => snap_at(snaps, number),
    }
}

/// The place, the device and the route of the first request with this number.
pub(crate) fn going(flights: &[Flight], number: ReqId) -> Option<(usize, Dev, Route)>
    ensures found { IfSome result (λ p. position (λ f. f.number == number) flights.now ≡ Some p.0) }
    ensures dev { IfSome result (λ p. (f : Flight) → (slice_index_or flights.now p.0 f).request.dev ≡ p.1) }
    ensures route { IfSome result (λ p. (f : Flight) → (slice_index_or flights.now p.0 f).route ≡ p.2) }
    ensures due { MatchOption result (is_issued number flights.now ≡ false) (λ p. is_issued number flights.now ≡ goes_somewhere p.2) }
{
    match flight_at(flights, number) {
        Some(place) => {
            let flight = &flights[place];
            Some((place, flight.request.dev, flight.route))
        }
        None => None,
    }
}

impl<B: Block> Volume<B> {
    /// Issues a request at the origin disk.
    fn issue_disk(&mut self, number: ReqId, place: usize) -> Outcome
        requires found { position (λ f. f.number == number) self.old.flights ≡ Some place }
        requires route { (f : Flight) → (slice_index_or self.old.flights place f).route ≡ Origin }
        ensures step { IssueSteps B.Block number result self.old self.new }
        ensures exact { IssueIsExact B.Block number result self.old self.new }
        ensures stops_snaps { SnapsLastBy B.Block number self.old self.new }
        ensures stops_origin { OriginLastsBy B.Block number self.old self.new }
        ensures closes { IssueCloses B.Block number result self.old self.new }
    {
        let flight = self.flights.remove(place);
        let Flight {
            number: _,
            request,
            route: _,
            mut room,
        } = flight;
        let Request { dev: _, op, range } = request;
        match op {
            Op::Read => match self.origin.read(range, room.as_mut_slice()) {
                Ok(()) => Outcome::Reply(number, Reply::Data(Buf::from_vec(room))),
                Err(Io) => Outcome::Reply(number, Reply::Refused(Failure::Io)),
            },
            Op::Write(bytes) => match self.origin.write(range, bytes.as_slice()) {
                Ok(()) => Outcome::Reply(number, Reply::Written),
                Err(Io) => Outcome::Reply(number, Reply::Refused(Failure::Io)),
            },
            Op::Flush => match self.origin.flush() {
                Ok(()) => Outcome::Reply(number, Reply::Flushed),
                Err(Io) => Outcome::Reply(number, Reply::Refused(Failure::Io)),
            },
        }
    }

    /// Answers a request of a spoiled snapshot, without an operation.
    fn issue_refused(&mut self, number: ReqId, place: usize) -> Outcome
        requires found { position (λ f. f.number == number) self.old.flights ≡ Some place }
        requires route { (f : Flight) → (slice_index_or self.old.flights place f).route ≡ Refused }
        ensures step { IssueSteps B.Block number result self.old self.new }
        ensures exact { IssueIsExact B.Block number result self.old self.new }
        ensures stops_snaps { SnapsLastBy B.Block number self.old self.new }
        ensures stops_origin { OriginLastsBy B.Block number self.old self.new }
        ensures closes { IssueCloses B.Block number result self.old self.new }
    {
        let _ = self.flights.remove(place);
        Outcome::Reply(number, Reply::Refused(Failure::Invalid))
    }

    /// Issues a request of a snapshot at its chunk's place on the snapshot's store.
    fn issue_store(&mut self, number: ReqId, place: usize, at: Chunk) -> Outcome
        requires found { position (λ f. f.number == number) self.old.flights ≡ Some place }
        requires route { (f : Flight) → (slice_index_or self.old.flights place f).route ≡ Store at }
        requires dev { (f : Flight) → (slice_index_or self.old.flights place f).request.dev ≢ ToOrigin }
        ensures step { IssueSteps B.Block number result self.old self.new }
        ensures exact { IssueIsExact B.Block number result self.old self.new }
        ensures stops_snaps { SnapsLastBy B.Block number self.old self.new }
        ensures stops_origin { OriginLastsBy B.Block number self.old self.new }
        ensures closes { IssueCloses B.Block number result self.old self.new }
    {
        let flight = self.flights.remove(place);
        let Flight {
            number: _,
            request,
            route: _,
            mut room,
        } = flight;
        let Request { dev, op, range } = request;
        let index = match holder_at(&self.snaps, dev) {
            Some(index) => index,
            None => unreachable!(),
        };
        let snap = &mut self.snaps[index];
        let first = (range.first % snap.chunk() as u64) as u32;
        match op {
            Op::Read => match snap.read_at(at, first, range.count, room.as_mut_slice()) {
                Ok(()) => Outcome::Reply(number, Reply::Data(Buf::from_vec(room))),
                Err(Io) => Outcome::Reply(number, Reply::Refused(Failure::Io)),
            },
            Op::Write(bytes) => match snap.write_at(at, first, range.count, bytes.as_slice()) {
                Ok(()) => Outcome::Reply(number, Reply::Written),
                Err(Io) => Outcome::Reply(number, Reply::Refused(Failure::Io)),
            },
            Op::Flush => unreachable!(),
        }
    }

    /// Issues a flush of a live snapshot at its store, which is then as FlushStore leaves it: what was written to it counts as
    /// flushed, and what was committed may be published. Where it fails, the reply is Io, and nothing else changes.
    fn flush_whole(&mut self, number: ReqId, place: usize) -> Outcome
        requires found { position (λ f. f.number == number) self.old.flights ≡ Some place }
        requires route { (f : Flight) → (slice_index_or self.old.flights place f).route ≡ Whole }
        requires dev { (f : Flight) → (slice_index_or self.old.flights place f).request.dev ≢ ToOrigin }
        ensures step { IssueSteps B.Block number result self.old self.new }
        ensures exact { IssueIsExact B.Block number result self.old self.new }
        ensures stops_snaps { SnapsLastBy B.Block number self.old self.new }
        ensures stops_origin { OriginLastsBy B.Block number self.old self.new }
        ensures closes { IssueCloses B.Block number result self.old self.new }
    {
        let flight = self.flights.remove(place);
        let index = match holder_at(&self.snaps, flight.request.dev) {
            Some(index) => index,
            None => unreachable!(),
        };
        match self.snaps[index].flush_store() {
            Ok(()) => Outcome::Reply(number, Reply::Flushed),
            Err(Io) => Outcome::Reply(number, Reply::Refused(Failure::Io)),
        }
    }

    /// Issues a request that goes somewhere: the one read, write or flush of its route, and its reply. Where the device fails,
    /// the reply is Io, and nothing else changes. A flush of the origin beside a merge is issued twice: the merging store is
    /// flushed first, and nothing is answered.
    pub(crate) fn issue(&mut self, number: ReqId) -> Result<Outcome, NotDue>
        ensures step { IfOk result (λ outcome. IsStepped B.contents B.layers B.size B.fault_count B.done_count (Issue number) outcome self.old self.new) }
        ensures exact { IfOk result (λ outcome. IsExact B.contents B.layers (Issue number) outcome self.old self.new) }
        ensures stops_snaps { OnOk result (StopsSnaps B.may_hold B.layers B.size (given_by (Issue number) (map in_flight self.old.flights)) self.old self.new) }
        ensures stops_origin { OnOk result (StopsOriginOn B.may_hold B.layers B.size (given_by (Issue number) (map in_flight self.old.flights)) self.old.origin self.new.origin self.old.merge self.new.merge) }
        ensures closes { IfOk result (λ outcome. ClosesBy B.may_hold B.contents B.layers B.size (Issue number) outcome (map in_flight self.old.flights) self.new) }
        ensures due { is_ok result ≡ is_due (dues_of B.contents B.layers self.old) self.old.flights (Issue number) }
        ensures same { OnErr result (self.new ≡ self.old) }
    {
        match going(&self.flights, number) {
            Some((place, dev, route)) => match route {
                Route::Held => Err(NotDue),
                Route::Refused => Ok(self.issue_refused(number, place)),
                Route::Origin => Ok(self.issue_disk(number, place)),
                Route::Store(at) => match dev {
                    Dev::Origin => Ok(self.issue_merging(number, place, at)),
                    Dev::Snap(_) => Ok(self.issue_store(number, place, at)),
                },
                Route::Whole => match dev {
                    Dev::Origin => Ok(self.flush_merging(number, place)),
                    Dev::Snap(_) => Ok(self.flush_whole(number, place)),
                },
            },
            None => Err(NotDue),
        }
    }
}
