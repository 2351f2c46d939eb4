// What threads do with an audit while they hold its lock: each call tells the history what is new in the journal, and publishes
// each usage that changed.
ghost use Rattle.std.specs.Prelude.{◌≡◌, ◌≢◌, ◌&&◌, ◌||◌, false, is_some, ◌*◌, ◌<◌, ◌≤◌, ◌++◌, ◌∷◌, [], ℕ, List, length, IfErr, IfNone, IfSome, MatchOption, MatchResult, OnOk, Some, None, true};
ghost use Rattle.chunk.specs.Sizes.{is_chunk};
ghost use Rattle.plain_machine.specs.declared.event.Outcome.{Outcome as OutcomeShape};
ghost use Rattle.volume.specs.Asking.{is_finished_in};
ghost use Rattle.volume.specs.DoesBeginMerge.{DoesBeginMerge};
ghost use Rattle.volume.specs.DoesSubmit.{DoesSubmit};
ghost use Rattle.volume.specs.Exact.{IsExact};
ghost use Rattle.volume.specs.Leaving.{is_quiet_of};
ghost use Rattle.volume.specs.Stepping.{has_failed};
ghost use Rattle.volume.specs.Volumed.{is_due_of, next_of};
ghost use Rattle.plain_machine.specs.declared.event.Event.{Event as EventShape};
ghost use Rattle.plain_machine.specs.declared.event.Event.TheVariants.{Issue};
ghost use Rattle.plain_machine.specs.declared.request.Op.TheVariants.{Flush, Write};
ghost use Rattle.audited_volume.specs.Entries.{entries_by};
ghost use Rattle.audited_volume.specs.PlacesTaken.{IsNotMerged, IsNotSubmitted};
ghost use Rattle.audited_volume.specs.Seats.{Seated, may_do, seated_under};
ghost use Rattle.audited_volume.specs.declared.entry.Entry.{Entry};
ghost use Rattle.locked_volume.specs.Keeping.{held_by};
ghost use Rattle.sector.specs.declared.refusal.Refusal.TheVariants.{NotQuiet};
ghost use Rattle.locked_volume.specs.AskedFor.{AddsAskedFor};
ghost use Rattle.locked_volume.specs.Beside.{IsBeside};
ghost use Rattle.locked_volume.specs.Denying.{Begin, Serve, WasBegun, WasDenied};
ghost use Rattle.locked_volume.specs.Fixed.{StaysFrom, count_at, fixed_of, piece_at};
ghost use Rattle.locked_volume.specs.Posts.{TellsUsages, is_apart};
ghost use Rattle.locked_volume.specs.Seats.{IsAsked, IsReceipted, IsSameSeat, IsSeat};

use crate::Pass;
use crate::beside::Beside;
use crate::post::Post;
use crate::room::Room;
use audited_volume::{Audit, Entry, Receipt};
use layers::Layered;
use plain_machine::{CopyId, Event, NotDue, Outcome, Reply, ReqId, Request, SnapId};
use sector::Refusal;
use std::marker::PhantomData;
use std::snapshot::Snapshot;

/// A look at what a journal may keep places for, which does nothing: 64 requests in flight, and eight snapshots, at most.
fn look_at_bounds<B: Layered>(audit: &Audit<B>)
    ensures held { length audit.now.held ≤ 64 }
    ensures lives { length audit.now.lives ≤ 8 }
{
    audit.look_at_requests();
    audit.look_at_places();
    let volume = audit.volume();
    let _ = (volume.flying(), volume.len());
}

/// The last entry of a journal that has one.
fn last_of(entries: &[Entry]) -> &Entry
    requires { 0 < length entries.now }
    ensures { (before : List Entry) (e : Entry) → entries.now ≡ before ++ e ∷ [] → result.now ≡ e }
{
    &entries[entries.len() - 1]
}

impl<B: Layered, J: Room> Post<B, J> {
    /// The place of its volume in the rig.
    pub fn volume(&self) -> usize
        ensures { result ≡ self.now.volume }
    {
        self.volume
    }

    /// The sectors of a piece of its volume.
    pub fn piece(&self) -> u32
        ensures allowed { is_chunk result ≡ true }
        ensures piece { result ≡ piece_at (J.fixed self.now.volume) }
    {
        self.audit.volume().piece()
    }

    /// The number of the copy that was started last.
    pub fn last_copy(&self) -> CopyId
        ensures { result ≡ self.now.audit.volume.copies }
    {
        self.audit.volume().last_copy()
    }

    /// Submits a read or a write of a seat. Where it is accepted, it is one more that the seat waits for. The seat has then seen all
    /// entries, and where the request is refused, they and what stays of the volume say why: by the first of its reasons, which is a
    /// full journal, then want of memory, then the volume's own.
    pub fn submit(
        &mut self,
        beside: &Beside,
        me: Pass,
        seat: u8,
        request: Request,
    ) -> (Pass, Result<ReqId, Refusal>)
        requires beside { IsBeside (J.history self.old.volume) (J.boards self.old.volume) beside.now }
        requires seat { IsSeat (J.history self.old.volume) seat me }
        requires few { seat < 9 }
        requires plain { request.op ≢ Flush }
        requires bytes { (bytes : List ℕ) → request.op ≡ Write bytes → length bytes ≡ 512 * request.range.count }
        ensures volume { self.new.volume ≡ self.old.volume }
        ensures seat { MatchResult result.1 (λ number. IsAsked (J.history self.old.volume) seat number request me result.0) (λ _. IsSameSeat (J.history self.old.volume) seat me result.0) }
        ensures denied { IfErr result.1 (λ refusal. WasDenied (J.start self.old.volume) (J.fixed self.old.volume) result.0.me.0.seen (Serve request) refusal) }
        ensures refused { IfErr result.1 (λ refusal. IsNotSubmitted B.contents B.layers B.size request refusal self.old.audit self.new.audit) }
        ensures does { DoesSubmit B.contents B.layers B.size request result.1 self.old.audit.volume self.new.audit.volume }
        ensures told { TellsUsages self.old self.new }
    {
        let said = Snapshot::of(&request);
        let from = self.audit.entries().len();
        match self.audit.submit(seat, request) {
            Ok(number) => {
                beside.note(&mut self.keeper, &self.audit.entries()[from..]);
                let me = beside.history.ask(&mut self.keeper, me, number, said);
                beside.keep_up(&mut self.publishers, &self.audit);
                (me, Ok(number))
            }
            Err(refusal) => {
                look_at_bounds(&self.audit);
                beside.note(&mut self.keeper, &self.audit.entries()[from..]);
                let me = beside.history.look(&mut self.keeper, me);
                beside.keep_up(&mut self.publishers, &self.audit);
                (me, Err(refusal))
            }
        }
    }

    /// Issues a request of a seat, where it is due. Its entry is one more of the journal, and of the seat's own. A flush may go to
    /// its next device in place of a reply: then the seat waits for it still. The reply fits what was asked, and the receipt's count is
    /// the place of its entry among the seat's.
    pub fn issue(
        &mut self,
        beside: &Beside,
        me: Pass,
        seat: u8,
        number: ReqId,
    ) -> (Pass, Option<(Reply, Receipt)>)
        requires beside { IsBeside (J.history self.old.volume) (J.boards self.old.volume) beside.now }
        requires seat { IsSeat (J.history self.old.volume) seat me }
        requires numbered { (0 < seat) × (seat < 9) }
        ensures volume { self.new.volume ≡ self.old.volume }
        ensures due { ((x : Seated) → seated_under number self.old.audit.held ≡ Some x → x.request.op ≢ Flush) → is_some result.1 ≡ (may_do seat (Issue number) self.old.audit.held && is_due_of B.contents B.layers self.old.audit.volume (Issue number)) }
        ensures seat { MatchOption result.1 (IsSameSeat (J.history self.old.volume) seat me result.0) (λ r. IsReceipted (J.history self.old.volume) (count_at (J.fixed self.old.volume) (J.start self.old.volume) seat) seat me result.0 r.0 r.1) }
        ensures done { IfSome result.1 (λ _. (outcome : OutcomeShape) × IsExact B.contents B.layers (Issue number) outcome self.old.audit.volume self.new.audit.volume) }
        ensures still { ((x : Seated) → seated_under number self.old.audit.held ≡ Some x → x.request.op ≢ Flush) → IfNone result.1 (self.new ≡ self.old) }
        ensures told { TellsUsages self.old self.new }
    {
        self.audit.look_at_requests();
        let from = self.audit.entries().len();
        let (outcome, receipt) = match self.audit.apply(seat, Event::Issue(number)) {
            Ok(pair) => pair,
            Err(NotDue) => return (me, None),
        };
        beside.keep_up(&mut self.publishers, &self.audit);
        match outcome {
            Outcome::Reply(which, reply) => match receipt {
                Some(receipt) => {
                    let entry = last_of(self.audit.entries());
                    let me = beside.history.answer(&mut self.keeper, me, which, entry);
                    (me, Some((reply, receipt)))
                }
                None => unreachable!(),
            },
            Outcome::Done => {
                beside.note(&mut self.keeper, &self.audit.entries()[from..]);
                (me, None)
            }
            Outcome::Fault => unreachable!(),
        }
    }

    /// Does an event that is no seat's, where it is due, and tells whether it is.
    pub fn work(&mut self, beside: &Beside, event: Event) -> bool
        requires beside { IsBeside (J.history self.old.volume) (J.boards self.old.volume) beside.now }
        requires event { (n : ℕ) → event ≢ Issue n }
        ensures volume { self.new.volume ≡ self.old.volume }
        ensures due { result ≡ is_due_of B.contents B.layers self.old.audit.volume event }
        ensures first { next_of B.contents B.layers self.old.audit.volume ≡ Some event → result ≡ true }
        ensures done { result ≡ true → (is_due_of B.contents B.layers self.old.audit.volume event ≡ true) × ((outcome : OutcomeShape) × IsExact B.contents B.layers event outcome self.old.audit.volume self.new.audit.volume) }
        ensures still { result ≡ false → self.new ≡ self.old }
        ensures told { TellsUsages self.old self.new }
    {
        let from = self.audit.entries().len();
        match self.audit.apply(0, event) {
            Ok((_, None)) => {
                beside.note(&mut self.keeper, &self.audit.entries()[from..]);
                beside.keep_up(&mut self.publishers, &self.audit);
                true
            }
            // Only Issue has a receipt.
            Ok((_, Some(_))) => unreachable!(),
            Err(NotDue) => false,
        }
    }

    /// Does the event that is due first, where any thread may do it: a request is issued by its seat, and a copy is done by
    /// the worker that has its ticket. Tells whether it did one.
    pub fn advance(&mut self, beside: &Beside) -> bool
        requires beside { IsBeside (J.history self.old.volume) (J.boards self.old.volume) beside.now }
        ensures volume { self.new.volume ≡ self.old.volume }
        ensures done { result ≡ true → (event : EventShape) × (outcome : OutcomeShape) × (next_of B.contents B.layers self.old.audit.volume ≡ Some event) × IsExact B.contents B.layers event outcome self.old.audit.volume self.new.audit.volume }
        ensures still { result ≡ false → (self.new ≡ self.old) × IfSome (next_of B.contents B.layers self.old.audit.volume) (λ event. is_apart event ≡ true) }
        ensures told { TellsUsages self.old self.new }
    {
        let Some(event) = self.audit.volume().due() else {
            return false;
        };
        match event {
            Event::Issue(_) => false,
            Event::CopyRead(_) => false,
            Event::CopyWrite(_) => false,
            Event::ZeroNext(number) => self.work(beside, Event::ZeroNext(number)),
            Event::WriteArea(number) => self.work(beside, Event::WriteArea(number)),
            Event::Publish(number) => self.work(beside, Event::Publish(number)),
            Event::WriteInvalid(number) => self.work(beside, Event::WriteInvalid(number)),
            Event::FlushStore(number) => self.work(beside, Event::FlushStore(number)),
            Event::MergeGroup => self.work(beside, Event::MergeGroup),
            Event::MergeAreaRead => self.work(beside, Event::MergeAreaRead),
            Event::MergeRead => self.work(beside, Event::MergeRead),
            Event::MergeWrite => self.work(beside, Event::MergeWrite),
            Event::MergeFlush => self.work(beside, Event::MergeFlush),
            Event::MergeCommit => self.work(beside, Event::MergeCommit),
            Event::MergeRelease => self.work(beside, Event::MergeRelease),
        }
    }

    /// Begins a merge that a seat may ask for. The seat has then seen all entries: the last of them says that it began, or else
    /// they and what stays of the volume say why it did not, but where the volume is not quiet.
    pub fn begin_merge(
        &mut self,
        beside: &Beside,
        me: Pass,
        seat: u8,
        number: SnapId,
    ) -> (Pass, Result<(), Refusal>)
        requires beside { IsBeside (J.history self.old.volume) (J.boards self.old.volume) beside.now }
        requires seat { IsSeat (J.history self.old.volume) seat me }
        requires asked { J.merges self.old.volume number ≡ true }
        ensures volume { self.new.volume ≡ self.old.volume }
        ensures seat { IsSameSeat (J.history self.old.volume) seat me result.0 }
        ensures begun { OnOk result.1 (WasBegun number me.me.0.seen result.0.me.0.seen) }
        ensures denied { IfErr result.1 (λ refusal. refusal ≢ NotQuiet → WasDenied (J.start self.old.volume) (J.fixed self.old.volume) result.0.me.0.seen (Begin number) refusal) }
        ensures refused { IfErr result.1 (λ refusal. IsNotMerged number refusal self.old.audit self.new.audit) }
        ensures busy { IfErr result.1 (λ refusal. refusal ≡ NotQuiet → is_quiet_of self.old.audit.volume ≡ false) }
        ensures does { DoesBeginMerge B.may_hold B.contents B.layers B.size number result.1 self.old.audit.volume self.new.audit.volume }
        ensures told { TellsUsages self.old self.new }
    {
        look_at_bounds(&self.audit);
        let me = beside.history.look(&mut self.keeper, me);
        let from = self.audit.entries().len();
        match self.audit.begin_merge(number) {
            Ok(()) => {
                beside.note(&mut self.keeper, &self.audit.entries()[from..]);
                let me = beside.history.look(&mut self.keeper, me);
                beside.keep_up(&mut self.publishers, &self.audit);
                (me, Ok(()))
            }
            Err(refusal) => {
                beside.keep_up(&mut self.publishers, &self.audit);
                (me, Err(refusal))
            }
        }
    }

    /// Whether a merge that is begun has come to its end, or stopped at a fault.
    pub fn is_merge_over(&self) -> bool
        ensures { result ≡ (is_finished_in self.now.audit.volume.merge || has_failed self.now.audit.volume.merge) }
    {
        let volume = self.audit.volume();
        volume.is_merge_finished() || volume.is_merge_failed()
    }

    /// Compares a seat's pass with the journal, whose first entries are those that the seat has seen.
    pub fn settle(&mut self, beside: &Beside, me: Pass, seat: u8) -> Pass
        requires beside { IsBeside (J.history self.old.volume) (J.boards self.old.volume) beside.now }
        requires seat { IsSeat (J.history self.old.volume) seat me }
        ensures same { self.new ≡ self.old }
        ensures seat { IsSameSeat (J.history self.old.volume) seat me result }
        ensures still { result.me.0.seen ≡ me.me.0.seen }
        ensures own { entries_by seat self.old.audit.entries ≡ entries_by seat (J.start self.old.volume) ++ (entries_by seat me.me.0.old ++ me.me.0.mine) }
        ensures waits { held_by seat self.old.audit.held ≡ me.me.0.waits }
        ensures folded { self.old.audit.folded ≡ (J.fixed self.old.volume).folded }
        ensures seen { (more : List Entry) × (self.old.audit.entries ≡ J.start self.old.volume ++ (me.me.0.seen ++ more)) }
    {
        beside.history.settle(&mut self.keeper, me)
    }

    /// How many requests are in flight.
    pub fn in_flight(&self) -> usize
        ensures { result ≡ length self.now.audit.held }
    {
        self.audit.in_flight()
    }

    /// Gives the audit back, whose journal begins with the entries that it had when the rig was made. Each of the others is one that
    /// was asked for.
    pub fn into_audit(self) -> Audit<B>
        ensures same { result ≡ self.audit }
        ensures stays { StaysFrom (J.fixed self.volume) (fixed_of B.size B.layers result) }
        ensures grows { (more : List Entry) × (result.entries ≡ J.start self.volume ++ more) }
        ensures asked { AddsAskedFor (J.merges self.volume) (J.start self.volume) result.entries }
    {
        let Post {
            volume: _,
            audit,
            keeper: _,
            publishers: _,
            room: _,
        } = self;
        audit
    }
}
