// What a seat does at one volume, under its lock.
ghost use Rattle.std.specs.Prelude.{◌≡◌, ◌≢◌, ◌+◌, ◌*◌, ◌<◌, ◌++◌, ◌∷◌, ℕ, true, List, [], length, map, slice_index_or, IfErr, IfOk, IfSome, IfNone, MatchResult, OnErr, OnOk};
ghost use Rattle.plain_machine.specs.declared.request.Op.TheVariants.{Flush, Write};
ghost use Rattle.audited_volume.specs.Entries.{answered_of, entries_by};
ghost use Rattle.audited_volume.specs.Seats.{Seated};
ghost use Rattle.audited_volume.specs.declared.entry.Entry.{Entry};
ghost use Rattle.audited_volume.specs.declared.entry.Receipt.{Receipt};
ghost use Rattle.locked_volume.specs.Beside.{IsBeside};
ghost use Rattle.locked_volume.specs.Denying.{Begin, Serve, WasBegun, WasDenied};
ghost use Rattle.locked_volume.specs.Seats.{IsSeat};
ghost use Rattle.sector.specs.declared.refusal.Refusal.TheVariants.{NotQuiet};
ghost use Rattle.volume_threads.specs.Rigs.{AllAgree};
ghost use Rattle.volume_threads.specs.Sittings.{AreCounted, IsAnswered, IsSameSitting, IsTurnedAway, IsWaiting};

use crate::sitting::Sitting;
use atomic_table::Badge;
use audited_volume::Receipt;
use layers::Layered;
use locked_volume::{Beside, Pass, Post, Room};
use plain_machine::{Reply, ReqId, Request, SnapId};
use sector::Refusal;
use std::alloc::{AllocError, Global};
use std::marker::PhantomData;
use std::mem;

impl<J: Room> Sitting<J> {
    /// A seat at a volume, with no receipts.
    pub(crate) fn new(alloc: Global, volume: usize, seat: u8, pass: Pass) -> Sitting<J>
        requires { IsSeat (J.history volume) seat pass × (pass.me.0.old ≡ []) × (pass.me.0.mine ≡ []) × (pass.me.0.waits ≡ []) }
        ensures { (result.volume ≡ volume) × (result.seat ≡ seat) × (result.receipts ≡ []) × (result.waits ≡ []) }
    {
        Sitting {
            volume,
            seat,
            pass: pass.into_badge(),
            receipts: Vec::new(alloc),
            room: PhantomData,
        }
    }

    pub(crate) fn receipts(&self) -> &[Receipt]
        ensures { result.now ≡ self.now.receipts }
    {
        self.receipts.as_slice()
    }

    /// Room for one receipt more.
    pub(crate) fn reserve(&mut self) -> Result<(), AllocError>
        ensures same { IsSameSitting self.old self.new }
        ensures room { IfOk result (λ _. length self.new.receipts < self.new.room) }
    {
        self.receipts.reserve(1)
    }

    /// Submits a read or a write of this seat, which has no request in flight.
    pub(crate) fn submit<B: Layered>(
        &mut self,
        post: &mut Post<B, J>,
        beside: &Beside,
        request: Request,
    ) -> Result<ReqId, Refusal>
        requires beside { IsBeside (J.history post.old.volume) (J.boards post.old.volume) beside.now }
        requires volume { post.old.volume ≡ self.old.volume }
        requires few { self.old.seat < 9 }
        requires idle { self.old.waits ≡ [] }
        requires plain { request.op ≢ Flush }
        requires bytes { (bytes : List ℕ) → request.op ≡ Write bytes → length bytes ≡ 512 * request.range.count }
        ensures post { post.new.volume ≡ post.old.volume }
        ensures seat { MatchResult result (λ number. IsWaiting number request self.old self.new) (λ refusal. IsTurnedAway (J.start self.old.volume) (J.fixed self.old.volume) (Serve request) refusal self.old self.new) }
    {
        let badge = mem::replace(&mut self.pass, Badge::blank());
        let (pass, got) = post.submit(beside, badge.into_seat(), self.seat, request);
        self.pass = pass.into_badge();
        got
    }

    /// Issues the request of this seat that is in flight, if it is due.
    pub(crate) fn issue<B: Layered>(
        &mut self,
        post: &mut Post<B, J>,
        beside: &Beside,
        number: ReqId,
    ) -> Option<Reply>
        requires beside { IsBeside (J.history post.old.volume) (J.boards post.old.volume) beside.now }
        requires volume { post.old.volume ≡ self.old.volume }
        requires few { (0 < self.old.seat) × (self.old.seat < 9) }
        requires room { length self.old.receipts < self.old.room }
        requires one { (x : Seated) × (self.old.waits ≡ x ∷ []) }
        ensures post { post.new.volume ≡ post.old.volume }
        ensures some { IfSome result (λ reply. (r : Receipt) × IsAnswered reply r self.old self.new) }
        ensures none { IfNone result (IsSameSitting self.old self.new × (self.new.room ≡ self.old.room)) }
    {
        let badge = mem::replace(&mut self.pass, Badge::blank());
        let (pass, got) = post.issue(beside, badge.into_seat(), self.seat, number);
        self.pass = pass.into_badge();
        match got {
            Some(pair) => {
                let (reply, receipt) = pair;
                self.receipts.push_reserved(receipt);
                Some(reply)
            }
            None => None,
        }
    }

    /// Begins a merge for this seat, which may ask for it.
    pub(crate) fn begin_merge<B: Layered>(
        &mut self,
        post: &mut Post<B, J>,
        beside: &Beside,
        number: SnapId,
    ) -> Result<(), Refusal>
        requires beside { IsBeside (J.history post.old.volume) (J.boards post.old.volume) beside.now }
        requires volume { post.old.volume ≡ self.old.volume }
        requires asked { J.merges self.old.volume number ≡ true }
        ensures post { post.new.volume ≡ post.old.volume }
        ensures seat { IsSameSitting self.old self.new }
        ensures begun { OnOk result (WasBegun number self.old.seen self.new.seen) }
        ensures denied { IfErr result (λ refusal. refusal ≢ NotQuiet → WasDenied (J.start self.old.volume) (J.fixed self.old.volume) self.new.seen (Begin number) refusal) }
    {
        let badge = mem::replace(&mut self.pass, Badge::blank());
        let (pass, got) = post.begin_merge(beside, badge.into_seat(), self.seat, number);
        self.pass = pass.into_badge();
        got
    }

    /// The receipts of this seat are its entries in the journal after those that it had, in their order, and there are as
    /// many; the count of each is the place of its entry among the seat's; and what it has seen are the first entries since the rig
    /// was made.
    pub(crate) fn settle<B: Layered>(&mut self, post: &mut Post<B, J>, beside: &Beside)
        requires beside { IsBeside (J.history post.old.volume) (J.boards post.old.volume) beside.now }
        requires volume { post.old.volume ≡ self.old.volume }
        ensures seat { self.new ≡ self.old }
        ensures post { post.new ≡ post.old }
        ensures own { entries_by self.old.seat post.old.audit.entries ≡ entries_by self.old.seat (J.start self.old.volume) ++ map answered_of self.old.receipts }
        ensures counts { AreCounted self.old.seat (slice_index_or post.old.audit.folded self.old.seat 0 + length (entries_by self.old.seat (J.start self.old.volume))) self.old.receipts }
        ensures agree { AllAgree post.old.audit self.old.receipts }
        ensures seen { (more : List Entry) × (post.old.audit.entries ≡ J.start self.old.volume ++ (self.old.seen ++ more)) }
    {
        let badge = mem::replace(&mut self.pass, Badge::blank());
        let pass = post.settle(beside, badge.into_seat(), self.seat);
        self.pass = pass.into_badge();
    }
}
