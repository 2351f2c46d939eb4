// Requests and events.
ghost use Rattle.std.specs.Prelude.{◌≡◌, ◌*◌, ◌+◌, IfErr, IfOk, List, OnErr, length, true, ℕ};
ghost use Rattle.plain_machine.specs.declared.request.Op.TheVariants.{Write};
ghost use Rattle.plain_machine.specs.declared.request.Reply.TheVariants.{Refused};
ghost use Rattle.volume.specs.DoesServe.{DoesServe, IsServedAtOnce};
ghost use Rattle.volume.specs.DoesStep.{DoesStep};
ghost use Rattle.volume.specs.DoesSubmit.{DoesSubmit};
ghost use Rattle.volume.specs.Lent.{is_bare, origin_write};
ghost use Rattle.volume.specs.Volumed.{is_loud_in_all, plain_of};
ghost use Rattle.audited_volume.specs.declared.entry.Entry.{Entry};
ghost use Rattle.counted_volume.specs.Declined.{IsUnsent};
ghost use Rattle.counted_volume.specs.Following.{AreMerged};
ghost use Rattle.counted_volume.specs.GoingOn.{ComesTo, GoesOn, IsSubmitNoted};
ghost use Rattle.counted_volume.specs.Places.{kept_for_marks};
ghost use Rattle.counted_volume.specs.TakesPlaces.{TakesByRequests, TakesPlaces};

use crate::CountedVolume;
use crate::counted_volume::count_may;
use audited_volume::MAX_ENTRIES;
use layers::Layered;
use plain_machine::{Event, NotDue, Outcome, Reply, ReqId, Request};
use sector::{Range, Refusal};
use volume::Served;

impl<B: Layered> CountedVolume<B> {
    /// Accepts a request, and tells its number: it takes a place of the journal, which its reply's entry has then. Refused first of
    /// all where the journal is full (`JournalFull`), and nothing changed; then as the volume refuses it. A mark takes no place:
    /// its entry has the one that was kept free for it.
    pub fn submit(&mut self, request: Request) -> Result<ReqId, Refusal>
        requires bytes { (bytes : List ℕ) → request.op ≡ Write bytes → length bytes ≡ 512 * request.range.count }
        ensures does { DoesSubmit B.contents B.layers B.size request result self.old.volume self.new.volume }
        ensures refused { IfErr result (λ refusal. IsUnsent B.contents B.layers B.size request refusal self.old.volume self.new.volume) }
        ensures places { TakesPlaces 1 kept_for_marks result self.old self.new }
        ensures goes_on { is_loud_in_all B.layers self.old.volume ≡ true → (entries : List Entry) × IsSubmitNoted request result entries × GoesOn (plain_of B.contents B.layers self.old.volume) entries (plain_of B.contents B.layers self.new.volume) }
    {
        let may = count_may(&self.volume);
        if self.places + may + 1 > MAX_ENTRIES {
            return Err(Refusal::JournalFull);
        }
        match self.volume.submit(self.alloc, request) {
            Ok(number) => {
                self.places += 1;
                Ok(number)
            }
            Err(refusal) => {
                // The entry of a mark has the place that was kept free for it.
                self.places += may - count_may(&self.volume);
                Err(refusal)
            }
        }
    }

    /// Accepts a request as `submit` does, and answers it at once where it waits for nothing: one that is answered has the place of
    /// its reply's entry.
    #[inline(always)]
    pub fn serve(&mut self, request: Request) -> Result<Served, Refusal>
        requires bytes { (bytes : List ℕ) → request.op ≡ Write bytes → length bytes ≡ 512 * request.range.count }
        ensures does { DoesServe B.may_hold B.contents B.layers B.size B.fault_count B.done_count request result self.old.volume self.new.volume }
        ensures refused { IfErr result (λ refusal. IsUnsent B.contents B.layers B.size request refusal self.old.volume self.new.volume) }
        ensures places { TakesPlaces 1 kept_for_marks result self.old self.new }
        ensures taken { TakesByRequests self.old self.new }
    {
        let may = count_may(&self.volume);
        if self.places + may + 1 > MAX_ENTRIES {
            return Err(Refusal::JournalFull);
        }
        match self.volume.serve(self.alloc, request) {
            Ok(served) => {
                self.places += 1;
                Ok(served)
            }
            Err(refusal) => {
                // The entry of a mark has the place that was kept free for it.
                self.places += may - count_may(&self.volume);
                Err(refusal)
            }
        }
    }

    /// Writes sectors of the origin of a bare volume by bytes that are lent, as `serve` does of such a request.
    pub fn write_lent(&mut self, range: Range, bytes: &[u8]) -> Result<Reply, Refusal>
        requires bare { is_bare self.old.volume ≡ true }
        requires bytes { length bytes.now ≡ 512 * range.count }
        ensures does { IfOk result (λ reply. IsServedAtOnce B.may_hold B.contents B.layers B.size B.fault_count B.done_count (origin_write range bytes.now) (self.old.volume.requests + 1) reply self.old.volume self.new.volume) }
        ensures refused { IfErr result (λ refusal. IsUnsent B.contents B.layers B.size (origin_write range bytes.now) refusal self.old.volume self.new.volume) }
        ensures same { OnErr result (self.new.volume ≡ self.old.volume) }
        ensures places { TakesPlaces 1 kept_for_marks result self.old self.new }
        ensures taken { TakesByRequests self.old self.new }
    {
        // There is no snapshot, for whose mark a place is kept.
        if self.places + 1 > MAX_ENTRIES {
            return Err(Refusal::JournalFull);
        }
        match self.volume.write_lent(self.alloc, range, bytes) {
            Ok(reply) => {
                self.places += 1;
                Ok(reply)
            }
            Err(refusal) => Err(refusal),
        }
    }

    /// Does one event, where it is due. Where it is not, nothing changes. It takes no place of the journal: a reply's entry has
    /// that of its request, and a spoiled snapshot's entry that of the snapshot.
    #[inline(never)]
    pub fn step(&mut self, event: Event) -> Result<Outcome, NotDue>
        ensures does { DoesStep B.may_hold B.contents B.layers B.size B.fault_count B.done_count true event result self.old.volume self.new.volume }
        ensures taken { TakesByRequests self.old self.new }
        ensures goes_on { IfOk result (λ outcome. is_loud_in_all B.layers self.old.volume ≡ true → (entries : List Entry) × ComesTo (plain_of B.contents B.layers self.old.volume) outcome entries × GoesOn (plain_of B.contents B.layers self.old.volume) entries (plain_of B.contents B.layers self.new.volume)) }
    {
        self.volume.step(event)
    }

    /// Copies all chunks of a merge's group back at once, as their events would, one after another, where the volume can; else
    /// nothing changes. It takes no place of the journal.
    pub(crate) fn copy_group(&mut self)
        ensures { AreMerged B.may_hold B.contents B.layers B.fault_count B.size self.old self.new }
    {
        let _ = self.volume.copy_group();
    }

    /// Does one event as `step` does, in the caller's own code: for one that knows the event's kind.
    #[inline(always)]
    pub fn step_here(&mut self, event: Event) -> Result<Outcome, NotDue>
        ensures does { DoesStep B.may_hold B.contents B.layers B.size B.fault_count B.done_count true event result self.old.volume self.new.volume }
        ensures taken { TakesByRequests self.old self.new }
    {
        self.volume.step(event)
    }
}
