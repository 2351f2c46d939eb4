// The events of a round are done.
ghost use Rattle.std.specs.Prelude.{◌≡◌, ◌≢◌, ◌==◌, ◌&&◌, IfNone, IfSome, None, Some, false, length, true};
ghost use Rattle.nbd_backend.specs.declared.array.Stepped.TheVariants.{Ended, Still};
ghost use Rattle.volume.specs.Volumed.{is_due_of, next_of};
ghost use Rattle.volume_nbd.specs.Faults.{is_stopped as is_stopped_by};
ghost use Rattle.volume_nbd.specs.Served.{ChangesOrStarves, ChangesVolume, IsIdleIfNone, IsStarved};
ghost use Rattle.volume_nbd.specs.Steps.{DoesEvent, DoesServedStep};

use crate::VolumeArray;
use crate::answers::stepped;
use crate::faults::{is_failed_at, is_stopped};
use crate::gathering::gather;
use crate::looking::look_at;
use device::Ahead;
use group_commit::{Batch, after};
use nbd_backend::Stepped;
use plain_machine::Event;
use volume::is_of_merge;

/// A step looks at so many events and batches at most.
const LOOKS: u32 = 1024;

/// Whether what is to be said is said before a batch: it reads or writes copies, or waits for a store.
fn is_slow(batch: Batch) -> bool {
    match batch {
        Batch::Issues | Batch::Writes | Batch::Publications | Batch::MoreIssues => false,
        Batch::Reads | Batch::Flushes | Batch::Marks | Batch::Zeros | Batch::Areas => true,
    }
}

impl<B: Ahead> VolumeArray<B> {
    /// Does an event ahead and then the event, where it is due, and tells what came of it. `None` where it is not.
    fn do_event(&mut self, event: Event) -> Option<Stepped>
        ensures some { IfSome result (λ stepped. DoesEvent B.may_hold B.contents B.layers B.size B.fault_count B.done_count B.failed B.unanswered self.old.chosen stepped self.old.volume self.new.volume) }
        ensures none { IfNone result (self.new ≡ self.old) }
        ensures kept { ChangesVolume self.old self.new }
    {
        if !self.volume.is_due(event) {
            return None;
        }
        let idle = is_of_merge(event) && self.volume.flights().is_empty();
        look_at(&self.volume);
        self.volume.ahead(event);
        let Ok(outcome) = self.volume.step(event) else {
            return None;
        };
        look_at(&self.volume);
        self.went = true;
        let failed = is_failed_at(&self.volume, self.dev);
        Some(stepped(self.alloc, idle, failed, outcome))
    }

    /// Gathers the events of a batch. `false` where memory is refused.
    fn gather(&mut self, batch: Batch) -> bool
        ensures kept { self.new ≡ record self.old { starved = self.new.starved } }
        ensures told { result ≡ false → IsStarved self.new }
    {
        self.batch = batch;
        self.at = 0;
        self.starved = gather(&mut self.events, &self.volume, batch).is_err();
        !self.starved
    }

    /// Goes to the next batch, or to the next round.
    fn turn(&mut self) -> Option<Stepped>
        ensures some { IfSome result (λ stepped. DoesServedStep B.may_hold B.contents B.layers B.size B.fault_count B.done_count B.failed B.unanswered self.old.chosen stepped self.old.volume self.new.volume) }
        ensures still { result ≡ Some Still → next_of B.contents B.layers self.old.volume ≡ None }
        ensures ended { result ≡ Some Ended → IsStarved self.new }
        ensures none { IsIdleIfNone result self.old self.new }
        ensures kept { ChangesOrStarves self.old self.new }
    {
        let Some(next) = after(self.batch) else {
            return Some(self.end_round());
        };
        if !self.gather(next) {
            return Some(Stepped::Ended);
        }
        if self.went && is_slow(next) && !self.events.is_empty() {
            return Some(Stepped::Slow);
        }
        None
    }

    /// The end of a round. Where the round did no event, the one that is due first is done; what is to be said is said before a merge's.
    fn end_round(&mut self) -> Stepped
        ensures does { DoesServedStep B.may_hold B.contents B.layers B.size B.fault_count B.done_count B.failed B.unanswered self.old.chosen result self.old.volume self.new.volume }
        ensures still { result ≡ Still → next_of B.contents B.layers self.old.volume ≡ None }
        ensures ended { result ≡ Ended → IsStarved self.new }
        ensures kept { ChangesOrStarves self.old self.new }
    {
        let went = self.went;
        self.went = false;
        if !self.gather(Batch::Issues) {
            return Stepped::Ended;
        }
        if !went {
            return self.do_first();
        }
        if self.volume.merging().is_some() {
            Stepped::Slow
        } else {
            Stepped::Done
        }
    }

    /// Does the event that is due first: a merge's where no other is.
    fn do_first(&mut self) -> Stepped
        ensures does { DoesServedStep B.may_hold B.contents B.layers B.size B.fault_count B.done_count B.failed B.unanswered self.old.chosen result self.old.volume self.new.volume }
        ensures still { result ≡ Still → next_of B.contents B.layers self.old.volume ≡ None }
        ensures goes { result ≢ Ended }
        ensures kept { ChangesVolume self.old self.new }
    {
        let Some(event) = self.volume.due() else {
            return Stepped::Still;
        };
        let done = self.do_event(event);
        self.went = !is_of_merge(event);
        match done {
            Some(stepped) => stepped,
            None => Stepped::Done,
        }
    }

    /// Looks at the next event of the batch, and does it where it is due; or goes on to the next batch.
    fn look(&mut self) -> Option<Stepped>
        ensures some { IfSome result (λ stepped. DoesServedStep B.may_hold B.contents B.layers B.size B.fault_count B.done_count B.failed B.unanswered self.old.chosen stepped self.old.volume self.new.volume) }
        ensures still { result ≡ Some Still → next_of B.contents B.layers self.old.volume ≡ None }
        ensures ended { result ≡ Some Ended → IsStarved self.new }
        ensures none { IsIdleIfNone result self.old self.new }
        ensures kept { ChangesOrStarves self.old self.new }
    {
        match self.events.get(self.at).copied() {
            Some(event) => {
                self.at += 1;
                self.do_event(event)
            }
            None => self.turn(),
        }
    }

    /// Does an event that is due, or goes on in the round, and tells what came of it. Nothing is done, and `Ended` is told, once the
    /// origin's file failed, a store could not be marked, or memory was refused.
    pub fn go_on(&mut self) -> Stepped
        ensures does { DoesServedStep B.may_hold B.contents B.layers B.size B.fault_count B.done_count B.failed B.unanswered self.old.chosen result self.old.volume self.new.volume }
        ensures stopped { is_stopped_by B.failed self.old.volume ≡ true → (result ≡ Ended) × (self.new ≡ self.old) }
        ensures starved { IsStarved self.old → (result ≡ Ended) × (self.new ≡ self.old) }
        ensures ended { result ≡ Ended → is_stopped_by B.failed self.old.volume ≡ false → IsStarved self.new }
        ensures still { result ≡ Still → next_of B.contents B.layers self.old.volume ≡ None }
        ensures kept { ChangesOrStarves self.old self.new }
    {
        if self.starved || is_stopped(&self.volume) {
            return Stepped::Ended;
        }
        for _ in 0..LOOKS {
            if let Some(stepped) = self.look() {
                return stepped;
            }
        }
        Stepped::Done
    }
}
