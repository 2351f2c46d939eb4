// What an event will ask of a device is done ahead.
ghost use Rattle.std.specs.Prelude.{◌≡◌, ◌<◌, ℕ, IfSome, Some, false, length, slice_index_or, true};
ghost use Rattle.device.specs.CanDoAhead.{CanDoAhead};
ghost use Rattle.merge.specs.Merging.{Merging};
ghost use Rattle.snapshot.specs.Kept.{Kept};
ghost use Rattle.device.specs.declared.operation.Operation.TheVariants.{Writes};
ghost use Rattle.plain_machine.specs.declared.event.Event.TheVariants.{CopyWrite, FlushStore, WriteArea, WriteInvalid, ZeroNext};
ghost use Rattle.volume.specs.Asks.{AsksIfDue, Tells};
ghost use Rattle.volume.specs.Calm.{DoesAheadOf, IsSureIfDue, PromisesCalm, TellsIfDue};
ghost use Rattle.volume.specs.DoesAhead.{IsMergeAhead, IsSnapAhead};
ghost use Rattle.volume.specs.FreshMarks.{FreshFor};
ghost use Rattle.volume.specs.Volumed.{is_due_of};

use crate::Volume;
use device::{Ahead, Operation, do_ahead};
use in_flight::Stage;
use merge::Merge;
use plain_machine::{CopyId, Event, SnapId};
use snapshot::Snapshot;
use snapshot_list::{committing_near, find_copy_near, flushing_near, trying_at, zeroing_at};

/// Which device an event will ask, and for what.
#[derive(Clone, Copy, PartialEq, Eq)]
pub(crate) enum Ask {
    /// It will ask none.
    Nobody,
    /// It will read more sectors than are read ahead.
    TooMany,
    Origin(Operation),
    /// The store of the snapshot at this place of the list.
    Store(usize, Operation),
    /// The store that is being merged.
    Merging(Operation),
}

/// A write of some sector: whether one passes does not depend on its sectors where a file is asked.
fn some_write() -> Operation
    ensures { result ≡ Writes 0 1 }
{
    Operation::Writes(0, 1)
}

/// Does an operation of the store of the snapshot at a place ahead, and says whether it will be answered.
fn snap_ahead<B: Ahead>(snaps: &mut [Snapshot<B>], place: usize, operation: Operation) -> bool
    ensures count { length snaps.new ≡ length snaps.old }
    ensures each { (k : ℕ) (d : Kept B) → k < length snaps.old → IsSnapAhead B.may_hold B.contents B.layers B.size B.fault_count B.done_count (slice_index_or snaps.old k d) (slice_index_or snaps.new k d) }
    ensures fresh { (s : Kept B) → place < length snaps.old → (slice_index_or snaps.old place s).untried ≡ true → (slice_index_or snaps.old place s).stale ≡ false }
    ensures told { (s : Kept B) → place < length snaps.old → CanDoAhead (B.size (slice_index_or snaps.old place s).device) operation → Tells operation (B.layers (slice_index_or snaps.new place s).device) result }
    ensures sure { (s : Kept B) → place < length snaps.old → CanDoAhead (B.size (slice_index_or snaps.old place s).device) operation → B.unanswered (slice_index_or snaps.new place s).device ≡ false → result ≡ true }
{
    if place < snaps.len() {
        snaps[place].ahead(operation)
    } else {
        false
    }
}

/// Does an operation of the merging store ahead, and says whether it will be answered.
fn merge_ahead<B: Ahead>(merge: &mut Option<Merge<B>>, operation: Operation) -> bool
    ensures does { IsMergeAhead B.may_hold B.contents B.layers B.size B.fault_count B.done_count merge.old merge.new }
    ensures told { (m : Merging B) → merge.old ≡ Some m → IfSome merge.new (λ g. CanDoAhead (B.size m.device) operation → Tells operation (B.layers g.device) result) }
    ensures sure { (m : Merging B) → merge.old ≡ Some m → IfSome merge.new (λ g. CanDoAhead (B.size m.device) operation → B.unanswered g.device ≡ false → result ≡ true) }
{
    match merge {
        None => false,
        Some(merge) => merge.ahead(operation),
    }
}

impl<B: Ahead> Volume<B> {
    /// Does ahead what an event will ask of a device, and says whether that will be answered: reads the sectors, sees whether writes
    /// pass, or syncs. So `step` answers a fault where it could not; and where it could, and all that the devices answer is done, the
    /// event tells no fault. While no file left a call unanswered, all that is due is answered, but a read of more than 1024 sectors. It is asked before each event over devices that are files. No request, no copy and no byte changes, and
    /// no operation is counted; a device that turns out not to keep what was written is not loud from then on.
    pub fn ahead(&mut self, event: Event) -> bool
        ensures does { DoesAheadOf B.Block self.old self.new }
        ensures told { TellsIfDue B.Block event result self.old self.new }
        ensures sure { IsSureIfDue B.Block B.unanswered event result self.old self.new }
        ensures faultless { PromisesCalm B.Block event result self.new }
    {
        let answered = self.do_ahead(event);
        self.look();
        answered
    }

    /// Does ahead what an event will ask, and says whether that will be answered. A mark that it will try has not failed.
    #[tactic(auto, using(crate::proofs::Aheads::none_does))]
    fn do_ahead(&mut self, event: Event) -> bool
        ensures does { DoesAheadOf B.Block self.old self.new }
        ensures told { TellsIfDue B.Block event result self.old self.new }
        ensures sure { IsSureIfDue B.Block B.unanswered event result self.old self.new }
        ensures fresh { is_due_of B.contents B.layers self.old event ≡ true → FreshFor event self.new }
    {
        match self.asked_by(event) {
            Ask::Nobody => true,
            Ask::TooMany => false,
            Ask::Origin(operation) => do_ahead(&mut self.origin, operation),
            Ask::Store(place, operation) => {
                snap_ahead(self.snaps.as_mut_slice(), place, operation)
            }
            Ask::Merging(operation) => merge_ahead(&mut self.merge, operation),
        }
    }

    /// Which device an event will ask, and for what, where it is due.
    fn asked_by(&self, event: Event) -> Ask
        ensures { AsksIfDue B.Block event result self.now }
    {
        // A look: what the type keeps is known from here on.
        let _ = &self.flights;
        match event {
            Event::Issue(number) => self.asked_by_issue(number),
            Event::CopyRead(number) => self.asked_by_copy(number),
            Event::CopyWrite(number) => self.asked_by_write(number),
            Event::ZeroNext(number) => self.asked_by_zeros(number),
            Event::WriteArea(number) => self.asked_by_area(number),
            Event::WriteInvalid(number) => self.asked_by_mark(number),
            Event::FlushStore(number) => self.asked_by_flush(number),
            Event::MergeAreaRead => self.asked_by_area_read(),
            Event::MergeRead => self.asked_by_merge_read(),
            Event::MergeCommit => Ask::Merging(some_write()),
            Event::MergeWrite => Ask::Origin(some_write()),
            Event::MergeFlush => Ask::Origin(Operation::Flushes),
            Event::Publish(_) | Event::MergeGroup | Event::MergeRelease => Ask::Nobody,
        }
    }

    /// The store is asked for a write of its mark.
    fn asked_by_mark(&self, number: SnapId) -> Ask
        ensures { AsksIfDue B.Block (WriteInvalid number) result self.now }
    {
        match trying_at(&self.snaps, number) {
            Some(place) => Ask::Store(place, some_write()),
            None => Ask::Nobody,
        }
    }

    /// The store is asked for a flush.
    fn asked_by_flush(&self, number: SnapId) -> Ask
        ensures { AsksIfDue B.Block (FlushStore number) result self.now }
    {
        match flushing_near(&self.snaps, self.last, number) {
            Some(place) => Ask::Store(place, Operation::Flushes),
            None => Ask::Nobody,
        }
    }

    /// The store is asked for a write of its current area.
    fn asked_by_area(&self, number: SnapId) -> Ask
        ensures { AsksIfDue B.Block (WriteArea number) result self.now }
    {
        match committing_near(&self.snaps, self.last, number) {
            Some(place) => Ask::Store(place, some_write()),
            None => Ask::Nobody,
        }
    }

    /// The store is asked for a write of its next area.
    fn asked_by_zeros(&self, number: SnapId) -> Ask
        ensures { AsksIfDue B.Block (ZeroNext number) result self.now }
    {
        match zeroing_at(&self.snaps, number) {
            Some(place) => Ask::Store(place, some_write()),
            None => Ask::Nobody,
        }
    }

    /// The store is asked for a write of a copy's chunk.
    fn asked_by_write(&self, number: CopyId) -> Ask
        ensures { AsksIfDue B.Block (CopyWrite number) result self.now }
    {
        match find_copy_near(&self.snaps, self.last, Stage::Read, number) {
            Some((place, _)) => Ask::Store(place, some_write()),
            None => Ask::Nobody,
        }
    }
}
