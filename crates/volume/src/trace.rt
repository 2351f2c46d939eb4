// Looks at what is in flight, and at which events are due: for a trace.
ghost use Rattle.std.specs.Prelude.{◌≡◌, ◌≤◌, Some, length, map, true};
ghost use Rattle.volume_laws.specs.Due.{is_due, is_issued as can_issue};
ghost use Rattle.volume_laws.specs.MergeDue.{is_merge_due};
ghost use Rattle.merge.specs.Merging.{due_of as merging_due};
ghost use Rattle.snapshot.specs.Kept.{books_of as snap_books};
ghost use Rattle.volume.specs.Volumed.{dues_of, is_due_of};

use crate::Volume;
use device::Block;
use in_flight::{Flight, Stage, flight_at, is_routed};
use merge::Merge;
use plain_machine::{Event, ReqId};
use snapshot::Snapshot;
use snapshot_list::{
    committing_at, find_copy, find_mark, flushing_at, is_area_due, is_commit_due, is_flush_due,
    is_group_due, is_read_due, is_release_due, is_write_due, trying_at, zeroing_at,
};

/// Whether the first request with this number goes somewhere.
fn is_issued(flights: &[Flight], number: ReqId) -> bool
    ensures { result ≡ can_issue number flights.now }
{
    match flight_at(flights, number) {
        Some(place) => is_routed(flights[place].route),
        None => false,
    }
}

impl<B: Block> Volume<B> {
    /// Whether an event of its snapshots or of a request is due.
    fn is_due_aside(&self, event: Event) -> bool
        ensures { result ≡ is_due (dues_of B.contents B.layers self.now) self.now.flights event }
    {
        match event {
            Event::Issue(number) => is_issued(&self.flights, number),
            Event::CopyRead(number) => find_copy(&self.snaps, Stage::Waiting, number).is_some(),
            Event::CopyWrite(number) => find_copy(&self.snaps, Stage::Read, number).is_some(),
            Event::ZeroNext(number) => zeroing_at(&self.snaps, number).is_some(),
            Event::WriteArea(number) => committing_at(&self.snaps, number).is_some(),
            Event::Publish(number) => find_mark(&self.snaps, &self.flights, number).is_some(),
            Event::WriteInvalid(number) => trying_at(&self.snaps, number).is_some(),
            Event::FlushStore(number) => flushing_at(&self.snaps, number).is_some(),
            Event::MergeGroup => false,
            Event::MergeAreaRead => false,
            Event::MergeRead => false,
            Event::MergeWrite => false,
            Event::MergeFlush => false,
            Event::MergeCommit => false,
            Event::MergeRelease => false,
        }
    }

    /// Whether an event of its merge is due.
    fn is_due_in_merge(&self, merge: &Merge<B>, event: Event) -> bool
        requires own { self.now.merge ≡ Some merge.now }
        ensures { result ≡ is_merge_due (map (snap_books B.contents B.layers) self.now.snaps) self.now.flights (merging_due B.contents true merge.now) event }
    {
        match event {
            Event::MergeGroup => is_group_due(merge),
            Event::MergeAreaRead => is_area_due(merge),
            Event::MergeRead => is_read_due(merge, &self.flights),
            Event::MergeWrite => is_write_due(merge, &self.snaps),
            Event::MergeFlush => is_flush_due(merge),
            Event::MergeCommit => is_commit_due(merge),
            Event::MergeRelease => is_release_due(merge, &self.flights),
            _ => false,
        }
    }

    /// Whether an event is due: `step` does just those that are.
    pub fn is_due(&self, event: Event) -> bool
        ensures { result ≡ is_due_of B.contents B.layers self.now event }
    {
        match &self.merge {
            Some(merge) => self.is_due_aside(event) || self.is_due_in_merge(merge, event),
            None => self.is_due_aside(event),
        }
    }

    /// The requests in flight, in the order in which they were accepted: 64 at most. Each has the number that `submit` told.
    pub fn flights(&self) -> &[Flight]
        ensures is { result.now ≡ self.now.flights }
        ensures few { length result.now ≤ 64 }
    {
        self.flights.as_slice()
    }

    /// The snapshots, in order of attaching, without the one that is being merged.
    pub fn snaps(&self) -> &[Snapshot<B>]
        ensures { result.now ≡ self.now.snaps }
    {
        self.snaps.as_slice()
    }
}
