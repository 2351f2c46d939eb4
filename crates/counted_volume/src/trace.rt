// What is in flight in a volume, and every event that is due: looks, for a trace.
ghost use Rattle.std.specs.Prelude.{◌≡◌, ◌++◌, ◌≤◌, OnOk, IfOk, filter, length};
ghost use Rattle.std.specs.List.{flat_map};
ghost use Rattle.volume.specs.Volumed.{is_due_of};
ghost use Rattle.counted_volume.specs.Trace.{IsAllDue, candidates_of, due_among, events_of_copies, events_of_flights, events_of_marks, events_of_merge, events_of_snap};

use crate::CountedVolume;
use in_flight::{ChunkCopy, Flight, Mark};
use layers::Layered;
use plain_machine::Event;
use snapshot::Snapshot;
use std::alloc::{AllocError, Global};

/// The events that there are of some copies whose pairs are not committed.
fn add_copies(copies: &[ChunkCopy], events: &mut Vec<Event>) -> Result<(), AllocError>
    ensures { OnOk result (events.new.items ≡ events.old.items ++ events_of_copies copies.now) }
{
    for copy in copies {
        events.push(Event::CopyWrite(copy.number))?;
        events.push(Event::CopyRead(copy.number))?;
    }
    Ok(())
}

/// The events that there are of some copies whose pairs are committed.
fn add_marks(marks: &[Mark], events: &mut Vec<Event>) -> Result<(), AllocError>
    ensures { OnOk result (events.new.items ≡ events.old.items ++ events_of_marks marks.now) }
{
    for mark in marks {
        events.push(Event::Publish(mark.number))?;
    }
    Ok(())
}

/// The events that there are of a snapshot.
fn add_snap<B: Layered>(snap: &Snapshot<B>, events: &mut Vec<Event>) -> Result<(), AllocError>
    ensures { OnOk result (events.new.items ≡ events.old.items ++ events_of_snap snap.now) }
{
    events.push(Event::WriteInvalid(snap.number()))?;
    events.push(Event::FlushStore(snap.number()))?;
    add_marks(snap.marks(), events)?;
    events.push(Event::WriteArea(snap.number()))?;
    events.push(Event::ZeroNext(snap.number()))?;
    add_copies(snap.copies(), events)
}

/// The events that there are of some snapshots.
fn add_snaps<B: Layered>(snaps: &[Snapshot<B>], events: &mut Vec<Event>) -> Result<(), AllocError>
    ensures { OnOk result (events.new.items ≡ events.old.items ++ flat_map events_of_snap snaps.now) }
{
    for snap in snaps {
        add_snap(snap, events)?;
    }
    Ok(())
}

/// The events that there are of some requests.
fn add_flights(flights: &[Flight], events: &mut Vec<Event>) -> Result<(), AllocError>
    ensures { OnOk result (events.new.items ≡ events.old.items ++ events_of_flights flights.now) }
{
    for flight in flights {
        events.push(Event::Issue(flight.number))?;
    }
    Ok(())
}

/// The events that there are of a merge.
fn add_merge(events: &mut Vec<Event>) -> Result<(), AllocError>
    ensures { OnOk result (events.new.items ≡ events.old.items ++ events_of_merge) }
{
    events.push(Event::MergeRelease)?;
    events.push(Event::MergeCommit)?;
    events.push(Event::MergeFlush)?;
    events.push(Event::MergeWrite)?;
    events.push(Event::MergeRead)?;
    events.push(Event::MergeAreaRead)?;
    events.push(Event::MergeGroup)?;
    Ok(())
}

impl<B: Layered> CountedVolume<B> {
    /// Whether an event is due: `step` does just those that are.
    pub fn is_due(&self, event: Event) -> bool
        ensures { result ≡ is_due_of B.contents B.layers self.now.volume event }
    {
        self.volume.is_due(event)
    }

    /// The requests in flight, in the order in which they were accepted: 64 at most.
    pub fn flights(&self) -> &[Flight]
        ensures is { result.now ≡ self.now.volume.flights }
        ensures few { length result.now ≤ 64 }
    {
        self.volume.flights()
    }

    /// The snapshots, in order of attaching, without the one that is being merged.
    pub fn snaps(&self) -> &[Snapshot<B>]
        ensures { result.now ≡ self.now.volume.snaps }
    {
        self.volume.snaps()
    }

    /// The events of which one may be due: of each snapshot, then of the requests and of a merge.
    fn candidates(&self, alloc: Global) -> Result<Vec<Event>, AllocError>
        ensures { IfOk result (λ events. events.items ≡ candidates_of self.now.volume) }
    {
        let mut events = Vec::new(alloc);
        add_snaps(self.snaps(), &mut events)?;
        add_flights(self.flights(), &mut events)?;
        add_merge(&mut events)?;
        Ok(events)
    }

    /// Those of some events that are due.
    fn due_of(&self, alloc: Global, events: &[Event]) -> Result<Vec<Event>, AllocError>
        ensures { IfOk result (λ due. due.items ≡ filter (is_due_of B.contents B.layers self.now.volume) events.now) }
    {
        let mut due = Vec::new(alloc);
        for event in events {
            if self.is_due(*event) {
                due.push(*event)?;
            }
        }
        Ok(due)
    }

    /// The events that are due, all of them: those of each snapshot, in order of attaching, then of the requests, in the order in
    /// which they were accepted, and at last of the merge.
    pub fn due_events(&self, alloc: Global) -> Result<Vec<Event>, AllocError>
        ensures are { IfOk result (λ events. events.items ≡ due_among B.contents B.layers self.now.volume) }
        ensures all { IfOk result (λ events. IsAllDue B.contents B.layers self.now.volume events.items) }
    {
        let events = self.candidates(alloc)?;
        self.due_of(alloc, &events)
    }
}
