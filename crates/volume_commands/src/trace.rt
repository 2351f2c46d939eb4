// What is in flight in a volume, and every event that is due: looks, for a trace.
ghost use Rattle.std.specs.Prelude.{◌≡◌, ◌≤◌, IfOk, length};
ghost use Rattle.volume_commands.specs.Flying.{IsWhole};
ghost use Rattle.counted_volume.specs.Trace.{IsAllDue, due_among};

use crate::Resting;
use in_flight::Flight;
use layers::Layered;
use plain_machine::Event;
use snapshot::Snapshot;
use std::alloc::{AllocError, Global};

impl<B: Layered> Resting<B> {
    /// The requests in flight, in the order in which they were accepted: 64 at most.
    pub fn flights(&self) -> &[Flight]
        ensures is { result.now ≡ self.now.rested.events.flights }
        ensures few { length result.now ≤ 64 }
    {
        self.volume.flights()
    }

    /// The snapshots, in order of attaching, without the one that is being merged. All that commands see is what these events show.
    pub fn snaps(&self) -> &[Snapshot<B>]
        ensures is { result.now ≡ self.now.rested.events.snaps }
        ensures whole { IsWhole self.now.rested }
    {
        self.volume.snaps()
    }

    /// The events that are due, all of them: those of each snapshot, in order of attaching, then of the requests, in the order in
    /// which they were accepted, and at last of the merge.
    pub fn due_events(&self, alloc: Global) -> Result<Vec<Event>, AllocError>
        ensures are { IfOk result (λ events. events.items ≡ due_among B.contents B.layers self.now.rested.events) }
        ensures all { IfOk result (λ events. IsAllDue B.contents B.layers self.now.rested.events events.items) }
    {
        self.volume.due_events(alloc)
    }
}
