// The events of a batch are gathered.
ghost use Rattle.std.specs.Prelude.{◌≡◌, ◌++◌, OnOk};
ghost use Rattle.std.specs.List.{flat_map};
ghost use Rattle.group_commit.specs.Rounds.{store_event as event_by};
ghost use Rattle.volume.specs.Volumed.{is_due_of};
ghost use Rattle.volume_nbd.specs.Gathering.{events_at, gathered, if_due};

use device::Ahead;
use group_commit::{Batch, add_issues, add_publications, add_reads, add_writes, store_event};
use plain_machine::{Event, SnapId};
use snapshot::Snapshot;
use std::alloc::AllocError;
use volume::Volume;

/// Adds the event of a batch for the store of a snapshot, where it is due.
fn add_of_store<B: Ahead>(
    events: &mut Vec<Event>,
    volume: &Volume<B>,
    batch: Batch,
    number: SnapId,
) -> Result<(), AllocError>
    ensures { OnOk result (events.new.items ≡ events.old.items ++ if_due (is_due_of B.contents B.layers volume.now) (event_by batch number)) }
{
    match store_event(batch, number) {
        Some(event) => {
            if volume.is_due(event) {
                events.push(event)?;
            }
            Ok(())
        }
        None => Ok(()),
    }
}

/// Adds the events of a batch for a snapshot and its copies.
fn add_of_snap<B: Ahead>(
    events: &mut Vec<Event>,
    volume: &Volume<B>,
    batch: Batch,
    snap: &Snapshot<B>,
) -> Result<(), AllocError>
    ensures { OnOk result (events.new.items ≡ events.old.items ++ events_at (is_due_of B.contents B.layers volume.now) batch snap.now) }
{
    match batch {
        Batch::Issues | Batch::MoreIssues => Ok(()),
        Batch::Reads => add_reads(events, snap.copies()),
        Batch::Writes => add_writes(events, snap.copies()),
        Batch::Publications => add_publications(events, snap.marks()),
        Batch::Flushes => add_of_store(events, volume, Batch::Flushes, snap.number()),
        Batch::Marks => add_of_store(events, volume, Batch::Marks, snap.number()),
        Batch::Zeros => add_of_store(events, volume, Batch::Zeros, snap.number()),
        Batch::Areas => add_of_store(events, volume, Batch::Areas, snap.number()),
    }
}

/// Adds the events of a batch for all snapshots.
fn add_of_snaps<B: Ahead>(
    events: &mut Vec<Event>,
    volume: &Volume<B>,
    batch: Batch,
) -> Result<(), AllocError>
    ensures { OnOk result (events.new.items ≡ events.old.items ++ flat_map (events_at (is_due_of B.contents B.layers volume.now) batch) volume.now.snaps) }
{
    for snap in volume.snaps() {
        add_of_snap(events, volume, batch, snap)?;
    }
    Ok(())
}

/// Gathers the events of a batch: of requests and copies all, of stores those that are due.
#[tactic(auto, using(crate::proofs::Gathers::gathered_each))]
pub(crate) fn gather<B: Ahead>(
    events: &mut Vec<Event>,
    volume: &Volume<B>,
    batch: Batch,
) -> Result<(), AllocError>
    ensures { OnOk result (events.new.items ≡ gathered B.contents B.layers batch volume.now) }
{
    events.clear();
    match batch {
        Batch::Issues | Batch::MoreIssues => add_issues(events, volume.flights()),
        _ => add_of_snaps(events, volume, batch),
    }
}
