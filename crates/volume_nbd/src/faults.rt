// What ends serving, and what makes a reply an error.
ghost use Rattle.std.specs.Prelude.{◌≡◌, ◌==◌, ◌&&◌};
ghost use Rattle.std.specs.List.{list_any};
ghost use Rattle.volume_nbd.specs.Faults.{fault_of, is_failed_at as is_failed_there, is_merging_failed as has_failed_merging, is_origin_failed as has_failed_origin, is_store_failed as has_failed_store, is_stopped as is_stopped_by};

use crate::VolumeArray;
use device::Ahead;
use plain_machine::Dev;
use snapshot::Snapshot;
use volume::Volume;

/// Why nothing is done any more.
#[derive(Clone, Copy, PartialEq, Eq)]
pub enum Fault {
    /// The origin's file left a write or a sync unanswered.
    Origin,
    /// The file of the store that is being merged did.
    Merging,
    /// A store can't be marked as invalid, and its snapshot is lost.
    Unmarked,
    /// Memory was refused for a round.
    NoMemory,
}

/// Whether a snapshot has this number, and the file of its store failed.
fn is_failed_as<B: Ahead>(snap: &Snapshot<B>, number: u32) -> bool
    ensures { result ≡ ((snap.now.number == number) && B.failed snap.now.device) }
{
    snap.number() == number && snap.device().is_failed()
}

/// Whether the file of a snapshot's store failed.
fn is_store_failed<B: Ahead>(snaps: &[Snapshot<B>], number: u32) -> bool
    ensures { result ≡ has_failed_store B.failed number snaps.now }
{
    for snap in snaps {
        if is_failed_as(snap, number) {
            return true;
        }
    }
    false
}

/// Whether the file of the store that is being merged failed.
#[tactic(auto, using(crate::proofs::Merged::failed_of_store, crate::proofs::Merged::none_of_store))]
fn is_merging_failed<B: Ahead>(volume: &Volume<B>) -> bool
    ensures { result ≡ has_failed_merging B.failed volume.now.merge }
{
    let Some(number) = volume.merging() else {
        return false;
    };
    match volume.store(number) {
        Ok(store) => store.is_failed(),
        Err(_) => false,
    }
}

/// Whether a file failed that holds what the origin shows.
fn is_origin_failed<B: Ahead>(volume: &Volume<B>) -> bool
    ensures { result ≡ has_failed_origin B.failed volume.now }
{
    volume.origin().is_failed() || is_merging_failed(volume)
}

/// Whether a file failed on which the replies of a device rest.
pub(crate) fn is_failed_at<B: Ahead>(volume: &Volume<B>, dev: Dev) -> bool
    ensures { result ≡ is_failed_there B.failed dev volume.now }
{
    match dev {
        Dev::Origin => is_origin_failed(volume),
        Dev::Snap(number) => is_origin_failed(volume) || is_store_failed(volume.snaps(), number),
    }
}

/// Whether the mark of a store failed.
fn is_unmarked<B: Ahead>(snaps: &[Snapshot<B>]) -> bool
    ensures { result ≡ list_any (λ s. s.stale) snaps.now }
{
    for snap in snaps {
        if snap.is_stale() {
            return true;
        }
    }
    false
}

/// Whether nothing is done any more.
pub(crate) fn is_stopped<B: Ahead>(volume: &Volume<B>) -> bool
    ensures { result ≡ is_stopped_by B.failed volume.now }
{
    is_origin_failed(volume) || is_unmarked(volume.snaps())
}

impl<B: Ahead> VolumeArray<B> {
    /// Why nothing is done any more, the first of the reasons; `None` where something may be.
    pub fn fault(&self) -> Option<Fault>
        ensures { result ≡ fault_of B.failed self.now }
    {
        if self.volume.origin().is_failed() {
            return Some(Fault::Origin);
        }
        if is_merging_failed(&self.volume) {
            return Some(Fault::Merging);
        }
        if is_unmarked(self.volume.snaps()) {
            return Some(Fault::Unmarked);
        }
        if self.starved {
            return Some(Fault::NoMemory);
        }
        None
    }
}
