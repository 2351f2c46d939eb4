// A store's snapshot is loaded, or taken where the store is empty.
ghost use Rattle.std.specs.Prelude.{◌≡◌, ℕ, true, Ok, IfOk};
ghost use Rattle.sector.specs.Bytes.{sector_at};
ghost use Rattle.cow_header.specs.HeaderText.{found_in};
ghost use Rattle.cow_header.specs.declared.found.Found.TheVariants.{Header};
ghost use Rattle.device.specs.Layers.{is_loud};
ghost use Rattle.volume_opening.specs.Loaded.{IsLoaded};
ghost use Rattle.volume_opening.specs.Seen.{IsSeen};

use crate::NotOpened;
use crate::answering::are_answered;
use crate::areas::areas_ahead;
use crate::looking::first_said;
use cow_header::Found;
use device::Ahead;
use plain_machine::SnapId;
use sector::Refusal;
use snapshot::StoreDev;
use std::alloc::Global;
use volume::Volume;

/// Reads ahead what the load of a store will read, and gives what its first sector says.
fn load_ahead<B: Ahead>(alloc: Global, store: &mut B) -> Result<Found, NotOpened>
    ensures seen { IsSeen B.may_hold B.contents B.layers B.size store.old store.new }
    ensures told { IfOk result (λ found. is_loud (B.layers store.new) ≡ true → found_in (sector_at (B.contents store.new) 0) ≡ Ok found) }
{
    if store.sectors() == 0 {
        return Err(NotOpened::Refused(Refusal::StoreTooSmall));
    }
    match first_said(alloc, store)? {
        Ok(Found::Fresh) => Ok(Found::Fresh),
        Ok(Found::Header { chunk }) => {
            areas_ahead(alloc, store, chunk)?;
            Ok(Found::Header { chunk })
        }
        Err(refusal) => Err(NotOpened::Refused(refusal)),
    }
}

/// Attaches the snapshot of a store that was looked at.
fn attach_seen<B: Ahead + Drop>(
    alloc: Global,
    volume: &mut Volume<B>,
    mut store: B,
    chunk: u32,
    overflow: bool,
) -> Result<SnapId, NotOpened>
    ensures { IfOk result (λ number. (found : Found) → (first : B) → IsSeen B.may_hold B.contents B.layers B.size first store → (is_loud (B.layers store) ≡ true → found_in (sector_at (B.contents store) 0) ≡ Ok found) → IsLoaded B.may_hold (record { contents = B.contents; durable = B.durable; size = B.size; faults = B.fault_count; done = B.done_count }) B.layers B.failed chunk overflow first number found volume.old volume.new) }
{
    if !store.sync_ahead() {
        return Err(NotOpened::StoreFailed);
    }
    let store = StoreDev {
        device: store,
        stale: false,
    };
    let number = match volume.attach(alloc, store, chunk, overflow) {
        Ok(number) => number,
        Err((Refusal::NoMemory, _)) => return Err(NotOpened::NoMemory),
        Err((Refusal::Io, _)) => return Err(NotOpened::StoreFailed),
        Err((refusal, _)) => return Err(NotOpened::Refused(refusal)),
    };
    are_answered(volume)?;
    Ok(number)
}

/// Attaches the snapshot of a store to a volume, and gives its number and what the store's first sector said: an empty store gets
/// chunks of so many sectors. `overflow` says whether a write of the snapshot that finds its store full is refused.
pub fn load<B: Ahead + Drop>(
    alloc: Global,
    volume: &mut Volume<B>,
    mut store: B,
    chunk: u32,
    overflow: bool,
) -> Result<(SnapId, Found), NotOpened>
    ensures { IfOk result (λ loaded. IsLoaded B.may_hold (record { contents = B.contents; durable = B.durable; size = B.size; faults = B.fault_count; done = B.done_count }) B.layers B.failed chunk overflow store loaded.0 loaded.1 volume.old volume.new) }
{
    let found = load_ahead(alloc, &mut store)?;
    let number = attach_seen(alloc, volume, store, chunk, overflow)?;
    Ok((number, found))
}

/// Attaches the snapshot of a store that has one, as `load` does. `Fresh`, and nothing is written, where the store is empty.
pub fn load_written<B: Ahead + Drop>(
    alloc: Global,
    volume: &mut Volume<B>,
    mut store: B,
    chunk: u32,
    overflow: bool,
) -> Result<SnapId, NotOpened>
    ensures { IfOk result (λ number. (own : ℕ) × IsLoaded B.may_hold (record { contents = B.contents; durable = B.durable; size = B.size; faults = B.fault_count; done = B.done_count }) B.layers B.failed chunk overflow store number (Header own) volume.old volume.new) }
{
    match load_ahead(alloc, &mut store)? {
        Found::Fresh => Err(NotOpened::Fresh),
        Found::Header { .. } => attach_seen(alloc, volume, store, chunk, overflow),
    }
}
