// A snapshot is taken over an empty store.
ghost use Rattle.std.specs.Prelude.{◌≡◌, IfOk};
ghost use Rattle.volume_opening.specs.Taken.{IsOver, IsTaken};

use crate::NotOpened;
use crate::answering::are_answered;
use crate::ready::are_ready;
use device::Ahead;
use sector::Refusal;
use snapshot::StoreDev;
use std::alloc::Global;
use volume::Volume;

/// A volume over an origin, with a snapshot over a store.
fn with_snapshot<B: Ahead + Drop>(
    alloc: Global,
    origin: B,
    store: B,
    chunk: u32,
) -> Result<Volume<B>, NotOpened>
    ensures { IfOk result (IsOver B.may_hold B.contents B.layers B.size chunk origin store) }
{
    let mut volume = match Volume::new(alloc, origin) {
        Ok(volume) => volume,
        Err(_) => return Err(NotOpened::NoMemory),
    };
    let store = StoreDev {
        device: store,
        stale: false,
    };
    match volume.attach(alloc, store, chunk, false) {
        Ok(_) => Ok(volume),
        Err((Refusal::NoMemory, _)) => Err(NotOpened::NoMemory),
        Err((Refusal::Io, _)) => Err(NotOpened::StoreFailed),
        Err((refusal, _)) => Err(NotOpened::Refused(refusal)),
    }
}

/// Takes a snapshot of an origin over an empty store, with chunks of so many sectors, and makes it last. The refusals are those of
/// `are_ready`, before anything is written; and then `StoreFailed`, `OriginFailed` or `NoMemory`.
pub fn take<B: Ahead + Drop>(
    alloc: Global,
    mut origin: B,
    mut store: B,
    chunk: u32,
) -> Result<Volume<B>, NotOpened>
    ensures { IfOk result (IsTaken B.may_hold B.contents B.layers B.size B.failed chunk origin store) }
{
    are_ready(alloc, &mut origin, &mut store, chunk)?;
    let volume = with_snapshot(alloc, origin, store, chunk)?;
    are_answered(&volume)?;
    Ok(volume)
}
