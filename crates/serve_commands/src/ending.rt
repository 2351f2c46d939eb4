// How a session ended.
ghost use Rattle.std.specs.Prelude.{◌≡◌, None, Ok, OnOk, Some, if◌then◌else◌, map, true};
ghost use Rattle.std.specs.List.{All, list_all};
ghost use Rattle.file_calls.specs.Kept.{are_answered};
ghost use Rattle.file_calls.specs.Note.{call_of};
ghost use Rattle.merge.specs.Merging.{Merging};
ghost use Rattle.nbd_write_session.specs.declared.ended.Finish.TheVariants.{Client};
ghost use Rattle.serve_files.specs.Ending.{is_synced};
ghost use Rattle.serve_files.specs.Names.{text_in};
ghost use Rattle.serve_commands.specs.Troubles.{stop_by};

use crate::merging::merging_store;
use file_calls::DiskFile;
use nbd_write_session::{Ended, Finish};
use serve_files::{
    AllSynced, Device, HeldFile, Trouble, Why, all_synced, device_name, is_answered,
};
use snapshot::Snapshot;
use std::io::Write;
use volume::Volume;
use volume_nbd::{Fault, VolumeArray};

/// The file of a snapshot's store, where the snapshot is lost.
fn lost<'a>(snap: &Snapshot<Device<'a>>) -> Option<&'a str>
    ensures { text_in result ≡ (if snap.now.live then None else Some snap.now.device.file.name.now) }
{
    if snap.is_live() {
        return None;
    }
    Some(device_name(snap.device()))
}

/// Tells which snapshots are lost.
pub fn tell_lost<E: Write>(volume: &Volume<Device<'_>>, errors: &mut E) {
    for snap in volume.snaps() {
        if let Some(cow) = lost(snap) {
            let _ = writeln!(errors, "lost {cow}");
        }
    }
}

/// The file of the first store that could not be marked, where there is one.
fn unmarked<'a>(snaps: &[Snapshot<Device<'a>>]) -> Option<&'a str> {
    for snap in snaps {
        if snap.is_stale() {
            return Some(device_name(snap.device()));
        }
    }
    None
}

/// The file of the store that is merged, where there is one.
fn merged<'a>(volume: &Volume<Device<'a>>) -> Option<&'a str> {
    let store = merging_store(volume)?;
    Some(device_name(store))
}

/// What is told where nothing was to be done any more.
fn why_stopped(fault: Option<Fault>) -> Why
    ensures { result ≡ stop_by fault }
{
    match fault {
        Some(Fault::Unmarked) => Why::Unmarked,
        Some(Fault::NoMemory) => Why::NoMemory,
        _ => Why::Stopped,
    }
}

/// Why the array was not to be written any more: of a store that could not be marked or is merged, and else of the origin.
fn trouble_of_array<'a>(array: &VolumeArray<Device<'a>>) -> Trouble<'a> {
    let fault = array.fault();
    let volume = array.volume();
    let store = match fault {
        Some(Fault::Unmarked) => unmarked(volume.snaps()),
        Some(Fault::Merging) => merged(volume),
        _ => None,
    };
    let name = store.unwrap_or(device_name(volume.origin()));
    let why = why_stopped(fault);
    Trouble { name, why }
}

/// Why a session did not end with its client.
fn trouble_of_end<'a>(
    array: &VolumeArray<Device<'a>>,
    ended: Result<Finish, Ended>,
) -> Result<(), Trouble<'a>>
    ensures { OnOk result (ended ≡ Ok Client) }
{
    let origin = device_name(array.volume().origin());
    let (name, why) = match ended {
        Ok(Finish::Client) => return Ok(()),
        Ok(Finish::Array) => return Err(trouble_of_array(array)),
        Err(Ended::Unheard(error)) => ("standard input", Why::File(error)),
        Err(Ended::Unsaid(error)) => ("standard output", Why::File(error)),
        Err(Ended::NoClient) => ("standard input", Why::NoClient),
        Err(Ended::NoMemory) => (origin, Why::NoMemory),
        Err(Ended::Stuck) => (origin, Why::Stuck),
    };
    Err(Trouble { name, why })
}

/// Sees that no file of a session left a write or a sync unanswered.
fn are_all_answered<'a>(volume: &Volume<Device<'a>>) -> Result<(), Trouble<'a>>
    ensures origin { OnOk result (are_answered (map call_of volume.now.origin.file.file.noted.notes) ≡ true) }
    ensures stores { OnOk result (All (λ snap. are_answered (map call_of snap.device.file.file.noted.notes) ≡ true) volume.now.snaps) }
    ensures merged { OnOk result ((m : Merging _) → volume.now.merge ≡ Some m → are_answered (map call_of m.device.file.file.noted.notes) ≡ true) }
{
    is_answered(volume.origin())?;
    if let Some(store) = merging_store(volume) {
        is_answered(store)?;
    }
    let snaps = volume.snaps();
    for snap in snaps {
        is_answered(snap.device())?;
    }
    Ok(())
}

/// Ends a session: where its client went and all files answered, they are synced.
pub fn end<'a>(
    array: &VolumeArray<Device<'a>>,
    ended: Result<Finish, Ended>,
    held: &mut [HeldFile<'a, DiskFile>],
) -> Result<AllSynced, Trouble<'a>>
    ensures client { OnOk result (ended ≡ Ok Client) }
    ensures origin { OnOk result (are_answered (map call_of array.now.volume.origin.file.file.noted.notes) ≡ true) }
    ensures stores { OnOk result (All (λ snap. are_answered (map call_of snap.device.file.file.noted.notes) ≡ true) array.now.volume.snaps) }
    ensures merged { OnOk result ((m : Merging _) → array.now.volume.merge ≡ Some m → are_answered (map call_of m.device.file.file.noted.notes) ≡ true) }
    ensures synced { OnOk result (list_all (λ file. is_synced (map call_of file.file.noted.notes)) held.new ≡ true) }
{
    trouble_of_end(array, ended)?;
    are_all_answered(array.volume())?;
    all_synced(held)
}
