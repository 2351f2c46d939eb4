// A file becomes a device, once all that is in it is on the disk.
ghost use Rattle.std.specs.Prelude.{◌≡◌, ◌∷◌, ◌≤◌, [], IfErr, IfOk, OnOk, false, map, true};
ghost use Rattle.file_calls.specs.Calls.{Sync};
ghost use Rattle.file_calls.specs.Kept.{are_answered};
ghost use Rattle.file_calls.specs.Note.{call_of};
ghost use Rattle.serve_files.specs.Names.{IsAbout};

use crate::held_file::HeldFile;
use crate::served_file::ServedFile;
use crate::told_file::ToldFile;
use crate::trouble::{Trouble, Why, about, held};
use device::Ahead;
use file_calls::DiskFile;
use file_device::{FileDevice, Unknown};
use std::fs::File;

/// A file of the operating system as a device. Nothing is supposed of what it holds.
pub type Device<'a> = FileDevice<ToldFile<'a, DiskFile>, Unknown>;

/// The name of a device's file.
pub fn device_name<'a>(device: &Device<'a>) -> &'a str
    ensures { result.now ≡ device.now.file.name.now }
{
    device.file().name()
}

/// Sees that the file of a device left no write and no sync unanswered.
pub fn is_answered<'a>(device: &Device<'a>) -> Result<(), Trouble<'a>>
    ensures ok { OnOk result (are_answered (map call_of device.now.file.file.noted.notes) ≡ true) }
    ensures told { IfErr result (IsAbout device.now.file.name.now) }
{
    if device.is_failed() {
        let name = device_name(device);
        let why = Why::Failed;
        return Err(Trouble { name, why });
    }
    Ok(())
}

/// A file that is open and locked, and was synced since. Only `synced` makes one, and devices are made of these alone.
#[derive(Drop)]
pub struct SyncedFile<'a> {
    file: File,
    sectors: u64,
    held: HeldFile<'a, DiskFile>,
    ghost small: { sectors ≤ 2_147_483_648 },
    ghost synced: { map call_of held.file.noted.notes ≡ Sync true false ∷ [] },
}

/// Makes what is in a file last, before it is read or written.
pub fn synced<'a>(served: ServedFile<'a>) -> Result<SyncedFile<'a>, Trouble<'a>>
    ensures named { IfOk result (λ synced. synced.held.name.now ≡ served.entry.name.now) }
    ensures sectors { IfOk result (λ synced. synced.sectors ≡ served.entry.sectors) }
    ensures told { IfErr result (IsAbout served.entry.name.now) }
{
    let ServedFile {
        name,
        file,
        sectors,
    } = served;
    let again = about(name, file.try_clone())?;
    let mut held = HeldFile::new(name, DiskFile::new(again));
    match held.sync() {
        Ok(()) => Ok(SyncedFile {
            file,
            sectors,
            held,
        }),
        Err(error) => {
            let why = Why::Unsynced(error);
            Err(Trouble { name, why })
        }
    }
}

/// A device over a file, and the same file to be synced at the end.
#[derive(Drop)]
pub struct Part<'a> {
    pub device: Device<'a>,
    pub held: HeldFile<'a, DiskFile>,
}

impl<'a> SyncedFile<'a> {
    /// Its device, which has this number among those of the command.
    pub fn part(self, rt: &'a HostRuntime, number: u64) -> Result<Part<'a>, Trouble<'a>>
        ensures device { IfOk result (λ part. part.device.file.name.now ≡ self.entry.held.name.now) }
        ensures number { IfOk result (λ part. part.device.number ≡ number) }
        ensures sectors { IfOk result (λ part. part.device.sectors ≡ self.entry.sectors) }
        ensures held { IfOk result (λ part. part.held.name.now ≡ self.entry.held.name.now) }
        ensures synced { IfOk result (λ part. map call_of part.held.file.noted.notes ≡ Sync true false ∷ []) }
        ensures told { IfErr result (IsAbout self.entry.held.name.now) }
    {
        let SyncedFile {
            file,
            sectors,
            held: last,
        } = self;
        let name = last.name;
        let file = ToldFile::new(rt, name, DiskFile::new(file));
        let device = held(name, FileDevice::new(rt.alloc(), file, number, sectors))?;
        Ok(Part { device, held: last })
    }
}
