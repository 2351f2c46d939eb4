// Files in memory as a volume's devices.
use crate::disks::disk_of_bytes;
use crate::driven::{Cut, Driven, Stops};
use device::{Ahead, Block, MemDisk};
use file_calls::MemFile;
use file_device::{FileDevice, Unknown};
use plain_machine::{Event, Failure, Outcome, Reply};
use sector::{Range, SECTOR_BYTES};
use std::alloc::Global;
use std::test::Fail;
use volume::Volume;

/// More sectors than a disk of a scenario has.
pub const MOST_SECTORS: u64 = 1000;

/// A file in memory as a device.
pub type Filed = FileDevice<MemFile, Unknown>;

impl Driven for Filed {
    fn attach_ahead(&mut self, alloc: Global) -> Result<(), Fail> {
        let sectors = self.sectors();
        if sectors == 0 || MOST_SECTORS < sectors {
            return Err(Fail::from("no size"));
        }
        self.read_more(alloc, Range::new(0, sectors as u32, sectors)?)?;
        Ok(())
    }

    fn ahead(volume: &mut Volume<Filed>, event: Event) {
        volume.ahead(event);
    }

    fn is_over(volume: &Volume<Filed>) -> bool {
        let mut over = volume.origin().is_failed();
        for snap in volume.snaps() {
            if let Ok(store) = volume.store(snap.number()) {
                over = over || store.is_failed();
            }
        }
        if let Some(number) = volume.merging()
            && let Ok(store) = volume.store(number)
        {
            over = over || store.is_failed();
        }
        over
    }

    fn answered(_volume: &Volume<Filed>, outcome: Outcome) -> Outcome {
        match outcome {
            Outcome::Reply(number, Reply::Written) => {
                Outcome::Reply(number, Reply::Refused(Failure::Io))
            }
            other => other,
        }
    }
}

/// The bytes of a sector as they were synced, or as they are where the file was shorter then.
fn synced_in<'a>(file: &'a MemFile, sector: usize, new: &'a [u8]) -> &'a [u8] {
    let first = sector.saturating_mul(SECTOR_BYTES);
    let old = file.synced.get(first..first.saturating_add(new.len()));
    old.unwrap_or(new)
}

/// The first and the last sector that are not as they were synced.
fn changed_in(file: &MemFile) -> (u64, u64) {
    let mut ends = (u64::MAX, 0);
    for (sector, new) in file.bytes.as_slice().chunks(SECTOR_BYTES).enumerate() {
        if synced_in(file, sector, new) != new {
            ends = (ends.0.min(sector as u64), sector as u64);
        }
    }
    ends
}

impl Stops for Filed {
    fn has_met(&self) -> bool {
        self.file().fault.is_none()
    }

    fn left(&self, alloc: Global, cut: Cut) -> Result<MemDisk, Fail> {
        let file = self.file();
        let changed = changed_in(file);
        let mut left = Vec::new(alloc);
        for (sector, new) in file.bytes.as_slice().chunks(SECTOR_BYTES).enumerate() {
            let kept = if cut.is_new(sector as u64, changed) {
                new
            } else {
                synced_in(file, sector, new)
            };
            left.extend_from_slice(kept)?;
        }
        disk_of_bytes(alloc, left.as_slice())
    }
}
