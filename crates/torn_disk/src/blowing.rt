// How a fuse is made, and how it is blown.
ghost use Rattle.std.specs.Prelude.{◌≡◌, ◌+◌, ◌*◌, ◌≤◌, Some, None, false, is_ok, length, IfOk, IfErr};
ghost use Rattle.std.specs.Option.{option_copied};
ghost use Rattle.sector.specs.Bytes.{next_count};
ghost use Rattle.sector.specs.declared.refusal.Refusal.TheVariants.{NoMemory};
ghost use Rattle.device.specs.Disk.{disk_size, disk_contents, disk_durable};
ghost use Rattle.torn_disk.specs.TornDisk.{changes_left, new_sectors, kept_aside, torn_disk_contents, torn_disk_size, torn_disk_durable};
ghost use Rattle.torn_disk.specs.Torn.{IsTornBy};
ghost use Rattle.torn_disk.specs.Calls.{CountsOne, ShowsFormer};

use crate::tear::tear;
use crate::torn_disk::TornDisk;
use device::{Block, Io, MemDisk};
use sector::{Range, Refusal, SECTOR_BYTES};
use std::alloc::Global;

impl TornDisk {
    /// A fuse that passes so many writes and flushes of a disk. The next it does in part: a write is torn, its i-th sector
    /// new where `new[i]` is true, and old elsewhere and past the end of the list; a flush is not begun. `NoMemory` where
    /// the allocator refuses the room for the disk's bytes from before that; the disk is then given back. No later call
    /// takes memory.
    pub fn new(
        alloc: Global,
        disk: MemDisk,
        changes: u64,
        new: Vec<bool>,
    ) -> Result<TornDisk, (Refusal, MemDisk)>
        ensures left { IfOk result (λ f. changes_left f ≡ Some changes) }
        ensures new { IfOk result (λ f. new_sectors f ≡ new.items) }
        ensures size { IfOk result (λ f. torn_disk_size f ≡ disk_size disk) }
        ensures contents { IfOk result (λ f. torn_disk_contents f ≡ disk_contents disk) }
        ensures durable { IfOk result (λ f. torn_disk_durable f ≡ disk_durable disk) }
        ensures counts { IfOk result (λ f. (f.faults ≡ 0) × (f.done ≡ 0)) }
        ensures err { IfErr result (λ e. (e.0 ≡ NoMemory) × (e.1 ≡ disk)) }
    {
        let len = disk.sectors() as usize * SECTOR_BYTES;
        let Ok(before) = vec![in alloc; 0u8; len] else {
            return Err((Refusal::NoMemory, disk));
        };
        Ok(TornDisk {
            disk,
            before,
            reaching: new,
            left: Some(changes),
            faults: 0,
            done: 0,
        })
    }

    /// The disk that a stop within a torn write or before a flush left, once the fuse is blown; `None` before.
    pub fn left(&self) -> Option<&MemDisk>
        ensures { option_copied result ≡ kept_aside self.now }
    {
        match self.left {
            Some(_) => None,
            None => Some(&self.disk),
        }
    }

    /// That disk itself, so that it may lose what was not flushed.
    pub fn into_left(self) -> Option<MemDisk>
        ensures { result ≡ kept_aside self }
    {
        match self.left {
            Some(_) => None,
            None => Some(self.disk),
        }
    }

    // Keeps aside the disk as it is, and counts a fault.
    pub(crate) fn blow(&mut self) -> Result<(), Io>
        ensures failed { is_ok result ≡ false }
        ensures blown { self.new.left ≡ None }
        ensures disk { self.new.disk ≡ self.old.disk }
        ensures before { ShowsFormer self.old self.new }
        ensures reaching { self.new.reaching ≡ self.old.reaching }
        ensures faults { CountsOne self.old self.new }
        ensures done { self.new.done ≡ self.old.done }
    {
        let sectors = self.disk.sectors();
        let all = Range {
            first: 0,
            count: sectors as u32,
            size: sectors,
        };
        self.disk.raw(all, self.before.as_mut_slice());
        self.left = None;
        self.fail()
    }

    // Keeps aside the disk with a write torn, and counts a fault.
    pub(crate) fn blow_torn(&mut self, range: Range, bytes: &[u8]) -> Result<(), Io>
        requires inside { range.first + range.count ≤ torn_disk_size self.old }
        requires room { length bytes.now ≡ 512 * range.count }
        requires last { self.old.left ≡ Some 0 }
        ensures failed { is_ok result ≡ false }
        ensures blown { self.new.left ≡ None }
        ensures torn { IsTornBy self.old.reaching.items range.first range.count bytes.now (disk_contents self.old.disk) (disk_contents self.new.disk) }
        ensures durable { disk_durable self.new.disk ≡ disk_durable self.old.disk }
        ensures size { disk_size self.new.disk ≡ disk_size self.old.disk }
        ensures before { ShowsFormer self.old self.new }
        ensures reaching { self.new.reaching.items ≡ self.old.reaching.items }
        ensures faults { CountsOne self.old self.new }
        ensures done { self.new.done ≡ self.old.done }
    {
        let failed = self.blow();
        tear(&mut self.disk, range, bytes, &self.reaching);
        failed
    }

    // Counts a fault.
    pub(crate) fn fail(&mut self) -> Result<(), Io>
        ensures failed { is_ok result ≡ false }
        ensures counted { self.new ≡ record self.old { faults = next_count self.old.faults } }
    {
        self.faults = self.faults.wrapping_add(1);
        Err(Io)
    }
}
