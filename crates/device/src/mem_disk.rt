// A disk in memory, with a volatile cache.
ghost use Rattle.std.specs.Prelude.{◌≡◌, ℕ, ◌+◌, ◌*◌, ◌<◌, ◌≤◌, [], length, replicate, true, IfOk, IfErr, refl};
ghost use Rattle.std.proofs.Common.{inl, inr};
ghost use Rattle.sector.specs.declared.refusal.Refusal.TheVariants.{NoMemory};
ghost use Rattle.sector.specs.Bytes.{sectors_at, with_sectors};

use crate::disk_sectors::DiskSectors;
use crate::late::{Late, MOST_LATE};
use crate::{Block, Io};
use sector::{Range, Refusal, Sector};
use std::alloc::Global;

/// The most sectors that a disk in memory may have: 2^24.
pub const MAX_SECTORS: u64 = 16_777_216;

/// A disk in memory. It never fails.
///
/// Contracts see its size, its bytes now, its bytes at the last flush and its count of operations.
///
/// The first small write after a flush waits beside the sectors: where a flush comes next, no value of the last flush need be
/// kept aside. Whatever else comes next, it is written first, and then none waits until the next flush.
#[derive(Drop)]
pub struct MemDisk {
    sectors: DiskSectors,
    late: Late,
    waits: bool,
    done: u64,
    ghost inside: { late.range.first + late.range.count ≤ sectors.count },
}

impl MemDisk {
    ghost use Rattle.device.specs.Disk.{disk_size, disk_contents, disk_durable, disk_done};
    ghost use Rattle.device.specs.Sectors.{now_in};
    ghost use Rattle.device.specs.Changes.{KeepsContents, KeepsDurable};

    /// A disk of so many sectors, all zero and flushed. `NoMemory` where the allocator refuses the room: 1041 bytes a
    /// sector, of which 513, its value and its mark, are written, and the others stay untouched before there is something
    /// to keep, and 8 KiB. No later call takes memory.
    pub fn new(alloc: Global, sectors: u64) -> Result<MemDisk, Refusal>
        requires some { 1 ≤ sectors }
        requires small { sectors ≤ MAX_SECTORS }
        ensures size { IfOk result (λ d. disk_size d ≡ sectors) }
        ensures contents { IfOk result (λ d. disk_contents d ≡ replicate (512 * sectors) 0) }
        ensures durable { IfOk result (λ d. disk_durable d ≡ replicate (512 * sectors) 0) }
        ensures done { IfOk result (λ d. disk_done d ≡ 0) }
        ensures err { IfErr result (λ e. e ≡ NoMemory) }
    {
        let sectors = DiskSectors::new(alloc, sectors)?;
        let late = Late::new(alloc)?;
        Ok(MemDisk {
            sectors,
            late,
            waits: false,
            done: 0,
        })
    }

    /// Reads sectors into a buffer that is as long, and counts no operation.
    pub fn raw(&self, range: Range, out: &mut [u8])
        requires inside { range.first + range.count ≤ disk_size self.now }
        requires room { length out.old ≡ 512 * range.count }
        ensures { out.new ≡ sectors_at (disk_contents self.now) range.first range.count }
    {
        self.sectors.read(range, out);
        self.late.put_over(range.first, range.count, out);
    }

    /// Puts bytes in the place of sectors, which then count as flushed, and counts no operation.
    pub fn load(&mut self, range: Range, bytes: &[u8])
        requires inside { range.first + range.count ≤ disk_size self.old }
        requires room { length bytes.now ≡ 512 * range.count }
        ensures contents { disk_contents self.new ≡ with_sectors (disk_contents self.old) range.first bytes.now }
        ensures durable { disk_durable self.new ≡ with_sectors (disk_durable self.old) range.first bytes.now }
        ensures size { disk_size self.new ≡ disk_size self.old }
        ensures done { disk_done self.new ≡ disk_done self.old }
    {
        self.write_late();
        self.sectors.load(range, bytes);
    }

    /// Loses what was not flushed: each sector goes back to its value at the last flush. It counts no operation.
    pub fn lose(&mut self)
        ensures contents { disk_contents self.new ≡ disk_durable self.old }
        ensures durable { KeepsDurable self.old self.new }
        ensures size { disk_size self.new ≡ disk_size self.old }
        ensures done { disk_done self.new ≡ disk_done self.old }
    {
        self.late.clear();
        self.sectors.lose();
    }

    // Writes what waits.
    #[inline(always)]
    fn write_late(&mut self)
        ensures none { self.new.late.bytes.items ≡ [] }
        ensures now { now_in self.new.sectors ≡ disk_contents self.old }
        ensures contents { KeepsContents self.old self.new }
        ensures durable { KeepsDurable self.old self.new }
        ensures size { disk_size self.new ≡ disk_size self.old }
        ensures done { disk_done self.new ≡ disk_done self.old }
    {
        if !self.late.is_none() {
            self.sectors.write(self.late.range, &self.late.bytes);
            self.late.clear();
            self.waits = false;
        }
    }

    // Makes all that was written last, what waits too.
    #[inline(always)]
    fn flush_all(&mut self)
        ensures contents { KeepsContents self.old self.new }
        ensures durable { disk_durable self.new ≡ disk_contents self.old }
        ensures size { disk_size self.new ≡ disk_size self.old }
        ensures done { disk_done self.new ≡ disk_done self.old }
    {
        if self.late.is_none() {
            self.sectors.flush();
        } else {
            self.sectors
                .write_flushed(self.late.range, &self.late.bytes);
            self.late.clear();
        }
    }

    // Writes sectors where nothing waits, or lets the write wait.
    #[inline(always)]
    fn write_or_wait(&mut self, range: Range, bytes: &[u8])
        requires none { self.old.late.bytes.items ≡ [] }
        requires inside { range.first + range.count ≤ disk_size self.old }
        requires room { length bytes.now ≡ 512 * range.count }
        ensures contents { disk_contents self.new ≡ with_sectors (now_in self.old.sectors) range.first bytes.now }
        ensures durable { KeepsDurable self.old self.new }
        ensures size { disk_size self.new ≡ disk_size self.old }
        ensures done { disk_done self.new ≡ disk_done self.old }
    {
        if self.waits && range.count <= MOST_LATE {
            self.late.take(range, bytes);
        } else {
            self.sectors.write(range, bytes);
        }
    }
}

impl Block for MemDisk {
    ghost use Rattle.device.specs.Disk.{disk_size, disk_contents, disk_durable, disk_done, disk_may_hold};

    ghost size = { disk_size };

    ghost contents = { disk_contents };

    ghost durable = { disk_durable };

    ghost layers = { λ _. [] };

    ghost fault_count = { λ _. 0 };

    ghost done_count = { disk_done };

    ghost may_hold = { disk_may_hold };

    ghost copies_runs = { true };

    #[inline(always)]
    fn sectors(&self) -> u64 {
        self.sectors.count()
    }

    fn faults(&self) -> u64 {
        0
    }

    fn done(&self) -> u64 {
        self.done
    }

    fn read(&mut self, range: Range, out: &mut [u8]) -> Result<(), Io> {
        self.write_late();
        self.sectors.read(range, out);
        self.done = self.done.wrapping_add(1);
        Ok(())
    }

    fn write(&mut self, range: Range, bytes: &[u8]) -> Result<(), Io> {
        self.write_late();
        self.write_or_wait(range, bytes);
        self.done = self.done.wrapping_add(1);
        Ok(())
    }

    fn flush(&mut self) -> Result<(), Io> {
        self.flush_all();
        self.waits = true;
        self.done = self.done.wrapping_add(1);
        Ok(())
    }

    fn copy_sectors(
        &mut self,
        to: Range,
        from: &mut MemDisk,
        first: Sector,
        reads: u32,
        writes: u32,
    ) -> bool {
        self.write_late();
        from.write_late();
        self.sectors.copy(to, &from.sectors, first);
        self.done = self.done.wrapping_add(writes as u64);
        from.done = from.done.wrapping_add(reads as u64);
        true
    }

    ghost use Rattle.device.specs.Laws.{disk_like, disk_small, disk_whole};

    ghost whole = { disk_whole };

    ghost small = { disk_small };

    ghost holds_now = { λ d s lt. inl refl };

    ghost holds_durable = { λ d s lt. inr refl };

    ghost holds_two = { λ copies d bare. record { only = λ s v held. held; holds_now = λ s. inl refl; holds_flushed = λ s. inr refl } };

    ghost has_like = { λ copies d bytes count bare whole few. disk_like d bytes count whole few };
}
