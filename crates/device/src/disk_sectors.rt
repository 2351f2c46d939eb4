// The sectors of a disk: their values now, and what brings back those of the last flush.
ghost use Rattle.std.specs.Prelude.{◌≡◌, ◌⊎◌, ℕ, ◌+◌, ◌*◌, ◌<◌, ◌≤◌, length, slice_index, replicate, IfOk, IfErr};
ghost use Rattle.sector.specs.declared.refusal.Refusal.TheVariants.{NoMemory};
ghost use Rattle.sector.specs.Bytes.{sectors_at, with_sectors};
ghost use Rattle.device.specs.declared.mark.Mark.TheVariants.{Fresh};
ghost use Rattle.device.specs.Marks.{mark_at};

use crate::bytes::{sectors_of, write_sectors};
use crate::undo::Undo;
use sector::{Range, Refusal, SECTOR_BYTES};
use std::alloc::Global;

/// The sectors of a disk. Contracts see their number, their values now and those of the last flush.
#[derive(Drop)]
pub struct DiskSectors {
    present: Vec<u8>,
    undo: Undo,
    count: u64,
    ghost small: { count ≤ 16_777_216 },
    ghost whole: { length present.items ≡ 512 * count },
    ghost marked: { length undo.marks.items ≡ count },
    ghost fresh: { (s i : ℕ) → mark_at undo.marks.items s ≡ Fresh → i < 512 → slice_index present.items (512 * s + i) ≡ 0 },
}

impl DiskSectors {
    ghost use Rattle.device.specs.Sectors.{now_in, flushed_in};
    ghost use Rattle.device.specs.Changes.{IsWritten, KeepsFlushed};

    /// So many sectors, all zero and flushed. `NoMemory` where the allocator refuses the room: 1041 bytes a sector, of which 513, its
    /// value and its mark, are written, and the others stay untouched before there is something to keep. No later call takes
    /// memory.
    pub fn new(alloc: Global, count: u64) -> Result<DiskSectors, Refusal>
        requires some { 1 ≤ count }
        requires small { count ≤ 16_777_216 }
        ensures count { IfOk result (λ d. d.count ≡ count) }
        ensures now { IfOk result (λ d. now_in d ≡ replicate (512 * count) 0) }
        ensures flushed { IfOk result (λ d. flushed_in d ≡ replicate (512 * count) 0) }
        ensures err { IfErr result (λ e. e ≡ NoMemory) }
    {
        let len = count as usize * SECTOR_BYTES;
        let Ok(present) = vec![in alloc; 0u8; len] else {
            return Err(Refusal::NoMemory);
        };
        let undo = Undo::new(alloc, count as usize)?;
        Ok(DiskSectors {
            present,
            undo,
            count,
        })
    }

    /// How many there are.
    #[inline(always)]
    pub fn count(&self) -> u64
        ensures { result ≡ self.now.count }
    {
        self.count
    }

    /// Reads some into a buffer that is as long.
    #[inline(always)]
    pub fn read(&self, range: Range, out: &mut [u8])
        requires inside { range.first + range.count ≤ self.now.count }
        requires room { length out.old ≡ 512 * range.count }
        ensures { out.new ≡ sectors_at (now_in self.now) range.first range.count }
    {
        let from = range.first as usize * SECTOR_BYTES;
        out.copy_from_slice(&self.present[from..from + range.count as usize * SECTOR_BYTES]);
    }

    /// Writes some.
    #[inline(always)]
    pub fn write(&mut self, range: Range, bytes: &[u8])
        requires inside { range.first + range.count ≤ self.old.count }
        requires room { length bytes.now ≡ 512 * range.count }
        ensures now { IsWritten range bytes.now self.old self.new }
        ensures flushed { KeepsFlushed self.old self.new }
        ensures count { self.new.count ≡ self.old.count }
    {
        self.undo
            .keep(&self.present, range.first as usize, range.count as usize);
        write_sectors(&mut self.present, range.first as usize, bytes);
    }

    /// Copies some of another disk, from `first` on, over some.
    pub fn copy(&mut self, to: Range, from: &DiskSectors, first: u64)
        requires inside { to.first + to.count ≤ self.old.count }
        requires there { first + to.count ≤ from.now.count }
        ensures now { now_in self.new ≡ with_sectors (now_in self.old) to.first (sectors_at (now_in from.now) first to.count) }
        ensures flushed { KeepsFlushed self.old self.new }
        ensures count { self.new.count ≡ self.old.count }
    {
        self.write(
            to,
            sectors_of(&from.present, first as usize, to.count as usize),
        );
    }

    /// Puts bytes in the place of some, which then count as flushed.
    pub fn load(&mut self, range: Range, bytes: &[u8])
        requires inside { range.first + range.count ≤ self.old.count }
        requires room { length bytes.now ≡ 512 * range.count }
        ensures now { IsWritten range bytes.now self.old self.new }
        ensures flushed { flushed_in self.new ≡ with_sectors (flushed_in self.old) range.first bytes.now }
        ensures count { self.new.count ≡ self.old.count }
    {
        write_sectors(&mut self.present, range.first as usize, bytes);
        self.undo.put(range.first as usize, range.count as usize);
    }

    /// Makes the values now those of the last flush.
    #[inline(always)]
    pub fn flush(&mut self)
        ensures now { now_in self.new ≡ now_in self.old }
        ensures flushed { flushed_in self.new ≡ now_in self.old }
        ensures count { self.new.count ≡ self.old.count }
    {
        self.undo.forget();
    }

    /// Writes some, and makes the values then those of the last flush.
    #[inline(always)]
    pub fn write_flushed(&mut self, range: Range, bytes: &[u8])
        requires some { 1 ≤ range.count }
        requires inside { range.first + range.count ≤ self.old.count }
        requires room { length bytes.now ≡ 512 * range.count }
        ensures now { IsWritten range bytes.now self.old self.new }
        ensures flushed { flushed_in self.new ≡ with_sectors (now_in self.old) range.first bytes.now }
        ensures count { self.new.count ≡ self.old.count }
    {
        write_sectors(&mut self.present, range.first as usize, bytes);
        self.undo
            .forget_written(range.first as usize, range.count as usize);
    }

    /// Makes the values of the last flush those now.
    pub fn lose(&mut self)
        ensures now { now_in self.new ≡ flushed_in self.old }
        ensures flushed { KeepsFlushed self.old self.new }
        ensures count { self.new.count ≡ self.old.count }
    {
        self.undo.take_back(&mut self.present);
    }
}
