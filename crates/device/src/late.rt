// A write that waits for a flush.
ghost use Rattle.std.specs.Prelude.{◌≡◌, ◌≢◌, ◌⊎◌, ℕ, ◌+◌, ◌*◌, ◌-◌, ◌<◌, ◌≤◌, [], length, slice_index, vec_capacity, IfOk, IfErr, MatchBool};
ghost use Rattle.sector.specs.declared.refusal.Refusal.TheVariants.{NoMemory};

use crate::bytes::{append, sectors_of, write_sectors};
use sector::{Range, Refusal, SECTOR_BYTES};
use std::alloc::Global;

/// So many sectors wait at most.
pub const MOST_LATE: u32 = 16;

/// Of no sectors.
const NOWHERE: Range = Range {
    first: 0,
    count: 0,
    size: 0,
};

/// The sectors of a write that waits, and their bytes; no sectors where none does.
#[derive(Drop)]
pub struct Late {
    pub range: Range,
    pub bytes: Vec<u8>,
    ghost whole: { length bytes.items ≡ 512 * range.count },
    ghost room: { 512 * 16 ≤ vec_capacity bytes },
}

impl Late {
    /// None, and room for one. `NoMemory` where it is refused.
    pub fn new(alloc: Global) -> Result<Late, Refusal>
        ensures none { IfOk result (λ late. late.bytes.items ≡ []) }
        ensures count { IfOk result (λ late. late.range.first + late.range.count ≡ 0) }
        ensures err { IfErr result (λ e. e ≡ NoMemory) }
    {
        let Ok(bytes) = Vec::with_capacity(alloc, MOST_LATE as usize * SECTOR_BYTES) else {
            return Err(Refusal::NoMemory);
        };
        Ok(Late {
            range: NOWHERE,
            bytes,
        })
    }

    /// Whether none waits.
    #[inline(always)]
    pub fn is_none(&self) -> bool
        ensures { MatchBool result (self.now.bytes.items ≡ []) (self.now.range.count ≢ 0) }
    {
        self.range.count == 0
    }

    /// Takes a write, where none waits.
    #[inline(always)]
    pub fn take(&mut self, range: Range, bytes: &[u8])
        requires none { self.old.bytes.items ≡ [] }
        requires few { range.count ≤ MOST_LATE }
        requires room { length bytes.now ≡ 512 * range.count }
        ensures range { self.new.range ≡ range }
        ensures bytes { self.new.bytes.items ≡ bytes.now }
    {
        append(&mut self.bytes, bytes);
        self.range = Range {
            first: range.first,
            count: range.count,
            size: range.size,
        };
    }

    /// Forgets what waits.
    #[inline(always)]
    pub fn clear(&mut self)
        ensures none { self.new.bytes.items ≡ [] }
        ensures count { self.new.range.first + self.new.range.count ≡ 0 }
    {
        self.bytes.clear();
        self.range = NOWHERE;
    }

    /// Puts what waits over bytes of so many sectors from `first` on.
    pub fn put_over(&self, first: u64, count: u32, out: &mut [u8])
        requires room { length out.old ≡ 512 * count }
        requires small { first + count ≤ 16_777_216 }
        requires inside { self.now.range.first + self.now.range.count ≤ 16_777_216 }
        ensures len { length out.new ≡ length out.old }
        ensures over { (i : ℕ) → i < 512 * count → 512 * self.now.range.first ≤ 512 * first + i → 512 * first + i < 512 * (self.now.range.first + self.now.range.count) → slice_index out.new i ≡ slice_index self.now.bytes.items (512 * first + i - 512 * self.now.range.first) }
        ensures rest { (i : ℕ) → (512 * first + i < 512 * self.now.range.first) ⊎ (512 * (self.now.range.first + self.now.range.count) ≤ 512 * first + i) → slice_index out.new i ≡ slice_index out.old i }
    {
        let late_first = self.range.first;
        let from = first.max(late_first);
        let to = (first + count as u64).min(late_first + self.range.count as u64);
        if from < to {
            write_sectors(
                out,
                (from - first) as usize,
                sectors_of(
                    &self.bytes,
                    (from - late_first) as usize,
                    (to - from) as usize,
                ),
            );
        }
    }
}
