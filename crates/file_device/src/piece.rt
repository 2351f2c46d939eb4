// Sectors that were read ahead.
ghost use Rattle.std.specs.Prelude.{◌+◌, ◌*◌, ◌≤◌, length};

use crate::fetch::{fetch, part};
use file_calls::FileCalls;
use sector::{Range, SECTOR_BYTES};
use std::alloc::{AllocError, Global};

/// So many sectors from the first on: their bytes are at the front. There may be none.
#[derive(Drop)]
pub struct Piece {
    pub first: u64,
    pub count: u32,
    pub bytes: Vec<u8>,
    pub ghost near: { first + count ≤ 2_147_483_648 },
    pub ghost room: { 512 * count ≤ length bytes.items },
}

impl Piece {
    ghost use Rattle.std.specs.Prelude.{◌≡◌, ℕ, ◌∷◌, List, take, Some, None, if◌then◌else◌, true, IfOk};
    ghost use Rattle.sector.specs.Bytes.{sectors_at};
    ghost use Rattle.file_calls.specs.Calls.{Read};
    ghost use Rattle.file_device.specs.Pieces.{IsPieceOf, has_all, meets};

    /// No sectors, and room for so many.
    pub(crate) fn new(alloc: Global, room: u32) -> Result<Piece, AllocError>
        ensures none { IfOk result (λ p. p.count ≡ 0) }
        ensures room { IfOk result (λ p. length p.bytes.items ≡ 512 * room) }
    {
        let bytes = vec![in alloc; 0u8; room as usize * SECTOR_BYTES]?;
        Ok(Piece {
            first: 0,
            count: 0,
            bytes,
        })
    }

    /// Whether it has all these sectors.
    pub(crate) fn has(&self, range: Range) -> bool
        ensures { result ≡ has_all range.first range.count self.now }
    {
        self.first <= range.first
            && range.first - self.first + range.count as u64 <= self.count as u64
    }

    /// Whether it has one of these sectors.
    pub(crate) fn meets(&self, range: Range) -> bool
        requires { range.first + range.count ≤ 2_147_483_648 }
        ensures { result ≡ meets range.first range.count self.now }
    {
        self.first < range.first + range.count as u64
            && range.first < self.first + self.count as u64
    }

    /// Gives the bytes of sectors that it has.
    pub(crate) fn give(&self, range: Range, out: &mut [u8])
        requires has { has_all range.first range.count self.now ≡ true }
        requires room { length out.old ≡ 512 * range.count }
        ensures gives { (bytes : List ℕ) (sectors : ℕ) → length bytes ≡ 512 * sectors → IsPieceOf bytes sectors self.now → out.new ≡ sectors_at bytes range.first range.count }
    {
        let first = (range.first - self.first) as usize;
        out.copy_from_slice(part(&self.bytes, first, range.count as usize));
    }

    /// Reads sectors of a file, and says whether it could. Else it has none.
    pub(crate) fn fill<C: FileCalls>(&mut self, file: &mut C, range: Range) -> bool
        requires near { range.first + range.count ≤ 2_147_483_648 }
        requires room { 512 * range.count ≤ length self.old.bytes.items }
        ensures len { length self.new.bytes.items ≡ length self.old.bytes.items }
        ensures noted { C.history file.new ≡ Read (512 * range.first) (512 * range.count) (if result then Some (take (512 * range.count) self.new.bytes.items) else None) ∷ C.history file.old }
        ensures count { self.new.count ≡ (if result then range.count else 0) }
        ensures first { result ≡ true → self.new.first ≡ range.first }
    {
        self.count = 0;
        let done = fetch(file, range, self.bytes.as_mut_slice());
        if done {
            self.first = range.first;
            self.count = range.count;
        }
        done
    }
}
