// All that was read ahead.
ghost use Rattle.std.specs.Prelude.{◌≡◌, length};

use crate::finding::{one_meets, piece_at};
use crate::piece::Piece;
use file_calls::FileCalls;
use sector::Range;
use std::alloc::{AllocError, Global};

/// The sectors of the longest read ahead that takes no memory.
pub const LONGEST: u32 = 1024;

/// One piece that always has room, and more.
#[derive(Drop)]
pub struct Pieces {
    pub near: Piece,
    pub more: Vec<Piece>,
    pub ghost long: { length near.bytes.items ≡ 524_288 },
}

impl Pieces {
    ghost use Rattle.std.specs.Prelude.{ℕ, ◌+◌, ◌*◌, ◌≤◌, ◌<◌, ◌++◌, ◌∷◌, [], List, true, false, take, Some, None, if◌then◌else◌, IfOk, OnErr};
    ghost use Rattle.file_calls.specs.Calls.{Read};
    ghost use Rattle.std.specs.List.{All, list_any};
    ghost use Rattle.sector.specs.Bytes.{sectors_at};
    ghost use Rattle.file_device.specs.Pieces.{IsPieceOf, has_all, meets, pieces_in};

    /// None.
    pub(crate) fn new(alloc: Global) -> Result<Pieces, AllocError>
        ensures { IfOk result (λ pieces. pieces_in pieces ≡ []) }
    {
        Ok(Pieces {
            near: Piece::new(alloc, LONGEST)?,
            more: Vec::new(alloc),
        })
    }

    /// Lets all go.
    pub(crate) fn let_go(&mut self)
        ensures none { pieces_in self.new ≡ [] }
        ensures near { self.new.near.count ≡ 0 }
        ensures more { self.new.more.items ≡ [] }
    {
        self.near.count = 0;
        self.more.clear();
    }

    /// Reads sectors of a file in place of all, and says whether it could. Else there are none.
    pub(crate) fn fill<C: FileCalls>(&mut self, file: &mut C, range: Range) -> bool
        requires near { range.first + range.count ≤ 2_147_483_648 }
        requires few { range.count ≤ 1024 }
        ensures noted { C.history file.new ≡ Read (512 * range.first) (512 * range.count) (if result then Some (take (512 * range.count) self.new.near.bytes.items) else None) ∷ C.history file.old }
        ensures count { self.new.near.count ≡ (if result then range.count else 0) }
        ensures first { result ≡ true → self.new.near.first ≡ range.first }
        ensures more { self.new.more.items ≡ [] }
    {
        self.more.clear();
        self.near.fill(file, range)
    }

    /// Gives the bytes of sectors, and says whether one piece has them all.
    pub(crate) fn give(&self, range: Range, out: &mut [u8]) -> bool
        requires some { 0 < range.count }
        requires room { length out.old ≡ 512 * range.count }
        ensures found { result ≡ list_any (has_all range.first range.count) (pieces_in self.now) }
        ensures gives { (bytes : List ℕ) (sectors : ℕ) → length bytes ≡ 512 * sectors → All (IsPieceOf bytes sectors) (pieces_in self.now) → result ≡ true → out.new ≡ sectors_at bytes range.first range.count }
        ensures undone { result ≡ false → out.new ≡ out.old }
    {
        if self.near.has(range) {
            self.near.give(range, out);
            return true;
        }
        match piece_at(&self.more, range) {
            Some(i) => {
                self.more[i].give(range, out);
                true
            }
            None => false,
        }
    }

    /// Whether a piece has one of these sectors.
    pub(crate) fn meet(&self, range: Range) -> bool
        requires { range.first + range.count ≤ 2_147_483_648 }
        ensures { result ≡ list_any (meets range.first range.count) (pieces_in self.now) }
    {
        if self.near.count == 0 {
            return one_meets(&self.more, range);
        }
        self.near.meets(range) || one_meets(&self.more, range)
    }

    /// Lets all go if one has one of these sectors.
    pub(crate) fn make_way(&mut self, range: Range)
        requires { range.first + range.count ≤ 2_147_483_648 }
        ensures apart { list_any (meets range.first range.count) (pieces_in self.new) ≡ false }
        ensures same { list_any (meets range.first range.count) (pieces_in self.old) ≡ false → pieces_in self.new ≡ pieces_in self.old }
        ensures all { (bytes : List ℕ) (sectors : ℕ) → All (IsPieceOf bytes sectors) (pieces_in self.old) → All (IsPieceOf bytes sectors) (pieces_in self.new) }
    {
        if self.meet(range) {
            self.let_go();
        }
    }

    /// Adds a piece.
    pub(crate) fn add(&mut self, piece: Piece) -> Result<(), AllocError>
        ensures done { IfOk result (λ _. pieces_in self.new ≡ pieces_in self.old ++ piece ∷ []) }
        ensures undone { OnErr result (pieces_in self.new ≡ pieces_in self.old) }
    {
        self.more.push(piece)?;
        Ok(())
    }
}
