// What is done ahead.
ghost use Rattle.std.specs.Prelude.{◌≡◌, not};
ghost use Rattle.file_calls.specs.Kept.{all_answered, are_answered};

use crate::piece::Piece;
use crate::{FileDevice, Start};
use device::Ahead;
use file_calls::FileCalls;
use sector::Range;
use std::alloc::{AllocError, Global};

impl<C: FileCalls, S: Start> Ahead for FileDevice<C, S> {
    ghost failed = { λ d. not (are_answered (C.history d.file)) };

    ghost unanswered = { λ d. not (all_answered (C.history d.file)) };

    fn is_failed(&self) -> bool {
        self.has_failed
    }

    fn read_ahead(&mut self, range: Range) -> bool {
        self.is_broken = self.is_broken || self.has_failed;
        if self.is_broken {
            return false;
        }
        self.is_synced = false;
        self.pieces.fill(&mut self.file, range)
    }

    fn read_more(&mut self, alloc: Global, range: Range) -> Result<bool, AllocError> {
        let mut piece = Piece::new(alloc, range.count)?;
        self.is_broken = self.is_broken || self.has_failed;
        if self.is_broken {
            return Ok(false);
        }
        self.pieces.make_way(range);
        self.is_synced = false;
        if !piece.fill(&mut self.file, range) {
            return Ok(false);
        }
        self.pieces.add(piece)?;
        Ok(true)
    }

    fn sync_ahead(&mut self) -> bool {
        self.is_broken = self.is_broken || self.has_failed;
        if self.is_broken {
            return false;
        }
        if self.is_synced {
            return true;
        }
        if self.file.sync(false).is_err() {
            self.has_failed = true;
            self.is_broken = true;
            return false;
        }
        self.is_synced = true;
        true
    }

    fn write_ahead(&mut self) -> bool {
        self.is_broken = self.is_broken || self.has_failed;
        !self.is_broken
    }
}
