// A file meets the clauses of a device: a write counts as done where it is made, and a flush where it was promised.
ghost use Rattle.std.specs.Prelude.{◌≡◌, false};
ghost use Rattle.file_calls.specs.Kept.{now_in, kept_in, MayHold};
ghost use Rattle.file_calls.specs.Laws.{now_held, kept_held};
ghost use Rattle.file_device.specs.Layers.{at_first, is_found_kept, file_layers};

use crate::file_device::fail;
use crate::{FileDevice, Start};
use device::{Block, Io};
use file_calls::FileCalls;
use sector::{Range, Sector};

impl<C: FileCalls, S: Start> Block for FileDevice<C, S> {
    ghost size = { λ d. d.sectors };

    ghost contents = { λ d. now_in (at_first (S.first d.number) d.sectors) (C.history d.file) };

    ghost durable = { λ d. kept_in (at_first (S.first d.number) d.sectors) (C.history d.file) };

    ghost layers = { λ d. file_layers d.is_broken d.pieces (is_found_kept (at_first (S.first d.number) d.sectors) (C.history d.file)) };

    ghost fault_count = { λ d. d.faults };

    ghost done_count = { λ d. d.done };

    ghost may_hold = { λ d. MayHold (at_first (S.first d.number) d.sectors) (C.history d.file) };

    ghost copies_runs = { false };

    fn sectors(&self) -> u64 {
        self.sectors
    }

    fn faults(&self) -> u64 {
        self.faults
    }

    fn done(&self) -> u64 {
        self.done
    }

    fn read(&mut self, range: Range, out: &mut [u8]) -> Result<(), Io> {
        self.done = self.done.wrapping_add(1);
        if self.is_broken || !self.pieces.give(range, out) {
            return fail(&mut self.faults);
        }
        Ok(())
    }

    fn write(&mut self, range: Range, bytes: &[u8]) -> Result<(), Io> {
        self.done = self.done.wrapping_add(1);
        if self.is_broken {
            return fail(&mut self.faults);
        }
        self.pieces.let_go();
        self.is_synced = false;
        if self.file.write_at(range.first * 512, bytes).is_err() {
            self.has_failed = true;
        }
        Ok(())
    }

    fn flush(&mut self) -> Result<(), Io> {
        self.done = self.done.wrapping_add(1);
        if self.is_broken {
            return fail(&mut self.faults);
        }
        if !self.is_synced {
            if self.file.sync(true).is_err() {
                self.has_failed = true;
            }
            self.is_synced = true;
        }
        Ok(())
    }

    fn copy_sectors(
        &mut self,
        _to: Range,
        _from: &mut FileDevice<C, S>,
        _first: Sector,
        _reads: u32,
        _writes: u32,
    ) -> bool {
        false
    }

    ghost whole = { λ d. d.long };

    ghost small = { λ d. d.small };

    ghost holds_now = { λ d s lt. now_held (at_first (S.first d.number) d.sectors) (C.history d.file) s };

    ghost holds_durable = { λ d s lt. kept_held (at_first (S.first d.number) d.sectors) (C.history d.file) s };

    ghost holds_two = { λ copies. cc };

    ghost has_like = { λ copies. cc };
}
