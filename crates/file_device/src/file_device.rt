// The device.
ghost use Rattle.std.specs.Prelude.{◌≡◌, ℕ, ◌*◌, ◌≤◌, [], List, length, true, false, not, IsErr, IfOk};
ghost use Rattle.std.specs.List.{All};
ghost use Rattle.sector.specs.Bytes.{sector_at, next_count};
ghost use Rattle.file_calls.specs.Kept.{now_in, kept_in, MayHold, are_answered};
ghost use Rattle.file_calls.specs.Laws.{length-with_len};
ghost use Rattle.file_device.specs.Layers.{at_first};
ghost use Rattle.file_device.specs.Pieces.{IsPieceOf, pieces_in};

use crate::Start;
use crate::pieces::Pieces;
use device::Io;
use file_calls::FileCalls;
use std::alloc::{AllocError, Global};
use std::marker::PhantomData;

/// A file as a device. `S` stands for what the files of a program held at first, of which it has one.
#[derive(Drop)]
pub struct FileDevice<C: FileCalls, S: Start> {
    pub(crate) file: C,
    /// Which of the program's files it is.
    pub(crate) number: u64,
    pub(crate) sectors: u64,
    /// What was read ahead.
    pub(crate) pieces: Pieces,
    /// Nothing was read or written since the last sync.
    pub(crate) is_synced: bool,
    /// The file left a write or a sync unanswered.
    pub(crate) has_failed: bool,
    /// Every operation fails.
    pub(crate) is_broken: bool,
    pub(crate) faults: u64,
    pub(crate) done: u64,
    start: PhantomData<S>,
    ghost small: { sectors ≤ 2_147_483_648 },
    ghost long: { length (now_in (at_first (S.first number) sectors) (C.history file)) ≡ 512 * sectors },
    ghost there: { All (IsPieceOf (now_in (at_first (S.first number) sectors) (C.history file)) sectors) (pieces_in pieces) },
    ghost failed: { has_failed ≡ not (are_answered (C.history file)) },
    ghost broken: { is_broken ≡ true → has_failed ≡ true },
    ghost firm: { is_synced ≡ true → (s : ℕ) (v : List ℕ) → MayHold (at_first (S.first number) sectors) (C.history file) s v → v ≡ sector_at (now_in (at_first (S.first number) sectors) (C.history file)) s },
    ghost kept: { is_synced ≡ true → kept_in (at_first (S.first number) sectors) (C.history file) ≡ now_in (at_first (S.first number) sectors) (C.history file) },
}

/// Counts a fault.
pub(crate) fn fail(faults: &mut u64) -> Result<(), Io>
    ensures err { IsErr result }
    ensures counted { faults.new ≡ next_count faults.old }
{
    *faults = faults.wrapping_add(1);
    Err(Io)
}

impl<C: FileCalls, S: Start> FileDevice<C, S> {
    /// A device of so many sectors of the file of this number, of which no call is noted yet. A file that is shorter fails where it ends.
    pub fn new(
        alloc: Global,
        file: C,
        number: u64,
        sectors: u64,
    ) -> Result<FileDevice<C, S>, AllocError>
        requires small { sectors ≤ 2_147_483_648 }
        requires fresh { C.history file ≡ [] }
        ensures file { IfOk result (λ d. d.file ≡ file) }
        ensures number { IfOk result (λ d. d.number ≡ number) }
        ensures sectors { IfOk result (λ d. d.sectors ≡ sectors) }
        ensures none { IfOk result (λ d. (pieces_in d.pieces ≡ []) × (d.is_broken ≡ false) × (d.faults ≡ 0) × (d.done ≡ 0)) }
    {
        let pieces = Pieces::new(alloc)?;
        Ok(FileDevice {
            file,
            number,
            sectors,
            pieces,
            is_synced: false,
            has_failed: false,
            is_broken: false,
            faults: 0,
            done: 0,
            start: PhantomData,
        })
    }

    /// The file, to look at.
    pub fn file(&self) -> &C
        ensures { result.now ≡ self.now.file }
    {
        &self.file
    }
}
