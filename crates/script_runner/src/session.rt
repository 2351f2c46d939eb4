// A desk at which a block of lines may be open.
ghost use Rattle.std.specs.Prelude.{◌≡◌, ◌≤◌, None, true, is_some, MatchResult, IfErr, IfOk, OnOk};
ghost use Rattle.std.specs.Io.KnownBytes.{Appends};
ghost use Rattle.command_semantics.specs.Naming.{AreNamed};
ghost use Rattle.command_semantics.specs.Sound.{is_sound};
ghost use Rattle.device_list.specs.Tables.{table_of};
ghost use Rattle.script_runner.specs.Exit.{IsMemory, IsWriters};
ghost use Rattle.script_runner.specs.Output.{LineOutcome, followed, printed};
ghost use Rattle.script_runner.specs.Runs.{begun};
ghost use Rattle.script_runner.specs.Sessions.{IsEndedBy, IsOpenedBy, IsSessionDone};
ghost use Rattle.script_runner.specs.Sound.{is_sound_line};
ghost use Rattle.script_runner.specs.Traced.{IsTrace};
ghost use Rattle.command.specs.Opening.{opening_of};

use crate::desk::Desk;
use crate::error::RunError;
use crate::summary::Summary;
use crate::tracing::traced;
use command::{LINE_LIMIT, LineBlock, is_par, opening_by};
use device_list::Devices;
use sector::Refusal;
use std::alloc::{AllocError, Global};
use std::io::Write;
use std::marker::Model;
use std::sync::Wait;
use std::thread::Threads;

/// A desk, and the block of lines that is open at it, if one is. Contracts see both.
#[derive(Drop)]
pub struct Session {
    alloc: Global,
    desk: Desk,
    block: Option<LineBlock>,
    workers: u32,
    /// Whether all journals are folded before each line.
    checkpoints: bool,
}

impl Model for Session {
    ghost use Rattle.std.specs.Prelude.{◌≤◌};
    ghost use Rattle.script_runner.specs.Sessions.{Sitting};

    ghost Value = { Sitting };

    ghost view = { λ s. record { desk = s.desk; block = s.block } };

    ghost invariant = { λ s. (1 ≤ s.workers) × (s.workers ≤ 4) };
}

impl Session {
    /// No devices, room for all that there may be, and no block. A block is run with so many copy workers. With `checkpoints`
    /// the journal of each volume is folded before each line. The one error is `RunError::Memory`.
    pub fn new(alloc: Global, workers: u32, checkpoints: bool) -> Result<Session, RunError>
        requires some { 1 ≤ workers }
        requires few { workers ≤ 4 }
        ensures { MatchResult result (λ session. session ≡ begun) IsMemory }
    {
        Ok(Session {
            alloc,
            desk: Desk::new(alloc)?,
            block: None,
            workers,
            checkpoints,
        })
    }

    /// What was printed so far, counted; a line whose printing failed counts too.
    pub fn summary(&self) -> Summary
        ensures { result ≡ self.now.desk.summary }
    {
        self.desk.summary()
    }

    /// The devices.
    pub fn devices(&self) -> &Devices
        ensures { table_of result.now ≡ self.now.desk.table }
    {
        &self.desk.held
    }

    /// Why the line that printed last was refused, if it was. A line of a block that is open prints nothing.
    pub fn refusal(&self) -> Option<Refusal> {
        self.desk.refusal
    }

    /// Whether a block of lines is open.
    pub fn is_open(&self) -> bool
        ensures { result ≡ is_some self.now.block }
    {
        self.block.is_some()
    }

    /// The lines of a trace of its devices: one for each volume in which something is in flight, lost, being merged or due, and one
    /// for each layer that may fail. An error says that the allocator refused room.
    pub fn traced(&self) -> Result<Vec<u8>, AllocError>
        ensures { IfOk result (λ page. IsTrace page.items self.now.desk.table) }
    {
        traced(self.alloc, &self.desk.held)
    }

    /// Folds the journal of each volume where that is asked for. No device is changed, and nothing is printed.
    fn make_room(&mut self)
        ensures { self.new ≡ self.old }
    {
        if self.checkpoints {
            self.desk.fold_journals();
        }
    }

    /// Opens a block by a line that begins with the word `par`, or answers why it opens none.
    #[inline(never)]
    fn open<W: Write>(&mut self, line: &[u8], writer: &mut W) -> Result<(), RunError>
        requires { self.old.block ≡ None }
        ensures done { (done : LineOutcome) × IsOpenedBy (opening_of line.now) self.old.desk.table self.new.block done × (self.new.desk ≡ followed self.old.desk done)
            × OnOk result (Appends (W.contents writer.old) (W.contents writer.new) (printed done.replies)) }
        ensures table { self.new.desk.table ≡ self.old.desk.table }
        ensures error { IfErr result IsWriters }
    {
        match opening_by(self.alloc, line) {
            Ok(opening) => {
                self.block = Some(LineBlock::new(self.alloc, opening));
                Ok(())
            }
            Err(refusal) => self.desk.refuse(refusal, writer),
        }
    }

    /// Gives a line to the block that is open; where it ends that, the block is run.
    #[inline(never)]
    fn take_line<R: Threads + Wait + Sync, W: Write>(
        &mut self,
        rt: &R,
        line: &[u8],
        writer: &mut W,
    ) -> Result<(), RunError>
        requires { is_some self.old.block ≡ true }
        ensures done { (done : LineOutcome) × IsSessionDone line.now self.old self.new done × (self.new.desk ≡ followed self.old.desk done)
            × OnOk result (Appends (W.contents writer.old) (W.contents writer.new) (printed done.replies)) }
        ensures sound { is_sound self.old.desk.table ≡ true → is_sound_line line.now ≡ true → is_sound self.new.desk.table ≡ true }
        ensures error { IfErr result IsWriters }
    {
        match self.block.take() {
            Some(mut block) => {
                if block.take(self.alloc, line) {
                    return self.desk.run_block(rt, block, self.workers, writer);
                }
                self.block = Some(block);
                Ok(())
            }
            None => Ok(()),
        }
    }

    /// Does what a line says, the line given without its end. Where no block is open, a line that begins with the word `par`
    /// opens one, or is refused, and each other line is the desk's. Where one is open, each line is one of the block's, which
    /// prints nothing, until one that says `end`: then the block is run. The one error is `RunError::Write`, the writer's own;
    /// then the line was done all the same, and part of what it prints may be printed.
    pub fn line<R: Threads + Wait + Sync, W: Write>(
        &mut self,
        rt: &R,
        line: &[u8],
        writer: &mut W,
    ) -> Result<(), RunError>
        ensures done { (done : LineOutcome) × IsSessionDone line.now self.old self.new done × (self.new.desk ≡ followed self.old.desk done)
            × OnOk result (Appends (W.contents writer.old) (W.contents writer.new) (printed done.replies)) }
        ensures sound { is_sound self.old.desk.table ≡ true → is_sound_line line.now ≡ true → is_sound self.new.desk.table ≡ true }
        ensures error { IfErr result IsWriters }
    {
        self.make_room();
        self.line_with_room(rt, line, writer)
    }

    /// Does what a line says, whose journals have room.
    #[tactic(auto, using(crate::proofs::SessionLemmas::none_open))]
    fn line_with_room<R: Threads + Wait + Sync, W: Write>(
        &mut self,
        rt: &R,
        line: &[u8],
        writer: &mut W,
    ) -> Result<(), RunError>
        ensures done { (done : LineOutcome) × IsSessionDone line.now self.old self.new done × (self.new.desk ≡ followed self.old.desk done)
            × OnOk result (Appends (W.contents writer.old) (W.contents writer.new) (printed done.replies)) }
        ensures sound { is_sound self.old.desk.table ≡ true → is_sound_line line.now ≡ true → is_sound self.new.desk.table ≡ true }
        ensures error { IfErr result IsWriters }
    {
        if self.block.is_some() {
            return self.take_line(rt, line, writer);
        }
        if is_par(line, LINE_LIMIT) {
            return self.open(line, writer);
        }
        self.desk.line(line, writer)
    }

    /// Runs the block that is open, if one is, as its end would. The one error is `RunError::Write`, the writer's own.
    pub fn end<R: Threads + Wait + Sync, W: Write>(
        &mut self,
        rt: &R,
        writer: &mut W,
    ) -> Result<(), RunError>
        ensures done { (done : LineOutcome) × IsEndedBy self.old.block self.old.desk.table done × (self.new.desk ≡ followed self.old.desk done)
            × OnOk result (Appends (W.contents writer.old) (W.contents writer.new) (printed done.replies)) }
        ensures closed { self.new.block ≡ None }
        ensures error { IfErr result IsWriters }
    {
        self.make_room();
        self.end_with_room(rt, writer)
    }

    /// Runs the block that is open, if one is, whose journals have room.
    fn end_with_room<R: Threads + Wait + Sync, W: Write>(
        &mut self,
        rt: &R,
        writer: &mut W,
    ) -> Result<(), RunError>
        ensures done { (done : LineOutcome) × IsEndedBy self.old.block self.old.desk.table done × (self.new.desk ≡ followed self.old.desk done)
            × OnOk result (Appends (W.contents writer.old) (W.contents writer.new) (printed done.replies)) }
        ensures closed { self.new.block ≡ None }
        ensures error { IfErr result IsWriters }
    {
        match self.block.take() {
            Some(block) => self.desk.run_block(rt, block, self.workers, writer),
            None => Ok(()),
        }
    }
}
