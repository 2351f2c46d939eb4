// A block of lines at a desk, and what it answers.
ghost use Rattle.std.specs.Prelude.{◌≡◌, ◌≤◌, ◌++◌, ◌∷◌, [], true, IfErr, OnOk};
ghost use Rattle.std.specs.Io.KnownBytes.{Appends};
ghost use Rattle.command_semantics.specs.Naming.{AreNamed};
ghost use Rattle.command_semantics.specs.Sound.{is_sound};
ghost use Rattle.command_replies.specs.declared.command_reply.CommandReply.TheVariants.{Done, Refused};
ghost use Rattle.script_runner.specs.Exit.{IsWriters};
ghost use Rattle.script_runner.specs.Output.{LineOutcome, followed, printed};
ghost use Rattle.script_runner.specs.Sessions.{IsBlockDone, refuses};

use crate::desk::Desk;
use crate::error::RunError;
use command::LineBlock;
use command_replies::CommandReply;
use parallel_lines::run_block;
use sector::Refusal;
use std::io;
use std::io::Write;
use std::sync::Wait;
use std::thread::Threads;

/// Prints the lines of replies. The one error is the writer's own; then part of them may be printed.
#[tactic(auto, using(crate::proofs::EndedLemmas::none_replied, crate::proofs::BlockLemmas::reply_printed))]
fn print_replies<W: Write>(writer: &mut W, replies: Vec<CommandReply>) -> io::Result<()>
    ensures { OnOk result (Appends (W.contents writer.old) (W.contents writer.new) (printed replies.items)) }
{
    for reply in replies {
        reply.write_to(writer)?;
    }
    Ok(())
}

/// Prints the lines of replies, and `ok` after them. The one error is the writer's own; then part of them may be printed.
#[tactic(auto, using(crate::proofs::BlockLemmas::reply_printed))]
fn print_done<W: Write>(writer: &mut W, replies: Vec<CommandReply>) -> io::Result<()>
    ensures { OnOk result (Appends (W.contents writer.old) (W.contents writer.new) (printed (replies.items ++ Done ∷ []))) }
{
    print_replies(writer, replies)?;
    CommandReply::Done.write_to(writer)
}

impl Desk {
    /// Answers a refusal alone. The one error is `RunError::Write`, the writer's own.
    pub(crate) fn refuse<W: Write>(
        &mut self,
        refusal: Refusal,
        writer: &mut W,
    ) -> Result<(), RunError>
        ensures done { self.new ≡ followed self.old (refuses refusal self.old.table) }
        ensures printed { OnOk result (Appends (W.contents writer.old) (W.contents writer.new) (printed (Refused refusal ∷ []))) }
        ensures error { IfErr result IsWriters }
    {
        let own = CommandReply::Refused(refusal);
        self.summary = self.summary.with(&own);
        self.refusal = Some(refusal);
        match own.write_to(writer) {
            Ok(()) => Ok(()),
            Err(error) => Err(RunError::of_writer(error)),
        }
    }

    /// Runs a block with so many copy workers, and prints the answers of its seats, how its gate ended where it has one, and
    /// `ok`; or its refusal alone, and then no device changed. `NoMemory` may also come where nothing else refuses the block:
    /// then no seat made a request. The one error is `RunError::Write`, the writer's own; then the block was run all the same.
    pub(crate) fn run_block<R: Threads + Wait + Sync, W: Write>(
        &mut self,
        rt: &R,
        block: LineBlock,
        workers: u32,
        writer: &mut W,
    ) -> Result<(), RunError>
        requires some { 1 ≤ workers }
        requires few { workers ≤ 4 }
        ensures done { (done : LineOutcome) × IsBlockDone block self.old.table done × (self.new ≡ followed self.old done)
            × OnOk result (Appends (W.contents writer.old) (W.contents writer.new) (printed done.replies)) }
        ensures sound { is_sound self.old.table ≡ true → is_sound self.new.table ≡ true }
        ensures error { IfErr result IsWriters }
        ensures named { AreNamed self.new.table }
    {
        // A block has rooms of its own.
        self.room = Vec::new(self.alloc);
        self.refusal = None;
        let replies = match run_block(rt, self.alloc, &mut self.held, block, workers) {
            Ok(replies) => replies,
            Err(refusal) => return self.refuse(refusal, writer),
        };
        self.summary = self.summary.with_all(&replies).with(&CommandReply::Done);
        match print_done(writer, replies) {
            Ok(()) => Ok(()),
            Err(error) => Err(RunError::of_writer(error)),
        }
    }
}
