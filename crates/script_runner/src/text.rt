// A whole text of lines.
ghost use Rattle.std.specs.Prelude.{◌≡◌, ◌≤◌, ◌++◌, true, List, IfOk, IfErr, IfSome};
ghost use Rattle.std.specs.Io.KnownBytes.{Appends};
ghost use Rattle.words.specs.Lines.{lines_of};
ghost use Rattle.command_replies.specs.declared.command_reply.CommandReply.{CommandReply};
ghost use Rattle.script_runner.specs.Counts.{summary_of};
ghost use Rattle.script_runner.specs.Exit.{IsEarly, IsWriters};
ghost use Rattle.script_runner.specs.Numbered.{all_of};
ghost use Rattle.script_runner.specs.Output.{output_of, replies_of, printed, MayAnswer, empty};
ghost use Rattle.script_runner.specs.Runs.{IsTextBegun, IsTextDone};
ghost use Rattle.script_runner.specs.Sound.{is_sound_text};
ghost use Rattle.script_runner.specs.Told.{IsTextTold};

use crate::error::RunError;
use crate::reading::next_line;
use crate::session::Session;
use crate::summary::Summary;
use crate::tracer::Tracer;
use command::LINE_LIMIT;
use std::alloc::Global;
use std::io::{Read, Write};
use std::sync::Wait;
use std::thread::Threads;
use words::LineBuffer;

/// Does the lines of a text to its end, prints what each answers and nothing else, and counts what was printed. The end of the
/// text ends a block that is still open. `workers` is the number of copy workers that a block has, 1 to 4.
///
/// Each time before the reader is asked for more, the writer is flushed (`next_line`), so that a program, or a person, that waits for an
/// answer before it writes its next line is answered. What was printed last is flushed by the caller.
///
/// With `checkpoints` the journal of each volume is folded before each line and each block, as `checkpoint` does, and nothing is
/// printed for it: then no line outside of a block finds its journal full. As a checkpoint changes no device, what is printed is what
/// the same contract says.
///
/// Behind each line the tracer is told of it, by its number, counted from 1; of the text's end it is not.
pub fn run<T: Threads + Wait + Sync, R: Read, W: Write, X: Tracer>(
    rt: &T,
    alloc: Global,
    reader: &mut R,
    writer: &mut W,
    tracer: &mut X,
    workers: u32,
    checkpoints: bool,
) -> Result<Summary, RunError>
    requires some { 1 ≤ workers }
    requires few { workers ≤ 4 }
    // Where no line makes a layer that drops writes, starts a request, steps an event of a merge or opens a block, and neither
    // memory nor a journal's room ran out for any line, the text alone says what is printed.
    ensures exact { IfOk result (λ summary. IfSome (R.remaining reader.old) (λ text. is_sound_text text ≡ true
        → summary.no_memory ≡ 0 → summary.journal_full ≡ 0 → Appends (W.contents writer.old) (W.contents writer.new) (output_of text))) }
    // Then it says too how many lines there are of each kind.
    ensures counts { IfOk result (λ summary. IfSome (R.remaining reader.old) (λ text. is_sound_text text ≡ true
        → summary.no_memory ≡ 0 → summary.journal_full ≡ 0 → summary ≡ summary_of (replies_of text))) }
    // In any case whole replies are printed and counted, and of such a text each line answers its outcome, or that memory
    // or a journal's room ran out; then it changed nothing, or is a read or a write of which some part was done.
    ensures any { IfOk result (λ summary. (replies : List CommandReply)
        × Appends (W.contents writer.old) (W.contents writer.new) (printed replies) × (summary ≡ summary_of replies)
        × IfSome (R.remaining reader.old) (λ text. is_sound_text text ≡ true → MayAnswer empty (lines_of text) replies)) }
    // Of every text: each line does what it does by itself where no block is open, is one of the block's where one is, or ends it;
    // and the end of the text ends a block that is still open. These are all replies, in this order.
    ensures lines { IfOk result (λ summary. (replies : List CommandReply)
        × Appends (W.contents writer.old) (W.contents writer.new) (printed replies) × (summary ≡ summary_of replies)
        × IfSome (R.remaining reader.old) (λ text. IsTextDone text replies)) }
    // Behind each line the tracer was told of what stood then, in their order: of these replies of each line, and at last of the text's end.
    ensures traced { IfOk result (λ summary. (answers : List (List CommandReply))
        × Appends (W.contents writer.old) (W.contents writer.new) (printed (all_of answers))
        × IfSome (R.remaining reader.old) (λ text. IsTextTold X.tells text answers tracer.old tracer.new)) }
    // A run that ended early, and not for its writer, printed whole replies too: the first of what the lines may answer.
    ensures early { IfErr result (λ e. (IsWriters e → ⊥) → (replies : List CommandReply)
        × Appends (W.contents writer.old) (W.contents writer.new) (printed replies)
        × IfSome (R.remaining reader.old) (λ text. is_sound_text text ≡ true
        → (rest : List CommandReply) × MayAnswer empty (lines_of text) (replies ++ rest))) }
    // In any case they are all that its first lines answered.
    ensures begun { IfErr result (λ e. (IsWriters e → ⊥) → (replies : List CommandReply)
        × Appends (W.contents writer.old) (W.contents writer.new) (printed replies)
        × IfSome (R.remaining reader.old) (λ text. IsTextBegun text replies)) }
    // It ended early for want of memory before the first line alone, and for the number of lines where there are so many.
    ensures cause { IfErr result (IsEarly (R.remaining reader.old) (R.remaining reader.new) (W.contents writer.old) (W.contents writer.new)) }
{
    let mut buffer = LineBuffer::new(alloc, LINE_LIMIT).map_err(|_| RunError::Memory)?;
    let mut session = Session::new(alloc, workers, checkpoints)?;
    for lines in 0..u64::MAX {
        if !next_line(reader, writer, &mut buffer)? {
            session.end(rt, writer)?;
            return Ok(session.summary());
        }
        let line = buffer.as_slice();
        session.line(rt, line, writer)?;
        tracer.behind(lines + 1, line, &session, writer);
    }
    Err(RunError::Endless)
}
