// A whole text of lines, and the number of each line before its answers.
ghost use Rattle.std.specs.Prelude.{◌≡◌, ◌≤◌, true, List, IfOk, IfErr, IfSome};
ghost use Rattle.std.specs.Io.KnownBytes.{Appends};
ghost use Rattle.command_replies.specs.declared.command_reply.CommandReply.{CommandReply};
ghost use Rattle.script_runner.specs.Counts.{summary_of};
ghost use Rattle.script_runner.specs.Exit.{IsEarly, IsWriters};
ghost use Rattle.script_runner.specs.Numbered.{IsTextAnswered, IsTextAnsweredTo, all_of, numbered_from, numbered_output_of};
ghost use Rattle.script_runner.specs.Runs.{IsTextDone};
ghost use Rattle.script_runner.specs.Sound.{is_sound_text};
ghost use Rattle.script_runner.specs.Told.{IsTextTold};

use crate::error::RunError;
use crate::numbering::print_numbered;
use crate::reading::next_line;
use crate::session::Session;
use crate::summary::Summary;
use crate::tracer::Tracer;
use command::LINE_LIMIT;
use std::alloc::Global;
use std::io::{Read, Write};
use std::sync::Wait;
use std::thread::Threads;
use words::LineBuffer;

/// Does what `run` does, and prints before each line that a line of the text answers that line's number, counted from 1, and a space.
/// Comments and empty lines count. A block's answers have the number of the line that ends it; where the text's end does, that
/// of the line that would come next. A line's answers are kept until they are printed: where memory for that is refused, the run
/// ends as if the writer had failed.
#[inline(never)]
pub fn run_numbered<T: Threads + Wait + Sync, R: Read, W: Write, X: Tracer>(
    rt: &T,
    alloc: Global,
    reader: &mut R,
    writer: &mut W,
    tracer: &mut X,
    workers: u32,
    checkpoints: bool,
) -> Result<Summary, RunError>
    requires some { 1 ≤ workers }
    requires few { workers ≤ 4 }
    // Where the text alone says what `run` prints, it says what is printed here.
    ensures exact { IfOk result (λ summary. IfSome (R.remaining reader.old) (λ text. is_sound_text text ≡ true
        → summary.no_memory ≡ 0 → summary.journal_full ≡ 0 → Appends (W.contents writer.old) (W.contents writer.new) (numbered_output_of text))) }
    // Of every text: these are the replies of each line, and at last of the text's end, in their order; each line of them is
    // printed with that line's number; and they are what `run` may print.
    ensures lines { IfOk result (λ summary. (answers : List (List CommandReply))
        × Appends (W.contents writer.old) (W.contents writer.new) (numbered_from 1 answers) × (summary ≡ summary_of (all_of answers))
        × IfSome (R.remaining reader.old) (λ text. IsTextAnswered text answers × IsTextDone text (all_of answers))) }
    // Behind each line the tracer was told of what stood then, in their order.
    ensures traced { IfOk result (λ summary. (answers : List (List CommandReply))
        × Appends (W.contents writer.old) (W.contents writer.new) (numbered_from 1 answers)
        × IfSome (R.remaining reader.old) (λ text. IsTextTold X.tells text answers tracer.old tracer.new)) }
    // A run that ended early, and not for its writer, printed all that its first lines answered.
    ensures begun { IfErr result (λ e. (IsWriters e → ⊥) → (answers : List (List CommandReply))
        × Appends (W.contents writer.old) (W.contents writer.new) (numbered_from 1 answers)
        × IfSome (R.remaining reader.old) (λ text. IsTextAnsweredTo text answers)) }
    // It ended early for what `run` does.
    ensures cause { IfErr result (IsEarly (R.remaining reader.old) (R.remaining reader.new) (W.contents writer.old) (W.contents writer.new)) }
{
    let mut buffer = LineBuffer::new(alloc, LINE_LIMIT).map_err(|_| RunError::Memory)?;
    let mut session = Session::new(alloc, workers, checkpoints)?;
    let mut page = Vec::new(alloc);
    for lines in 0..u64::MAX {
        let number = lines + 1;
        page.clear();
        if !next_line(reader, writer, &mut buffer)? {
            session.end(rt, &mut page)?;
            print_numbered(writer, number, &page)?;
            return Ok(session.summary());
        }
        let line = buffer.as_slice();
        session.line(rt, line, &mut page)?;
        print_numbered(writer, number, &page)?;
        tracer.behind(number, line, &session, writer);
    }
    Err(RunError::Endless)
}
