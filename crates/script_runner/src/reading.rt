// The next line of a text, asked for once what was printed is written out.
ghost use Rattle.std.specs.Prelude.{◌<◌, ◌≤◌, IfErr, IfOk};
ghost use Rattle.std.specs.Io.KnownBytes.{Keeps};
ghost use Rattle.words.specs.Lines.{left, ReadsLine};
ghost use Rattle.script_runner.specs.Exit.{IsStreams};

use crate::error::{RunError, StreamError};
use command::LINE_LIMIT;
use std::io::{ErrorKind, Read, Write};
use words::LineBuffer;

/// Reads the next line into the buffer, without its end, and says whether there was one. Of a line of more than 65,536 bytes
/// the buffer holds more than 65,536.
///
/// Each time before it asks the reader for bytes, it flushes the writer: whoever writes the text has every answer to the lines
/// so far before the next is waited for. A line that was read ahead is taken without either. What the writer holds stays the
/// same. The one error is a stream's own: `RunError::Write`, or `RunError::Read`, which is no interruption; then part of a line
/// may have been taken.
#[inline(always)]
#[tactic(auto, using(words::proofs::LineLemmas::within_start, words::proofs::LineLemmas::within_kept, words::proofs::LineLemmas::end_of_text, words::proofs::LineLemmas::end_of_line, words::proofs::Known::keeps_same, words::proofs::Known::keeps_more))]
pub fn next_line<R: Read, W: Write>(
    reader: &mut R,
    writer: &mut W,
    buffer: &mut LineBuffer,
) -> Result<bool, RunError>
    requires { 65536 < buffer.old.room }
    ensures line { IfOk result (λ more. ReadsLine 65536 (left buffer.old.ahead (R.remaining reader.old)) (left buffer.new.ahead (R.remaining reader.new)) more buffer.new.line) }
    ensures kept { Keeps (W.contents writer.old) (W.contents writer.new) }
    ensures room { buffer.old.room ≤ buffer.new.room }
    ensures error { IfErr result IsStreams }
{
    buffer.begin();
    for _ in 0..u64::MAX {
        if buffer.take(LINE_LIMIT) {
            return Ok(true);
        }
        writer.flush().map_err(RunError::of_writer)?;
        if !buffer.fill(reader).map_err(RunError::of_reader)? {
            return Ok(0 < buffer.as_slice().len());
        }
    }
    Err(RunError::Read(StreamError::of_kind(ErrorKind::InvalidData)))
}
