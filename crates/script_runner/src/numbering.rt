// The number of a line of commands, before each line that it answers.
ghost use Rattle.std.specs.Prelude.{◌≡◌, ◌<◌, [], ◌∷◌, length, position, IfErr, IfSome, OnOk};
ghost use Rattle.std.specs.Io.KnownBytes.{Appends};
ghost use Rattle.words.specs.Lines.{is_end, lines_of};
ghost use Rattle.script_runner.specs.Exit.{IsWriters};
ghost use Rattle.script_runner.specs.Numbered.{numbered, numbered_line};

use crate::error::RunError;
use itoa::Buffer;
use std::io;
use std::io::Write;

/// Where the first line feed stands.
fn end_at(text: &[u8]) -> Option<usize>
    ensures place { result ≡ position is_end text.now }
    ensures within { IfSome result (λ i. i < length text.now) }
{
    text.iter().position(|byte| *byte == b'\n')
}

/// The first line of a text that is not empty, without its end, and what stands behind that.
#[tactic(auto, using(crate::proofs::NumberLemmas::cut_at, crate::proofs::NumberLemmas::uncut))]
fn first_line(text: &[u8]) -> (&[u8], &[u8])
    requires { 0 < length text.now }
    ensures cut { lines_of text.now ≡ result.0.now ∷ lines_of result.1.now }
    ensures less { length result.1.now < length text.now }
{
    match end_at(text) {
        Some(end) => (&text[..end], &text[end + 1..]),
        None => (text, &text[text.len()..]),
    }
}

/// Prints a line, its number before it. The one error is the writer's own.
#[tactic(auto, using(words::proofs::Written::appends_more))]
fn print_line<W: Write>(writer: &mut W, number: u64, line: &[u8]) -> io::Result<()>
    ensures { OnOk result (Appends (W.contents writer.old) (W.contents writer.new) (numbered_line number line.now)) }
{
    let mut buffer = Buffer::new();
    writer.write_all(buffer.format(number).as_bytes())?;
    writer.write_all(b" ")?;
    writer.write_all(line)?;
    writer.write_all(b"\n")
}

/// Prints the lines of a text, each with this number before it. The one error is the writer's own.
fn print_lines<W: Write>(writer: &mut W, number: u64, text: &[u8]) -> io::Result<()>
    ensures { OnOk result (Appends (W.contents writer.old) (W.contents writer.new) (numbered number text.now)) }
{
    let mut rest = text;
    while !rest.is_empty() {
        let (line, later) = first_line(rest);
        print_line(writer, number, line)?;
        rest = later;
    }
    Ok(())
}

/// Prints the lines of a text, each with this number before it. The one error is `RunError::Write`, the writer's own; then part
/// of them may be printed.
pub fn print_numbered<W: Write>(writer: &mut W, number: u64, text: &[u8]) -> Result<(), RunError>
    ensures done { OnOk result (Appends (W.contents writer.old) (W.contents writer.new) (numbered number text.now)) }
    ensures error { IfErr result IsWriters }
{
    match print_lines(writer, number, text) {
        Ok(()) => Ok(()),
        Err(error) => Err(RunError::of_writer(error)),
    }
}
