// Texts are printed.
ghost use Rattle.std.specs.Prelude.{OnOk};
ghost use Rattle.std.specs.Io.KnownBytes.{Appends};

use opened_files::{OUTPUT, Trouble, Why};
use std::io;
use std::io::Write;

/// Writes a text to standard output.
pub fn printed<W: Write>(output: &mut W, text: &[u8]) -> Result<(), Trouble<'static>>
    ensures { OnOk result (Appends (W.contents output.old) (W.contents output.new) text.now) }
{
    put_on("standard output", output, text)
}

/// Writes a text where the array that is asked for is not written: to standard error where that goes to standard output.
pub fn told_beside<'a, W: Write, E: Write>(
    output: &mut W,
    errors: &mut E,
    out: &'a str,
    text: &[u8],
) -> Result<(), Trouble<'a>> {
    if out != OUTPUT {
        return printed(output, text);
    }
    put_on("standard error", errors, text)
}

/// Writes a text to the stream of this name.
fn put_on<W: Write>(name: &'static str, stream: &mut W, text: &[u8]) -> Result<(), Trouble<'static>>
    ensures { OnOk result (Appends (W.contents stream.old) (W.contents stream.new) text.now) }
{
    match written(stream, text) {
        Ok(()) => Ok(()),
        Err(error) => Err(Trouble::new(name, Why::Unwritable(error))),
    }
}

fn written<W: Write>(writer: &mut W, text: &[u8]) -> io::Result<()>
    ensures { OnOk result (Appends (W.contents writer.old) (W.contents writer.new) text.now) }
{
    writer.write_all(text)?;
    writer.flush()
}
