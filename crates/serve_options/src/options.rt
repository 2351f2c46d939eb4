// Which options there are, which of them a command takes, and what they mean.
ghost use Rattle.std.specs.Prelude.{◌≡◌};
ghost use Rattle.option_parser.specs.Reading.{texts_of, split_of};
ghost use Rattle.serve_options.specs.Asks.{options_by, chunk_by, full_by, told_chunk, told_full};

use crate::wrong::Wrong;
use chunk::is_chunk_size;
use option_parser::Words;
use words::number;

/// The options that take a value.
pub const VALUED: &[&str] = &["--chunk", "--full", "--merge", "--snapshot"];

/// The sectors of a chunk where none are given: 4 KiB, as `lvcreate` takes.
pub const CHUNK: u32 = 8;

/// The options that a command takes.
pub fn options_of(command: &str) -> &'static [&'static str]
    ensures { texts_of result.now ≡ options_by command.now }
{
    match command {
        "take" => &["--chunk"],
        "serve" => &["--anyway", "--chunk", "--full", "--merge", "--snapshot"],
        _ => &[],
    }
}

/// The sectors of a chunk: those that are given, or `CHUNK`.
pub fn chunk_of<'a>(words: &Words<'a>) -> Result<u32, Wrong<'a>>
    ensures { told_chunk result ≡ chunk_by (split_of words.now) }
{
    let Some(word) = words.value("--chunk") else {
        return Ok(CHUNK);
    };
    match number(word.as_bytes()) {
        Some(sectors) if is_chunk_size(sectors) => Ok(sectors),
        _ => Err(Wrong::Chunk(word)),
    }
}

/// Whether a write of a snapshot that finds its store full is refused: `--full refuse`.
pub fn refuses<'a>(words: &Words<'a>) -> Result<bool, Wrong<'a>>
    ensures { told_full result ≡ full_by (split_of words.now) }
{
    match words.value("--full") {
        None => Ok(false),
        Some("refuse") => Ok(true),
        Some(word) => Err(Wrong::Full(word)),
    }
}
