// Which options there are, which of them a command takes, and what they mean.
ghost use Rattle.std.specs.Prelude.{◌≡◌};
ghost use Rattle.option_parser.specs.Reading.{texts_of, split_of};
ghost use Rattle.image_options.specs.Asks.{options_by, form_by, chunk_by, told_chunk, told_none, given_with, given_apart};

use crate::asked::Form;
use crate::wrong::Wrong;
use option_parser::Words;
use words::number;

/// The options that take a value.
pub const VALUED: &[&str] = &["--chunk", "--over", "--svg"];

/// The options that a command takes.
pub fn options_of(command: &str) -> &'static [&'static str]
    ensures { texts_of result.now ≡ options_by command.now }
{
    match command {
        "show" => &["--json", "--human", "--quiet", "-q", "--progress"],
        "map" => &[
            "--json",
            "--raw",
            "--over",
            "--picture",
            "--svg",
            "--quiet",
            "-q",
            "--progress",
        ],
        "check" => &["--json", "--quiet", "-q", "--progress"],
        "diff" => &["--json", "--quiet", "-q", "--progress"],
        "compare" => &["--json", "--quiet", "-q", "--progress"],
        "table" => &["--quiet", "-q", "--progress"],
        "export" => &[
            "--json",
            "--salvage",
            "--chunk",
            "--behind",
            "--quiet",
            "-q",
            "--progress",
        ],
        "rollback" => &["--json", "--quiet", "-q", "--progress"],
        "merge" => &["--json", "--dry-run", "--quiet", "-q", "--progress"],
        "repair" => &[
            "--json",
            "--chunk",
            "--behind",
            "--quiet",
            "-q",
            "--progress",
        ],
        "store" => &["--chunk", "--quiet", "-q", "--progress"],
        "nbd" => &["--live"],
        _ => &[],
    }
}

/// How an answer is to be written.
pub fn form_of(words: &Words<'_>) -> Form
    ensures { result ≡ form_by (split_of words.now) }
{
    if words.has("--json") {
        return Form::Json;
    }
    Form::Lines
}

/// The sectors of a chunk, where they are given.
pub fn chunk_of<'a>(words: &Words<'a>) -> Result<Option<u32>, Wrong<'a>>
    ensures { told_chunk result ≡ chunk_by (split_of words.now) }
{
    let Some(word) = words.value("--chunk") else {
        return Ok(None);
    };
    match number(word.as_bytes()) {
        Some(sectors) if sectors.is_power_of_two() && sectors <= 1024 => Ok(Some(sectors)),
        _ => Err(Wrong::Chunk(word)),
    }
}

/// Sees that an option is given only with another.
pub fn has_with<'a>(
    words: &Words<'a>,
    option: &'static str,
    other: &'static str,
) -> Result<(), Wrong<'a>>
    ensures { told_none result ≡ given_with (split_of words.now) option.now other.now }
{
    if words.has(option) && !words.has(other) {
        return Err(Wrong::Without(option, other));
    }
    Ok(())
}

/// Sees that an option is not given with another.
pub fn are_apart<'a>(
    words: &Words<'a>,
    option: &'static str,
    other: &'static str,
) -> Result<(), Wrong<'a>>
    ensures { told_none result ≡ given_apart (split_of words.now) option.now other.now }
{
    if words.has(option) && words.has(other) {
        return Err(Wrong::Apart(option, other));
    }
    Ok(())
}
