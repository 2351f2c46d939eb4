// Whether it is told how far a command is.
ghost use Rattle.std.specs.Prelude.{◌≡◌, map, drop};
ghost use Rattle.std.specs.String.{string_bytes};
ghost use Rattle.option_parser.specs.Splits.{split_by};
ghost use Rattle.option_parser.specs.Reading.{split_of};
ghost use Rattle.image_options.specs.Asks.{WithMemory, told_telling, telling_by, valued};

use crate::options::VALUED;
use crate::wrong::Wrong;
use option_parser::{Words, split};
use std::alloc::Global;

/// When it is told how far a command is.
#[derive(Clone, Copy, PartialEq, Eq)]
pub enum Telling {
    /// Where standard error is a terminal.
    Terminal,
    Never,
    Always,
}

/// When the words of a command line, the first of which is the program's own name, want it to be told how far the command is.
pub fn words_tell<'a>(alloc: Global, words: &'a [String]) -> Result<Telling, Wrong<'a>>
    ensures { WithMemory result (told_telling result ≡ telling_by (split_by valued (drop 1 (map string_bytes words.now)))) }
{
    match split(alloc, VALUED, words) {
        Ok(words) => split_tell(&words),
        Err(_) => Err(Wrong::NoMemory),
    }
}

/// When split words want it to be told.
fn split_tell<'a>(words: &Words<'a>) -> Result<Telling, Wrong<'a>>
    ensures { told_telling result ≡ telling_by (split_of words.now) }
{
    let always = words.has("--progress");
    if words.has("--quiet") || words.has("-q") {
        if always {
            return Err(Wrong::Apart("--progress", "--quiet"));
        }
        return Ok(Telling::Never);
    }
    if always {
        return Ok(Telling::Always);
    }
    Ok(Telling::Terminal)
}
