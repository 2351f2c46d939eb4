// Help of one command.
ghost use Rattle.std.specs.Prelude.{◌≡◌, slice_get};
ghost use Rattle.option_parser.specs.Splits.{is_one_of};
ghost use Rattle.option_parser.specs.Reading.{split_of, texts_of};
ghost use Rattle.image_options.specs.Asks.{told, wanted_of, is_command as is_command_by, help_by, help_beside as help_beside_by};

use crate::asked::Asked;
use crate::wrong::Wrong;
use option_parser::Words;

/// Whether a command has this name.
fn is_command(word: &str) -> bool
    ensures { result ≡ is_command_by word.now }
{
    let commands = [
        "show", "map", "check", "diff", "compare", "table", "export", "rollback", "merge",
        "repair", "store", "nbd", "words", "image",
    ];
    is_among(&commands, word)
}

/// Whether a word is one of these.
fn is_among(commands: &[&str], word: &str) -> bool
    ensures { result ≡ is_one_of (texts_of commands.now) word.now }
{
    for command in commands {
        if *command == word {
            return true;
        }
    }
    false
}

/// The help that `help` asks for: of the command whose name is behind it, or of all.
pub(crate) fn help<'a>(words: &Words<'a>) -> Result<Asked<'a>, Wrong<'a>>
    ensures { told result ≡ help_by (split_of words.now) }
{
    let Ok(_) = words.name(1, "COMMAND") else {
        return Ok(Asked::Help);
    };
    let command = words.one("COMMAND")?;
    if !is_command(command) {
        return Err(Wrong::Line(option_parser::Wrong::Command(command)));
    }
    Ok(Asked::HelpOf { command })
}

/// The help that `--help` asks for: of the command that stands beside it, if one does, or of all.
pub(crate) fn help_beside<'a>(words: &Words<'a>) -> Asked<'a>
    ensures { wanted_of result ≡ help_beside_by (slice_get (split_of words.now).names 0) }
{
    match words.name(0, "COMMAND") {
        Ok(command) if is_command(command) => Asked::HelpOf { command },
        _ => Asked::Help,
    }
}
