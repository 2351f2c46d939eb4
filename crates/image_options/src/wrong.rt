// What is wrong with the words of a command line.
ghost use Rattle.std.specs.Prelude.{◌≡◌};
ghost use Rattle.image_options.specs.declared.wrong.Wrong.TheVariants.{Line};

use std::fmt;

/// What is wrong with the words, and with which.
#[derive(Clone, Copy, PartialEq, Eq)]
pub enum Wrong<'a> {
    /// They are no names and options of this command.
    Line(option_parser::Wrong<'a>),
    /// This option goes with `--salvage`.
    Alone(&'static str),
    /// The first option goes with the second.
    Without(&'static str, &'static str),
    /// These two options go not together.
    Apart(&'static str, &'static str),
    /// This is no chunk size.
    Chunk(&'a str),
    /// No disk of `dmrig` has this name.
    Disk(&'a str),
    /// Memory is refused.
    NoMemory,
}

impl<'a> From<option_parser::Wrong<'a>> for Wrong<'a> {
    ghost from_gives = { λ wrong own. own ≡ Line wrong };

    fn from(wrong: option_parser::Wrong<'a>) -> Wrong<'a> {
        Wrong::Line(wrong)
    }
}

impl fmt::Display for Wrong<'_> {
    fn fmt<W: fmt::Write>(&self, f: &mut fmt::Formatter<W>) -> fmt::Result {
        match self {
            Wrong::Line(wrong) => write!(f, "{wrong}"),
            Wrong::Without(option, other) => write!(f, "{option} goes with {other}"),
            Wrong::Apart(option, other) => write!(f, "{option} does not go with {other}"),
            Wrong::Alone(option) => write!(f, "{option} goes with --salvage"),
            Wrong::Chunk(word) => write!(
                f,
                "{word} is no chunk size: a power of two from 1 to 1024 sectors"
            ),
            Wrong::Disk(word) => write!(
                f,
                "{word} is no name of a disk: 1 to 16 of a to z, 0 to 9 and _, a letter first"
            ),
            Wrong::NoMemory => write!(f, "no memory"),
        }
    }
}
