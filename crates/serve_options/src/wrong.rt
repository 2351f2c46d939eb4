// What is wrong with the words of a command line.
ghost use Rattle.std.specs.Prelude.{◌≡◌};
ghost use Rattle.serve_options.specs.declared.wrong.Wrong.TheVariants.{Line};

use std::fmt;

/// What is wrong with the words, and with which.
#[derive(Clone, Copy, PartialEq, Eq)]
pub enum Wrong<'a> {
    /// They are no names and options of this command.
    Line(option_parser::Wrong<'a>),
    /// This is no chunk size.
    Chunk(&'a str),
    /// This is no size of a store.
    Size(&'a str),
    /// This is nothing that is done where a store is full.
    Full(&'a str),
    /// This snapshot is one too many.
    Snapshot(&'a str),
    /// This one is to be merged besides another one.
    Merge(&'a str),
    /// This one is to be merged, and one of its name is to be served.
    Both(&'a str),
    /// This snapshot's export has the name of another one, or none.
    Export(&'a str),
}

impl<'a> From<option_parser::Wrong<'a>> for Wrong<'a> {
    ghost from_gives = { λ wrong own. own ≡ Line wrong };

    fn from(wrong: option_parser::Wrong<'a>) -> Wrong<'a> {
        Wrong::Line(wrong)
    }
}

impl fmt::Display for Wrong<'_> {
    fn fmt<W: fmt::Write>(&self, f: &mut fmt::Formatter<W>) -> fmt::Result {
        match self {
            Wrong::Line(wrong) => write!(f, "{wrong}"),
            Wrong::Chunk(word) => write!(
                f,
                "{word} is no chunk size: a power of two from 1 to 1024 sectors"
            ),
            Wrong::Size(word) => write!(
                f,
                "{word} is no size of a store: whole sectors of 512 bytes, from 1K to 1T"
            ),
            Wrong::Full(word) => write!(f, "--full {word}: only refuse is taken"),
            Wrong::Snapshot(word) => write!(
                f,
                "{word} is the ninth snapshot: eight are served at most"
            ),
            Wrong::Merge(word) => write!(
                f,
                "{word} is the second behind --merge: one snapshot is merged at a time"
            ),
            Wrong::Both(word) => write!(
                f,
                "{word} is to be merged, so it is no snapshot any more: it stands behind --merge alone"
            ),
            Wrong::Export(word) => write!(
                f,
                "{word}: the last part of its name is origin, or that of another snapshot, or nothing"
            ),
        }
    }
}
