// What is wrong with the words of a command line.

use std::fmt;

/// What is wrong with the words, and with which.
#[derive(Clone, Copy, PartialEq, Eq)]
pub enum Wrong<'a> {
    /// This is missing.
    Missing(&'static str),
    /// The word behind this option is missing.
    NoValue(&'a str),
    /// No command has this name.
    Command(&'a str),
    /// The command does not take this option.
    Option(&'a str),
    /// This name is one too many.
    Name(&'a str),
}

impl fmt::Display for Wrong<'_> {
    fn fmt<W: fmt::Write>(&self, f: &mut fmt::Formatter<W>) -> fmt::Result {
        match self {
            Wrong::Missing(wanted) => write!(f, "{wanted} is missing"),
            Wrong::NoValue(option) => write!(f, "the word behind {option} is missing"),
            Wrong::Command(word) => write!(f, "{word} is no command"),
            Wrong::Option(word) => write!(f, "{word} is no option of this command"),
            Wrong::Name(word) => write!(f, "{word} is one name too many"),
        }
    }
}
