// What is asked of any program: help, its version, or a command by its name.
ghost use Rattle.std.specs.Prelude.{◌≡◌};
ghost use Rattle.option_parser.specs.Reading.{text_in, split_of};
ghost use Rattle.option_parser.specs.Asks.{requested, told_request};

use crate::splitting::{Next, Words};
use crate::wrong::Wrong;

/// What is asked of any program.
#[derive(Clone, Copy, PartialEq, Eq)]
pub enum Request<'a> {
    /// The words that are taken.
    Help,
    /// The program's name and version.
    Version,
    /// The command of this name.
    Command(&'a str),
}

impl<'a> Words<'a> {
    /// The option, last of all words, whose value is missing.
    fn lacking(&self) -> Option<&'a str>
        ensures { text_in result ≡ (split_of self.now).lacking }
    {
        match self.next {
            Next::Value(option) => Some(option),
            _ => None,
        }
    }

    /// What the words ask for: help and the version come before all else, but for a value that is missing.
    pub fn request(&self) -> Result<Request<'a>, Wrong<'a>>
        ensures { told_request result ≡ requested (split_of self.now) }
    {
        if let Some(option) = self.lacking() {
            return Err(Wrong::NoValue(option));
        }
        if self.has("--help") || self.has("-h") {
            return Ok(Request::Help);
        }
        if self.has("--version") || self.has("-V") {
            return Ok(Request::Version);
        }
        let command = self.name(0, "a command")?;
        Ok(Request::Command(command))
    }
}
