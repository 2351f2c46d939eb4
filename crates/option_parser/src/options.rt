// Which options are given, and with which values.
ghost use Rattle.std.specs.Prelude.{◌≡◌, find, not, map, OnOk, IfOk};
ghost use Rattle.option_parser.specs.Splits.{is_one_of as is_one_of_by, has as has_by, value_of, values_of};
ghost use Rattle.option_parser.specs.Reading.{texts_of, text_in, given_in, split_of};
ghost use Rattle.option_parser.specs.Asks.{all_taken, told_none};

use crate::splitting::{Given, Words, is_one_of};
use crate::wrong::Wrong;
use std::alloc::{AllocError, Global};

impl<'a> Words<'a> {
    /// Whether an option is given.
    pub fn has(&self, option: &str) -> bool
        ensures { result ≡ has_by (split_of self.now) option.now }
    {
        for given in self.options.as_slice() {
            if given.option == option {
                return true;
            }
        }
        false
    }

    /// The value of an option; of one that is given twice, the last one.
    pub fn value(&self, option: &str) -> Option<&'a str>
        ensures { text_in result ≡ value_of (split_of self.now) option.now }
    {
        let mut value = None;
        for given in self.options.as_slice() {
            if given.option == option {
                value = given.value;
            }
        }
        value
    }

    /// The values of an option that may be given more than once, in their order.
    pub fn values(&self, alloc: Global, option: &str) -> Result<Vec<&'a str>, AllocError>
        ensures { IfOk result (λ values. texts_of values.items ≡ values_of (split_of self.now) option.now) }
    {
        let mut values = Vec::new(alloc);
        for given in self.options.as_slice() {
            if given.option == option
                && let Some(value) = given.value
            {
                values.push(value)?;
            }
        }
        Ok(values)
    }

    /// The first option that is none of these.
    fn not_taken(&self, taken: &[&str]) -> Option<Given<'a>>
        ensures { given_in result ≡ find (λ given. not (is_one_of_by (texts_of taken.now) given.option)) (split_of self.now).options }
    {
        for given in self.options.as_slice() {
            if !is_one_of(taken, given.option) {
                return Some(*given);
            }
        }
        None
    }

    /// Sees that all options are of these, which a command takes.
    pub fn take_only(&self, taken: &[&str]) -> Result<(), Wrong<'a>>
        ensures { told_none result ≡ all_taken (texts_of taken.now) (split_of self.now) }
    {
        match self.not_taken(taken) {
            Some(given) => Err(Wrong::Option(given.option)),
            None => Ok(()),
        }
    }
}
