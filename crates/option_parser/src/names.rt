// The names, of which a command wants so many.
ghost use Rattle.std.specs.Prelude.{◌≡◌};
ghost use Rattle.option_parser.specs.Reading.{split_of};
ghost use Rattle.option_parser.specs.Asks.{name_at, only, one as one_by, two as two_by, three as three_by, told_one, told_none, told_two, told_three};

use crate::splitting::Words;
use crate::wrong::Wrong;

impl<'a> Words<'a> {
    /// The name at a place, where this is to stand.
    pub fn name(&self, place: usize, wanted: &'static str) -> Result<&'a str, Wrong<'a>>
        ensures { told_one result ≡ name_at (split_of self.now) place wanted.now }
    {
        match self.names.get(place) {
            Some(name) => Ok(*name),
            None => Err(Wrong::Missing(wanted)),
        }
    }

    /// Sees that there are no more than so many names.
    fn are_so_many(&self, count: usize) -> Result<(), Wrong<'a>>
        ensures { told_none result ≡ only (split_of self.now) count tt }
    {
        match self.names.get(count) {
            Some(name) => Err(Wrong::Name(*name)),
            None => Ok(()),
        }
    }

    /// The one name behind the command's.
    pub fn one(&self, wanted: &'static str) -> Result<&'a str, Wrong<'a>>
        ensures { told_one result ≡ one_by (split_of self.now) wanted.now }
    {
        let name = self.name(1, wanted)?;
        self.are_so_many(2)?;
        Ok(name)
    }

    /// The two names behind the command's.
    pub fn two(
        &self,
        first: &'static str,
        second: &'static str,
    ) -> Result<(&'a str, &'a str), Wrong<'a>>
        ensures { told_two result ≡ two_by (split_of self.now) first.now second.now }
    {
        let one = self.name(1, first)?;
        let two = self.name(2, second)?;
        self.are_so_many(3)?;
        Ok((one, two))
    }

    /// The three names behind the command's.
    pub fn three(
        &self,
        first: &'static str,
        second: &'static str,
        third: &'static str,
    ) -> Result<(&'a str, &'a str, &'a str), Wrong<'a>>
        ensures { told_three result ≡ three_by (split_of self.now) first.now second.now third.now }
    {
        let one = self.name(1, first)?;
        let two = self.name(2, second)?;
        let three = self.name(3, third)?;
        self.are_so_many(4)?;
        Ok((one, two, three))
    }
}
