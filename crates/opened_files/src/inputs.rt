// An origin and its store, which are read.

use crate::files::is_free;
use crate::input::Input;
use crate::trouble::Trouble;
use image_options::Telling;

/// An origin and its store, two files that are only read.
#[derive(Drop)]
pub struct Inputs<'a> {
    pub origin: Input<'a>,
    pub cow: Input<'a>,
}

impl<'a> Inputs<'a> {
    /// Opens both, and sees that they are not the same file. It is told how much is read of either, when this is wanted.
    pub fn open(
        rt: &'a HostRuntime,
        origin: &'a str,
        cow: &'a str,
        telling: Telling,
    ) -> Result<Inputs<'a>, Trouble<'a>> {
        let origin = Input::open(rt, origin, telling)?;
        let cow = Input::open(rt, cow, telling)?;
        Inputs::apart(origin, cow)
    }

    /// Opens both for a new file that is made of them: sees that its name is free, and that nobody writes to either.
    pub fn open_for(
        rt: &'a HostRuntime,
        origin: &'a str,
        cow: &'a str,
        out: &'a str,
        telling: Telling,
    ) -> Result<Inputs<'a>, Trouble<'a>> {
        is_free(rt, out)?;
        let inputs = Inputs::open(rt, origin, cow, telling)?;
        inputs.are_unused(rt, true)?;
        Ok(inputs)
    }

    /// Two that are open, and are seen to be not the same file.
    pub(crate) fn apart(origin: Input<'a>, cow: Input<'a>) -> Result<Inputs<'a>, Trouble<'a>> {
        origin.is_apart(&cow)?;
        Ok(Inputs { origin, cow })
    }

    /// Sees that nobody uses either, or that nobody writes to either, as far as that can be told.
    pub fn are_unused(&self, rt: &HostRuntime, writers: bool) -> Result<(), Trouble<'a>> {
        self.origin.is_unused(rt, writers)?;
        self.cow.is_unused(rt, writers)
    }

    /// Sees that both are as they were when they were opened.
    pub fn are_unchanged(&self) -> Result<(), Trouble<'a>> {
        self.cow.is_unchanged()?;
        self.origin.is_unchanged()
    }

    /// Tells no more how much is read of either.
    pub fn hush(&mut self) {
        self.origin.hush();
        self.cow.hush();
    }
}
