// An origin and its store that another program writes meanwhile.
ghost use Rattle.std.specs.Prelude.{None};

use crate::input::Input;
use crate::inputs::Inputs;
use crate::trouble::Trouble;
use image::Image;
use read_beside_writer::MovingFiles;
use std::io;

/// An origin and its store, which are only read while another program writes them. No lock is asked for.
#[derive(Drop)]
pub struct LiveInputs<'a> {
    pub origin: Input<'a>,
    pub cow: Input<'a>,
}

impl<'a> LiveInputs<'a> {
    /// Opens both, and sees that they are not the same file.
    pub fn open(
        rt: &'a HostRuntime,
        origin: &'a str,
        cow: &'a str,
    ) -> Result<LiveInputs<'a>, Trouble<'a>> {
        let origin = Input::unlocked(rt, origin)?;
        let cow = Input::unlocked(rt, cow)?;
        let Inputs { origin, cow } = Inputs::apart(origin, cow)?;
        Ok(LiveInputs { origin, cow })
    }
}

impl MovingFiles for LiveInputs<'_> {
    ghost history = { λ _. None };

    ghost now = { λ _. 0 };

    fn read_origin(&mut self, at: u64, out: &mut [u8]) -> io::Result<()> {
        self.origin.read_at(at, out)
    }

    fn read_store(&mut self, at: u64, out: &mut [u8]) -> io::Result<()> {
        self.cow.read_at(at, out)
    }

    fn read_sector(&mut self, sector: u64, out: &mut [u8; 512]) -> io::Result<()> {
        match sector.checked_mul(512) {
            Some(at) => self.cow.read_at(at, out.as_mut_slice()),
            None => Err(io::ErrorKind::UnexpectedEof.into()),
        }
    }
}
