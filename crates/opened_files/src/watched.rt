// What is being written is watched.
ghost use Rattle.std.specs.Prelude.{None};

use crate::target::Target;
use crate::teller::Teller;
use image::Sink;
use std::io;
use std::io::Write;

/// A file that is being made, or standard output, of which it is told how much is written.
#[derive(Drop)]
pub struct Watched<'a, 'w, W: Write> {
    sink: Target<'w, W>,
    teller: Teller<'a>,
    /// The bytes of the whole file, and those that are written.
    size: u64,
    written: u64,
}

impl<'a, 'w, W: Write> Watched<'a, 'w, W> {
    /// A file of so many bytes, of which none is written.
    pub fn new(sink: Target<'w, W>, size: u64, teller: Teller<'a>) -> Watched<'a, 'w, W> {
        Watched {
            sink,
            teller,
            size,
            written: 0,
        }
    }

    /// Makes a file last through a stop, with its whole length.
    pub fn finish(&mut self) -> io::Result<()> {
        self.sink.finish()
    }

    /// Tells no more.
    pub fn hush(&mut self) {
        self.teller.hush();
    }
}

impl<W: Write> Sink for Watched<'_, '_, W> {
    ghost contents = { λ _. None };

    fn put(&mut self, bytes: &[u8]) -> io::Result<()> {
        self.sink.put(bytes)?;
        self.written = self.written.saturating_add(bytes.len() as u64);
        self.teller.tell_written(self.written, self.size);
        Ok(())
    }
}
