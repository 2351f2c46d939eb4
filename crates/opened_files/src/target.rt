// Where an array is written: a new file, or standard output.
ghost use Rattle.std.specs.Prelude.{None};

use file_calls::DiskFile;
use image::Sink;
use images_on_files::FileSink;
use std::io;
use std::io::Write;

/// The word that stands for standard output.
pub const OUTPUT: &str = "-";

/// A new file, or standard output where there is none.
#[derive(Drop)]
pub struct Target<'w, W: Write> {
    file: Option<FileSink<DiskFile>>,
    output: &'w mut W,
}

impl<'w, W: Write> Target<'w, W> {
    /// A new file, or standard output where none is given.
    pub fn new(file: Option<FileSink<DiskFile>>, output: &'w mut W) -> Target<'w, W> {
        Target { file, output }
    }

    /// Makes a file last through a stop, with its whole length.
    pub fn finish(&mut self) -> io::Result<()> {
        match &mut self.file {
            Some(sink) => sink.finish(),
            None => self.output.flush(),
        }
    }
}

impl<W: Write> Sink for Target<'_, W> {
    ghost contents = { λ _. None };

    fn put(&mut self, bytes: &[u8]) -> io::Result<()> {
        match &mut self.file {
            Some(sink) => sink.put(bytes),
            None => self.output.write_all(bytes),
        }
    }
}
