// Where lines come from.
use std::io;
use std::io::Read;

/// Where lines come from: standard input or a file. The loop over the lines stands in the program once for both.
#[derive(Drop)]
pub enum Source<I: Read, F: Read> {
    /// Standard input.
    Input(I),
    /// The file that the words name.
    File(F),
}

impl<I: Read, F: Read> Read for Source<I, F> {
    ghost use Rattle.dmrig.specs.Left.{left_in};

    ghost remaining = { left_in I.remaining F.remaining };

    fn read(&mut self, buf: &mut [u8]) -> io::Result<usize> {
        match self {
            Source::Input(input) => input.read(buf),
            Source::File(file) => file.read(buf),
        }
    }
}
