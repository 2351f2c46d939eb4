// Standard output of a row: what is written is kept, until it fails.

use std::fs::File;
use std::io;
use std::io::{ErrorKind, Write};

/// What is written. At its first write a file may grow, and one of its writes, counted from 1, and all after it may fail.
#[derive(Drop)]
pub struct Output<'a> {
    pub rt: &'a HostRuntime,
    pub bytes: Vec<u8>,
    pub grows: Option<&'a str>,
    pub fails_at: u64,
    pub writes: u64,
}

impl Output<'_> {
    // Adds a sector to the file that grows.
    fn grow(&mut self) -> io::Result<()> {
        if let Some(name) = self.grows.take() {
            let mut file = File::options().append(true).open(self.rt, name)?;
            file.write_all(&[0u8; 512])?;
        }
        Ok(())
    }
}

impl Write for Output<'_> {
    fn write(&mut self, bytes: &[u8]) -> io::Result<usize> {
        self.writes = self.writes.saturating_add(1);
        self.grow()?;
        if self.fails_at != 0 && self.fails_at <= self.writes {
            return Err(ErrorKind::StorageFull.into());
        }
        self.bytes.extend_from_slice(bytes)?;
        Ok(bytes.len())
    }

    fn flush(&mut self) -> io::Result<()> {
        Ok(())
    }
}
