// Bytes are written to memory.
ghost use Rattle.std.specs.Prelude.{◌≡◌, Some};

use crate::Sink;
use std::io;

/// Bytes in memory, of which there is room for so many more.
#[derive(Drop)]
pub struct MemSink {
    pub bytes: Vec<u8>,
    pub room: usize,
}

impl Sink for MemSink {
    ghost contents = { λ sink. Some sink.bytes.items };

    fn put(&mut self, bytes: &[u8]) -> io::Result<()> {
        if self.room < bytes.len() {
            self.bytes.extend_from_slice(&bytes[..self.room])?;
            self.room = 0;
            return Err(io::ErrorKind::StorageFull.into());
        }
        self.bytes.extend_from_slice(bytes)?;
        self.room -= bytes.len();
        Ok(())
    }
}
