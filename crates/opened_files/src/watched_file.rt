// A file that a merge writes is watched.
ghost use Rattle.std.specs.Prelude.{◌≡◌, true, false};

use crate::teller::Teller;
use file_calls::FileCalls;
use std::io;

/// A file of a merge, of which it is told how much is written. Each call is handed on as it is, and noted once.
#[derive(Drop)]
pub struct WatchedFile<'a, C: FileCalls> {
    file: C,
    teller: Teller<'a>,
    /// The bytes that are to be written in all, and those that are.
    all: u64,
    written: u64,
    /// Whether a write was asked for.
    begun: bool,
}

impl<'a, C: FileCalls> WatchedFile<'a, C> {
    /// A file to which so many bytes are to be written.
    pub fn new(file: C, teller: Teller<'a>, all: u64) -> WatchedFile<'a, C>
        ensures file { result.file ≡ file }
        ensures begun { result.begun ≡ false }
    {
        WatchedFile {
            file,
            teller,
            all,
            written: 0,
            begun: false,
        }
    }

    /// Whether a write was asked for.
    pub fn has_begun(&self) -> bool
        ensures { result ≡ self.now.begun }
    {
        self.begun
    }

    /// Tells no more.
    pub fn hush(&mut self)
        ensures file { self.new.file ≡ self.old.file }
        ensures begun { self.new.begun ≡ self.old.begun }
    {
        self.teller.hush();
    }

    // Tells that so many bytes more are written.
    fn tell(&mut self, bytes: usize)
        ensures file { self.new.file ≡ self.old.file }
        ensures begun { self.new.begun ≡ self.old.begun }
    {
        self.written = self.written.saturating_add(bytes as u64);
        self.teller.tell_written(self.written, self.all);
    }
}

impl<C: FileCalls> FileCalls for WatchedFile<'_, C> {
    ghost history = { λ w. C.history w.file };

    fn len(&mut self) -> io::Result<u64> {
        self.file.len()
    }

    fn read_at(&mut self, at: u64, out: &mut [u8]) -> io::Result<()> {
        self.file.read_at(at, out)
    }

    fn write_at(&mut self, at: u64, bytes: &[u8]) -> io::Result<()> {
        self.begun = true;
        let written = self.file.write_at(at, bytes);
        if written.is_ok() {
            self.tell(bytes.len());
        }
        written
    }

    fn set_len(&mut self, len: u64) -> io::Result<()> {
        self.file.set_len(len)
    }

    fn sync(&mut self, promised: bool) -> io::Result<()> {
        self.file.sync(promised)
    }
}
