// Bytes are written to a file, with holes where they are zero.
ghost use Rattle.std.specs.Prelude.{◌≡◌, ◌+◌, ◌^◌, ◌<◌, ◌≤◌, [], ◌++◌, ◌∷◌, length, replicate, true, false, is_ok, Some, OnOk};
ghost use Rattle.file_calls.specs.Calls.{SetLen, Sync, Write};
ghost use Rattle.file_calls.specs.Kept.{now_in};
ghost use Rattle.images_on_files.specs.Held.{held};

use crate::holes::{data_begins, data_ends};
use file_calls::FileCalls;
use image::Sink;
use std::io;

/// A new file that is written from its front to its end. Blocks of zeros are left as holes.
#[derive(Drop)]
pub struct FileSink<C: FileCalls> {
    file: C,
    at: u64,
    ghost short: { length (now_in [] (C.history file)) ≤ at },
}

impl<C: FileCalls> FileSink<C> {
    /// The sink into an empty file, which nobody has called.
    pub fn new(file: C) -> FileSink<C>
        requires { C.history file ≡ [] }
        ensures file { result.file ≡ file }
        ensures at { result.at ≡ 0 }
    {
        FileSink { file, at: 0 }
    }

    /// Gives the file its length, and makes it last through a stop.
    pub fn finish(&mut self) -> io::Result<()>
        ensures done { OnOk result (C.history self.new.file ≡ Sync true false ∷ SetLen self.old.at true ∷ C.history self.old.file) }
        ensures all { now_in [] (C.history self.new.file) ≡ held (C.history self.old.file) self.old.at }
    {
        self.file.set_len(self.at)?;
        self.file.sync(false)
    }

    // Leaves out so many zeros.
    fn skip(&mut self, count: u64)
        requires { self.old.at + count < 2 ^ 64 }
        ensures at { self.new.at ≡ self.old.at + count }
        ensures file { self.new.file ≡ self.old.file }
        ensures held { held (C.history self.new.file) self.new.at ≡ held (C.history self.old.file) self.old.at ++ replicate count 0 }
    {
        self.at += count;
    }

    // Writes these bytes behind those that were put. Where that fails they count as written: what is there is not known.
    fn write(&mut self, part: &[u8]) -> io::Result<()>
        requires { self.old.at + length part.now < 2 ^ 64 }
        ensures at { self.new.at ≡ self.old.at + length part.now }
        ensures held { held (C.history self.new.file) self.new.at ≡ held (C.history self.old.file) self.old.at ++ part.now }
        ensures noted { 0 < length part.now → C.history self.new.file ≡ Write self.old.at part.now (is_ok result) ∷ C.history self.old.file }
    {
        let at = self.at;
        self.at = at + part.len() as u64;
        if part.is_empty() {
            return Ok(());
        }
        self.file.write_at(at, part)
    }
}

impl<C: FileCalls> Sink for FileSink<C> {
    ghost contents = { λ s. Some (held (C.history s.file) s.at) };

    fn put(&mut self, bytes: &[u8]) -> io::Result<()> {
        let start = self.at;
        if start.checked_add(bytes.len() as u64).is_none() {
            return Err(io::ErrorKind::FileTooLarge.into());
        }
        let mut done = 0;
        while done < bytes.len() {
            let from = data_begins(start, bytes, done);
            let to = data_ends(start, bytes, from);
            self.skip((from - done) as u64);
            if let Err(error) = self.write(&bytes[from..to]) {
                return Err(error);
            }
            done = to;
        }
        Ok(())
    }
}
