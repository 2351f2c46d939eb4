// A file whose failures are told.
ghost use Rattle.std.specs.Prelude.{◌≡◌};

use file_calls::FileCalls;
use std::io;

/// A file of which the first read, the first write and the first sync that fail are told on standard error. The calls are those of the
/// file below, one for one.
#[derive(Drop)]
pub struct ToldFile<'a, C: FileCalls> {
    rt: &'a HostRuntime,
    name: &'a str,
    file: C,
    reads: bool,
    writes: bool,
    syncs: bool,
}

impl<'a, C: FileCalls> ToldFile<'a, C> {
    /// A file of this name, of which nothing is told yet.
    pub fn new(rt: &'a HostRuntime, name: &'a str, file: C) -> ToldFile<'a, C>
        ensures file { result.file ≡ file }
        ensures named { result.name.now ≡ name.now }
    {
        ToldFile {
            rt,
            name,
            file,
            reads: false,
            writes: false,
            syncs: false,
        }
    }

    /// Its name.
    pub fn name(&self) -> &'a str
        ensures { result.now ≡ self.now.name.now }
    {
        self.name
    }

    // Tells that a read from this byte on failed.
    fn tell_read(&mut self, at: u64, error: &io::Error)
        ensures { self.new.file ≡ self.old.file }
    {
        if !self.reads {
            self.reads = true;
            let _ = eprintln!(self.rt;
                "lochknife: {}: cannot read at byte {at}: {error}",
                self.name
            );
        }
    }

    // Tells that a write from this byte on failed.
    fn tell_write(&mut self, at: u64, error: &io::Error)
        ensures { self.new.file ≡ self.old.file }
    {
        if !self.writes {
            self.writes = true;
            let _ = eprintln!(self.rt;
                "lochknife: {}: cannot write at byte {at}: {error}",
                self.name
            );
        }
    }

    // Tells that a sync failed.
    fn tell_sync(&mut self, error: &io::Error)
        ensures { self.new.file ≡ self.old.file }
    {
        if !self.syncs {
            self.syncs = true;
            let _ = eprintln!(self.rt; "lochknife: {}: cannot sync: {error}", self.name);
        }
    }
}

impl<C: FileCalls> FileCalls for ToldFile<'_, C> {
    ghost history = { λ f. C.history f.file };

    fn len(&mut self) -> io::Result<u64> {
        self.file.len()
    }

    fn read_at(&mut self, at: u64, out: &mut [u8]) -> io::Result<()> {
        let answer = self.file.read_at(at, out);
        if let Err(error) = &answer {
            self.tell_read(at, error);
        }
        answer
    }

    fn write_at(&mut self, at: u64, bytes: &[u8]) -> io::Result<()> {
        let answer = self.file.write_at(at, bytes);
        if let Err(error) = &answer {
            self.tell_write(at, error);
        }
        answer
    }

    fn set_len(&mut self, len: u64) -> io::Result<()> {
        self.file.set_len(len)
    }

    fn sync(&mut self, promised: bool) -> io::Result<()> {
        let answer = self.file.sync(promised);
        if let Err(error) = &answer {
            self.tell_sync(error);
        }
        answer
    }
}
