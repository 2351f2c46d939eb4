// A file of the operating system. Each method makes one call of `std::fs`, and notes it with its answer: these lines are trusted.
ghost use Rattle.std.specs.Prelude.{◌≡◌, [], map, true, false, is_ok, ◌∷◌};
ghost use Rattle.file_calls.specs.Note.{call_of};
ghost use Rattle.file_calls.specs.Calls.{Write, SetLen, Sync};

use crate::FileCalls;
use crate::kinds::{LEN, READ, SET_LEN, SYNC, WRITE};
use crate::record::Record;
use std::fs::File;
use std::io;
use std::io::{Seek, SeekFrom};
use std::os::unix::fs::FileExt;

/// An open file. Once a write or a sync failed, it is given up: nothing more of it is written or synced, so that no write that was to
/// follow the failed one is there without it.
#[derive(Drop)]
pub struct DiskFile {
    file: File,
    noted: Record,
    is_given_up: bool,
}

/// The answer of a file that is given up.
fn given_up() -> io::Result<()>
    ensures { is_ok result ≡ false }
{
    Err(io::ErrorKind::Other.into())
}

impl DiskFile {
    /// An open file, of which no call is noted yet.
    pub fn new(file: File) -> DiskFile
        ensures { map call_of result.noted.notes ≡ [] }
    {
        DiskFile {
            file,
            noted: Record::new(),
            is_given_up: false,
        }
    }
}

impl FileCalls for DiskFile {
    ghost history = { λ f. map call_of f.noted.notes };

    // By a seek, since a block device has a length too.
    fn len(&mut self) -> io::Result<u64> {
        let answer = self.file.seek(SeekFrom::End(0));
        match answer {
            Ok(len) => self.noted.note(LEN, len, 0, true, &[]),
            Err(_) => self.noted.note(LEN, 0, 0, false, &[]),
        }
        answer
    }

    fn read_at(&mut self, at: u64, out: &mut [u8]) -> io::Result<()> {
        let answer = self.file.read_exact_at(out, at);
        self.noted
            .note(READ, at, out.len() as u64, answer.is_ok(), out);
        answer
    }

    fn write_at(&mut self, at: u64, bytes: &[u8]) -> io::Result<()>
        ensures noted { map call_of self.new.noted.notes ≡ Write at bytes.now (is_ok result) ∷ map call_of self.old.noted.notes }
        ensures given_up { self.old.is_given_up ≡ true → is_ok result ≡ false }
        ensures gives_up { is_ok result ≡ false → self.new.is_given_up ≡ true }
    {
        let answer = if self.is_given_up {
            given_up()
        } else {
            self.file.write_all_at(bytes, at)
        };
        self.is_given_up = answer.is_err();
        self.noted.note(WRITE, at, 0, answer.is_ok(), bytes);
        answer
    }

    fn set_len(&mut self, len: u64) -> io::Result<()>
        ensures noted { map call_of self.new.noted.notes ≡ SetLen len (is_ok result) ∷ map call_of self.old.noted.notes }
        ensures given_up { self.old.is_given_up ≡ true → is_ok result ≡ false }
        ensures gives_up { is_ok result ≡ false → self.new.is_given_up ≡ true }
    {
        let answer = if self.is_given_up {
            given_up()
        } else {
            self.file.set_len(len)
        };
        self.is_given_up = answer.is_err();
        self.noted.note(SET_LEN, len, 0, answer.is_ok(), &[]);
        answer
    }

    // The data, and what is needed to find it: the length too.
    fn sync(&mut self, promised: bool) -> io::Result<()>
        ensures noted { map call_of self.new.noted.notes ≡ Sync (is_ok result) promised ∷ map call_of self.old.noted.notes }
        ensures given_up { self.old.is_given_up ≡ true → is_ok result ≡ false }
        ensures gives_up { is_ok result ≡ false → self.new.is_given_up ≡ true }
    {
        let answer = if self.is_given_up {
            given_up()
        } else {
            self.file.sync_data()
        };
        self.is_given_up = answer.is_err();
        self.noted
            .note(SYNC, u64::from(promised), 0, answer.is_ok(), &[]);
        answer
    }
}
