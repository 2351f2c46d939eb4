// A file in memory, for tests and as a model.
ghost use Rattle.std.specs.Prelude.{◌≡◌, map, [], IfOk};
ghost use Rattle.file_calls.specs.Note.{call_of};

use crate::FileCalls;
use crate::kinds::{LEN, READ, SET_LEN, SYNC, WRITE};
use crate::record::Record;
use std::alloc::{AllocError, Global};
use std::io;

/// What a file in memory does when it does not do as it is asked.
#[derive(Clone, Copy, PartialEq, Eq)]
pub enum Fault {
    /// The call fails, and does nothing.
    Fails,
    /// The call is answered, and does nothing; a read gives zeros.
    Lies,
    /// A write fails, and its first half is written; another call fails.
    Tears,
    /// The call fails, and so does every later one.
    Stops,
}

/// A file in memory, with a volatile cache.
#[derive(Drop)]
pub struct MemFile {
    alloc: Global,
    /// What reads give.
    pub bytes: Vec<u8>,
    /// What a stop may leave of it: its bytes as they were when it was synced last.
    pub synced: Vec<u8>,
    /// After how many calls which fault comes.
    pub fault: Option<(u64, Fault)>,
    noted: Record,
}

impl MemFile {
    /// A file of these bytes, all of them synced.
    pub fn new(alloc: Global, bytes: Vec<u8>) -> Result<MemFile, AllocError>
        ensures bytes { IfOk result (λ file. file.bytes ≡ bytes) }
        ensures synced { IfOk result (λ file. file.synced.items ≡ bytes.items) }
        ensures fresh { IfOk result (λ file. map call_of file.noted.notes ≡ []) }
    {
        let synced = bytes.to_vec(alloc)?;
        Ok(MemFile {
            alloc,
            bytes,
            synced,
            fault: None,
            noted: Record::new(),
        })
    }

    /// The fault of this call, if it has one.
    fn meets(&mut self) -> Option<Fault>
        ensures { self.new.noted ≡ self.old.noted }
    {
        let (left, fault) = self.fault?;
        if left > 0 {
            self.fault = Some((left - 1, fault));
            return None;
        }
        if fault != Fault::Stops {
            self.fault = None;
        }
        Some(fault)
    }

    fn put(&mut self, at: u64, bytes: &[u8]) -> io::Result<()>
        ensures { self.new.noted ≡ self.old.noted }
    {
        let len = self.bytes.len();
        if at > len as u64 || bytes.len() > len - at as usize {
            return Err(io::ErrorKind::FileTooLarge.into());
        }
        let from = at as usize;
        self.bytes[from..from + bytes.len()].copy_from_slice(bytes);
        Ok(())
    }

    fn get(&self, at: u64, out: &mut [u8]) -> io::Result<()> {
        let len = self.bytes.len();
        if at > len as u64 || out.len() > len - at as usize {
            return Err(io::ErrorKind::UnexpectedEof.into());
        }
        let from = at as usize;
        out.copy_from_slice(&self.bytes[from..from + out.len()]);
        Ok(())
    }

    fn cut(&mut self, len: u64) -> io::Result<()>
        ensures { self.new.noted ≡ self.old.noted }
    {
        let Ok(len) = usize::try_from(len) else {
            return Err(io::ErrorKind::FileTooLarge.into());
        };
        self.bytes.resize(len, 0)?;
        Ok(())
    }

    fn keep(&mut self) -> io::Result<()>
        ensures { self.new.noted ≡ self.old.noted }
    {
        self.synced = self.bytes.to_vec(self.alloc)?;
        Ok(())
    }
}

fn failed() -> io::Result<()> {
    Err(io::ErrorKind::Other.into())
}

impl FileCalls for MemFile {
    ghost history = { λ f. map call_of f.noted.notes };

    fn len(&mut self) -> io::Result<u64> {
        let len = self.bytes.len() as u64;
        self.noted.note(LEN, len, 0, true, &[]);
        Ok(len)
    }

    fn read_at(&mut self, at: u64, out: &mut [u8]) -> io::Result<()> {
        let answer = match self.meets() {
            None => self.get(at, out),
            Some(Fault::Lies) => {
                out.fill(0);
                Ok(())
            }
            Some(_) => failed(),
        };
        self.noted
            .note(READ, at, out.len() as u64, answer.is_ok(), out);
        answer
    }

    fn write_at(&mut self, at: u64, bytes: &[u8]) -> io::Result<()> {
        let answer = match self.meets() {
            None => self.put(at, bytes),
            Some(Fault::Lies) => Ok(()),
            Some(Fault::Tears) => {
                let _half = self.put(at, &bytes[..bytes.len() / 2]);
                failed()
            }
            Some(_) => failed(),
        };
        self.noted.note(WRITE, at, 0, answer.is_ok(), bytes);
        answer
    }

    fn set_len(&mut self, len: u64) -> io::Result<()> {
        let answer = match self.meets() {
            None => self.cut(len),
            Some(Fault::Lies) => Ok(()),
            Some(_) => failed(),
        };
        self.noted.note(SET_LEN, len, 0, answer.is_ok(), &[]);
        answer
    }

    fn sync(&mut self, promised: bool) -> io::Result<()> {
        let answer = match self.meets() {
            None => self.keep(),
            Some(Fault::Lies) => Ok(()),
            Some(_) => failed(),
        };
        self.noted
            .note(SYNC, u64::from(promised), 0, answer.is_ok(), &[]);
        answer
    }
}
