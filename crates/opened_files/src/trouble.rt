// Why nothing is told of a store, or nothing is written.
ghost use Rattle.std.specs.Prelude.{◌≡◌};

use cow_image::{Failure, Stopped};
use images_on_files::Asked;
use std::alloc::AllocError;
use std::{fmt, io};

/// What went wrong, and with what.
#[derive(Drop)]
pub struct Trouble<'a> {
    /// The name of a file, as it was given; of standard output its own.
    pub name: &'a str,
    pub why: Why,
}

/// What went wrong with a file.
#[derive(Drop)]
pub enum Why {
    /// It could not be opened, made, renamed or asked.
    File(io::Error),
    /// A read of it failed: the byte where that begins, where it is one.
    Unreadable(Option<u64>, io::Error),
    /// A write failed.
    Unwritable(io::Error),
    /// Memory is refused.
    NoMemory,
    /// It has so many bytes, which are no whole number of sectors.
    PartOfSector(u64),
    /// It has so many sectors, which are too many.
    TooLarge(u64),
    /// It is not as it was when it was read first.
    Changed,
    /// It is neither a file nor a block device.
    NoImage,
    /// The store is the origin's file.
    SameFile,
    /// Another program has locked it.
    Locked,
    /// Somebody uses it: who, in words.
    Used(String),
    /// A device holds it, which is a block device: which one.
    Held(String),
    /// The file that is to be made is there already.
    Exists,
    /// So is the file that it is to be until it is whole.
    PartialExists,
    /// A merge stopped at it: what was asked of it, and why it failed.
    Unmerged(Asked, io::Error),
    /// It could not be made last before anything was written.
    Unsynced(io::Error),
    /// The folder of its name could not be made last.
    Folder(io::Error),
    /// It is there, whole, but the folder of its name could not be made last.
    ButFolder(io::Error),
    /// It is no file, and is to be written in place.
    NoFile,
    /// It is no file, and is to be read while it is written.
    NoLiveFile,
    /// A snapshot is to be read while it is in use, and this store has none, or has lost it.
    NoSnapshot,
    /// Pairs that it had are gone.
    NoPairs,
    /// It was opened in the place of a standard stream.
    NoStream,
    /// No header says how many sectors its chunks have.
    NoChunk,
    /// It has so many sectors, and the origin so many.
    Unequal(u64, u64),
    /// It has so many sectors, and no disk of `dmrig` has.
    NoDisk(u64),
    /// This line of it, counted from 1, is no answer of `dmrig` to `save`, `load` or `disk`, or has no end.
    NoAnswer(u64),
    /// No line of it tells a byte.
    NoData,
}

/// Says with which file something went wrong.
pub fn about<'a, T: Drop>(name: &'a str, asked: io::Result<T>) -> Result<T, Trouble<'a>> {
    match asked {
        Ok(value) => Ok(value),
        Err(error) => Err(Trouble::new(name, Why::File(error))),
    }
}

/// Says for which file there was no memory.
pub fn held<'a, T: Drop>(name: &'a str, asked: Result<T, AllocError>) -> Result<T, Trouble<'a>> {
    match asked {
        Ok(value) => Ok(value),
        Err(_) => Err(Trouble::new(name, Why::NoMemory)),
    }
}

impl<'a> Trouble<'a> {
    /// What went wrong with what has this name.
    pub fn new(name: &'a str, why: Why) -> Trouble<'a>
        ensures name { result.name.now ≡ name.now }
        ensures why { result.why ≡ why }
    {
        Trouble { name, why }
    }

    /// Whether a read failed.
    pub fn is_unreadable(&self) -> bool {
        matches!(&self.why, Why::Unreadable(_, _))
    }
}

impl Why {
    /// Why an image told nothing, a read of which failed at this byte.
    pub fn of_failure(failure: Failure, at: Option<u64>) -> Why {
        match failure {
            Failure::Unreadable(error) => Why::Unreadable(at, error),
            Failure::NoMemory => Why::NoMemory,
            Failure::PartOfSector(bytes) => Why::PartOfSector(bytes),
            Failure::TooLarge(sectors) => Why::TooLarge(sectors),
            Failure::Changed => Why::Changed,
        }
    }

    /// Why an export stopped, where a read failed at this byte.
    pub fn of_stopped(stopped: Stopped, at: Option<u64>) -> Why {
        match stopped {
            Stopped::Unreadable(error) => Why::Unreadable(at, error),
            Stopped::Unwritable(error) => Why::Unwritable(error),
            Stopped::NoMemory => Why::NoMemory,
        }
    }
}

/// What is to be done where a merge stopped.
const AGAIN: &str = "both files still show the snapshot: run the same command again";

impl fmt::Display for Trouble<'_> {
    fn fmt<W: fmt::Write>(&self, f: &mut fmt::Formatter<W>) -> fmt::Result {
        write!(f, "{}: {}", self.name, self.why)
    }
}

impl fmt::Display for Why {
    fn fmt<W: fmt::Write>(&self, f: &mut fmt::Formatter<W>) -> fmt::Result {
        match self {
            Why::File(error) => write!(f, "{error}"),
            Why::Unreadable(Some(at), error) => write!(f, "cannot read at byte {at}: {error}"),
            Why::Unreadable(None, error) => write!(f, "cannot read: {error}"),
            Why::Unwritable(error) => write!(f, "cannot write: {error}"),
            Why::NoMemory => write!(f, "no memory"),
            Why::PartOfSector(bytes) => write!(f, "{bytes} bytes are no whole number of sectors"),
            Why::TooLarge(sectors) => write!(f, "{sectors} sectors are more than 2^36"),
            Why::Changed => write!(f, "changed while it was read"),
            Why::NoImage => write!(f, "neither a file nor a block device"),
            Why::SameFile => write!(f, "is the origin's file too"),
            Why::Locked => write!(f, "another program has locked it"),
            Why::Used(user) => write!(f, "{user}"),
            Why::Held(holder) => write!(
                f,
                "{holder} holds it open, so what is read here may be old: copy it by dd iflag=direct, and give the copy"
            ),
            Why::Exists => write!(f, "is there already"),
            Why::Unmerged(Asked::Len, error) => write!(f, "{error}: {AGAIN}"),
            Why::Unmerged(Asked::Read(at), error) => {
                write!(f, "cannot read at byte {at}: {error}: {AGAIN}")
            }
            Why::Unmerged(Asked::Write(at), error) => {
                write!(f, "cannot write at byte {at}: {error}: {AGAIN}")
            }
            Why::Unmerged(Asked::Sync, error) => write!(f, "cannot sync: {error}: {AGAIN}"),
            Why::Unsynced(error) => write!(
                f,
                "cannot sync: {error}: nothing is written, but what was copied there may be lost: copy both files anew"
            ),
            Why::Folder(error) => write!(f, "cannot sync its folder: {error}: nothing is written"),
            Why::ButFolder(error) => {
                write!(f, "is there, whole, but cannot sync its folder: {error}")
            }
            Why::NoFile => write!(f, "no file: only files are merged"),
            Why::NoLiveFile => write!(f, "no file: only files are read while they are written"),
            Why::NoSnapshot => write!(f, "its header is that of no snapshot that is in use"),
            Why::NoPairs => write!(
                f,
                "pairs that it had are gone: end this before a merge, and before COW is used again"
            ),
            Why::NoStream => write!(f, "standard input, output or error is closed"),
            Why::NoChunk => write!(
                f,
                "no header says how many sectors a chunk has: give them by --chunk"
            ),
            Why::Unequal(own, origin) => {
                write!(
                    f,
                    "{own} sectors, and the origin has {origin}: both must have as many"
                )
            }
            Why::NoDisk(sectors) => {
                write!(f, "{sectors} sectors: a disk of dmrig has 1 to 16777216")
            }
            Why::NoAnswer(number) => write!(
                f,
                "line {number} is no `ok` with data or alone, or has no end: nothing is written"
            ),
            Why::NoData => write!(f, "no line has data: nothing is written"),
            Why::PartialExists => write!(
                f,
                "the file of this name and .partial is not what an export left, or one is at work on it: see to it first"
            ),
        }
    }
}
