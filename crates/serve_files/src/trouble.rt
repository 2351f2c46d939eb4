// Why a command does not do what it is asked for.

ghost use Rattle.std.specs.Prelude.{◌≡◌, ◌∷◌, ◌++◌, IfErr, IfOk, Ok, OnErr, OnOk, [], is_ok};
ghost use Rattle.serve_files.specs.Names.{IsAbout};

use sector::Refusal;
use std::alloc::AllocError;
use std::{fmt, io};

/// What went wrong, and with what.
#[derive(Drop)]
pub struct Trouble<'a> {
    /// The name of a file, as it was given.
    pub name: &'a str,
    pub why: Why,
}

/// What went wrong with a file.
#[derive(Drop)]
pub enum Why {
    /// It could not be opened, made or asked.
    File(io::Error),
    /// Memory is refused.
    NoMemory,
    /// It has so many bytes, which are no whole number of sectors.
    PartOfSector(u64),
    /// It has no bytes.
    Empty,
    /// It has so many bytes, which are more than a device of a volume has.
    TooLarge(u64),
    /// It is no file.
    NoFile,
    /// A standard stream is closed.
    NoStream,
    /// It is the file of another name that is given.
    SameFile,
    /// Another program has locked it.
    Locked,
    /// Somebody uses it: who, in words.
    Used(String),
    /// It has so many bytes, and is to be a new store.
    NotEmpty(u64),
    /// It could not be made last before anything was written.
    Unsynced(io::Error),
    /// The folder of its name could not be made last.
    Folder(io::Error),
    /// A read, a write or a sync of it failed.
    Failed,
    /// A write or a sync of it failed while it was served.
    Stopped,
    /// It is a store whose snapshot is lost, and that could not be marked so.
    Unmarked,
    /// It was served to the end, and could not be synced then.
    Unfinished(io::Error),
    /// What came is no message of a client.
    NoClient,
    /// There was nothing to do, and a request was not answered.
    Stuck,
    /// It is a store that is refused.
    Store(StoreFault),
    /// The list of its snapshots could not be read or written.
    List(io::Error),
    /// The file of that list holds something else.
    NoList,
    /// It has this snapshot, which is left out.
    LeftOut(String),
    /// The merge of this store into it is begun, and left out.
    MergeLeft(String),
}

/// Why a store is refused.
#[derive(Clone, Copy, PartialEq, Eq)]
pub enum StoreFault {
    /// It has a snapshot already.
    Written,
    /// It has no snapshot yet, beside a merge.
    Fresh,
    /// It has less than so many bytes, which a header and an area take.
    TooSmall(u64),
    /// It can't be loaded.
    Refused(Refusal),
}

/// Says with which file something went wrong.
pub fn about<'a, T: Drop>(name: &'a str, asked: io::Result<T>) -> Result<T, Trouble<'a>>
    ensures ok { is_ok result ≡ is_ok asked }
    ensures same { IfOk result (λ value. asked ≡ Ok value) }
    ensures told { IfErr result (IsAbout name.now) }
{
    match asked {
        Ok(value) => Ok(value),
        Err(error) => {
            let why = Why::File(error);
            Err(Trouble { name, why })
        }
    }
}

/// Says for which file there was no memory.
pub fn held<'a, T: Drop>(name: &'a str, asked: Result<T, AllocError>) -> Result<T, Trouble<'a>>
    ensures ok { is_ok result ≡ is_ok asked }
    ensures same { IfOk result (λ value. asked ≡ Ok value) }
    ensures told { IfErr result (IsAbout name.now) }
{
    match asked {
        Ok(value) => Ok(value),
        Err(_) => {
            let why = Why::NoMemory;
            Err(Trouble { name, why })
        }
    }
}

/// Adds an item, or says for which file there was no memory.
pub fn pushed<'a, T: Drop>(name: &'a str, all: &mut Vec<T>, item: T) -> Result<(), Trouble<'a>>
    ensures ok { OnOk result (all.new.items ≡ all.old.items ++ item ∷ []) }
    ensures err { OnErr result (all.new.items ≡ all.old.items) }
    ensures told { IfErr result (IsAbout name.now) }
{
    match all.push(item) {
        Ok(()) => Ok(()),
        Err(_) => {
            let why = Why::NoMemory;
            Err(Trouble { name, why })
        }
    }
}

impl fmt::Display for Trouble<'_> {
    fn fmt<W: fmt::Write>(&self, f: &mut fmt::Formatter<W>) -> fmt::Result {
        write!(f, "{}: {}", self.name, self.why)
    }
}

impl fmt::Display for Why {
    fn fmt<W: fmt::Write>(&self, f: &mut fmt::Formatter<W>) -> fmt::Result {
        match self {
            Why::File(error) => write!(f, "{error}"),
            Why::NoMemory => write!(f, "no memory"),
            Why::PartOfSector(bytes) => {
                write!(f, "{bytes} bytes are no whole number of sectors of 512")
            }
            Why::Empty => write!(f, "has no bytes"),
            Why::TooLarge(bytes) => {
                write!(
                    f,
                    "{bytes} bytes are more than 1099511627776 (1 TiB), the most that is served"
                )
            }
            Why::NoFile => write!(f, "no file: only files are written"),
            Why::NoStream => write!(f, "closed"),
            Why::SameFile => write!(f, "is the file of another name that is given"),
            Why::Locked => write!(f, "another program has locked it"),
            Why::Used(user) => write!(f, "{user}"),
            Why::NotEmpty(bytes) => {
                write!(
                    f,
                    "is there already, with {bytes} bytes: a new store is an empty file or none"
                )
            }
            Why::Unsynced(error) => write!(f, "cannot sync: {error}: nothing is written"),
            Why::Folder(error) => write!(f, "is there, but cannot sync its folder: {error}"),
            Why::Failed => write!(f, "a read, a write or a sync of it failed"),
            Why::Stopped => write!(
                f,
                "a write or a sync of it failed, so serving has ended: what was not flushed before may be lost"
            ),
            Why::Unmarked => write!(
                f,
                "its snapshot is lost and could not be marked so, so serving has ended, and the store is as it was"
            ),
            Why::Unfinished(error) => write!(f, "cannot sync at the end: {error}"),
            Why::NoClient => write!(f, "no client of the Network Block Device protocol"),
            Why::Stuck => write!(f, "a request is not answered, and nothing is left to do"),
            Why::Store(fault) => write!(f, "{fault}"),
            Why::List(error) => write!(f, "the list of its snapshots beside it: {error}"),
            Why::NoList => write!(
                f,
                "the file .snapshots beside it is no list of its snapshots"
            ),
            Why::LeftOut(cow) => write!(
                f,
                "has the snapshot {cow}, which is left out: it would change. Add --snapshot {cow}, or --anyway to give it up"
            ),
            Why::MergeLeft(cow) => write!(
                f,
                "the merge of {cow} into it is not done: serve it with --merge {cow}"
            ),
        }
    }
}

impl fmt::Display for StoreFault {
    fn fmt<W: fmt::Write>(&self, f: &mut fmt::Formatter<W>) -> fmt::Result {
        match self {
            StoreFault::Written => write!(f, "has a snapshot already: take one over a new store"),
            StoreFault::Fresh => write!(
                f,
                "is empty: a merge wants a snapshot that is there, and none is taken beside it"
            ),
            StoreFault::TooSmall(least) => {
                write!(
                    f,
                    "too small: with chunks of this size a store has at least {least} bytes"
                )
            }
            StoreFault::Refused(Refusal::BadHeader) => {
                write!(f, "no store: it begins neither with zero nor with SnAp")
            }
            StoreFault::Refused(Refusal::BadVersion) => write!(f, "the store's version is not 1"),
            StoreFault::Refused(Refusal::BadChunk) => {
                write!(f, "the store's chunk size is not allowed")
            }
            StoreFault::Refused(Refusal::Invalid) => write!(f, "the store is marked as invalid"),
            StoreFault::Refused(Refusal::Damaged) => {
                write!(
                    f,
                    "the store's pairs are damaged: lochknife check tells them"
                )
            }
            StoreFault::Refused(refusal) => write!(f, "the store is refused: {}", refusal.name()),
        }
    }
}
