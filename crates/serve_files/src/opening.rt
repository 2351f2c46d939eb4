// A file is opened to be written in place, and locked.
ghost use Rattle.std.specs.Prelude.{◌≡◌, ◌≢◌, IfErr, IfOk, OnOk};
ghost use Rattle.std.specs.List.{All};
ghost use Rattle.serve_files.specs.Names.{IsAbout};

use crate::trouble::{Trouble, Why, about};
use file_users::{UsedFile, user_of};
use std::fs::{File, TryLockError};
use std::os::fd::AsRawFd;
use std::{fs, io};

/// Sees that standard input, output and error are open: a file that takes the number of one would be written with what is said.
pub fn has_streams(rt: &HostRuntime) -> Result<(), Trouble<'static>> {
    let folder = about("/", fs::open(rt, "/"))?;
    if folder.as_raw_fd() < 3 {
        let name = "standard input, output or error";
        let why = Why::NoStream;
        return Err(Trouble { name, why });
    }
    Ok(())
}

/// A file that is open for reading and writing, with its name and which file it was then. Only `opened` makes one.
#[derive(Drop)]
pub struct OpenFile<'a> {
    pub(crate) name: &'a str,
    pub(crate) file: File,
    which: UsedFile,
}

/// Opens a file that is there. What is no file is not opened: nothing tells whether a block device is in use.
pub fn opened<'a>(rt: &HostRuntime, name: &'a str) -> Result<OpenFile<'a>, Trouble<'a>>
    ensures named { IfOk result (λ opened. opened.name.now ≡ name.now) }
    ensures told { IfErr result (IsAbout name.now) }
{
    let metadata = about(name, fs::metadata(rt, name))?;
    if !metadata.is_file() {
        let why = Why::NoFile;
        return Err(Trouble { name, why });
    }
    let file = File::options().read(true).write(true).open(rt, name);
    let file = about(name, file)?;
    let which = UsedFile::of(&about(name, file.metadata())?);
    Ok(OpenFile { name, file, which })
}

impl<'a> OpenFile<'a> {
    /// Locks it against all other programs that lock it, and sees that nobody uses it, as far as that can be told.
    pub(crate) fn is_alone(&self, rt: &HostRuntime) -> Result<(), Trouble<'a>>
        ensures told { IfErr result (IsAbout self.now.name.now) }
    {
        let name = self.name;
        let why = match self.file.try_lock() {
            Ok(()) => return self.is_unused(rt),
            Err(TryLockError::WouldBlock) => Why::Locked,
            Err(TryLockError::Error(error)) => Why::File(error),
        };
        Err(Trouble { name, why })
    }

    /// Sees that nobody uses it.
    fn is_unused(&self, rt: &HostRuntime) -> Result<(), Trouble<'a>>
        ensures told { IfErr result (IsAbout self.now.name.now) }
    {
        let name = self.name;
        match about(name, user_of(rt, self.which, false))? {
            None => Ok(()),
            Some(user) => {
                let why = Why::Used(user);
                Err(Trouble { name, why })
            }
        }
    }
}

/// Sees that two files are not one.
pub(crate) fn is_apart<'a>(other: &OpenFile<'a>, file: &OpenFile<'a>) -> Result<(), Trouble<'a>>
    ensures apart { OnOk result (other.now.which ≢ file.now.which) }
    ensures told { IfErr result (IsAbout file.now.name.now) }
{
    if other.which == file.which {
        let name = file.name;
        let why = Why::SameFile;
        return Err(Trouble { name, why });
    }
    Ok(())
}

/// Sees that a file is none of these.
pub(crate) fn are_apart<'a>(others: &[OpenFile<'a>], file: &OpenFile<'a>) -> Result<(), Trouble<'a>>
    ensures apart { OnOk result (All (λ other. other.which ≢ file.now.which) others.now) }
{
    for other in others {
        is_apart(other, file)?;
    }
    Ok(())
}

/// Makes a file's name last.
pub(crate) fn folder_synced(rt: &HostRuntime, name: &str) -> io::Result<()> {
    let folder = match name.rsplit_once('/') {
        None => ".",
        Some(("", _)) => "/",
        Some((folder, _)) => folder,
    };
    let folder = fs::open(rt, folder)?;
    folder.sync_all()
}
