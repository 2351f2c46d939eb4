// An empty store is made: zeros, without a header.
ghost use Rattle.std.specs.Prelude.{◌≡◌, ◌∷◌, ◌≢◌, ℕ, None, Some, IfErr, IfOk, OnErr, replicate, []};
ghost use Rattle.file_calls.specs.Calls.{Len, SetLen, Sync};
ghost use Rattle.file_calls.specs.Kept.{now_in};
ghost use Rattle.serve_files.specs.Making.{IsMade, IsLeft};
ghost use Rattle.serve_files.specs.Names.{IsAbout};

use crate::opening::{OpenFile, folder_synced, has_streams, opened};
use crate::trouble::{Trouble, Why, about};
use file_calls::{DiskFile, FileCalls};
use std::fs::File;
use std::io::ErrorKind;
use std::{fs, io};

/// Gives an empty file so many bytes, all of them zeros, and makes them last. Where it has some already, their number is told, and
/// nothing is done to it.
pub fn make_store<C: FileCalls>(file: &mut C, bytes: u64) -> io::Result<Option<u64>>
    ensures made { IfOk result (λ had. had ≡ None → IsMade bytes (C.history file.old) (C.history file.new)) }
    ensures refused { IfOk result (λ had. (n : ℕ) → had ≡ Some n → (n ≢ 0) × (C.history file.new ≡ Len (Some n) ∷ C.history file.old)) }
    ensures failed { OnErr result (IsLeft bytes (C.history file.old) (C.history file.new)) }
    ensures zeros { IfOk result (λ had. had ≡ None → C.history file.old ≡ [] → now_in [] (C.history file.new) ≡ replicate bytes 0) }
{
    let had = file.len()?;
    if had != 0 {
        return Ok(Some(had));
    }
    file.set_len(bytes)?;
    file.sync(false)?;
    Ok(None)
}

/// Makes the file of a store, or opens an empty one, and gives whether it was made.
fn file_for<'a>(rt: &HostRuntime, cow: &'a str) -> Result<(File, bool), Trouble<'a>>
    ensures told { IfErr result (IsAbout cow.now) }
{
    match File::create_new(rt, cow) {
        Ok(file) => Ok((file, true)),
        Err(error) if error.kind() == ErrorKind::AlreadyExists => {
            let opened = opened(rt, cow)?;
            opened.is_alone(rt)?;
            let OpenFile { file, .. } = opened;
            Ok((file, false))
        }
        Err(error) => {
            let why = Why::File(error);
            Err(Trouble { name: cow, why })
        }
    }
}

/// Makes a store of so many bytes in a file that is open.
fn made_in<'a>(cow: &'a str, file: File, bytes: u64) -> Result<(), Trouble<'a>>
    ensures told { IfErr result (IsAbout cow.now) }
{
    let mut file = DiskFile::new(file);
    match about(cow, make_store(&mut file, bytes))? {
        None => Ok(()),
        Some(had) => {
            let why = Why::NotEmpty(had);
            Err(Trouble { name: cow, why })
        }
    }
}

/// Makes an empty store of so many bytes: a new file, or one that is empty. A file that was made is taken away again where that fails.
pub fn new<'a>(rt: &HostRuntime, cow: &'a str, bytes: u64) -> Result<(), Trouble<'a>> {
    has_streams(rt)?;
    let (file, is_new) = file_for(rt, cow)?;
    let made = made_in(cow, file, bytes);
    if made.is_err() && is_new {
        let _ = fs::remove_file(rt, cow);
    }
    made?;
    match folder_synced(rt, cow) {
        Ok(()) => Ok(()),
        Err(error) => {
            let why = Why::Folder(error);
            Err(Trouble { name: cow, why })
        }
    }
}
