// The calls of a list's file.
ghost use Rattle.std.specs.Prelude.{◌≡◌, ◌≤◌, ◌∷◌, [], IfErr, IfOk, OnErr, OnOk, false, length, map, true};
ghost use Rattle.file_calls.specs.Calls.{Sync, Write};
ghost use Rattle.file_calls.specs.Kept.{now_in};
ghost use Rattle.file_calls.specs.Note.{call_of};
ghost use Rattle.serve_files.specs.Listing.{IsReadWhole, IsUnwritten, IsWritten};

use file_calls::{DiskFile, FileCalls};
use std::alloc::Global;
use std::io;

/// The most bytes of a list that is read.
const MOST_TEXT: u64 = 65_536;

/// All bytes of a list; `FileTooLarge` where they are more than 65,536.
pub fn read_list<C: FileCalls>(alloc: Global, file: &mut C) -> io::Result<Vec<u8>>
    ensures read { IfOk result (λ text. IsReadWhole text.items (C.history file.old) (C.history file.new)) }
    ensures short { IfOk result (λ text. length text.items ≤ 65_536) }
{
    let len = file.len()?;
    if MOST_TEXT < len {
        return Err(io::ErrorKind::FileTooLarge.into());
    }
    let mut text = vec![in alloc; 0u8; len as usize]?;
    file.read_at(0, text.as_mut_slice())?;
    Ok(text)
}

/// Writes a list to a file that is new, and makes it last.
pub fn write_list<C: FileCalls>(file: &mut C, text: &[u8]) -> io::Result<()>
    ensures written { OnOk result (IsWritten text.now (C.history file.old) (C.history file.new)) }
    ensures failed { OnErr result (IsUnwritten text.now (C.history file.old) (C.history file.new)) }
    ensures holds { OnOk result (C.history file.old ≡ [] → now_in [] (C.history file.new) ≡ text.now) }
{
    file.write_at(0, text)?;
    file.sync(false)
}

/// A list in a new file, that lasts there. Only `new_list` makes one, and only such a file becomes the list.
#[derive(Drop)]
pub(crate) struct NewList<'t> {
    text: &'t [u8],
    file: DiskFile,
    ghost lasts: { map call_of file.noted.notes ≡ Sync true false ∷ Write 0 text.now true ∷ [] },
}

/// Writes a list to a file that is new and empty, and makes it last.
pub(crate) fn new_list<'t>(mut file: DiskFile, text: &'t [u8]) -> io::Result<NewList<'t>>
    requires { map call_of file.noted.notes ≡ [] }
    ensures { IfOk result (λ list. list.text.now ≡ text.now) }
{
    write_list(&mut file, text)?;
    Ok(NewList { text, file })
}
