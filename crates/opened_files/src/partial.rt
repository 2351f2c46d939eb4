// The file that a new one is until it is whole. One that a killed export left is taken over.

use crate::trouble::{Trouble, Why, about, held};
use std::fs::File;
use std::io::ErrorKind;
use std::os::unix::fs::MetadataExt;
use std::{fs, io};

/// The name that a file has until it is whole.
pub(crate) fn partial_name<'a>(rt: &HostRuntime, out: &'a str) -> Result<String, Trouble<'a>> {
    held(out, format!(in rt.alloc(); "{out}.partial"))
}

/// Makes the file of a name that a file has until it is whole, or takes over the one that is there. It is locked and has no bytes.
/// `PartialExists` where another program has it locked, or it may be anything else than what an export left: no file, or one that
/// has another name too.
pub(crate) fn partial_file<'a>(
    rt: &HostRuntime,
    out: &'a str,
    partial: &str,
) -> Result<File, Trouble<'a>> {
    let file = match File::create_new(rt, partial) {
        Ok(file) => file,
        Err(error) if error.kind() == ErrorKind::AlreadyExists => left_file(rt, out, partial)?,
        Err(error) => return Err(Trouble::new(out, Why::File(error))),
    };
    if file.try_lock().is_err() || !about(out, is_only_name(rt, partial, &file))? {
        return Err(in_use(out));
    }
    about(out, file.set_len(0))?;
    Ok(file)
}

/// Opens the file that is there.
fn left_file<'a>(rt: &HostRuntime, out: &'a str, partial: &str) -> Result<File, Trouble<'a>> {
    let metadata = about(out, fs::symlink_metadata(rt, partial))?;
    if !metadata.is_file() {
        return Err(in_use(out));
    }
    let file = File::options().read(true).write(true).open(rt, partial);
    about(out, file)
}

/// Whether a name is that of an open file still, and its only one: another program that was at work on it may have given it its last
/// name before it could be locked.
fn is_only_name(rt: &HostRuntime, name: &str, file: &File) -> io::Result<bool> {
    let named = fs::symlink_metadata(rt, name)?;
    let open = file.metadata()?;
    let same = named.dev() == open.dev() && named.ino() == open.ino();
    Ok(same && open.nlink() == 1)
}

fn in_use(out: &str) -> Trouble<'_> {
    Trouble::new(out, Why::PartialExists)
}
