// The files that a row may make, in the folder that the program is run in.

use std::fs::{File, Permissions};
use std::io::ErrorKind;
use std::os::unix::fs::PermissionsExt;
use std::{fs, io};

/// Their names.
const NAMES: [&str; 18] = [
    "o.img",
    "o.img.snapshots",
    "c.img",
    "c0.img",
    "c1.img",
    "c2.img",
    "c3.img",
    "c4.img",
    "c5.img",
    "c6.img",
    "c7.img",
    "out.img",
    "out.img.partial",
    "d/o.img",
    "d/o.img.snapshots",
    "d/c.img",
    "d/out.img",
    "d/out.img.partial",
];

/// The folder that a row may make.
const FOLDER: &str = "d";

/// Takes what an earlier row left away.
pub fn clear(rt: &HostRuntime) -> io::Result<()> {
    match fs::set_permissions(rt, FOLDER, Permissions::from_mode(0o700)) {
        Ok(()) => {}
        Err(error) => is_gone(error)?,
    }
    for name in NAMES.as_slice() {
        if let Err(error) = fs::remove_file(rt, *name) {
            is_gone(error)?;
        }
    }
    match fs::remove_dir(rt, FOLDER) {
        Ok(()) => Ok(()),
        Err(error) => is_gone(error),
    }
}

/// Takes a name that is not there for one that was taken away.
fn is_gone(error: io::Error) -> io::Result<()> {
    if error.kind() == ErrorKind::NotFound {
        return Ok(());
    }
    Err(error)
}

/// Makes a file of so many zeros, of no blocks.
pub fn make_zeros(rt: &HostRuntime, name: &str, bytes: u64) -> io::Result<()> {
    File::create_new(rt, name)?.set_len(bytes)
}

/// Makes a folder.
pub fn make_folder(rt: &HostRuntime, name: &str) -> io::Result<()> {
    fs::create_dir(rt, name)
}

/// Lets nobody read a folder, but find the files in it.
pub fn hide(rt: &HostRuntime, name: &str) -> io::Result<()> {
    fs::set_permissions(rt, name, Permissions::from_mode(0o300))
}
