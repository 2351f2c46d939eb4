// A file is made, and made to last.

use crate::partial::partial_file;
use crate::target::OUTPUT;
use crate::trouble::{Trouble, Why, about};
use file_calls::DiskFile;
use images_on_files::FileSink;
use std::io::ErrorKind;
use std::{fs, io};

/// Sees that no file has this name, or that it stands for standard output.
pub fn is_free<'a>(rt: &HostRuntime, name: &'a str) -> Result<(), Trouble<'a>> {
    if name != OUTPUT && about(name, fs::exists(rt, name))? {
        return Err(Trouble::new(name, Why::Exists));
    }
    Ok(())
}

/// Makes a file, which must not be there, under the name that it has until it is whole, and locks it.
pub(crate) fn made<'a>(
    rt: &HostRuntime,
    out: &'a str,
    partial: &str,
) -> Result<FileSink<DiskFile>, Trouble<'a>> {
    is_free(rt, out)?;
    let file = partial_file(rt, out, partial)?;
    Ok(FileSink::new(DiskFile::new(file)))
}

/// Gives a whole file its name, and makes the name last. A file that has this name already stays as it is.
pub(crate) fn named<'a>(rt: &HostRuntime, partial: &str, out: &'a str) -> Result<(), Trouble<'a>> {
    match fs::hard_link(rt, partial, out) {
        Ok(()) => about(out, fs::remove_file(rt, partial))?,
        Err(error) if error.kind() == ErrorKind::AlreadyExists => {
            return Err(Trouble::new(out, Why::Exists));
        }
        // Where the files have one name each.
        Err(_) => {
            is_free(rt, out)?;
            about(out, fs::rename(rt, partial, out))?;
        }
    }
    match folder_synced(rt, out) {
        Ok(()) => Ok(()),
        Err(error) => Err(Trouble::new(out, Why::ButFolder(error))),
    }
}

/// Makes a file's name last.
fn folder_synced(rt: &HostRuntime, out: &str) -> io::Result<()> {
    let folder = match out.rsplit_once('/') {
        None => ".",
        Some(("", _)) => "/",
        Some((folder, _)) => folder,
    };
    let folder = fs::open(rt, folder)?;
    folder.sync_all()
}

/// Makes the name of a file that is merged last: that of the file itself, where it is given by a link.
pub fn name_lasts<'a>(rt: &HostRuntime, name: &'a str) -> Result<(), Trouble<'a>> {
    let file = about(name, fs::canonicalize(rt, name))?;
    match folder_synced(rt, file.as_str()) {
        Ok(()) => Ok(()),
        Err(error) => Err(Trouble::new(name, Why::Folder(error))),
    }
}
