// The files of a merge in place are opened.

use crate::input::Input;
use crate::inputs::Inputs;
use crate::locking::{Lock, is_locked};
use crate::trouble::{Trouble, Why, about};
use image_options::Telling;
use std::fs;
use std::fs::File;
use std::os::fd::AsRawFd;

/// The two files of a merge, and the same as inputs.
#[derive(Drop)]
pub struct InPlace<'a> {
    pub origin: File,
    pub store: File,
    pub inputs: Inputs<'a>,
}

impl<'a> InPlace<'a> {
    /// Opens both files, sees that they are not the same one, locks them, and sees that nobody uses them. Where nothing is to be
    /// written they are opened for reading alone, and other programs may read them too.
    pub fn open(
        rt: &'a HostRuntime,
        origin: &'a str,
        cow: &'a str,
        dry: bool,
        telling: Telling,
    ) -> Result<InPlace<'a>, Trouble<'a>> {
        let first = opened(rt, origin, dry)?;
        let second = opened(rt, cow, dry)?;
        let inputs = Inputs::apart(
            Input::over(rt, origin, &first, telling)?,
            Input::over(rt, cow, &second, telling)?,
        )?;
        let lock = if dry { Lock::Shared } else { Lock::Alone };
        is_locked(origin, &first, lock)?;
        is_locked(cow, &second, lock)?;
        inputs.are_unused(rt, dry)?;
        Ok(InPlace {
            origin: first,
            store: second,
            inputs,
        })
    }
}

/// Opens a file: for reading alone, where nothing is to be written. Only files are taken: nothing tells whether a block device
/// is in use. A file that would take the number of a standard stream is refused, since what is printed would go into it.
fn opened<'a>(rt: &HostRuntime, name: &'a str, dry: bool) -> Result<File, Trouble<'a>> {
    let metadata = about(name, fs::metadata(rt, name))?;
    if !metadata.is_file() {
        return Err(Trouble::new(name, Why::NoFile));
    }
    let file = if dry {
        fs::open(rt, name)
    } else {
        File::options().read(true).write(true).open(rt, name)
    };
    let file = about(name, file)?;
    if file.as_raw_fd() < 3 {
        return Err(Trouble::new(name, Why::NoStream));
    }
    Ok(file)
}
