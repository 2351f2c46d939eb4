// Devices that stand on a file or a device.

use crate::users::UsedFile;
use std::{fs, io};

/// The loop device that is attached to a file, in words, or of those that may write which is.
pub fn loop_on(rt: &HostRuntime, file: UsedFile, writers: bool) -> io::Result<Option<String>> {
    let Ok(devices) = fs::read_dir(rt, "/sys/block") else {
        return Ok(None);
    };
    for device in devices {
        let device = device?;
        let name = device.file_name();
        if name.starts_with("loop")
            && is_attached(rt, name, file)?
            && (!writers || may_write(rt, name)?)
        {
            return Ok(Some(format!(in rt.alloc(); "/dev/{name} is attached to it")?));
        }
    }
    Ok(None)
}

/// Whether a loop device is attached to a file, by the name that it keeps of that.
fn is_attached(rt: &HostRuntime, name: &str, file: UsedFile) -> io::Result<bool> {
    let path = format!(in rt.alloc(); "/sys/block/{name}/loop/backing_file")?;
    let Ok(text) = fs::read_to_string(rt, path.as_str()) else {
        return Ok(false);
    };
    let backing = text.strip_suffix("\n").unwrap_or(text.as_str());
    match fs::metadata(rt, backing) {
        Ok(metadata) => Ok(UsedFile::of(&metadata) == file),
        Err(_) => Ok(false),
    }
}

/// Whether a block device may be written.
fn may_write(rt: &HostRuntime, name: &str) -> io::Result<bool> {
    let path = format!(in rt.alloc(); "/sys/block/{name}/ro")?;
    match fs::read_to_string(rt, path.as_str()) {
        Ok(text) => Ok(!text.starts_with("1")),
        Err(_) => Ok(true),
    }
}

/// The device that holds a block device, in words: of one that dm made its name too.
pub fn holder_in(rt: &HostRuntime, major: u64, minor: u64) -> io::Result<Option<String>> {
    let path = format!(in rt.alloc(); "/sys/dev/block/{major}:{minor}/holders")?;
    let Ok(mut holders) = fs::read_dir(rt, path.as_str()) else {
        return Ok(None);
    };
    let Some(holder) = holders.next() else {
        return Ok(None);
    };
    let holder = holder?;
    let name = holder.file_name();
    let path = format!(in rt.alloc(); "/sys/block/{name}/dm/name")?;
    let text = match fs::read_to_string(rt, path.as_str()) {
        Ok(given) => {
            let given = given.trim_end();
            format!(in rt.alloc(); "{name} ({given})")?
        }
        Err(_) => format!(in rt.alloc(); "{name}")?,
    };
    Ok(Some(text))
}
