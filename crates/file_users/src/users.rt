// Who else uses a file, in words.

use crate::devices::{holder_in, loop_on};
use crate::locks::{is_lock_on, is_of_writer};
use crate::numbers::{major, minor};
use std::fs::Metadata;
use std::os::unix::fs::MetadataExt;
use std::{fs, io, str};
use words::words_in;

/// Which file it is.
#[derive(Clone, Copy, PartialEq, Eq)]
pub struct UsedFile {
    pub device: u64,
    pub number: u64,
}

impl UsedFile {
    /// The file that this is told of.
    pub fn of(metadata: &Metadata) -> UsedFile {
        UsedFile {
            device: metadata.dev(),
            number: metadata.ino(),
        }
    }
}

/// Who uses a file, in words, or of those that write to it who does; `None` where nobody is found.
pub fn user_of(rt: &HostRuntime, file: UsedFile, writers: bool) -> io::Result<Option<String>> {
    match locker_of(rt, file, writers)? {
        Some(user) => Ok(Some(user)),
        None => loop_on(rt, file, writers),
    }
}

/// What holds a block device of this number, in words; `None` where nothing is found.
pub fn holder_of(rt: &HostRuntime, device: u64) -> io::Result<Option<String>> {
    holder_in(rt, major(device), minor(device))
}

/// Who holds a lock by fcntl(2) on a file.
fn locker_of(rt: &HostRuntime, file: UsedFile, writers: bool) -> io::Result<Option<String>> {
    let Ok(text) = fs::read(rt, "/proc/locks") else {
        return Ok(None);
    };
    let (high, low, number) = (major(file.device), minor(file.device), file.number);
    let place = format!(in rt.alloc(); "{high:02x}:{low:02x}:{number}")?;
    for line in text.as_slice().split(|byte| *byte == b'\n') {
        let words = words_in(rt.alloc(), line)?;
        if is_lock_on(&words, place.as_bytes()) && (!writers || is_of_writer(&words)) {
            return Ok(Some(locker(rt, &words)?));
        }
    }
    Ok(None)
}

/// Who holds a lock, by the words of its line.
fn locker(rt: &HostRuntime, words: &[&[u8]]) -> io::Result<String> {
    let process = match words.get(4) {
        Some(word) => str::from_utf8(*word).unwrap_or("-1"),
        None => "-1",
    };
    if process == "-1" {
        let text = format!(in rt.alloc();
            "a program has locked it by an open file description, as qemu and libvirt do"
        )?;
        return Ok(text);
    }
    let path = format!(in rt.alloc(); "/proc/{process}/comm")?;
    let text = match fs::read_to_string(rt, path.as_str()) {
        Ok(name) => {
            let name = name.trim_end();
            format!(in rt.alloc(); "process {process} ({name}) has locked it")?
        }
        Err(_) => format!(in rt.alloc(); "process {process} has locked it")?,
    };
    Ok(text)
}
