// What a file was when it was opened.

use crate::trouble::{Trouble, Why, about};
use file_users::UsedFile;
use std::fs::{File, Metadata};
use std::os::unix::fs::MetadataExt;

/// Which file it is, how many bytes it has, and when it was written last.
#[derive(Clone, Copy, PartialEq, Eq)]
struct Stamp {
    device: u64,
    number: u64,
    bytes: u64,
    seconds: i64,
    nanoseconds: i64,
}

impl Stamp {
    fn of(metadata: &Metadata) -> Stamp {
        Stamp {
            device: metadata.dev(),
            number: metadata.ino(),
            bytes: metadata.len(),
            seconds: metadata.mtime(),
            nanoseconds: metadata.mtime_nsec(),
        }
    }
}

/// A file that is open, and what it was when it was opened.
#[derive(Drop)]
pub struct Kept<'a> {
    /// Its name, as it was given.
    pub name: &'a str,
    file: File,
    stamp: Stamp,
}

impl<'a> Kept<'a> {
    /// An open file, as it is now.
    pub(crate) fn of(name: &'a str, file: File) -> Result<Kept<'a>, Trouble<'a>> {
        let stamp = Stamp::of(&about(name, file.metadata())?);
        Ok(Kept { name, file, stamp })
    }

    /// The same file once more, and what it was then.
    pub(crate) fn again(&self) -> Result<Kept<'a>, Trouble<'a>> {
        let file = about(self.name, self.file.try_clone())?;
        Ok(Kept {
            name: self.name,
            file,
            stamp: self.stamp,
        })
    }

    /// Which file it is.
    pub(crate) fn which(&self) -> UsedFile {
        UsedFile {
            device: self.stamp.device,
            number: self.stamp.number,
        }
    }

    /// Whether it is not as it was, or can't be asked.
    pub fn has_changed(&self) -> bool {
        self.is_unchanged().is_err()
    }

    /// Sees that it is as long as it was, and was not written since: `Changed` else, or why it can't be asked.
    pub fn is_unchanged(&self) -> Result<(), Trouble<'a>> {
        let now = about(self.name, self.file.metadata())?;
        if Stamp::of(&now) != self.stamp {
            return Err(Trouble::new(self.name, Why::Changed));
        }
        Ok(())
    }
}
