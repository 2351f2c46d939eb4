// An input: a file that is only read.
ghost use Rattle.std.specs.Prelude.{◌≤◌, IfOk, None};

use crate::kept::Kept;
use crate::locking::{Lock, is_locked};
use crate::teller::Teller;
use crate::trouble::{Trouble, Why, about};
use cow_image::{Failure, MAX_IMAGE, sectors_of};
use file_calls::DiskFile;
use file_users::{holder_of, user_of};
use image::Image;
use image_options::Telling;
use images_on_files::FileImage;
use std::fs::File;
use std::os::unix::fs::{FileTypeExt, MetadataExt};
use std::{fs, io};

/// A file or a block device that is opened for reading only.
#[derive(Drop)]
pub struct Input<'a> {
    /// Its name, as it was given.
    pub name: &'a str,
    image: FileImage<DiskFile>,
    /// The same file, and what it was when it was opened.
    kept: Kept<'a>,
    teller: Teller<'a>,
    /// How many bytes were read.
    read: u64,
    /// The byte where the last read failed, if it did.
    failed: Option<u64>,
}

impl<'a> Input<'a> {
    /// Opens an input, and locks it against programs that ask for a lock to write. What is neither a file nor a block
    /// device is not opened, nor a block device that a device holds. It is told how much is read, when this is wanted.
    pub fn open(
        rt: &'a HostRuntime,
        name: &'a str,
        telling: Telling,
    ) -> Result<Input<'a>, Trouble<'a>> {
        let metadata = about(name, fs::metadata(rt, name))?;
        if !metadata.is_file() && !metadata.file_type().is_block_device() {
            return Err(Trouble::new(name, Why::NoImage));
        }
        if metadata.file_type().is_block_device() {
            is_unheld(name, holder_of(rt, metadata.rdev()))?;
        }
        let file = about(name, fs::open(rt, name))?;
        is_locked(name, &file, Lock::Shared)?;
        Input::of(rt, name, file, telling)
    }

    /// Opens a file that another program writes and has locked. Only files are taken: what is read of a block device may be old. It
    /// is not told how much is read.
    pub fn unlocked(rt: &'a HostRuntime, name: &'a str) -> Result<Input<'a>, Trouble<'a>> {
        let metadata = about(name, fs::metadata(rt, name))?;
        if !metadata.is_file() {
            return Err(Trouble::new(name, Why::NoLiveFile));
        }
        let file = about(name, fs::open(rt, name))?;
        Input::of(rt, name, file, Telling::Never)
    }

    /// An input over a file that is open, and is locked elsewhere.
    pub fn over(
        rt: &'a HostRuntime,
        name: &'a str,
        file: &File,
        telling: Telling,
    ) -> Result<Input<'a>, Trouble<'a>> {
        Input::of(rt, name, about(name, file.try_clone())?, telling)
    }

    // An input over a file that is open, of which nothing is read yet.
    fn of(
        rt: &'a HostRuntime,
        name: &'a str,
        file: File,
        telling: Telling,
    ) -> Result<Input<'a>, Trouble<'a>> {
        let image = FileImage::new(DiskFile::new(about(name, file.try_clone())?));
        let kept = Kept::of(name, file)?;
        Ok(Input {
            name,
            image,
            kept,
            teller: Teller::new(rt, telling),
            read: 0,
            failed: None,
        })
    }

    /// Sees that a store, which is another input, is not the same file: `SameFile` else.
    pub fn is_apart(&self, cow: &Input<'a>) -> Result<(), Trouble<'a>> {
        if self.kept.which() == cow.kept.which() {
            return Err(Trouble::new(cow.name, Why::SameFile));
        }
        Ok(())
    }

    /// Sees that nobody uses it, or that nobody writes to it, as far as that can be told: `Used` else.
    pub fn is_unused(&self, rt: &HostRuntime, writers: bool) -> Result<(), Trouble<'a>> {
        match about(self.name, user_of(rt, self.kept.which(), writers))? {
            None => Ok(()),
            Some(user) => Err(Trouble::new(self.name, Why::Used(user))),
        }
    }

    /// Sees that the file is as long as it was when it was opened, and was not written since: `Changed` else.
    pub fn is_unchanged(&self) -> Result<(), Trouble<'a>> {
        self.kept.is_unchanged()
    }

    /// Its file, to be looked at while it is read elsewhere.
    pub fn kept(&self) -> Result<Kept<'a>, Trouble<'a>> {
        self.kept.again()
    }

    /// When it is told how much is read.
    pub fn telling(&self) -> Telling {
        self.teller.telling()
    }

    /// Tells no more how much is read.
    pub fn hush(&mut self) {
        self.teller.hush();
    }

    /// Ends the line that tells how much is read.
    fn end_line(&mut self) {
        self.teller.end();
    }

    /// The byte where the last read of it failed, if it did.
    pub fn failed(&self) -> Option<u64> {
        self.failed
    }

    /// Why nothing is told of it.
    pub fn trouble(&self, failure: Failure) -> Trouble<'a> {
        Trouble::new(self.name, Why::of_failure(failure, self.failed))
    }
}

/// Says of which input nothing is known.
pub fn of_input<'a, T: Drop>(
    input: &mut Input<'a>,
    read: Result<T, Failure>,
) -> Result<T, Trouble<'a>> {
    input.end_line();
    match read {
        Ok(value) => Ok(value),
        Err(failure) => Err(input.trouble(failure)),
    }
}

/// How many sectors an input has.
pub fn size_of<'a>(input: &mut Input<'a>) -> Result<u64, Trouble<'a>>
    ensures { IfOk result (λ size. size ≤ MAX_IMAGE) }
{
    match sectors_of(input) {
        Ok(size) => Ok(size),
        Err(failure) => Err(input.trouble(failure)),
    }
}

/// Sees that no device holds a block device.
fn is_unheld<'a>(name: &'a str, holder: io::Result<Option<String>>) -> Result<(), Trouble<'a>> {
    match about(name, holder)? {
        None => Ok(()),
        Some(holder) => Err(Trouble::new(name, Why::Held(holder))),
    }
}

impl Image for Input<'_> {
    ghost bytes = { λ _. None };

    ghost may_fail = { λ _ _ _. Unit {0} };

    ghost may_give = { λ _ _ _. Unit {0} };

    fn len(&mut self) -> io::Result<u64> {
        self.image.len()
    }

    fn read_at(&mut self, at: u64, out: &mut [u8]) -> io::Result<()> {
        match self.image.read_at(at, out) {
            Ok(()) => {
                self.failed = None;
                self.read = self.read.saturating_add(out.len() as u64);
                self.teller.tell_read(self.name, self.read);
                Ok(())
            }
            Err(error) => {
                self.failed = Some(at);
                Err(error)
            }
        }
    }
}
