// An image in a file.
ghost use Rattle.std.specs.Prelude.{◌≡◌, ◌∷◌, None, Some, if◌then◌else◌, is_ok, length};
ghost use Rattle.file_calls.specs.Calls.{Len, Read, answer_of};

use file_calls::FileCalls;
use image::Image;
use std::io;

/// A file that is only read.
#[derive(Drop)]
pub struct FileImage<C: FileCalls> {
    file: C,
}

impl<C: FileCalls> FileImage<C> {
    /// The image in an open file.
    pub fn new(file: C) -> FileImage<C>
        ensures { result.file ≡ file }
    {
        FileImage { file }
    }
}

impl<C: FileCalls> Image for FileImage<C> {
    ghost bytes = { λ _. None };

    ghost may_fail = { λ _ _ _. Unit {0} };

    ghost may_give = { λ _ _ _. Unit {0} };

    fn len(&mut self) -> io::Result<u64>
        ensures noted { C.history self.new.file ≡ Len (answer_of result) ∷ C.history self.old.file }
    {
        self.file.len()
    }

    fn read_at(&mut self, at: u64, out: &mut [u8]) -> io::Result<()>
        ensures noted { C.history self.new.file ≡ Read at (length out.old) (if is_ok result then Some out.new else None) ∷ C.history self.old.file }
    {
        self.file.read_at(at, out)
    }
}
