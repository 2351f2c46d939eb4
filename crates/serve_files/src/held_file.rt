// A file is held to be synced, whatever others write to it.
ghost use Rattle.std.specs.Prelude.{◌≡◌, ◌∷◌, false, is_ok};
ghost use Rattle.file_calls.specs.Calls.{Sync};

use file_calls::FileCalls;
use std::io;

/// A file with its name, that is asked for nothing but syncs.
#[derive(Drop)]
pub struct HeldFile<'a, C: FileCalls> {
    pub(crate) name: &'a str,
    file: C,
}

impl<'a, C: FileCalls> HeldFile<'a, C> {
    /// A file of this name.
    pub fn new(name: &'a str, file: C) -> HeldFile<'a, C>
        ensures named { result.name.now ≡ name.now }
        ensures file { result.file ≡ file }
    {
        HeldFile { name, file }
    }

    /// Makes what was written to it last.
    pub(crate) fn sync(&mut self) -> io::Result<()>
        ensures noted { C.history self.new.file ≡ Sync (is_ok result) false ∷ C.history self.old.file }
        ensures named { self.new.name ≡ self.old.name }
    {
        self.file.sync(false)
    }
}
