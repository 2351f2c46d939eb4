// Two files, of which it is noted what failed.
ghost use Rattle.std.specs.Prelude.{◌≡◌, ◌*◌, ◌^◌, ◌<◌, ◌≤◌, [], true, false, None, Some, if◌then◌else◌, is_ok, length, IsErr, OnErr, OnOk};
ghost use Rattle.file_calls.specs.Calls.{Len, Read, Write, Sync, answer_of};
ghost use Rattle.image.specs.Stops.{AreLeft};
ghost use Rattle.images_on_files.specs.Both.{IsAsked, AreAlike, IsTold, the_len, the_read, the_write, the_sync};

use file_calls::FileCalls;
use image::FileSet;
use std::io;

/// What was asked of a file.
#[derive(Clone, Copy, PartialEq, Eq)]
pub enum Asked {
    /// How long it is.
    Len,
    /// To be read from this byte on.
    Read(u64),
    /// To be written from this byte on.
    Write(u64),
    /// To be synced.
    Sync,
}

/// What failed: the file's number, and what was asked of it.
#[derive(Clone, Copy, PartialEq, Eq)]
pub struct Failed {
    pub file: usize,
    pub asked: Asked,
}

/// The file of an origin, which has the number 0.
#[derive(Drop)]
pub struct OriginFile<C: FileCalls>(pub C);

/// The file of a store, which has the number 1.
#[derive(Drop)]
pub struct StoreFile<C: FileCalls>(pub C);

/// An origin and its store.
#[derive(Drop)]
pub struct DiskFiles<C: FileCalls> {
    pub origin: C,
    pub store: C,
    /// What failed last.
    pub failed: Option<Failed>,
}

impl<C: FileCalls> DiskFiles<C> {
    /// Both files.
    pub fn new(origin: OriginFile<C>, store: StoreFile<C>) -> DiskFiles<C>
        ensures origin { result.origin ≡ origin.0 }
        ensures store { result.store ≡ store.0 }
        ensures failed { result.failed ≡ None }
    {
        DiskFiles {
            origin: origin.0,
            store: store.0,
            failed: None,
        }
    }

    // Notes what was asked of a file, where that failed.
    fn note(&mut self, file: usize, asked: Asked, has_failed: bool)
        ensures origin { self.new.origin ≡ self.old.origin }
        ensures store { self.new.store ≡ self.old.store }
        ensures failed { has_failed ≡ true → IsTold self.new.failed file asked }
        ensures kept { has_failed ≡ false → self.new.failed ≡ self.old.failed }
    {
        if has_failed {
            self.failed = Some(Failed { file, asked });
        }
    }
}

// A number that is no file's.
fn no_file() -> io::Error {
    io::ErrorKind::NotFound.into()
}

impl<C: FileCalls> FileSet for DiskFiles<C> {
    ghost is_known = { λ _. ⊥ };

    ghost bytes = { λ _ _. [] };

    ghost may_hold = { λ _ _ _ _. Unit {0} };

    ghost moment = { λ _. 0 };

    ghost left_since = { λ _ _ left. AreLeft (λ _. []) (λ _ _ _. Unit {0}) left };

    ghost will_last = { λ _ _ _. Unit {0} };

    ghost fault_count = { λ _. 0 };

    ghost lacks_memory = { λ _. ⊥ };

    fn len(&mut self, file: usize) -> io::Result<u64>
        ensures noted { IsAsked file (Len (answer_of result)) (C.history self.old.origin) (C.history self.old.store) (C.history self.new.origin) (C.history self.new.store) }
        ensures none { 2 ≤ file → IsErr result }
        ensures failed { OnErr result (file < 2 → IsTold self.new.failed file the_len) }
        ensures kept { OnOk result (self.new.failed ≡ self.old.failed) }
    {
        let len = match file {
            0 => self.origin.len(),
            1 => self.store.len(),
            _ => return Err(no_file()),
        };
        self.note(file, Asked::Len, len.is_err());
        len
    }

    fn read_at(&mut self, file: usize, at: u64, out: &mut [u8]) -> io::Result<()>
        ensures noted { IsAsked file (Read at (length out.old) (if is_ok result then Some out.new else None)) (C.history self.old.origin) (C.history self.old.store) (C.history self.new.origin) (C.history self.new.store) }
        ensures none { 2 ≤ file → IsErr result }
        ensures failed { OnErr result (file < 2 → IsTold self.new.failed file (the_read at)) }
        ensures kept { OnOk result (self.new.failed ≡ self.old.failed) }
    {
        let read = match file {
            0 => self.origin.read_at(at, out),
            1 => self.store.read_at(at, out),
            _ => return Err(no_file()),
        };
        self.note(file, Asked::Read(at), read.is_err());
        read
    }

    fn write_at(&mut self, file: usize, sector: u64, part: &[u8]) -> io::Result<()>
        ensures noted { 512 * sector < 2 ^ 64 → IsAsked file (Write (512 * sector) part.now (is_ok result)) (C.history self.old.origin) (C.history self.old.store) (C.history self.new.origin) (C.history self.new.store) }
        ensures beyond { 2 ^ 64 ≤ 512 * sector → IsErr result × AreAlike (C.history self.old.origin) (C.history self.old.store) (C.history self.new.origin) (C.history self.new.store) }
        ensures none { 2 ≤ file → IsErr result }
        ensures failed { OnErr result (file < 2 → 512 * sector < 2 ^ 64 → IsTold self.new.failed file (the_write (512 * sector))) }
        ensures kept { OnOk result (self.new.failed ≡ self.old.failed) }
    {
        let Some(at) = sector.checked_mul(512) else {
            return Err(io::ErrorKind::FileTooLarge.into());
        };
        let written = match file {
            0 => self.origin.write_at(at, part),
            1 => self.store.write_at(at, part),
            _ => return Err(no_file()),
        };
        self.note(file, Asked::Write(at), written.is_err());
        written
    }

    // No caller has promised that it succeeds.
    fn sync(&mut self, file: usize) -> io::Result<()>
        ensures noted { IsAsked file (Sync (is_ok result) false) (C.history self.old.origin) (C.history self.old.store) (C.history self.new.origin) (C.history self.new.store) }
        ensures none { 2 ≤ file → IsErr result }
        ensures failed { OnErr result (file < 2 → IsTold self.new.failed file the_sync) }
        ensures kept { OnOk result (self.new.failed ≡ self.old.failed) }
    {
        let synced = match file {
            0 => self.origin.sync(false),
            1 => self.store.sync(false),
            _ => return Err(no_file()),
        };
        self.note(file, Asked::Sync, synced.is_err());
        synced
    }

    ghost holds_now = { λ d known. absurd known };

    ghost counts_now = { λ d t left le are. are };

    ghost only_now = { λ d left are. are };
}
