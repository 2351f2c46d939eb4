// Two files in memory, with volatile caches: what they hold is known.
ghost use Rattle.std.specs.Prelude.{◌≡◌, ◌≢◌, ℕ, ◌+◌, ◌*◌, ◌++◌, ◌<◌, ◌≤◌, ◌∷◌, [], length, drop, true, refl, ⊤, IfOk, MatchBool, OnErr, OnOk, ◌⊎◌};
ghost use Rattle.std.proofs.Common.{inl, inr};
ghost use Rattle.sector.specs.Bytes.{with_sectors};
ghost use Rattle.image.specs.MemFiles.{bytes_in, synced_in, AreAlike, AreLeftIn, HadLeft, MayIn};
ghost use Rattle.image.specs.Past.{only_now};

use crate::FileSet;
use crate::mem_file::MemFile;
use std::alloc::{AllocError, Global};
use std::io;

/// Two files, under the numbers 0 and 1.
#[derive(Drop)]
pub struct FilePair {
    pub first: MemFile,
    pub second: MemFile,
}

impl FilePair {
    // The bytes of a file; none where no file has its number.
    fn bytes(&self, file: usize) -> &[u8]
        ensures { result.now ≡ bytes_in self.now file }
    {
        match file {
            0 => self.first.bytes.as_slice(),
            1 => self.second.bytes.as_slice(),
            _ => &[],
        }
    }

    // Both once more.
    fn copied(&self, alloc: Global) -> Result<FilePair, AllocError>
        ensures { IfOk result (λ two. AreAlike two self.now) }
    {
        let first = self.first.copied(alloc)?;
        let second = self.second.copied(alloc)?;
        Ok(FilePair { first, second })
    }

    // Writes whole sectors of a file.
    fn write(&mut self, file: usize, sector: usize, part: &[u8])
        requires { 512 * sector + length part.now ≤ length (bytes_in self.old file) }
        ensures written { bytes_in self.new file ≡ with_sectors (bytes_in self.old file) sector part.now }
        ensures beside { (f : ℕ) → f ≢ file → bytes_in self.new f ≡ bytes_in self.old f }
        ensures synced { (f : ℕ) → synced_in self.new f ≡ synced_in self.old f }
    {
        match file {
            0 => self.first.write(sector, part),
            1 => self.second.write(sector, part),
            _ => {}
        }
    }

    // Makes all of a file last.
    fn sync(&mut self, file: usize)
        ensures bytes { (f : ℕ) → bytes_in self.new f ≡ bytes_in self.old f }
        ensures synced { synced_in self.new file ≡ bytes_in self.old file }
        ensures beside { (f : ℕ) → f ≢ file → synced_in self.new f ≡ synced_in self.old f }
    {
        match file {
            0 => self.first.sync(),
            1 => self.second.sync(),
            _ => {}
        }
    }
}

/// Two files in memory. A stop leaves each sector as it is, or as it was when its file was synced last. It keeps what there
/// was before each write and each sync, so that what a stop since a moment might have left is known; and so it is for tests.
#[derive(Drop)]
pub struct MemFiles {
    alloc: Global,
    pub files: FilePair,
    past: Vec<FilePair>,
    /// Whether memory was refused.
    lacks: bool,
}

impl MemFiles {
    /// These files.
    pub fn new(alloc: Global, files: FilePair) -> MemFiles
        ensures { result.files ≡ files }
    {
        MemFiles {
            alloc,
            files,
            past: Vec::new(alloc),
            lacks: false,
        }
    }
}

// Adds what there is to what was.
fn keep(alloc: Global, files: &FilePair, past: &mut Vec<FilePair>) -> Result<(), AllocError>
    ensures kept { OnOk result ((two : _) × AreAlike two files.now × (past.new.items ≡ past.old.items ++ two ∷ [])) }
    ensures err { OnErr result (past.new.items ≡ past.old.items) }
{
    past.push(files.copied(alloc)?)?;
    Ok(())
}

// Whether so many bytes from a sector on lie in a file of so many.
fn has_room(len: usize, sector: u64, count: usize) -> bool
    ensures { MatchBool result (512 * sector + count ≤ len) (len < 512 * sector + count) }
{
    match sector.checked_mul(512) {
        Some(at) => at <= len as u64 && count as u64 <= len as u64 - at,
        None => false,
    }
}

impl FileSet for MemFiles {
    ghost is_known = { λ _. ⊤ };

    ghost bytes = { λ m file. bytes_in m.files file };

    ghost may_hold = { λ m file s v. MayIn m.files file s v };

    ghost moment = { λ m. length m.past.items };

    ghost left_since = { λ m t left. AreLeftIn m.files left ⊎ HadLeft (drop t m.past.items) left };

    ghost will_last = { λ _ _ _. ⊤ };

    ghost fault_count = { λ _. 0 };

    ghost lacks_memory = { λ m. m.lacks ≡ true };

    fn len(&mut self, file: usize) -> io::Result<u64> {
        Ok(self.files.bytes(file).len() as u64)
    }

    fn read_at(&mut self, file: usize, at: u64, out: &mut [u8]) -> io::Result<()> {
        let end: io::Error = io::ErrorKind::UnexpectedEof.into();
        let now = self.files.bytes(file);
        let len = now.len();
        if (len as u64) < at {
            return Err(end);
        }
        let from = at as usize;
        if len - from < out.len() {
            return Err(end);
        }
        out.copy_from_slice(&now[from..from + out.len()]);
        Ok(())
    }

    fn write_at(&mut self, file: usize, sector: u64, part: &[u8]) -> io::Result<()> {
        if !has_room(self.files.bytes(file).len(), sector, part.len()) {
            return Err(io::ErrorKind::FileTooLarge.into());
        }
        let Ok(()) = keep(self.alloc, &self.files, &mut self.past) else {
            self.lacks = true;
            return Err(io::ErrorKind::OutOfMemory.into());
        };
        self.files.write(file, sector as usize, part);
        Ok(())
    }

    fn sync(&mut self, file: usize) -> io::Result<()> {
        let Ok(()) = keep(self.alloc, &self.files, &mut self.past) else {
            self.lacks = true;
            return Err(io::ErrorKind::OutOfMemory.into());
        };
        self.files.sync(file);
        Ok(())
    }

    ghost holds_now = { λ m known file s lt. inl refl };

    ghost counts_now = { λ m t left le are. inl are };

    ghost only_now = { λ m left since. only_now m.past.items m.files left since };
}
