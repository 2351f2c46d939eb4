// Files in memory that are stopped.
ghost use Rattle.std.specs.Prelude.{[]};
ghost use Rattle.image.specs.Stops.{AreLeft};

use image::FileSet;
use std::alloc::{AllocError, Global};
use std::io;

/// What is done of the operation that is stopped, and what is left of sectors that are not synced.
#[derive(Clone, Copy, Debug, PartialEq, Eq)]
pub enum Torn {
    /// Nothing; the old ones.
    Old,
    /// All of it; the new ones.
    New,
    /// Its first sector; of each two sectors the first is new.
    First,
    /// Its last sector; of each two sectors the second is new.
    Last,
}

/// A file: as reads give it, as it is on the disk, and which sectors a sync will write there. Where a sync fails, none of them
/// are written any more, until they are written anew.
#[derive(Drop)]
pub struct TornFile {
    pub now: Vec<u8>,
    pub synced: Vec<u8>,
    dirty: Vec<bool>,
}

impl TornFile {
    /// A file of these bytes, all of them synced.
    pub fn of(alloc: Global, now: Vec<u8>) -> Result<TornFile, AllocError> {
        let synced = now.to_vec(alloc)?;
        let dirty = vec![in alloc; false; now.len().div_ceil(512)]?;
        Ok(TornFile { now, synced, dirty })
    }

    // What is left of it where it is stopped now.
    fn left(&self, alloc: Global, torn: Torn) -> Result<Vec<u8>, AllocError> {
        let mut left = Vec::new(alloc);
        let sectors = self.synced.chunks(512).zip(self.now.chunks(512));
        for (number, ((old, new), dirty)) in sectors.zip(self.dirty.iter()).enumerate() {
            let odd = number % 2 == 1;
            let is_new = match torn {
                Torn::Old => false,
                Torn::New => true,
                Torn::First => !odd,
                Torn::Last => odd,
            };
            left.extend_from_slice(if *dirty && is_new { new } else { old })?;
        }
        Ok(left)
    }

    // Puts bytes in their place; nothing where they do not lie inside.
    fn put(&mut self, at: usize, part: &[u8]) -> bool {
        let len = self.now.len();
        if len < at || len - at < part.len() {
            return false;
        }
        self.now[at..at + part.len()].copy_from_slice(part);
        let end = (at + part.len()).div_ceil(512);
        for (number, dirty) in self.dirty.iter_mut().enumerate() {
            if at / 512 <= number && number < end {
                *dirty = true;
            }
        }
        true
    }

    // Syncs it, or loses what was written.
    fn sync(&mut self, lost: bool) {
        let sectors = self.synced.chunks_mut(512).zip(self.now.chunks(512));
        for ((old, new), dirty) in sectors.zip(self.dirty.iter_mut()) {
            if *dirty && !lost && old.len() == new.len() {
                old.copy_from_slice(new);
            }
            *dirty = false;
        }
    }
}

/// An origin's file and a store's, one operation of which fails: the one that is done after so many others.
#[derive(Drop)]
pub struct TornFiles {
    pub origin: TornFile,
    pub store: TornFile,
    pub left: u64,
    pub torn: Torn,
}

impl TornFiles {
    /// What is left of the origin and of the store.
    pub fn stopped(&self, alloc: Global) -> Result<(Vec<u8>, Vec<u8>), AllocError> {
        let origin = self.origin.left(alloc, self.torn)?;
        let store = self.store.left(alloc, self.torn)?;
        Ok((origin, store))
    }

    fn file(&mut self, file: usize) -> &mut TornFile {
        if file == 0 {
            &mut self.origin
        } else {
            &mut self.store
        }
    }

    // Whether the operation that fails is this one.
    fn fails(&mut self) -> bool {
        let last = self.left == 1;
        self.left = self.left.saturating_sub(1);
        last
    }
}

// The part of a write that is done where it is stopped, and where that begins.
fn done_of(torn: Torn, at: usize, part: &[u8]) -> (usize, &[u8]) {
    let len = part.len();
    if len < 512 {
        return (at, part);
    }
    match torn {
        Torn::Old => (at, &part[..0]),
        Torn::New => (at, part),
        Torn::First => (at, &part[..512]),
        Torn::Last => (at.saturating_add(len - 512), &part[len - 512..]),
    }
}

impl FileSet for TornFiles {
    ghost is_known = { λ _. ⊥ };

    ghost bytes = { λ _ _. [] };

    ghost may_hold = { λ _ _ _ _. Unit {0} };

    ghost moment = { λ _. 0 };

    ghost left_since = { λ _ _ left. AreLeft (λ _. []) (λ _ _ _. Unit {0}) left };

    ghost will_last = { λ _ _ _. Unit {0} };

    ghost fault_count = { λ _. 0 };

    ghost lacks_memory = { λ _. ⊥ };

    fn len(&mut self, file: usize) -> io::Result<u64> {
        if self.fails() {
            return Err(io::ErrorKind::Other.into());
        }
        Ok(self.file(file).now.len() as u64)
    }

    fn read_at(&mut self, file: usize, at: u64, out: &mut [u8]) -> io::Result<()> {
        let end: io::Error = io::ErrorKind::UnexpectedEof.into();
        let fails = self.fails();
        let now = self.file(file).now.as_slice();
        let len = now.len();
        if fails || (len as u64) < at {
            return Err(end);
        }
        let from = at as usize;
        if len - from < out.len() {
            return Err(end);
        }
        out.copy_from_slice(&now[from..from + out.len()]);
        Ok(())
    }

    fn write_at(&mut self, file: usize, sector: u64, part: &[u8]) -> io::Result<()> {
        let end: io::Error = io::ErrorKind::FileTooLarge.into();
        let torn = self.torn;
        let fails = self.fails();
        let file = self.file(file);
        let len = file.now.len();
        if len as u64 / 512 < sector {
            return Err(end);
        }
        let at = sector as usize * 512;
        let (at, done) = if fails {
            done_of(torn, at, part)
        } else {
            (at, part)
        };
        if !file.put(at, done) || fails {
            return Err(end);
        }
        Ok(())
    }

    fn sync(&mut self, file: usize) -> io::Result<()> {
        let fails = self.fails();
        let lost = fails && self.torn == Torn::Old;
        self.file(file).sync(lost);
        if fails {
            return Err(io::ErrorKind::Other.into());
        }
        Ok(())
    }

    ghost holds_now = { λ d known. absurd known };

    ghost counts_now = { λ d t left le are. are };

    ghost only_now = { λ d left are. are };
}
