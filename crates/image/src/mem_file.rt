// A file in memory, with a volatile cache.
ghost use Rattle.std.specs.Prelude.{◌≡◌, ◌+◌, ◌*◌, ◌≤◌, length, IfOk};
ghost use Rattle.sector.specs.Bytes.{with_sectors};

use std::alloc::{AllocError, Global};

/// A file: its bytes, and as they were when it was synced last.
#[derive(Drop)]
pub struct MemFile {
    pub bytes: Vec<u8>,
    pub synced: Vec<u8>,
    pub ghost long: { length synced.items ≡ length bytes.items },
}

impl MemFile {
    /// A file of these bytes, all of them synced.
    pub fn new(alloc: Global, bytes: Vec<u8>) -> Result<MemFile, AllocError>
        ensures bytes { IfOk result (λ file. file.bytes ≡ bytes) }
        ensures synced { IfOk result (λ file. file.synced.items ≡ bytes.items) }
    {
        let synced = bytes.to_vec(alloc)?;
        Ok(MemFile { bytes, synced })
    }

    /// The same bytes once more.
    pub(crate) fn copied(&self, alloc: Global) -> Result<MemFile, AllocError>
        ensures bytes { IfOk result (λ file. file.bytes.items ≡ self.now.bytes.items) }
        ensures synced { IfOk result (λ file. file.synced.items ≡ self.now.synced.items) }
    {
        let bytes = self.bytes.to_vec(alloc)?;
        let synced = self.synced.to_vec(alloc)?;
        Ok(MemFile { bytes, synced })
    }

    /// Writes whole sectors.
    #[tactic(auto, using(sector::proofs::Sectors::bytes_after))]
    pub(crate) fn write(&mut self, sector: usize, part: &[u8])
        requires { 512 * sector + length part.now ≤ length self.old.bytes.items }
        ensures bytes { self.new.bytes.items ≡ with_sectors self.old.bytes.items sector part.now }
        ensures synced { self.new.synced ≡ self.old.synced }
    {
        let at = sector * 512;
        self.bytes[at..at + part.len()].copy_from_slice(part);
    }

    /// Makes all of it last.
    pub(crate) fn sync(&mut self)
        ensures bytes { self.new.bytes ≡ self.old.bytes }
        ensures synced { self.new.synced.items ≡ self.old.bytes.items }
    {
        self.synced
            .as_mut_slice()
            .copy_from_slice(self.bytes.as_slice());
    }
}
