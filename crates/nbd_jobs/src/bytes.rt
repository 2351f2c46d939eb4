// The bytes of a job.
ghost use Rattle.std.specs.Prelude.{◌≡◌, ℕ, ◌+◌, ◌≤◌, List, length, replicate, IfOk, slice_range};
ghost use Rattle.nbd_jobs.specs.Steps.{with_bytes};

use std::alloc::{AllocError, Global};
use std::marker::Model;

/// Bytes that a request brings, or that are to be told. Contracts see their list. They are no `sector::Buf`: the protocol knows no
/// sectors, and here a part is written over where a piece comes back, whereas a `Buf` holds whole sectors and is never changed in part.
#[derive(Drop)]
pub struct Bytes {
    bytes: Vec<u8>,
}

impl Model for Bytes {
    ghost use Rattle.std.specs.Prelude.{ℕ, List};

    ghost Value = { List ℕ };

    ghost view = { λ b. b.bytes.items };
}

impl Bytes {
    /// These bytes.
    pub fn from_slice(alloc: Global, bytes: &[u8]) -> Result<Bytes, AllocError>
        ensures { IfOk result (λ b. b ≡ bytes.now) }
    {
        let bytes = Vec::from_slice(alloc, bytes)?;
        Ok(Bytes { bytes })
    }

    /// The bytes of a vector, which is not copied.
    pub fn from_vec(bytes: Vec<u8>) -> Bytes
        ensures { result ≡ bytes.items }
    {
        Bytes { bytes }
    }

    /// So many zeros.
    pub fn zeroed(alloc: Global, count: usize) -> Result<Bytes, AllocError>
        ensures { IfOk result (λ b. b ≡ replicate count 0) }
    {
        let bytes = vec![in alloc; 0u8; count]?;
        Ok(Bytes { bytes })
    }

    /// All of them, in order.
    pub fn as_slice(&self) -> &[u8]
        ensures { result.now ≡ self.now }
    {
        self.bytes.as_slice()
    }

    /// How many they are.
    pub fn len(&self) -> usize
        ensures { result ≡ length self.now }
    {
        self.bytes.len()
    }

    /// Writes over the bytes from one on: those before and behind stay, and so does their number.
    pub fn put(&mut self, at: usize, part: &[u8])
        requires { at + length part.now ≤ length self.old }
        ensures put { self.new ≡ with_bytes self.old at part.now }
        ensures len { length self.new ≡ length self.old }
    {
        let len = self.bytes.len();
        let end = len.min(at.saturating_add(part.len()));
        self.bytes.as_mut_slice()[at..end].copy_from_slice(part);
    }
}
