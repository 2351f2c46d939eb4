// Whole sectors of bytes.
ghost use Rattle.std.specs.Prelude.{◌≡◌, ◌≢◌, ◌*◌, length, replicate, IfOk, MatchBool};

use std::alloc::{AllocError, Global};
use std::marker::Model;

/// The bytes of whole sectors, as a request or a reply holds them. Contracts see the list of the bytes.
#[derive(Drop)]
pub struct Buf {
    bytes: Vec<u8>,
}

impl Model for Buf {
    ghost use Rattle.std.specs.Prelude.{ℕ, List};

    ghost Value = { List ℕ };

    ghost view = { λ b. b.bytes.items };
}

impl Buf {
    /// These bytes.
    pub fn from_slice(alloc: Global, bytes: &[u8]) -> Result<Buf, AllocError>
        ensures { IfOk result (λ b. b ≡ bytes.now) }
    {
        let bytes = Vec::from_slice(alloc, bytes)?;
        Ok(Buf { bytes })
    }

    /// The bytes of a vector, which is not copied.
    pub fn from_vec(bytes: Vec<u8>) -> Buf
        ensures { result ≡ bytes.items }
    {
        Buf { bytes }
    }

    /// The vector of the bytes, which is not copied.
    pub fn into_vec(self) -> Vec<u8>
        ensures { result.items ≡ self }
    {
        self.bytes
    }

    /// So many bytes, all zero.
    pub fn zeroed(alloc: Global, count: usize) -> Result<Buf, AllocError>
        ensures { IfOk result (λ b. b ≡ replicate count 0) }
    {
        let bytes = vec![in alloc; 0u8; count]?;
        Ok(Buf { bytes })
    }

    /// Another with the same bytes.
    pub fn copy(&self, alloc: Global) -> Result<Buf, AllocError>
        ensures { IfOk result (λ b. b ≡ self.now) }
    {
        Buf::from_slice(alloc, self.bytes.as_slice())
    }

    /// Takes over the bytes of another that has as many.
    pub fn copy_from(&mut self, other: &Buf)
        requires { length self.old ≡ length other.now }
        ensures { self.new ≡ other.now }
    {
        self.bytes
            .as_mut_slice()
            .copy_from_slice(other.bytes.as_slice());
    }

    pub fn as_slice(&self) -> &[u8]
        ensures { result.now ≡ self.now }
    {
        self.bytes.as_slice()
    }

    pub fn len(&self) -> usize
        ensures { result ≡ length self.now }
    {
        self.bytes.len()
    }

    pub fn is_empty(&self) -> bool
        ensures { MatchBool result (length self.now ≡ 0) (length self.now ≢ 0) }
    {
        self.bytes.is_empty()
    }

    /// Whether both have the same bytes.
    pub fn is_same(&self, other: &Buf) -> bool
        ensures { MatchBool result (self.now ≡ other.now) (self.now ≢ other.now) }
    {
        other.bytes.as_slice() == self.bytes.as_slice()
    }
}
