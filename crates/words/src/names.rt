// Names of devices.
ghost use Rattle.std.specs.Prelude.{◌≡◌, ◌-◌, ◌≤◌, true, false, drop, length, replicate, take, IfOk, MatchOption};
ghost use Rattle.std.specs.List.{list_all};
ghost use Rattle.std.specs.Str.{bytes_eq};
ghost use Rattle.words.specs.Names.{is_name_byte, is_name, name_of};

use sector::Refusal;
use std::marker::Model;
use std::simd::prelude::*;

/// The name of a device: 1 to 16 of the characters a to z, 0 to 9 and `_`, the first of them a letter. Contracts
/// see the list of its bytes. It takes no memory of the allocator.
#[derive(Drop)]
pub struct Name {
    /// Zero past the name, so that names are compared whole.
    bytes: [u8; 16],
    len: u8,
}

impl Model for Name {
    ghost use Rattle.std.specs.Prelude.{ℕ, List, ◌≡◌, ◌≤◌, ◌-◌, drop, replicate, take, true};

    ghost Value = { List ℕ };

    ghost use Rattle.words.specs.Names.{is_name};

    ghost view = { λ n. take n.len n.bytes };

    ghost invariant = { λ n. (n.len ≤ 16) × (is_name (take n.len n.bytes) ≡ true) × (drop n.len n.bytes ≡ replicate (16 - n.len) 0) };
}

fn is_name_character(byte: u8) -> bool
    ensures { result ≡ is_name_byte byte }
{
    byte.is_ascii_lowercase() || byte.is_ascii_digit() || byte == b'_'
}

fn are_name_characters(word: &[u8]) -> bool
    ensures { result ≡ list_all is_name_byte word.now }
{
    word.iter().all(|byte| is_name_character(*byte))
}

/// Whether a word has the form of a name.
pub fn is_a_name(word: &[u8]) -> bool
    ensures { result ≡ is_name word.now }
{
    !word.is_empty()
        && word.len() <= 16
        && word[0].is_ascii_lowercase()
        && are_name_characters(word)
}

/// A word of at most 16 bytes, zero past it; `None` where one of its bytes is none of a name. Each byte is looked at and put in
/// its place at once.
#[inline(always)]
#[tactic(auto, using(crate::proofs::Padded::name_here, crate::proofs::Padded::no_name_here, crate::proofs::Padded::front_here, crate::proofs::Padded::back_here, crate::proofs::Padded::front_all))]
fn padded(word: &[u8]) -> Option<[u8; 16]>
    requires { length word.now ≤ 16 }
    ensures { MatchOption result (list_all is_name_byte word.now ≡ false) (λ bytes. (list_all is_name_byte word.now ≡ true) × (take (length word.now) bytes ≡ word.now) × (drop (length word.now) bytes ≡ replicate (16 - length word.now) 0)) }
{
    let mut bytes = [0u8; 16];
    for i in 0..word.len() {
        if !is_name_character(word[i]) {
            return None;
        }
        bytes[i] = word[i];
    }
    Some(bytes)
}

/// Whether both have the same 16 bytes.
#[inline(always)]
fn are_same(one: &[u8; 16], other: &[u8; 16]) -> bool
    ensures { result ≡ bytes_eq one.now other.now }
{
    u8x16::from_array(*one) == u8x16::from_array(*other)
}

impl Name {
    /// The name that a word says; `None` for a word that is no name.
    #[inline(always)]
    pub fn read(word: &[u8]) -> Option<Name>
        ensures { MatchOption result (is_name word.now ≡ false) (λ name. (is_name word.now ≡ true) × (name ≡ word.now)) }
    {
        if word.is_empty() || word.len() > 16 || !word[0].is_ascii_lowercase() {
            return None;
        }
        let bytes = padded(word)?;
        let len = word.len() as u8;
        Some(Name { bytes, len })
    }

    /// The name that a word says. `BadTable` for a word that is no name.
    pub fn new(word: &[u8]) -> Result<Name, Refusal>
        ensures name { result ≡ name_of word.now }
        ensures form { IfOk result (λ name. is_name name ≡ true) }
    {
        match Name::read(word) {
            Some(name) => Ok(name),
            None => Err(Refusal::BadTable),
        }
    }

    /// Another with the same bytes.
    pub fn copy(&self) -> Name
        ensures { result ≡ self.now }
    {
        Name {
            bytes: self.bytes,
            len: self.len,
        }
    }

    /// Its bytes.
    pub fn as_slice(&self) -> &[u8]
        ensures { result.now ≡ self.now }
    {
        &self.bytes[..usize::from(self.len)]
    }

    /// Whether both have the same bytes.
    pub fn is_same(&self, other: &Name) -> bool
        ensures { result ≡ bytes_eq self.now other.now }
    {
        self.len == other.len && are_same(&self.bytes, &other.bytes)
    }
}
