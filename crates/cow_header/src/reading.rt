// A first sector is read.
ghost use Rattle.std.specs.Prelude.{◌≡◌, ℕ, ◌≤◌, ◌↔◌, length, Ok};
ghost use Rattle.cow_header.specs.HeaderText.{IsFresh, IsGood, found_in};
ghost use Rattle.cow_header.specs.declared.found.Found.TheVariants.{Fresh, Header};

use crate::{Found, MAGIC, VERSION};
use chunk::is_chunk_size;
use sector::{Refusal, u32_at};

/// What the first sector of a store says. The refusals, in this order: `BadHeader` for a magic number that is neither
/// 0 nor `SnAp`, `BadVersion` for a version other than 1, `BadChunk` for a chunk size that is not allowed, and
/// `Invalid` for a mark of 0. Any other mark is good, and bytes after the sixteenth are not looked at.
pub fn decode(first: &[u8]) -> Result<Found, Refusal>
    requires { 16 ≤ length first.now }
    ensures found { result ≡ found_in first.now }
    ensures fresh { (result ≡ Ok Fresh) ↔ IsFresh first.now }
    ensures good { (chunk : ℕ) → (result ≡ Ok (Header chunk)) ↔ IsGood first.now chunk }
{
    let magic = u32_at(first, 0);
    let valid = u32_at(first, 4);
    let version = u32_at(first, 8);
    let chunk = u32_at(first, 12);
    if magic == 0 {
        Ok(Found::Fresh)
    } else if magic != MAGIC {
        Err(Refusal::BadHeader)
    } else if version != VERSION {
        Err(Refusal::BadVersion)
    } else if !is_chunk_size(chunk) {
        Err(Refusal::BadChunk)
    } else if valid == 0 {
        Err(Refusal::Invalid)
    } else {
        Ok(Found::Header { chunk })
    }
}
