// The text of a header.
ghost use Rattle.std.specs.Prelude.{◌≡◌, ◌≤◌, length, true, if◌then◌else◌, Ok, Err};
ghost use Rattle.chunk.specs.Sizes.{is_chunk};
ghost use Rattle.cow_header.specs.HeaderText.{found_in, header_bytes};
ghost use Rattle.cow_header.specs.declared.found.Found.TheVariants.{Header};
ghost use Rattle.sector.specs.declared.refusal.Refusal.TheVariants.{Invalid};

use crate::{MAGIC, VERSION};
use sector::put_u32;

/// Writes a header over a chunk: the four numbers, and zeros after them. An invalid one has the mark 0, and is refused
/// when it is read again; a valid one has the mark 1.
pub fn encode(bytes: &mut [u8], valid: bool, chunk: u32)
    requires { 16 ≤ length bytes.old }
    ensures text { bytes.new ≡ header_bytes (length bytes.old) valid chunk }
    ensures found { is_chunk chunk ≡ true → found_in bytes.new ≡ (if valid then Ok (Header chunk) else Err Invalid) }
{
    bytes.fill(0);
    put_u32(bytes, 0, MAGIC);
    put_u32(bytes, 4, valid as u32);
    put_u32(bytes, 8, VERSION);
    put_u32(bytes, 12, chunk);
}
