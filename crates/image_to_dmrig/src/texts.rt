// The lines of commands that fill a disk.
ghost use Rattle.std.specs.Prelude.{◌≡◌, ◌++◌, IfOk, OnOk, codes, decimal};
ghost use Rattle.image_to_dmrig.specs.Loads.{disk_line, load_line};

use command_replies::words_of_data;
use itoa::Buffer;
use std::alloc::{AllocError, Global};
use words::Name;

/// Adds a number in decimal digits.
fn push_number(text: &mut Vec<u8>, number: u64) -> Result<(), AllocError>
    ensures { OnOk result (text.new.items ≡ text.old.items ++ decimal number) }
{
    let mut buffer = Buffer::new();
    text.extend_from_slice(buffer.format(number).as_bytes())
}

/// The line that makes a disk of so many sectors.
pub fn disk_text(alloc: Global, name: &Name, sectors: u64) -> Result<Vec<u8>, AllocError>
    ensures { IfOk result (λ text. text.items ≡ disk_line name.now sectors) }
{
    let mut text = Vec::new(alloc);
    text.extend_from_slice(b"disk ")?;
    text.extend_from_slice(name.as_slice())?;
    text.extend_from_slice(b" ")?;
    push_number(&mut text, sectors)?;
    text.extend_from_slice(b"\n")?;
    Ok(text)
}

/// The line that gives a disk these bytes, from a sector on.
pub fn load_text(
    alloc: Global,
    name: &Name,
    first: u64,
    bytes: &[u8],
) -> Result<Vec<u8>, AllocError>
    ensures { IfOk result (λ text. text.items ≡ load_line name.now first bytes.now) }
{
    let data = words_of_data(alloc, bytes)?;
    let mut text = Vec::new(alloc);
    text.extend_from_slice(b"load ")?;
    text.extend_from_slice(name.as_slice())?;
    text.extend_from_slice(b" ")?;
    push_number(&mut text, first)?;
    text.extend_from_slice(data.as_slice())?;
    text.extend_from_slice(b"\n")?;
    Ok(text)
}
