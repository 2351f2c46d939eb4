// A new store is made of two arrays.
ghost use Rattle.std.specs.Prelude.{◌≡◌, ◌≤◌, true};
ghost use Rattle.chunk.specs.Sizes.{is_chunk};

use crate::rolling::of_put;
use chunk::is_chunk_size;
use cow_image::MAX_IMAGE;
use image_options::Telling;
use new_store_files::write_between;
use opened_files::{Inputs, Trouble, Watched, Why, about, file_begun, file_ended, size_of};
use std::io::Write;

/// The words of it.
#[derive(Clone, Copy, PartialEq, Eq)]
pub struct Words<'a> {
    pub origin: &'a str,
    pub array: &'a str,
    pub new: &'a str,
    pub chunk: Option<u32>,
    pub telling: Telling,
}

/// The sectors of a chunk where none are given, as LVM takes them.
const CHUNK: u32 = 8;

/// Writes a new store whose snapshot of an origin is an array, which is as long.
pub fn store<'a, W: Write>(
    rt: &'a HostRuntime,
    words: Words<'a>,
    output: &mut W,
) -> Result<bool, Trouble<'a>> {
    let mut inputs = Inputs::open_for(rt, words.origin, words.array, words.new, words.telling)?;
    let size = size_of(&mut inputs.origin)?;
    let other = size_of(&mut inputs.cow)?;
    if other != size {
        return Err(Trouble::new(words.array, Why::Unequal(other, size)));
    }
    let mut watched = file_begun(rt, words.new, 0, Telling::Never, output)?;
    let put = put_store(rt, &mut inputs, words, size, &mut watched);
    file_ended(rt, words.new, put)?;
    Ok(true)
}

/// The sectors of a chunk.
fn chunk_in(words: Words<'_>) -> u32
    ensures { is_chunk result ≡ true }
{
    match words.chunk {
        Some(chunk) if is_chunk_size(chunk) => chunk,
        _ => CHUNK,
    }
}

/// Writes the store, makes it last, and sees that the inputs are still as they were read.
fn put_store<'a, W: Write>(
    rt: &HostRuntime,
    inputs: &mut Inputs<'a>,
    words: Words<'a>,
    size: u64,
    watched: &mut Watched<'_, '_, W>,
) -> Result<(), Trouble<'a>>
    requires { size ≤ MAX_IMAGE }
{
    inputs.cow.hush();
    let chunk = chunk_in(words);
    let origin = &mut inputs.origin;
    let array = &mut inputs.cow;
    let put = write_between(rt.alloc(), origin, array, chunk, size, watched);
    inputs.origin.hush();
    of_put(&inputs.origin, &inputs.cow, words.new, put)?;
    about(words.new, watched.finish())?;
    inputs.are_unchanged()
}
