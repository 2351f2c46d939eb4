// An image goes into a text of commands, and comes back from answers.

use image::Sink;
use image_options::Telling;
use image_to_dmrig::{MOST_SECTORS, Stopped, Untold, put_words, read_told};
use opened_files::{
    Input, OUTPUT, Trouble, Watched, Why, about, file_begun, file_ended, is_free, size_of,
};
use std::io::{BufRead, Write};
use words::Name;

/// Prints the lines of commands that make a disk of `dmrig` with the bytes of an image.
pub fn spell<'a, W: Write>(
    rt: &'a HostRuntime,
    disk: &'a str,
    image: &'a str,
    printer: &mut W,
) -> Result<bool, Trouble<'a>> {
    let mut input = Input::open(rt, image, Telling::Terminal)?;
    let size = size_of(&mut input)?;
    let Ok(name) = Name::new(disk.as_bytes()) else {
        return Err(Trouble::new(image, Why::NoDisk(size)));
    };
    if size == 0 || MOST_SECTORS < size {
        return Err(Trouble::new(image, Why::NoDisk(size)));
    }
    let mut output = file_begun(rt, OUTPUT, size, Telling::Never, printer)?;
    if let Err(stopped) = put_words(rt.alloc(), &name, &mut input, size, &mut output) {
        return Err(why_unput(&input, stopped));
    }
    input.hush();
    about("standard output", output.finish())?;
    input.is_unchanged()?;
    Ok(true)
}

/// Why not all lines were printed.
fn why_unput<'a>(input: &Input<'a>, stopped: Stopped) -> Trouble<'a> {
    match stopped {
        Stopped::Unreadable(error) => {
            Trouble::new(input.name, Why::Unreadable(input.failed(), error))
        }
        Stopped::Unwritable(error) => Trouble::new("standard output", Why::Unwritable(error)),
        Stopped::NoMemory => Trouble::new(input.name, Why::NoMemory),
    }
}

/// What answers are read from.
const HEARD: &str = "standard input";

/// Writes the bytes that the answers on standard input tell to a new file. Where a line is no answer no file is made.
pub fn hear<'a, R: BufRead, W: Write>(
    rt: &'a HostRuntime,
    out: &'a str,
    input: &mut R,
    printer: &mut W,
) -> Result<bool, Trouble<'a>> {
    is_free(rt, out)?;
    let bytes = match read_told(rt.alloc(), input) {
        Ok(bytes) => bytes,
        Err(untold) => return Err(why_untold(untold)),
    };
    let len = bytes.len() as u64;
    if len == 0 {
        return Err(Trouble::new(HEARD, Why::NoData));
    }
    if len % 512 != 0 {
        return Err(Trouble::new(HEARD, Why::PartOfSector(len)));
    }
    put_file(rt, out, bytes.as_slice(), printer)?;
    Ok(true)
}

/// Writes a new file, or to standard output.
pub fn put_file<'a, W: Write>(
    rt: &'a HostRuntime,
    out: &'a str,
    bytes: &[u8],
    printer: &mut W,
) -> Result<(), Trouble<'a>> {
    let size = bytes.len() as u64 / 512;
    let mut output = file_begun(rt, out, size, Telling::Terminal, printer)?;
    let written = put_image(&mut output, out, bytes);
    file_ended(rt, out, written)
}

/// Writes an image, and makes it last.
fn put_image<'a, W: Write>(
    output: &mut Watched<'_, '_, W>,
    out: &'a str,
    bytes: &[u8],
) -> Result<(), Trouble<'a>> {
    let put = output.put(bytes);
    output.hush();
    if let Err(error) = put {
        return Err(Trouble::new(out, Why::Unwritable(error)));
    }
    about(out, output.finish())
}

/// Why answers tell no image.
fn why_untold(untold: Untold) -> Trouble<'static> {
    let why = match untold {
        Untold::Unreadable(error) => Why::Unreadable(None, error),
        Untold::Line(number) => Why::NoAnswer(number),
        Untold::NoMemory => Why::NoMemory,
    };
    Trouble::new(HEARD, why)
}
