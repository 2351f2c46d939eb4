// A new file is written whole, or not at all; or standard output is.

use crate::files::{is_free, made, named};
use crate::partial::partial_name;
use crate::target::{OUTPUT, Target};
use crate::teller::Teller;
use crate::trouble::Trouble;
use crate::watched::Watched;
use image_options::Telling;
use std::fs;
use std::io::Write;

/// Begins a new file of so many sectors, under the name that it has until it is whole, or standard output. It is told how much is
/// written, when this is wanted.
pub fn file_begun<'a, 'w, W: Write>(
    rt: &'a HostRuntime,
    out: &'a str,
    size: u64,
    telling: Telling,
    output: &'w mut W,
) -> Result<Watched<'a, 'w, W>, Trouble<'a>> {
    let bytes = size.saturating_mul(512);
    let teller = Teller::new(rt, telling);
    if out == OUTPUT {
        return Ok(Watched::new(Target::new(None, output), bytes, teller));
    }
    is_free(rt, out)?;
    let partial = partial_name(rt, out)?;
    let sink = made(rt, out, partial.as_str())?;
    let target = Target::new(Some(sink), output);
    Ok(Watched::new(target, bytes, teller))
}

/// Gives a file its name where it is written whole, and else takes it away.
pub fn file_ended<'a, T: Drop>(
    rt: &'a HostRuntime,
    out: &'a str,
    written: Result<T, Trouble<'a>>,
) -> Result<T, Trouble<'a>> {
    if out == OUTPUT {
        return written;
    }
    let partial = partial_name(rt, out)?;
    let ended = match written {
        Ok(value) => match named(rt, partial.as_str(), out) {
            Ok(()) => Ok(value),
            Err(trouble) => Err(trouble),
        },
        Err(trouble) => Err(trouble),
    };
    if ended.is_err() {
        let _ = fs::remove_file(rt, partial.as_str());
    }
    ended
}
