// What clients said, served over the images of a store that a Linux kernel wrote.

use crate::failing_reads::{is_changed, is_told};
use crate::recordings::NAMES;
use crate::session::{Pictured, judge};
use std::io::Write;
use std::rt::Files;
use std::{fs, io};

/// Serves a recording, and gives whether all is well.
fn is_well<W: Write>(
    rt: &(impl Files + AllocGlobal),
    writer: &mut W,
    images: &Pictured,
    name: &str,
) -> io::Result<bool> {
    let path = format!(in rt.alloc(); "{name}.heard")?;
    let heard = fs::read(rt, path.as_str())?;
    let path = format!(in rt.alloc(); "{name}.said")?;
    let wanted = fs::read(rt, path.as_str())?;
    let verdict = judge(rt.alloc(), images, heard.as_slice(), wanted.as_slice())?;
    writeln!(writer, "{name} {}", verdict.text())?;
    Ok(verdict.is_well())
}

/// Serves all recordings, and gives whether all is well.
pub fn are_served<W: Write>(rt: &(impl Files + AllocGlobal), writer: &mut W) -> io::Result<bool> {
    let images = Pictured {
        origin: fs::read(rt, "origin")?,
        store: fs::read(rt, "store")?,
    };
    let mut well = true;
    for name in NAMES {
        if !is_well(rt, writer, &images, name)? {
            well = false;
        }
    }
    if !is_told(rt.alloc(), &images)? {
        writeln!(writer, "a read that fails differs")?;
        well = false;
    }
    if !is_changed(rt.alloc(), &images)? {
        writeln!(writer, "a read of images that changed differs")?;
        well = false;
    }
    Ok(well)
}
