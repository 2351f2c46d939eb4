// Images of disks by their words into texts of commands, and back from answers.

use crate::spoken::{Verdict, heard, spoken};
use crate::wrong_answers::is_refused;
use std::io::Write;
use std::rt::Files;
use std::{fs, io};

/// The images, by their names. Each has three files.
const NAMES: &[&str] = &[
    "store_of_a_kernel",
    "another_store_of_a_kernel",
    "origin_of_a_kernel",
];

/// Judges an image, and gives whether all is well.
fn is_well<W: Write>(
    rt: &(impl Files + AllocGlobal),
    writer: &mut W,
    name: &str,
) -> io::Result<bool> {
    let path = format!(in rt.alloc(); "{name}.img")?;
    let image = fs::read(rt, path.as_str())?;
    let path = format!(in rt.alloc(); "{name}.cmd")?;
    let commands = fs::read(rt, path.as_str())?;
    let path = format!(in rt.alloc(); "{name}.out")?;
    let answers = fs::read(rt, path.as_str())?;
    let mut verdict = spoken(rt.alloc(), image.as_slice(), commands.as_slice())?;
    if verdict == Verdict::Well {
        verdict = heard(rt.alloc(), image.as_slice(), answers.as_slice())?;
    }
    if verdict == Verdict::Well && !is_refused(rt.alloc(), image.as_slice(), answers)? {
        verdict = Verdict::Taken;
    }
    writeln!(writer, "{name} {}", verdict.text())?;
    Ok(verdict == Verdict::Well)
}

/// Judges all images, and gives whether all is well.
pub fn are_spoken<W: Write>(rt: &(impl Files + AllocGlobal), writer: &mut W) -> io::Result<bool> {
    let mut well = true;
    for name in NAMES {
        if !is_well(rt, writer, name)? {
            well = false;
        }
    }
    Ok(well)
}
