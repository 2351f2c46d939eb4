// All rows are run.

use crate::program::Program;
use crate::row::is_well;
use std::io::{BufWriter, Write};
use std::process::ExitCode;
use std::{fs, io};

/// Runs all rows, and gives whether all were well.
fn are_well<P: Program, W: Write>(rt: &HostRuntime, writer: &mut W) -> io::Result<bool> {
    let index = fs::read_to_string(rt, "index")?;
    let mut well = true;
    for name in index.lines() {
        if !is_well::<P, W>(rt, writer, name)? {
            well = false;
        }
    }
    Ok(well)
}

/// Runs all rows on a program: the `main` of its rows. The exit status is 0 where all were well, and else 1.
pub fn main_of<P: Program>(rt: &HostRuntime) -> io::Result<ExitCode> {
    let mut writer = BufWriter::new(rt.alloc(), io::writer(rt))?;
    let well = are_well::<P, _>(rt, &mut writer)?;
    writer.flush()?;
    Ok(ExitCode::from(if well { 0 } else { 1 }))
}
