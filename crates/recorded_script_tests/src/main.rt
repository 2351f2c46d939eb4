//! Whole command files, each run beside the answers that are wanted for it: `rows [FOLDER]`.
//!
//! The file `index` of the folder has a line for each row: its name, and the number of copy workers where that is not 1.
//! NAME.cmd are its commands, NAME.out what they must print; its exit status must be 1 where a line of that begins with
//! `err`, and else 0. For each row `NAME ok` is printed, or the first line that differs, with its number. A file with one
//! of these endings that no line of the index names, in the folder or one below it, is told too. A new row is two files
//! and a line of the index, and a line of this crate's `stdout`.
//!
//! It stands on `script_runner` alone. It promises that a row is told as well only where it printed byte for byte what is
//! wanted.
#![tactic(auto)]

mod difference;
mod index;
mod listing;
mod row;

use crate::listing::are_listed;
use crate::row::is_well;
use std::io::{BufWriter, Write};
use std::process::ExitCode;
use std::rt::Files;
use std::sync::Wait;
use std::thread::Threads;
use std::{fs, io};

/// Runs all rows of a folder, and gives whether all were well and no file is left over.
fn are_well<W: Write>(
    rt: &(impl Files + AllocGlobal + Threads + Wait + Sync + Clone + Drop),
    writer: &mut W,
    folder: &str,
) -> io::Result<bool> {
    let path = format!(in rt.alloc(); "{folder}/index")?;
    let index = fs::read_to_string(rt, path.as_str())?;
    let mut well = are_listed(rt, writer, folder, &index)?;
    for line in index.lines() {
        if !is_well(rt, writer, folder, line)? {
            well = false;
        }
    }
    Ok(well)
}

fn main(rt: HostRuntime) -> io::Result<ExitCode> {
    let words: Vec<String> = std::env::args(&rt)?.collect(rt.alloc())?;
    let folder = match words.get(1) {
        None => ".",
        Some(folder) => folder.as_str(),
    };
    let mut writer = BufWriter::new(rt.alloc(), io::writer(&rt))?;
    let well = are_well(&rt, &mut writer, folder)?;
    writer.flush()?;
    Ok(ExitCode::from(if well { 0 } else { 1 }))
}
