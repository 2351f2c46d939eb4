// The files of a folder that no line of its index names.

use crate::index::has_row;
use std::io::Write;
use std::rt::Files;
use std::{fs, io};

/// The name of the row that a file belongs to; `None` of a file that is of no row.
fn row_of(path: &str) -> Option<&str> {
    match path.strip_suffix(".cmd") {
        Some(name) => Some(name),
        None => path.strip_suffix(".out"),
    }
}

/// Tells of a file that belongs to no row of the index, and gives whether it is none.
fn is_listed<W: Write>(writer: &mut W, index: &str, path: &str) -> io::Result<bool> {
    match row_of(path) {
        Some(name) if !has_row(index, name) => {
            writeln!(writer, "{path} is in no line of index")?;
            Ok(false)
        }
        _ => Ok(true),
    }
}

/// Tells of each file of a folder below that belongs to no row of the index, and gives whether there is none.
fn are_below_listed<W: Write>(
    rt: &(impl Files + AllocGlobal + Clone + Drop),
    writer: &mut W,
    folder: &str,
    below: &str,
    index: &str,
) -> io::Result<bool> {
    let path = format!(in rt.alloc(); "{folder}/{below}")?;
    let mut well = true;
    for entry in fs::read_dir(rt, path.as_str())? {
        let entry = entry?;
        let name = entry.file_name();
        let file = format!(in rt.alloc(); "{below}/{name}")?;
        if !is_listed(writer, index, file.as_str())? {
            well = false;
        }
    }
    Ok(well)
}

/// Tells of each file of a folder, or of one below it, that belongs to no row of the index, and gives whether there is
/// none.
pub fn are_listed<W: Write>(
    rt: &(impl Files + AllocGlobal + Clone + Drop),
    writer: &mut W,
    folder: &str,
    index: &str,
) -> io::Result<bool> {
    let mut well = true;
    for entry in fs::read_dir(rt, folder)? {
        let entry = entry?;
        let name = entry.file_name();
        let listed = if entry.file_type()?.is_dir() {
            are_below_listed(rt, writer, folder, name, index)?
        } else {
            is_listed(writer, index, name)?
        };
        if !listed {
            well = false;
        }
    }
    Ok(well)
}
