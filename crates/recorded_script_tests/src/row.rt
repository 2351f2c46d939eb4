// One row: its commands are run, and what they printed is compared with what is wanted.
ghost use Rattle.std.specs.Prelude.{◌≡◌, ◌≤◌, true, IfOk};

use crate::difference::first_difference;
use crate::index::named;
use script_runner::{Untraced, exit_status, run};
use std::alloc::Global;
use std::io::{BufReader, Read, Write};
use std::rt::Files;
use std::sync::Wait;
use std::thread::Threads;
use std::{fs, io};

/// No more of a line is shown.
const SHOWN: usize = 160;

/// What a command file printed, and its exit status.
#[derive(Drop)]
struct Ended {
    printed: Vec<u8>,
    status: u8,
}

/// The exit status that a run has which prints a text to its end.
fn status_of(text: &[u8]) -> u8 {
    let is_refused = text
        .split(|byte| *byte == b'\n')
        .any(|line| line.starts_with(b"err"));
    if is_refused { 1 } else { 0 }
}

/// Runs the lines of a reader.
fn run_all<T: Threads + Wait + Sync, R: Read + Drop>(
    rt: &T,
    alloc: Global,
    reader: R,
    workers: u32,
) -> io::Result<Ended>
    requires some { 1 ≤ workers }
    requires few { workers ≤ 4 }
{
    let mut reader = BufReader::new(alloc, reader)?;
    let mut printed = Vec::new(alloc);
    let ran = run(
        rt,
        alloc,
        &mut reader,
        &mut printed,
        &mut Untraced,
        workers,
        false,
    );
    let status = exit_status(&ran);
    Ok(Ended { printed, status })
}

/// Shows a line, or that there is none.
fn show<W: Write>(writer: &mut W, what: &str, line: Option<&[u8]>) -> io::Result<()> {
    match line {
        None => writeln!(writer, "  {what}: no line"),
        Some(line) => {
            write!(writer, "  {what}: ")?;
            writer.write_all(line.get(..SHOWN).unwrap_or(line))?;
            writeln!(writer)
        }
    }
}

/// Prints whether a row printed what is wanted, and ended as it should, and gives whether it did.
fn told<W: Write>(writer: &mut W, name: &str, ended: &Ended, wants: &[u8]) -> io::Result<bool>
    ensures { IfOk result (λ is_well. is_well ≡ true → ended.now.printed.items ≡ wants.now) }
{
    let status = status_of(wants);
    if let Some(first) = first_difference(&ended.printed, wants) {
        let number = first.number;
        writeln!(writer, "{name} differs in line {number}")?;
        show(writer, "has", first.has)?;
        show(writer, "wants", first.wants)?;
        return Ok(false);
    }
    if ended.status != status {
        let has = ended.status;
        writeln!(writer, "{name} ends with status {has}, and not {status}")?;
        return Ok(false);
    }
    writeln!(writer, "{name} ok")?;
    Ok(true)
}

/// Runs the row of a line of the index, and gives whether it was well.
pub fn is_well<W: Write>(
    rt: &(impl Files + AllocGlobal + Threads + Wait + Sync),
    writer: &mut W,
    folder: &str,
    line: &str,
) -> io::Result<bool> {
    let Some((name, workers)) = named(line) else {
        writeln!(writer, "{line} is no row")?;
        return Ok(false);
    };
    let commands = format!(in rt.alloc(); "{folder}/{name}.cmd")?;
    let answers = format!(in rt.alloc(); "{folder}/{name}.out")?;
    let (Ok(commands), Ok(wants)) = (
        fs::open(rt, commands.as_str()),
        fs::read(rt, answers.as_str()),
    ) else {
        writeln!(writer, "{name} cannot be read")?;
        return Ok(false);
    };
    let ended = run_all(rt, rt.alloc(), commands, workers)?;
    told(writer, name, &ended, &wants)
}
