// One row: its steps are done in turn.
use crate::program::Program;
use crate::sandbox::{clear, hide, make_folder, make_zeros};
use crate::steps::{Step, step_of};
use crate::streams::Output;
use std::fs::File;
use std::io::Write;
use std::os::unix::fs::FileExt;
use std::{fs, io, str};

/// What a command printed, and its exit status.
#[derive(Drop)]
struct Ended {
    printed: Vec<u8>,
    told: Vec<u8>,
    status: u8,
}

/// What a row has set up, and how its command ended.
#[derive(Drop)]
struct Setting<'a> {
    locks: Vec<File>,
    grows: Option<&'a str>,
    fails_at: u64,
    hears: Vec<u8>,
    ended: Ended,
}

/// The words of a command line: the program's own name is the first.
fn words_of(rt: &HostRuntime, line: &str) -> io::Result<Vec<String>> {
    let mut words = Vec::new(rt.alloc());
    words.push(String::from_str(rt.alloc(), "program")?)?;
    for word in line.split(' ') {
        if !word.is_empty() {
            words.push(String::from_str(rt.alloc(), word)?)?;
        }
    }
    Ok(words)
}

/// Runs the program with the words of a line.
fn ran<P: Program>(rt: &HostRuntime, line: &str, setting: &Setting<'_>) -> io::Result<Ended> {
    let words = words_of(rt, line)?;
    let hears = setting.hears.as_slice();
    let mut output = Output {
        rt,
        bytes: Vec::new(rt.alloc()),
        grows: setting.grows,
        fails_at: setting.fails_at,
        writes: 0,
    };
    let mut told: Vec<u8> = Vec::new(rt.alloc());
    let status = P::answer(rt, &words, hears, &mut output, &mut told);
    Ok(Ended {
        printed: output.bytes,
        told,
        status,
    })
}

/// What a line says that ends where each `|` stands.
fn said(rt: &HostRuntime, line: &str) -> io::Result<Vec<u8>> {
    let mut text = Vec::new(rt.alloc());
    for byte in line.as_bytes() {
        text.push(if *byte == b'|' { b'\n' } else { *byte })?;
    }
    text.push(b'\n')?;
    Ok(text)
}

/// Whether a file has these bytes.
fn has(rt: &HostRuntime, name: &str, bytes: &[u8]) -> io::Result<bool> {
    let wants = fs::read(rt, name)?;
    Ok(wants.as_slice() == bytes)
}

/// Whether a file has these bytes from a place on.
fn holds(rt: &HostRuntime, name: &str, at: u64, wants: &str) -> io::Result<bool> {
    let wants = fs::read(rt, wants)?;
    let mut bytes = vec![in rt.alloc(); 0u8; wants.len()]?;
    File::open(rt, name)?.read_exact_at(bytes.as_mut_slice(), at)?;
    Ok(wants.as_slice() == bytes.as_slice())
}

/// Opens a file, to be locked.
fn opened(rt: &HostRuntime, name: &str) -> io::Result<File> {
    File::options().read(true).open(rt, name)
}

/// Does a step that sets something up, or runs the program, and gives whether what it asks for is so.
fn is_done<'a, P: Program>(
    rt: &HostRuntime,
    step: Step<'a>,
    setting: &mut Setting<'a>,
) -> io::Result<bool> {
    match step {
        Step::Copy { from, to } => {
            fs::copy(rt, from, to)?;
        }
        Step::Zeros { file, bytes } => make_zeros(rt, file, bytes)?,
        Step::Folder(name) => make_folder(rt, name)?,
        Step::Hide(name) => hide(rt, name)?,
        Step::Lock(name) => {
            let file = opened(rt, name)?;
            file.lock()?;
            setting.locks.push(file)?;
        }
        Step::Share(name) => {
            let file = opened(rt, name)?;
            file.lock_shared()?;
            setting.locks.push(file)?;
        }
        Step::Grow(name) => setting.grows = Some(name),
        Step::Full(number) => setting.fails_at = number,
        Step::Hears(name) => setting.hears = fs::read(rt, name)?,
        Step::Run(line) => setting.ended = ran::<P>(rt, line, setting)?,
        _ => return is_so(rt, step, &setting.ended),
    }
    Ok(true)
}

/// Whether what a step wants is so.
fn is_so(rt: &HostRuntime, step: Step<'_>, ended: &Ended) -> io::Result<bool> {
    match step {
        Step::Status(status) => Ok(ended.status == status),
        Step::Prints(name) => has(rt, name, ended.printed.as_slice()),
        Step::Tells(name) => has(rt, name, ended.told.as_slice()),
        Step::Names(word) => {
            let printed = str::from_utf8(ended.printed.as_slice());
            Ok(printed.unwrap_or("").contains(word))
        }
        Step::Says("") => Ok(ended.told.is_empty()),
        Step::Says(line) => Ok(said(rt, line)?.as_slice() == ended.told.as_slice()),
        Step::Same { file, wants } => {
            let bytes = fs::read(rt, file)?;
            has(rt, wants, bytes.as_slice())
        }
        Step::Holds { file, at, wants } => holds(rt, file, at, wants),
        Step::Length { file, bytes } => Ok(fs::metadata(rt, file)?.len() == bytes),
        Step::None(name) => Ok(!fs::exists(rt, name)?),
        _ => Ok(false),
    }
}

/// Shows how a command ended.
fn show<W: Write>(writer: &mut W, ended: &Ended) -> io::Result<()> {
    writeln!(writer, "  status {}", ended.status)?;
    writer.write_all(b"  printed: ")?;
    writer.write_all(front(ended.printed.as_slice()))?;
    writer.write_all(b"\n  told: ")?;
    writer.write_all(front(ended.told.as_slice()))?;
    writer.write_all(b"\n")
}

/// No more of a text is shown.
fn front(text: &[u8]) -> &[u8] {
    text.get(..400).unwrap_or(text)
}

/// Runs a row, and gives whether it was well.
pub fn is_well<P: Program, W: Write>(
    rt: &HostRuntime,
    writer: &mut W,
    name: &str,
) -> io::Result<bool> {
    let path = format!(in rt.alloc(); "{name}.row")?;
    let steps = fs::read_to_string(rt, path.as_str())?;
    clear(rt)?;
    let mut setting = Setting {
        locks: Vec::new(rt.alloc()),
        grows: None,
        fails_at: 0,
        hears: Vec::new(rt.alloc()),
        ended: Ended {
            printed: Vec::new(rt.alloc()),
            told: Vec::new(rt.alloc()),
            status: 0,
        },
    };
    for line in steps.lines() {
        let well = match step_of(line) {
            Some(step) => is_done::<P>(rt, step, &mut setting).unwrap_or(false),
            None => false,
        };
        if !well {
            writeln!(writer, "{name} differs: {line}")?;
            show(writer, &setting.ended)?;
            return Ok(false);
        }
    }
    writeln!(writer, "{name} ok")?;
    Ok(true)
}
