//! The command program `dmrig [--numbers] [--trace] [--explain] [--checkpoint] [FILE [WORKERS]]`: it does the command lines of a file, or
//! of standard input, and prints their answers. Each answer is written out before more input is waited for.
//!
//! It stands on `script_runner`, which says what is printed, and has only what concerns the process: the words of the command
//! line, the file, standard output and the exit status (0, 1 where a line was refused, 2 where the run ended early or
//! could not begin). What is asked for is done over any reader, writer, tracer and any way to open a file (`running::done`): its
//! contract hands on what `script_runner` prints and tells, of standard input or of the file that was opened. Here stands what makes those
//! of the process.
#![tactic(auto)]

ghost use Rattle.std.specs.Prelude.{◌≡◌, ◌≤◌, is_some, IfOk};

mod asking;
mod help;
mod running;
mod source;

use crate::asking::{Asked, any_ask};
use crate::running::done;
use explain_refusals::ExplainTo;
use script_runner::{Both, TraceTo};
use std::alloc::Global;
use std::io::{BufWriter, Printer};
use std::process::ExitCode;
use std::rt::{Files, Stderr};
use std::sync::Wait;
use std::thread::Threads;
use std::{fs, io};

/// The bytes of the room for short texts.
const SHORT_TEXTS: usize = 4096;

/// A writer to standard output that writes out many bytes at once.
fn output<P: Print>(rt: &P, alloc: Global) -> io::Result<BufWriter<Printer<'_, P>>> {
    // Given back behind the writer's room, it stays between others: short texts come and go there, and not at the front of a large
    // room that is free, where one of them would keep the next that is as large out.
    let short = Vec::<u8>::with_capacity(alloc, SHORT_TEXTS).ok();
    let writer = BufWriter::new(alloc, io::writer(rt))?;
    drop(short);
    Ok(writer)
}

/// Who is told of each line, on standard error: who explains refusals, and who traces, each where it is asked for.
fn tellers<'a>(
    alloc: Global,
    asked: &Asked<'_>,
    errors: &'a Stderr,
) -> io::Result<
    Both<Option<ExplainTo<BufWriter<&'a Stderr>>>, Option<TraceTo<BufWriter<&'a Stderr>>>>,
>
    ensures explained { IfOk result (λ told. is_some told.first ≡ asked.now.explain) }
    ensures traced { IfOk result (λ told. is_some told.second ≡ asked.now.trace) }
{
    let first = explainer(alloc, asked.explain, errors)?;
    let second = tracer(alloc, asked.trace, errors)?;
    Ok(Both { first, second })
}

/// Who explains refusals, on standard error: nobody, unless that is asked for.
fn explainer(
    alloc: Global,
    explain: bool,
    errors: &Stderr,
) -> io::Result<Option<ExplainTo<BufWriter<&Stderr>>>>
    ensures { IfOk result (λ explainer. is_some explainer ≡ explain) }
{
    if explain {
        Ok(Some(ExplainTo::new(alloc, BufWriter::new(alloc, errors)?)))
    } else {
        Ok(None)
    }
}

/// Who traces, on standard error: nobody, unless that is asked for.
fn tracer(
    alloc: Global,
    trace: bool,
    errors: &Stderr,
) -> io::Result<Option<TraceTo<BufWriter<&Stderr>>>>
    ensures { IfOk result (λ tracer. is_some tracer ≡ trace) }
{
    if trace {
        Ok(Some(TraceTo::new(BufWriter::new(alloc, errors)?)))
    } else {
        Ok(None)
    }
}

/// The words of the command line. `None`, once that is told, where they could not be had.
#[inline(never)]
fn given(rt: &HostRuntime) -> Option<Vec<String>> {
    match std::env::args(rt) {
        Ok(args) => match args.collect(rt.alloc()) {
            Ok(words) => Some(words),
            Err(_) => {
                let _ = eprintln!(rt; "dmrig: out of memory");
                None
            }
        },
        Err(error) => {
            if error.kind() == io::ErrorKind::InvalidData {
                let _ = eprintln!(rt;
                    "dmrig: wrong words: one is no UTF-8; give such a file another name by a link"
                );
            } else {
                let _ = eprintln!(rt; "dmrig: {error}");
            }
            None
        }
    }
}

/// Does what is asked for with the streams and files of this process, and gives the exit status. An error says that standard output,
/// or standard error where it is wanted, can't be had.
fn done_here(
    rt: &(impl Files + Input + Print + Eprint + AllocGlobal + Threads + Wait + Sync),
    errors: &Stderr,
    asked: &Asked<'_>,
) -> io::Result<u8>
    requires some { 1 ≤ asked.now.workers }
    requires few { asked.now.workers ≤ 4 }
{
    let mut writer = output(rt, rt.alloc())?;
    let mut told = tellers(rt.alloc(), asked, errors)?;
    Ok(done(
        rt,
        asked,
        rt.reader(),
        |name| fs::open(rt, name),
        &mut writer,
        &mut told,
    ))
}

/// Does what is asked for, and gives the exit status.
#[inline(never)]
fn status_of(
    rt: &(impl Files + Input + Print + Eprint + AllocGlobal + Threads + Wait + Sync),
    errors: &Stderr,
    asked: &Asked<'_>,
) -> u8
    requires some { 1 ≤ asked.now.workers }
    requires few { asked.now.workers ≤ 4 }
{
    match done_here(rt, errors, asked) {
        Ok(status) => status,
        Err(_) => {
            let _ = eprintln!(rt; "dmrig: cannot write");
            2
        }
    }
}

fn main(rt: HostRuntime) -> ExitCode {
    let Some(words) = given(&rt) else {
        return ExitCode::from(2);
    };
    match any_ask(rt.alloc(), &words) {
        Ok(asked) => ExitCode::from(status_of(&rt, &rt.stderr(), &asked)),
        Err(error) => match error.print(&rt) {
            Ok(()) if !error.use_stderr() => ExitCode::SUCCESS,
            _ => ExitCode::from(2),
        },
    }
}
