// Lines that are run: those of standard input or of a file, to a writer, and what a tracer is told of them.
ghost use Rattle.std.specs.Prelude.{◌≡◌, ◌≤◌, ◌==◌, Result, is_some, option_map, IfErr, IfOk};
ghost use Rattle.std.specs.Fn.{FnOnceReturnsAt};
ghost use Rattle.std.specs.Io.KnownBytes.{Keeps};
ghost use Rattle.script_runner.specs.Exit.{IsEarly};
ghost use Rattle.script_runner.specs.Both.{TellsBoth};
ghost use Rattle.script_runner.specs.Told.{TellsIfThere};
ghost use Rattle.dmrig.specs.Ended.{ended};
ghost use Rattle.dmrig.specs.Opened.{IsDone, IsOpened, file_named};
ghost use Rattle.dmrig.specs.Shown.{IsBegun, IsRun, IsShown, IsTold};
ghost use Rattle.dmrig.specs.Wanted.{text_of};

use crate::asking::Asked;
use crate::source::Source;
use script_runner::{Both, RunError, Summary, Tracer, exit_status, run, run_numbered};
use std::io;
use std::io::{Read, Write};
use std::sync::Wait;
use std::thread::Threads;

/// Runs the lines of a reader into a writer, with the number of its line before each answer or without.
fn run_either<T: AllocGlobal + Threads + Wait + Sync, R: Read, W: Write, X: Tracer>(
    rt: &T,
    reader: &mut R,
    writer: &mut W,
    tracer: &mut X,
    numbers: bool,
    workers: u32,
    checkpoints: bool,
) -> Result<Summary, RunError>
    requires some { 1 ≤ workers }
    requires few { workers ≤ 4 }
    ensures shown { IfOk result (IsShown numbers (R.remaining reader.old) (W.contents writer.old) (W.contents writer.new)) }
    ensures told { IfOk result (λ summary. IsTold X.tells numbers (R.remaining reader.old) (W.contents writer.old) (W.contents writer.new) tracer.old tracer.new) }
    ensures begun { IfErr result (IsBegun numbers (R.remaining reader.old) (W.contents writer.old) (W.contents writer.new)) }
    ensures early { IfErr result (IsEarly (R.remaining reader.old) (R.remaining reader.new) (W.contents writer.old) (W.contents writer.new)) }
{
    let alloc = rt.alloc();
    if numbers {
        run_numbered(rt, alloc, reader, writer, tracer, workers, checkpoints)
    } else {
        run(rt, alloc, reader, writer, tracer, workers, checkpoints)
    }
}

/// Does that, and writes out what is printed. An error is the writer's own.
#[tactic(auto, using(crate::proofs::KeptLemmas::shown_kept, crate::proofs::KeptLemmas::told_kept, crate::proofs::KeptLemmas::begun_kept, crate::proofs::KeptLemmas::early_kept))]
fn printed<T: AllocGlobal + Threads + Wait + Sync, R: Read, W: Write, X: Tracer>(
    rt: &T,
    reader: &mut R,
    writer: &mut W,
    tracer: &mut X,
    numbers: bool,
    workers: u32,
    checkpoints: bool,
) -> io::Result<Result<Summary, RunError>>
    requires some { 1 ≤ workers }
    requires few { workers ≤ 4 }
    ensures { IsRun X.tells numbers (R.remaining reader.old) (R.remaining reader.new) (W.contents writer.old) (W.contents writer.new) tracer.old tracer.new result }
{
    let ran = run_either(rt, reader, writer, tracer, numbers, workers, checkpoints);
    writer.flush()?;
    Ok(ran)
}

/// Says what ended a run early, and gives its exit status.
fn finished(rt: &impl Eprint, name: &str, ran: io::Result<Result<Summary, RunError>>) -> u8
    ensures { result ≡ ended ran }
{
    let Ok(ran) = ran else {
        let _ = eprintln!(rt; "dmrig: cannot write");
        return 2;
    };
    match &ran {
        Err(RunError::Read(_)) => {
            let _ = eprintln!(rt; "dmrig: cannot read {name}");
        }
        Err(error) => {
            let _ = eprintln!(rt; "dmrig: {error}");
        }
        Ok(_) => (),
    }
    exit_status(&ran)
}

/// The file that is named; none where standard input is asked for, by `-` or by no word.
fn named(file: Option<&str>) -> Option<&str>
    ensures { option_map text_of result ≡ file_named (option_map text_of file.entry) }
{
    match file {
        Some(name) if name != "-" => Some(name),
        _ => None,
    }
}

/// Where lines come from: standard input where no file is named, and else what opening that gives.
fn source_of<I: Read + Drop, F: Read, O: FnOnce(&str) -> io::Result<F> + Drop>(
    name: Option<&str>,
    input: I,
    opener: O,
) -> io::Result<Source<I, F>>
    requires { O.IsAlwaysCallable opener }
    ensures { IsOpened (FnOnceReturnsAt O.FnOnce opener) (option_map text_of name.entry) input result }
{
    match name {
        None => Ok(Source::Input(input)),
        Some(name) => match opener(name) {
            Ok(file) => Ok(Source::File(file)),
            Err(error) => Err(error),
        },
    }
}

/// Does what is asked for: runs the lines of standard input, or of the file that is named, which `opener` opens, into a writer, and gives
/// the exit status. Who explains and who traces is told behind each line. What went wrong is told on standard error.
#[inline(never)]
pub fn done<T, I, F, O, W, X, Y>(
    rt: &T,
    asked: &Asked<'_>,
    input: I,
    opener: O,
    writer: &mut W,
    told: &mut Both<Option<X>, Option<Y>>,
) -> u8
where
    T: Eprint + AllocGlobal + Threads + Wait + Sync,
    I: Read + Drop,
    F: Read + Drop,
    O: FnOnce(&str) -> io::Result<F> + Drop,
    W: Write,
    X: Tracer,
    Y: Tracer,
    requires opens { O.IsAlwaysCallable opener }
    requires some { 1 ≤ asked.now.workers }
    requires few { asked.now.workers ≤ 4 }
    requires explained { is_some told.old.first ≡ asked.now.explain }
    requires traced { is_some told.old.second ≡ asked.now.trace }
    ensures { (source : _) × IsOpened (FnOnceReturnsAt O.FnOnce opener) (file_named (option_map text_of asked.now.file)) input source
        × IsDone I.remaining F.remaining (TellsBoth (TellsIfThere X.tells) (TellsIfThere Y.tells)) asked.now.numbers (W.contents writer.old) (W.contents writer.new) told.old told.new result source }
{
    let name = named(asked.file);
    let mut source = match source_of(name, input, opener) {
        Ok(source) => source,
        Err(_) => {
            let _ = eprintln!(rt; "dmrig: cannot read {}", name.unwrap_or("-"));
            return 2;
        }
    };
    let ran = printed(
        rt,
        &mut source,
        writer,
        told,
        asked.numbers,
        asked.workers,
        asked.checkpoint,
    );
    finished(rt, name.unwrap_or("-"), ran)
}
