// A command line is answered.
ghost use Rattle.std.specs.Prelude.{◌≡◌};

use crate::doing::done;
use crate::ended::{Ended, status_of};
use image_options::{Asked, Telling, Wrong, words_ask, words_tell};
use option_parser::program_words;
use std::io;
use std::io::{BufRead, Write};

/// Does what the words of a command line ask for, from and to these streams, and gives the exit status. What goes wrong is a line
/// on the third.
pub fn answer<R: BufRead, W: Write, E: Write>(
    rt: &HostRuntime,
    words: &[String],
    input: &mut R,
    output: &mut W,
    errors: &mut E,
) -> u8 {
    let (asked, telling) = match asked_of(rt, words) {
        Ok(asked) => asked,
        Err(wrong) => {
            let _ = writeln!(
                errors,
                "lochknife: wrong words: {wrong}; lochknife --help tells which are taken"
            );
            return 2;
        }
    };
    let done = if is_silent(asked, telling) {
        done(rt, asked, telling, input, &mut io::sink(), errors)
    } else {
        done(rt, asked, telling, input, output, errors)
    };
    match &done {
        Ok(Ended::Untold(trouble)) => {
            let _ = writeln!(errors, "lochknife: merged, but {trouble}");
        }
        Ok(_) => {}
        Err(trouble) => {
            let _ = writeln!(errors, "lochknife: {trouble}");
        }
    }
    status_of(&done)
}

/// What the words ask for, and when they want it to be told how far that is.
fn asked_of<'a>(rt: &HostRuntime, words: &'a [String]) -> Result<(Asked<'a>, Telling), Wrong<'a>> {
    let asked = words_ask(rt.alloc(), words)?;
    let telling = words_tell(rt.alloc(), words)?;
    Ok((asked, telling))
}

/// Whether nothing is to be printed: a command is to be quiet whose exit status says whether all is well.
fn is_silent(asked: Asked<'_>, telling: Telling) -> bool {
    let tells = match asked {
        Asked::Check { .. } => true,
        Asked::Compare { .. } => true,
        Asked::Merge { .. } => true,
        _ => false,
    };
    tells && telling == Telling::Never
}

/// The program: answers its command line, from and to the standard streams, and gives the exit status.
pub fn run(rt: &HostRuntime) -> u8 {
    let Some(words) = program_words(rt, "lochknife") else {
        return 2;
    };
    let mut input = rt.stdin().lock();
    let mut output = io::writer(rt);
    let mut errors = rt.stderr();
    answer(rt, &words, &mut input, &mut output, &mut errors)
}
