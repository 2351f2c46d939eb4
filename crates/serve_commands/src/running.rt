// A command line is answered.
ghost use Rattle.std.specs.Prelude.{◌≡◌, ◌≤◌, drop, map, IsErr};
ghost use Rattle.std.specs.String.{string_bytes};
ghost use Rattle.serve_options.specs.Splits.{split_by};
ghost use Rattle.serve_options.specs.Asks.{asked_by};

use crate::serving::{Serving, serve};
use crate::taking::{Taking, take};
use option_parser::program_words;
use serve_files::{Trouble, about, new, status_of};
use serve_options::{Asked, HELP, VERSION, split, words_ask};
use std::io::{Read, Write};

/// Does what the words of a command line ask for, from and to these streams, and gives the exit status: 0 where it is done, 1 where a
/// store is refused, 2 where it could not run or the words are wrong. What goes wrong is a line on the third.
pub fn answer<'a, R: Read, W: Write, E: Write>(
    rt: &'a HostRuntime,
    words: &'a [String],
    input: &mut R,
    output: &mut W,
    errors: &mut E,
) -> u8
    ensures wrong { IsErr (asked_by (split_by (drop 1 (map string_bytes words.now)))) → result ≡ 2 }
    ensures few { result ≤ 2 }
{
    let words = match split(rt.alloc(), words) {
        Ok(words) => words,
        Err(_) => {
            let _ = writeln!(errors, "lochknife: no memory");
            return 2;
        }
    };
    let asked = match words_ask(&words) {
        Ok(asked) => asked,
        Err(wrong) => {
            let _ = writeln!(
                errors,
                "lochknife: wrong words: {wrong}; lochknife --help tells which are taken"
            );
            return 2;
        }
    };
    let done = done(rt, asked, input, output, errors);
    if let Err(trouble) = &done {
        let _ = writeln!(errors, "lochknife: {trouble}");
    }
    status_of(&done)
}

/// Does what is asked for.
fn done<'a, R: Read, W: Write, E: Write>(
    rt: &'a HostRuntime,
    asked: Asked<'_, 'a>,
    input: &mut R,
    output: &mut W,
    errors: &mut E,
) -> Result<(), Trouble<'a>> {
    match asked {
        Asked::Help => said(HELP, output),
        Asked::Version => said(VERSION, output),
        Asked::New { cow, bytes } => new(rt, cow, bytes),
        Asked::Take { origin, cow, chunk } => take(rt, Taking { origin, cow, chunk }, errors),
        Asked::Serve {
            origin,
            cows,
            merge,
            chunk,
            refuse,
            anyway,
        } => {
            let words = Serving {
                origin,
                cows,
                merge,
                chunk,
                refuse,
                anyway,
            };
            match serve(rt, words, input, output, errors) {
                Ok(_) => Ok(()),
                Err(trouble) => Err(trouble),
            }
        }
    }
}

/// Says what the program has to say of itself.
fn said<W: Write>(text: &str, output: &mut W) -> Result<(), Trouble<'static>> {
    about("standard output", output.write_all(text.as_bytes()))?;
    about("standard output", output.flush())
}

/// The program: answers its command line, from and to the standard streams, and gives the exit status.
pub fn run(rt: &HostRuntime) -> u8 {
    let Some(words) = program_words(rt, "lochknife") else {
        return 2;
    };
    let mut input = rt.stdin();
    let mut output = rt.stdout();
    let mut errors = rt.stderr();
    answer(rt, &words, &mut input, &mut output, &mut errors)
}
