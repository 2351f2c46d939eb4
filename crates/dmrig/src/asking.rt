// The words of the command line.
ghost use Rattle.std.specs.Prelude.{◌≡◌, ◌≤◌, IfOk, IfSome, IsOkAnd, map, option_map};
ghost use Rattle.std.specs.String.{string_bytes};
ghost use Rattle.dmrig.specs.Wanted.{wanted_of, workers_by, is_name as is_name_by, file_wanted};

use crate::help::NOTES;
use clap::{Arg, ArgAction, Command, Error};
use std::alloc::Global;

/// What the words of the command line ask for.
#[derive(Clone, Copy)]
pub struct Asked<'a> {
    /// The file whose lines are done; standard input where there is none, or where it is `-`.
    pub file: Option<&'a str>,
    /// The number of copy workers.
    pub workers: u32,
    /// Whether the number of its line stands before each answer.
    pub numbers: bool,
    /// Whether it is told behind each line what is in flight, and which events are due.
    pub trace: bool,
    /// Whether it is told behind each line that is refused why, and what would be right.
    pub explain: bool,
    /// Whether the journals are folded before each line.
    pub checkpoint: bool,
}

/// The number of workers that a word says.
fn workers_in(word: &str) -> Option<u32>
    ensures workers { result ≡ workers_by word.now }
    ensures some { IfSome result (λ workers. 1 ≤ workers) }
    ensures few { IfSome result (λ workers. workers ≤ 4) }
{
    match word {
        "1" => Some(1),
        "2" => Some(2),
        "3" => Some(3),
        "4" => Some(4),
        _ => None,
    }
}

/// The number of workers that a word says; 1 where there is none.
fn workers_of(word: Option<&str>) -> u32
    ensures some { 1 ≤ result }
    ensures few { result ≤ 4 }
{
    match word {
        Some(word) => workers_in(word).unwrap_or(1),
        None => 1,
    }
}

/// Whether a word is a name: no option, nor the one that stands for standard input.
fn is_name(word: &str) -> bool
    ensures { result ≡ is_name_by word.now }
{
    match word.as_bytes().first() {
        Some(first) => *first != b'-',
        None => false,
    }
}

/// What a file's name asks for, alone or with the number of workers behind it, as most callers give them: `clap`, a quarter of the
/// program's code, need not be asked then. The first word is the program's own name. `None` where there are other words, which
/// `words_ask` reads.
pub fn file_asks<'a>(words: &'a [String]) -> Option<Asked<'a>>
    ensures asked { option_map wanted_of result ≡ file_wanted (map string_bytes words.now) }
    ensures some { IfSome result (λ asked. 1 ≤ asked.workers) }
    ensures few { IfSome result (λ asked. asked.workers ≤ 4) }
{
    let (file, workers) = match words {
        [_, file] => (file.as_str(), 1),
        [_, file, word] => (file.as_str(), workers_in(word.as_str())?),
        _ => return None,
    };
    if !is_name(file) {
        return None;
    }
    Some(Asked {
        file: Some(file),
        workers,
        numbers: false,
        trace: false,
        explain: false,
        checkpoint: false,
    })
}

/// What any words ask for, the first of which is the program's own name. An error says what is wrong with them and with which,
/// or is the help or the version.
pub fn words_ask<'a>(alloc: Global, words: &'a [String]) -> Result<Asked<'a>, Error>
    ensures some { IfOk result (λ asked. 1 ≤ asked.workers) }
    ensures few { IfOk result (λ asked. asked.workers ≤ 4) }
{
    let file = Arg::new(alloc, "FILE")
        .help("The file of commands; - or none is standard input")
        .action(ArgAction::Set);
    let workers = Arg::new(alloc, "WORKERS")
        .help("How many threads a block of lines has for its copies")
        .value_parser(["1", "2", "3", "4"].as_slice())
        .default_value("1");
    let numbers = Arg::new(alloc, "numbers")
        .long("numbers")
        .help("Put the number of its input line before each answer")
        .action(ArgAction::SetTrue);
    let trace = Arg::new(alloc, "trace")
        .long("trace")
        .help(
            "Tell behind each line, on standard error, what is in flight or lost, and which events are due",
        )
        .action(ArgAction::SetTrue);
    let explain = Arg::new(alloc, "explain")
        .long("explain")
        .help(
            "Tell behind each refused line, on standard error, why it is refused and what would be right",
        )
        .action(ArgAction::SetTrue);
    let checkpoint = Arg::new(alloc, "checkpoint")
        .long("checkpoint")
        .help(
            "Make room in the journals before each line, so that none outside of a block finds one full",
        )
        .action(ArgAction::SetTrue);
    let command = Command::new(alloc, "dmrig")
        .version("1")
        .about("Does lines of commands on devices in memory, and prints what each answers.")
        .after_help(NOTES)
        .arg(file)?
        .arg(workers)?
        .arg(numbers)?
        .arg(trace)?
        .arg(explain)?
        .arg(checkpoint)?;
    let matches = command.try_get_matches_from(words)?;
    Ok(Asked {
        file: matches.get_str("FILE"),
        workers: workers_of(matches.get_str("WORKERS")),
        numbers: matches.get_flag("numbers"),
        trace: matches.get_flag("trace"),
        explain: matches.get_flag("explain"),
        checkpoint: matches.get_flag("checkpoint"),
    })
}

/// What any words ask for, the first of which is the program's own name: a file's name is looked for first (`file_asks`), and else
/// `words_ask` reads them.
pub fn any_ask<'a>(alloc: Global, words: &'a [String]) -> Result<Asked<'a>, Error>
    ensures file { IfSome (file_wanted (map string_bytes words.now)) (λ wanted. IsOkAnd result (λ asked. wanted_of asked ≡ wanted)) }
    ensures some { IfOk result (λ asked. 1 ≤ asked.workers) }
    ensures few { IfOk result (λ asked. asked.workers ≤ 4) }
{
    match file_asks(words) {
        Some(asked) => Ok(asked),
        None => words_ask(alloc, words),
    }
}

#[cfg(test)]
mod tests {
    use super::*;
    use clap::error::ErrorKind;
    use std::test::Fail;

    /// The words of a command line, after the program's own name.
    fn line_of(alloc: Global, words: &[&str]) -> Result<Vec<String>, Fail> {
        let mut line = vec![in alloc; String::from_str(alloc, "dmrig")?]?;
        for word in words {
            line.push(String::from_str(alloc, word)?)?;
        }
        Ok(line)
    }

    #[test]
    fn takes_a_name_as_clap_does(rt: HostRuntime) -> Result<(), Fail> {
        for (words, workers) in [
            (["a.cmd"].as_slice(), 1),
            (["a.cmd", "1"].as_slice(), 1),
            (["a.cmd", "3"].as_slice(), 3),
            (["4", "4"].as_slice(), 4),
        ] {
            let line = line_of(rt.alloc(), words)?;
            match (file_asks(&line), words_ask(rt.alloc(), &line)) {
                (Some(named), Ok(asked)) => {
                    assert_eq!(rt; named.file, Some(words[0]));
                    assert_eq!(rt; asked.file, Some(words[0]));
                    assert_eq!(rt; (named.workers, asked.workers), (workers, workers));
                    assert!(rt; !named.numbers && !named.trace && !asked.numbers && !asked.trace);
                }
                _ => assert!(rt; false, "{workers} workers are not taken"),
            }
        }
        Ok(())
    }

    #[test]
    fn leaves_all_other_words_to_clap(rt: HostRuntime) -> Result<(), Fail> {
        for (words, what) in [
            ([].as_slice(), "no word"),
            ([""].as_slice(), "an empty name"),
            (["-"].as_slice(), "standard input"),
            (["-", "2"].as_slice(), "standard input with workers"),
            (["--help"].as_slice(), "an option"),
            (["a.cmd", "5"].as_slice(), "too many workers"),
            (["a.cmd", "--trace"].as_slice(), "an option behind a name"),
            (["--", "a.cmd"].as_slice(), "a name behind --"),
            (["a.cmd", "2", "--numbers"].as_slice(), "three words"),
        ] {
            let line = line_of(rt.alloc(), words)?;
            assert!(rt; file_asks(&line).is_none(), "{what}");
        }
        Ok(())
    }

    #[test]
    fn takes_a_file_workers_and_options_in_any_place(rt: HostRuntime) -> Result<(), Fail> {
        for (words, file, workers, numbers) in [
            ([].as_slice(), None, 1, false),
            (["a.cmd"].as_slice(), Some("a.cmd"), 1, false),
            (["-"].as_slice(), Some("-"), 1, false),
            (["-", "3"].as_slice(), Some("-"), 3, false),
            (["--numbers"].as_slice(), None, 1, true),
            (
                ["--numbers", "a.cmd", "2"].as_slice(),
                Some("a.cmd"),
                2,
                true,
            ),
            (
                ["a.cmd", "--numbers", "4"].as_slice(),
                Some("a.cmd"),
                4,
                true,
            ),
            (
                ["a.cmd", "1", "--numbers"].as_slice(),
                Some("a.cmd"),
                1,
                true,
            ),
            (["--", "--numbers"].as_slice(), Some("--numbers"), 1, false),
        ] {
            let line = line_of(rt.alloc(), words)?;
            match words_ask(rt.alloc(), &line) {
                Ok(asked) => {
                    assert_eq!(rt; asked.file, file);
                    assert_eq!(rt; (asked.workers, asked.numbers), (workers, numbers));
                }
                Err(error) => assert!(rt; false, "{error}"),
            }
        }
        Ok(())
    }

    #[test]
    fn takes_each_option_alone(rt: HostRuntime) -> Result<(), Fail> {
        for (word, numbers, trace, explain, checkpoint) in [
            ("--numbers", true, false, false, false),
            ("--trace", false, true, false, false),
            ("--explain", false, false, true, false),
            ("--checkpoint", false, false, false, true),
        ] {
            let line = line_of(rt.alloc(), ["a.cmd", word].as_slice())?;
            match any_ask(rt.alloc(), &line) {
                Ok(asked) => {
                    assert_eq!(rt;
                        (asked.numbers, asked.trace, asked.explain, asked.checkpoint),
                        (numbers, trace, explain, checkpoint)
                    );
                }
                Err(error) => assert!(rt; false, "{error}"),
            }
        }
        Ok(())
    }

    #[test]
    fn names_the_word_that_is_wrong(rt: HostRuntime) -> Result<(), Fail> {
        for (words, named) in [
            (["--nubmers"].as_slice(), "'--nubmers'"),
            (["a.cmd", "5"].as_slice(), "'5'"),
            (["a.cmd", "2", "more"].as_slice(), "'more'"),
            (["-x"].as_slice(), "'-x'"),
        ] {
            let line = line_of(rt.alloc(), words)?;
            match words_ask(rt.alloc(), &line) {
                Ok(_) => assert!(rt; false, "{named} is taken"),
                Err(error) => {
                    assert_eq!(rt; error.exit_code(), 2);
                    let text = format!(in rt.alloc(); "{error}")?;
                    assert!(rt; text.as_str().contains(named), "{text}");
                }
            }
        }
        Ok(())
    }

    #[test]
    fn tells_its_help_and_version(rt: HostRuntime) -> Result<(), Fail> {
        for (word, kind, said) in [
            ("--help", ErrorKind::DisplayHelp, "Usage: dmrig"),
            ("-h", ErrorKind::DisplayHelp, "--numbers"),
            ("--help", ErrorKind::DisplayHelp, "checkpoint VOL"),
            ("--version", ErrorKind::DisplayVersion, "dmrig 1\n"),
            ("-V", ErrorKind::DisplayVersion, "dmrig 1\n"),
        ] {
            let line = line_of(rt.alloc(), [word].as_slice())?;
            match words_ask(rt.alloc(), &line) {
                Ok(_) => assert!(rt; false, "{word} is taken for a file"),
                Err(error) => {
                    assert!(rt; error.kind() == kind && !error.use_stderr());
                    assert_eq!(rt; error.exit_code(), 0);
                    let text = format!(in rt.alloc(); "{error}")?;
                    assert!(rt; text.as_str().contains(said), "{text}");
                }
            }
        }
        Ok(())
    }
}
