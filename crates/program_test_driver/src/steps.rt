// The steps of a row.

/// A step. Names are those of files.
#[derive(Clone, Copy)]
pub enum Step<'a> {
    /// A stored file is copied.
    Copy {
        from: &'a str,
        to: &'a str,
    },
    /// A file of so many zeros is made, of no blocks.
    Zeros {
        file: &'a str,
        bytes: u64,
    },
    /// A folder is made.
    Folder(&'a str),
    /// Nobody may read a folder from now on.
    Hide(&'a str),
    /// A file is locked alone while the command runs, or with others.
    Lock(&'a str),
    Share(&'a str),
    /// A file grows once the command has begun to write to standard output.
    Grow(&'a str),
    /// A write to standard output fails, and each later one.
    Full(u64),
    /// Standard input has what is in this file.
    Hears(&'a str),
    /// The program is run with these words.
    Run(&'a str),
    /// It ended with this exit status.
    Status(u8),
    /// It wrote what is in this file to standard output, or to standard error.
    Prints(&'a str),
    Tells(&'a str),
    /// What it wrote to standard output has this word somewhere.
    Names(&'a str),
    /// It wrote this to standard error, where each `|` ends a line, as the end does; without a text nothing.
    Says(&'a str),
    /// A file has the bytes of another one; has them from a place on; has so many bytes; or is not there.
    Same {
        file: &'a str,
        wants: &'a str,
    },
    Holds {
        file: &'a str,
        at: u64,
        wants: &'a str,
    },
    Length {
        file: &'a str,
        bytes: u64,
    },
    None(&'a str),
}

/// Two words.
fn two(text: &str) -> Option<(&str, &str)> {
    text.split_once(' ')
}

/// A file's name and a number.
fn file_and_number(text: &str) -> Option<(&str, u64)> {
    let (file, rest) = two(text)?;
    Some((file, number(rest)?))
}

/// The step of a line that sets something up, or runs the program.
fn setting_of<'a>(word: &str, rest: &'a str) -> Option<Step<'a>> {
    match word {
        "copy" => {
            let (from, to) = two(rest)?;
            Some(Step::Copy { from, to })
        }
        "zeros" => {
            let (file, bytes) = file_and_number(rest)?;
            Some(Step::Zeros { file, bytes })
        }
        "folder" => Some(Step::Folder(rest)),
        "hide" => Some(Step::Hide(rest)),
        "lock" => Some(Step::Lock(rest)),
        "share" => Some(Step::Share(rest)),
        "grow" => Some(Step::Grow(rest)),
        "full" => Some(Step::Full(number(rest)?)),
        "hears" => Some(Step::Hears(rest)),
        "run" => Some(Step::Run(rest)),
        _ => None,
    }
}

/// The step of a line that wants something to be so.
fn wanted_of<'a>(word: &str, rest: &'a str) -> Option<Step<'a>> {
    match word {
        "status" => Some(Step::Status(status(rest)?)),
        "prints" => Some(Step::Prints(rest)),
        "tells" => Some(Step::Tells(rest)),
        "names" => Some(Step::Names(rest)),
        "says" => Some(Step::Says(rest)),
        "same" => {
            let (file, wants) = two(rest)?;
            Some(Step::Same { file, wants })
        }
        "holds" => {
            let (file, rest) = two(rest)?;
            let (at, wants) = two(rest)?;
            let at = number(at)?;
            Some(Step::Holds { file, at, wants })
        }
        "length" => {
            let (file, bytes) = file_and_number(rest)?;
            Some(Step::Length { file, bytes })
        }
        "none" => Some(Step::None(rest)),
        _ => None,
    }
}

/// The step of a line.
pub fn step_of(line: &str) -> Option<Step<'_>> {
    let (word, rest) = match two(line) {
        Some(parts) => parts,
        None => (line, ""),
    };
    match setting_of(word, rest) {
        Some(step) => Some(step),
        None => wanted_of(word, rest),
    }
}

fn number(text: &str) -> Option<u64> {
    text.parse().ok()
}

fn status(text: &str) -> Option<u8> {
    text.parse().ok()
}
