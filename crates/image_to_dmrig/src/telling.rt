// Answers of `dmrig` are read back.
ghost use Rattle.std.specs.Prelude.{◌≡◌, ℕ, [], ◌∷◌, ◌++◌, List, true, is_some, IfErr, IfOk, IfSome, MatchOption, Ok, Err, Some, None};
ghost use Rattle.words.specs.Words.{words_of};
ghost use Rattle.command.specs.DataWords.{are_runs, data_of};
ghost use Rattle.image_to_dmrig.specs.Told.{answer_of, told, HasNoEnd};
ghost use Rattle.image_to_dmrig.specs.declared.telling.Untold.TheVariants.{Line};

use crate::runs::{are_all_runs, push_data};
use std::alloc::Global;
use std::io;
use std::io::BufRead;
use words::next_word;

/// Why answers tell no bytes.
#[derive(Debug, Drop)]
pub enum Untold {
    /// They could not be read.
    Unreadable(io::Error),
    /// This line is no answer with data and none without, or has no end. Lines count from 1.
    Line(u64),
    /// Memory for the bytes is refused.
    NoMemory,
}

/// The text behind the word `ok`, of a line that is an answer with data, or without.
fn data_in(line: &[u8]) -> Option<&[u8]>
    ensures { MatchOption result (answer_of line.now ≡ None) (λ text. answer_of line.now ≡ Some (data_of (words_of text.now))) }
{
    let (word, rest) = next_word(line)?;
    if word == b"ok".as_slice() && are_all_runs(rest) {
        Some(rest)
    } else {
        None
    }
}

/// A line without its end.
fn ended(line: &[u8]) -> Option<&[u8]>
    ensures { MatchOption result (HasNoEnd line.now) (λ body. line.now ≡ body.now ++ 10 ∷ []) }
{
    let (last, body) = line.split_last()?;
    if *last != b'\n' {
        return None;
    }
    Some(body)
}

/// Reads answers, to the end, and gives the bytes that they tell. Memory is as many bytes, and a line.
pub fn read_told<R: BufRead>(alloc: Global, reader: &mut R) -> Result<Vec<u8>, Untold>
    ensures told { IfOk result (λ bytes. (text : List ℕ) → R.remaining reader.old ≡ Some text → told text ≡ Ok bytes.items) }
    ensures untold { IfErr result (λ why. (number : ℕ) → why ≡ Line number → (text : List ℕ) → R.remaining reader.old ≡ Some text → told text ≡ Err number) }
{
    let mut bytes = Vec::new(alloc);
    let mut line = Vec::new(alloc);
    for number in 1..u64::MAX {
        line.clear();
        let read = match reader.read_until(b'\n', &mut line) {
            Ok(read) => read,
            Err(error) => return Err(Untold::Unreadable(error)),
        };
        if read == 0 {
            return Ok(bytes);
        }
        let Some(body) = ended(line.as_slice()) else {
            return Err(Untold::Line(number));
        };
        let Some(data) = data_in(body) else {
            return Err(Untold::Line(number));
        };
        if let Err(_) = push_data(&mut bytes, data) {
            return Err(Untold::NoMemory);
        }
    }
    Err(Untold::Unreadable(io::ErrorKind::InvalidData.into()))
}
