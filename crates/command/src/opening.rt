// The line that opens a block.
ghost use Rattle.std.specs.Prelude.{◌≡◌};
ghost use Rattle.words.specs.Given.{Gives};
ghost use Rattle.words.specs.Texts.{texts};
ghost use Rattle.command.specs.Opening.{has_par, held_of, is_par, opening_in, opening_of};

use sector::Refusal;
use std::alloc::Global;
use words::{after_word, first_word, numeral, words_in};

/// A block is opened.
#[derive(Clone, Copy)]
pub struct Opening {
    /// Which copy of the block, counted from 1, is held until a read of the block is answered; `None` for none.
    pub hold: Option<u32>,
}

fn held(hold: &[u8], ticket: &[u8]) -> Result<Opening, Refusal>
    ensures { result ≡ held_of hold.now ticket.now }
{
    if hold != b"hold".as_slice() {
        return Err(Refusal::BadTable);
    }
    let ticket = numeral(ticket)?;
    Ok(Opening { hold: Some(ticket) })
}

/// What the words after `par` say: nothing, or `hold K`. `BadTable` for others.
fn opening_in(words: &[&[u8]]) -> Result<Opening, Refusal>
    ensures { result ≡ opening_in (texts words.now) }
{
    match words {
        [] => Ok(Opening { hold: None }),
        [hold, ticket] => held(hold, ticket),
        _ => Err(Refusal::BadTable),
    }
}

// A line whose first byte is neither a space nor a p does not: so most lines are told by that byte.
#[tactic(auto, using(crate::proofs::Par::no_par, crate::proofs::Par::other_par))]
fn has_par(line: &[u8]) -> bool
    ensures { result ≡ has_par line.now }
{
    if line.is_empty() || (line[0] != b' ' && line[0] != b'p') {
        return false;
    }
    first_word(line) == b"par".as_slice()
}

/// Whether a line of at most `max` bytes, given without its end, begins with the word `par`. No other line opens a block.
#[inline(always)]
pub fn is_par(line: &[u8], max: usize) -> bool
    ensures { result ≡ is_par max line.now }
{
    line.len() <= max && has_par(line)
}

/// The block that a line opens which begins with the word `par`: `par`, or `par hold K`. `BadTable` for another form; the one
/// other error is `NoMemory`.
#[tactic(auto, unfolding(crate::specs::Opening::opening_of))]
pub fn opening_by(alloc: Global, line: &[u8]) -> Result<Opening, Refusal>
    ensures { Gives result (opening_of line.now) }
{
    let words = words_in(alloc, after_word(line)).map_err(|_| Refusal::NoMemory)?;
    opening_in(&words)
}
