// What a line of a block says.
ghost use Rattle.std.specs.Prelude.{◌≡◌, ◌≤◌, ◌==◌, false, IfOk, OnErr, IfErr, length};
ghost use Rattle.std.specs.List.{list_all};
ghost use Rattle.sector.specs.declared.refusal.Refusal.TheVariants.{BadTable, OutOfRange};
ghost use Rattle.words.specs.Given.{Gives};
ghost use Rattle.command.specs.Line.{is_silent};
ghost use Rattle.command.specs.Lines.{IsSeat, IsSeatSaid, ends_with, is_end, line_of, outside_by, outside_of, said_in, seat_of, work_of};

use crate::seat_line::{SeatLine, Work};
use crate::{Command, LINE_LIMIT};
use sector::Refusal;
use std::alloc::Global;
use words::{Name, after_word, first_word, numeral};

/// What a line of a block says.
#[derive(Drop)]
pub enum Said {
    /// Nothing: it is a comment, or has spaces alone.
    Nothing,
    /// `end`: the block ends.
    End,
    /// `SEAT COMMAND`: what a seat is to do.
    Line(SeatLine),
}

fn is_blank(line: &[u8]) -> bool
    ensures { result ≡ list_all (λ byte. byte == 32) line.now }
{
    line.iter().all(|byte| *byte == b' ')
}

fn says_nothing(line: &[u8]) -> bool
    ensures { result ≡ is_silent line.now }
{
    is_blank(line) || line[0] == b'#'
}

fn is_end(line: &[u8]) -> bool
    ensures { result ≡ is_end line.now }
{
    first_word(line) == b"end".as_slice() && is_blank(after_word(line))
}

/// The number of a seat, 1 to 8.
fn seat(word: &[u8]) -> Result<u8, Refusal>
    ensures value { result ≡ seat_of word.now }
    ensures seat { IfOk result IsSeat }
{
    let seat = numeral(word)?;
    if 1 <= seat && seat <= 8 {
        Ok(seat as u8)
    } else {
        Err(Refusal::BadTable)
    }
}

/// A command whose number of sectors no command has, by its word: a read's and a write's is refused in its turn.
fn outside_by(verb: &[u8], name: Name) -> Result<Work, Refusal>
    ensures { result ≡ outside_by verb.now name }
{
    if verb == b"read".as_slice() {
        Ok(Work::OutsideRead { name })
    } else if verb == b"write".as_slice() {
        Ok(Work::OutsideWrite { name })
    } else {
        Err(Refusal::BadTable)
    }
}

fn outside(rest: &[u8]) -> Result<Work, Refusal>
    ensures { result ≡ outside_of rest.now }
{
    let name = Name::new(first_word(after_word(rest)))?;
    outside_by(first_word(rest), name)
}

/// What a seat is to do, by a command line.
fn work(alloc: Global, rest: &[u8]) -> Result<Work, Refusal>
    ensures { Gives result (work_of rest.now) }
{
    let mut room = Vec::new(alloc);
    match crate::said(alloc, &mut room, rest, LINE_LIMIT) {
        Ok(Some(Command::Read { name, first, count })) => Ok(Work::Read { name, first, count }),
        Ok(Some(Command::Write { name, first, bytes })) => Ok(Work::Write { name, first, bytes }),
        Ok(Some(Command::Merge { name })) => Ok(Work::Merge { name }),
        Ok(_) => Err(Refusal::BadTable),
        Err(Refusal::OutOfRange) => outside(rest),
        Err(Refusal::NoMemory) => Err(Refusal::NoMemory),
        Err(_) => Err(Refusal::BadTable),
    }
}

fn seat_line(alloc: Global, line: &[u8]) -> Result<SeatLine, Refusal>
    ensures line { Gives result (line_of line.now) }
    ensures seat { IfOk result (λ said. IsSeat said.seat) }
{
    let seat = seat(first_word(line))?;
    let work = work(alloc, after_word(line))?;
    Ok(SeatLine { seat, work })
}

/// What a line of a block says, the line given without its end. In this order: a line of more than `max` bytes is `BadTable`;
/// comments and blank lines say nothing; `end` alone ends the block; then the seat is looked at, and then its command, by the
/// grammar of command lines: each that is no `read`, `write` or `merge` of right form is `BadTable`, but a number of sectors
/// outside 1 to 2048 is no fault of the line. `NoMemory` may stand in place of what a seat is to do, and of nothing else.
#[tactic(auto, unfolding(crate::specs::Lines::said_in))]
pub fn said_by(alloc: Global, line: &[u8], max: usize) -> Result<Said, Refusal>
    ensures said { Gives result (said_in max line.now) }
    ensures seat { IfOk result IsSeatSaid }
    ensures ends { OnErr result (ends_with (said_in max line.now) ≡ false) }
{
    if line.len() > max {
        return Err(Refusal::BadTable);
    }
    if says_nothing(line) {
        return Ok(Said::Nothing);
    }
    if is_end(line) {
        return Ok(Said::End);
    }
    Ok(Said::Line(seat_line(alloc, line)?))
}
