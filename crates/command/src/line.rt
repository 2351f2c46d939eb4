// What a whole line says.
ghost use Rattle.std.specs.Prelude.{◌≡◌, ◌≤◌, ◌==◌, ◌++◌, if◌then◌else◌, codes, length, Err, IfSome};
ghost use Rattle.std.specs.List.{list_all};
ghost use Rattle.sector.specs.declared.refusal.Refusal.TheVariants.{BadTable};
ghost use Rattle.words.specs.Given.{Gives};
ghost use Rattle.words.specs.Words.{words_of};
ghost use Rattle.command.specs.Grammar.{command_of, read_of, status_of, write_of};
ghost use Rattle.command.specs.Line.{is_silent, is_printable, line_saying, said_of};

use super::data_words::payload;
use super::grammar::{Command, amount, command_in};
use sector::Refusal;
use std::alloc::Global;
use words::{Name, next_word, numeral};

/// The most bytes that a line may have, its end not counted.
pub const LINE_LIMIT: usize = 65_536;

fn is_blank(line: &[u8]) -> bool
    ensures { result ≡ list_all (λ byte. byte == 32) line.now }
{
    line.iter().all(|byte| *byte == b' ')
}

fn says_nothing(line: &[u8]) -> bool
    ensures { result ≡ is_silent line.now }
{
    is_blank(line) || line[0] == b'#'
}

fn is_text(line: &[u8]) -> bool
    ensures { result ≡ list_all is_printable line.now }
{
    let mut is_all = true;
    for byte in line {
        is_all &= (b' ' <= *byte) & (*byte <= b'~');
    }
    is_all
}

// What a line says that holds more than spaces, by looking at each byte first.
#[inline(never)]
fn any_said(alloc: Global, line: &[u8]) -> Result<Option<Command>, Refusal>
    requires { length line.now ≤ 65536 }
    ensures { Gives result (if list_all is_printable line.now then line_saying (command_of (words_of line.now)) else Err BadTable) }
{
    if !is_text(line) {
        return Err(Refusal::BadTable);
    }
    let command = command_in(alloc, line)?;
    Ok(Some(command))
}

// What stands after a verb and a space where a line begins with them, for the verbs that most lines have. What follows these is not
// looked at twice: words of a right form are printable, and those of a wrong form are refused as bytes are that are not.
#[tactic(auto, using(crate::proofs::Verbs::write_front))]
fn after_write(line: &[u8]) -> Option<&[u8]>
    ensures { IfSome result (λ rest. line.now ≡ codes "write " ++ rest.now) }
{
    match line {
        [b'w', b'r', b'i', b't', b'e', b' ', rest @ ..] => Some(rest),
        _ => None,
    }
}

#[tactic(auto, using(crate::proofs::Verbs::read_front))]
fn after_read(line: &[u8]) -> Option<&[u8]>
    ensures { IfSome result (λ rest. line.now ≡ codes "read " ++ rest.now) }
{
    match line {
        [b'r', b'e', b'a', b'd', b' ', rest @ ..] => Some(rest),
        _ => None,
    }
}

#[tactic(auto, using(crate::proofs::Verbs::status_front))]
fn after_status(line: &[u8]) -> Option<&[u8]>
    ensures { IfSome result (λ rest. line.now ≡ codes "status " ++ rest.now) }
{
    match line {
        [b's', b't', b'a', b't', b'u', b's', b' ', rest @ ..] => Some(rest),
        _ => None,
    }
}

// What a line says, by the words after its verb, for the verbs that most lines have. These three take their words as `grammar`'s
// `span`, `patch` and `alone` do, written out: so a name or a number is put where the answer has it, and is not copied from call to
// call.
fn read_said(text: &[u8]) -> Result<Option<Command>, Refusal>
    ensures { result ≡ line_saying (read_of (words_of text.now)) }
{
    let Some((name, rest)) = next_word(text) else {
        return Err(Refusal::BadTable);
    };
    let Some((first, rest)) = next_word(rest) else {
        return Err(Refusal::BadTable);
    };
    let Some(name) = Name::read(name) else {
        return Err(Refusal::BadTable);
    };
    let first = numeral(first)?;
    let count = amount(rest)?;
    Ok(Some(Command::Read { name, first, count }))
}

fn write_said(alloc: Global, room: &mut Vec<u8>, text: &[u8]) -> Result<Option<Command>, Refusal>
    requires { length text.now ≤ 65536 }
    ensures { Gives result (line_saying (write_of (words_of text.now))) }
{
    let Some((name, rest)) = next_word(text) else {
        return Err(Refusal::BadTable);
    };
    let Some((first, rest)) = next_word(rest) else {
        return Err(Refusal::BadTable);
    };
    let Some(name) = Name::read(name) else {
        return Err(Refusal::BadTable);
    };
    let first = numeral(first)?;
    let bytes = payload(alloc, room, rest)?;
    Ok(Some(Command::Write { name, first, bytes }))
}

fn status_said(text: &[u8]) -> Result<Option<Command>, Refusal>
    ensures { result ≡ line_saying (status_of (words_of text.now)) }
{
    let Some((name, rest)) = next_word(text) else {
        return Err(Refusal::BadTable);
    };
    if next_word(rest).is_some() {
        return Err(Refusal::BadTable);
    }
    let Some(name) = Name::read(name) else {
        return Err(Refusal::BadTable);
    };
    Ok(Some(Command::Status { name }))
}

/// The command that a line says, the line given without its end; `None` for a line that prints nothing, which is
/// a comment (its first byte is `#`) or has spaces alone.
///
/// In this order: a line of more than `max` bytes is `BadTable`, whatever it holds; comments and blank lines say
/// nothing; any byte that isn't printable ASCII is `BadTable`; then the words are looked at, where every word of a
/// wrong form comes first (`BadTable`), then a table line's chunk that is not allowed (`BadChunk`), then a number
/// of sectors outside 1 to 2048 (`OutOfRange`). `NoMemory` may stand in place of any of these; only the words of a
/// table line and the data of a command take memory.
#[tactic(auto, using(crate::proofs::Kept::said_long, crate::proofs::LineSaid::said_nothing))]
pub fn said(
    alloc: Global,
    room: &mut Vec<u8>,
    line: &[u8],
    max: usize,
) -> Result<Option<Command>, Refusal>
    requires { max ≤ 65536 }
    ensures { Gives result (said_of max line.now) }
{
    if line.len() > max {
        return Err(Refusal::BadTable);
    }
    if says_nothing(line) {
        return Ok(None);
    }
    if let Some(rest) = after_write(line) {
        return write_said(alloc, room, rest);
    }
    if let Some(rest) = after_read(line) {
        return read_said(rest);
    }
    if let Some(rest) = after_status(line) {
        return status_said(rest);
    }
    // Taken and given again: a result in whose place a call out of line answers is kept in memory, also above.
    let said = any_said(alloc, line)?;
    Ok(said)
}
