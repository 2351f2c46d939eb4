// The sentences.
ghost use Rattle.std.specs.Prelude.{◌≡◌, OnOk, IfOk, find, option_copied, option_map};
ghost use Rattle.std.specs.Io.KnownBytes.{Appends};
ghost use Rattle.words.specs.Texts.{texts};
ghost use Rattle.explain_syntax.specs.Faults.{seen, seen_in};
ghost use Rattle.explain_syntax.specs.Sentences.{rule_of, other_rule, other_text, unfit_by, end_text, extra_text, lack_text, fault_text, meant_by, hint_by, unknown_text, is_odd, byte_text, bytes_text, Tells, found_text, words_text, formed_text, line_words_text, sentence_of, seat_words_text, seat_sentence_of};

use crate::fault::{Fault, fault_in};
use crate::forms::{form_of, seat_form};
use crate::late::tell_late;
use crate::near::near_command;
use crate::shown::{put_four, put_three, put_two, put_word};
use crate::slot::{Slot, slot_of};
use command::LINE_LIMIT;
use std::alloc::Global;
use std::io;
use std::io::Write;
use words::words_in;

/// What stands behind a word that a place does not take; `None` for a place that takes the form's own words.
#[tactic(auto, unfolding(crate::specs::Sentences::rule_of))]
fn rule_of(slot: Slot) -> Option<&'static str>
    ensures { option_copied result ≡ rule_of slot }
{
    match slot {
        Slot::Name => Some(" is no name: 1 to 16 of a-z 0-9 _, a letter first"),
        Slot::Number => Some(" is no number: 1 to 10 digits, below 4294967296"),
        Slot::Seconds => Some(" is no number of seconds: digits, below 2147483648"),
        Slot::Block => Some(" is no block: 512, 1024, 2048 .. 1073741824 bytes"),
        Slot::Seat => Some(" is no seat: 1 to 8"),
        Slot::Data => Some(" is no data: COUNT*HH, a count of 1 to 1048576, and two of 0-9 a-f"),
        Slot::Feature => Some(" is no feature here: error_reads, error_writes, drop_writes"),
        Slot::Word => None,
    }
}

/// Tells what is right in place of a word that is none of the form's own.
#[tactic(auto, unfolding(crate::specs::Sentences::other_rule))]
fn tell_other_rule<W: Write>(writer: &mut W, form: &str, wants: &[u8]) -> io::Result<()>
    ensures { OnOk result (Appends (W.contents writer.old) (W.contents writer.new) (other_rule form.now wants.now)) }
{
    if wants == b"P|PO".as_slice() {
        return writer.write_all(b" is no word for a store: P, or PO where it may overflow");
    }
    if wants.contains(&b'|') {
        return put_two(writer, b" is none of ", wants);
    }
    put_four(
        writer,
        b" stands where ",
        wants,
        b" should: ",
        form.as_bytes(),
    )
}

/// Tells of a word that is none of the form's own.
#[tactic(auto, using(words::proofs::Written::appends_more), unfolding(crate::specs::Sentences::other_text))]
fn tell_other<W: Write>(writer: &mut W, form: &str, wants: &[u8], word: &[u8]) -> io::Result<()>
    ensures { OnOk result (Appends (W.contents writer.old) (W.contents writer.new) (other_text form.now wants.now word.now)) }
{
    if word == b"snapshot-merge".as_slice() {
        return writer.write_all(
            b"a snapshot-merge line makes no device: merge SNAP begins a merge",
        );
    }
    put_word(writer, word)?;
    tell_other_rule(writer, form, wants)
}

/// Tells of a word that its place does not take, by the rule of the place.
#[tactic(auto, using(words::proofs::Written::appends_more))]
fn tell_unfit<W: Write>(
    writer: &mut W,
    form: &str,
    wants: &[u8],
    word: &[u8],
    rule: Option<&'static str>,
) -> io::Result<()>
    ensures { OnOk result (Appends (W.contents writer.old) (W.contents writer.new) (unfit_by form.now wants.now word.now (option_copied rule.entry))) }
{
    match rule {
        Some(rule) => {
            put_word(writer, word)?;
            writer.write_all(rule.as_bytes())
        }
        None => tell_other(writer, form, wants, word),
    }
}

/// Tells that a form has no more words.
fn tell_end<W: Write>(writer: &mut W, form: &str) -> io::Result<()>
    ensures { OnOk result (Appends (W.contents writer.old) (W.contents writer.new) (end_text form.now)) }
{
    put_two(writer, b" is a word too many: ", form.as_bytes())
}

/// Tells of a word behind the last of a form.
#[tactic(auto, using(words::proofs::Written::appends_more))]
fn tell_extra<W: Write>(writer: &mut W, form: &str, word: &[u8]) -> io::Result<()>
    ensures { OnOk result (Appends (W.contents writer.old) (W.contents writer.new) (extra_text form.now word.now)) }
{
    put_word(writer, word)?;
    tell_end(writer, form)
}

/// Tells of a word of a form that a line lacks.
fn tell_lack<W: Write>(writer: &mut W, form: &str, wants: &[u8]) -> io::Result<()>
    ensures { OnOk result (Appends (W.contents writer.old) (W.contents writer.new) (lack_text form.now wants.now)) }
{
    put_three(writer, wants, b" is missing: ", form.as_bytes())
}

/// Tells of a word that breaks the form of its line.
#[tactic(auto, unfolding(crate::specs::Sentences::fault_text))]
fn tell_fault<W: Write>(writer: &mut W, form: &str, fault: &Fault<'_>) -> io::Result<()>
    ensures { OnOk result (Appends (W.contents writer.old) (W.contents writer.new) (fault_text form.now (seen fault.now))) }
{
    match fault {
        Fault::Unfit { word, wants } => {
            tell_unfit(writer, form, *wants, *word, rule_of(slot_of(*wants)))
        }
        Fault::TooMany { word } => tell_extra(writer, form, *word),
        Fault::Missing { wants } => tell_lack(writer, form, *wants),
    }
}

/// What is typed here in place of a word that dmsetup or a shell has; `None` for other words.
#[tactic(auto, unfolding(crate::specs::Sentences::meant_by))]
fn meant_by(word: &[u8]) -> Option<&'static str>
    ensures { option_copied result ≡ meant_by word.now }
{
    if word == b"help".as_slice() {
        Some("dmrig --help lists the commands")
    } else if word == b"quit".as_slice() || word == b"exit".as_slice() || word == b"q".as_slice() {
        Some("Ctrl-D ends a session")
    } else if word == b"suspend".as_slice() {
        Some("no device is suspended here; settle VOL does what is due, so that a volume is quiet")
    } else if word == b"reload".as_slice() {
        Some("a line stays as it is: remove NAME, and create NAME with the other")
    } else if word == b"info".as_slice() || word == b"deps".as_slice() {
        Some("ls lists the devices; table NAME and status NAME tell of one")
    } else if word == b"targets".as_slice() {
        Some("targets are snapshot-origin, snapshot, flakey, dust, error")
    } else if word == b"dmsetup".as_slice() {
        Some("leave that word out")
    } else if word == b"lvconvert".as_slice() {
        Some("merge SNAP begins a merge, settle VOL does it, finish VOL takes it out")
    } else if word == b"lvcreate".as_slice() {
        Some("disk NAME SECTORS makes a disk, create NAME LINE a device over it")
    } else {
        None
    }
}

/// Tells what may be meant by a word that is no command: what is typed in its place, or the nearest command.
fn tell_hint<W: Write>(
    writer: &mut W,
    meant: Option<&'static str>,
    near: Option<&'static str>,
) -> io::Result<()>
    ensures { OnOk result (Appends (W.contents writer.old) (W.contents writer.new) (hint_by (option_copied meant.entry) (option_copied near.entry))) }
{
    match (meant, near) {
        (Some(meant), _) => put_two(writer, b": ", meant.as_bytes()),
        (None, Some(near)) => put_two(writer, b"; the nearest is ", near.as_bytes()),
        (None, None) => writer.write_all(b": dmrig --help lists them"),
    }
}

/// Tells of a word that is no command.
#[tactic(auto, using(words::proofs::Written::appends_more), unfolding(crate::specs::Sentences::unknown_text))]
fn tell_unknown<W: Write>(writer: &mut W, word: &[u8]) -> io::Result<()>
    ensures { OnOk result (Appends (W.contents writer.old) (W.contents writer.new) (unknown_text word.now)) }
{
    put_word(writer, word)?;
    writer.write_all(b" is no command")?;
    tell_hint(writer, meant_by(word), near_command(word))
}

/// The first byte of a line that is no printable ASCII.
fn odd_byte(line: &[u8]) -> Option<u8>
    ensures { result ≡ find is_odd line.now }
{
    line.iter()
        .copied()
        .find(|byte| *byte < b' ' || b'~' < *byte)
}

/// What is told of a byte that no line has.
#[tactic(auto, unfolding(crate::specs::Sentences::byte_text))]
fn byte_text(byte: u8) -> &'static str
    ensures { result.now ≡ byte_text byte }
{
    match byte {
        b'\t' => "a tab stands in the line: words have spaces between them",
        b'\r' => "a carriage return stands in the line: lines end in a line feed alone",
        _ => "a byte stands in the line that is no printable ASCII",
    }
}

/// What is told of a line that is too long, or of a byte that no line has.
#[tactic(auto, unfolding(crate::specs::Sentences::bytes_text))]
fn bytes_text(line: &[u8]) -> Option<&'static str>
    ensures { option_copied result ≡ bytes_text line.now }
{
    if line.len() > LINE_LIMIT {
        return Some("the line is longer than 65536 bytes");
    }
    match odd_byte(line) {
        Some(byte) => Some(byte_text(byte)),
        None => None,
    }
}

/// Tells of a fault that was found in words of a form, or else what is wrong with them all the same, and gives whether something is.
fn tell_found<W: Write>(
    writer: &mut W,
    form: &'static str,
    words: &[&[u8]],
    fault: Option<Fault<'_>>,
) -> io::Result<bool>
    ensures { IfOk result (Tells (W.contents writer.old) (W.contents writer.new) (found_text form.now (texts words.now) (seen_in fault.entry))) }
{
    match fault {
        Some(fault) => {
            tell_fault(writer, form, &fault)?;
            Ok(true)
        }
        None => tell_late(writer, form, words),
    }
}

/// Tells what is wrong with words of a form, and gives whether something is.
#[tactic(auto, unfolding(crate::specs::Sentences::words_text))]
fn tell_words<W: Write>(writer: &mut W, form: &'static str, words: &[&[u8]]) -> io::Result<bool>
    ensures { IfOk result (Tells (W.contents writer.old) (W.contents writer.new) (words_text form.now (texts words.now))) }
{
    let fault = fault_in(form, words);
    tell_found(writer, form, words, fault)
}

/// Tells what is wrong with words that have a form, or of their first, which is no command, and gives whether something is wrong.
fn tell_formed<W: Write>(
    writer: &mut W,
    verb: &[u8],
    words: &[&[u8]],
    form: Option<&'static str>,
) -> io::Result<bool>
    ensures { IfOk result (Tells (W.contents writer.old) (W.contents writer.new) (formed_text verb.now (texts words.now) (option_copied form.entry))) }
{
    match form {
        Some(form) => tell_words(writer, form, words),
        None => {
            tell_unknown(writer, verb)?;
            Ok(true)
        }
    }
}

/// Tells what is wrong with the words of a line, and gives whether something is.
#[tactic(auto, using(crate::proofs::TellsLemmas::tells_nothing), unfolding(crate::specs::Sentences::line_words_text))]
fn tell_line_words<W: Write>(writer: &mut W, words: &[&[u8]]) -> io::Result<bool>
    ensures { IfOk result (Tells (W.contents writer.old) (W.contents writer.new) (line_words_text (texts words.now))) }
{
    match words {
        [] => Ok(false),
        [verb, ..] => tell_formed(writer, verb, words, form_of(words)),
    }
}

/// Writes which word of a line breaks which rule, and what would be right, without a line's end; and gives whether one does. The line
/// is given without its end, and is none of a block. An error is the writer's own, or says that there was no memory.
#[tactic(auto, unfolding(crate::specs::Sentences::sentence_of))]
pub fn tell_line<W: Write>(writer: &mut W, alloc: Global, line: &[u8]) -> io::Result<bool>
    ensures { IfOk result (Tells (W.contents writer.old) (W.contents writer.new) (sentence_of line.now)) }
{
    match bytes_text(line) {
        Some(text) => {
            writer.write_all(text.as_bytes())?;
            Ok(true)
        }
        None => {
            let words = words_in(alloc, line)?;
            tell_line_words(writer, &words)
        }
    }
}

/// Tells of a fault in a line of a block, and gives whether there is one.
#[tactic(auto, using(crate::proofs::TellsLemmas::tells_nothing))]
fn tell_seat_fault<W: Write>(
    writer: &mut W,
    form: &str,
    fault: Option<Fault<'_>>,
) -> io::Result<bool>
    ensures { IfOk result (Tells (W.contents writer.old) (W.contents writer.new) (option_map (fault_text form.now) (seen_in fault.entry))) }
{
    match fault {
        Some(fault) => {
            tell_fault(writer, form, &fault)?;
            Ok(true)
        }
        None => Ok(false),
    }
}

/// Tells what is wrong with the words of a line of a block, and gives whether something is.
#[tactic(auto, using(crate::proofs::TellsLemmas::tells_nothing), unfolding(crate::specs::Sentences::seat_words_text))]
fn tell_seat_words<W: Write>(writer: &mut W, words: &[&[u8]]) -> io::Result<bool>
    ensures { IfOk result (Tells (W.contents writer.old) (W.contents writer.new) (seat_words_text (texts words.now))) }
{
    match words {
        [] => Ok(false),
        _ => {
            let form = seat_form(words);
            let fault = fault_in(form, words);
            tell_seat_fault(writer, form, fault)
        }
    }
}

/// Does the same as `tell_line` for a line of a block that is no comment and not its end.
#[tactic(auto, unfolding(crate::specs::Sentences::seat_sentence_of))]
pub fn tell_seat_line<W: Write>(writer: &mut W, alloc: Global, line: &[u8]) -> io::Result<bool>
    ensures { IfOk result (Tells (W.contents writer.old) (W.contents writer.new) (seat_sentence_of line.now)) }
{
    match bytes_text(line) {
        Some(text) => {
            writer.write_all(text.as_bytes())?;
            Ok(true)
        }
        None => {
            let words = words_in(alloc, line)?;
            tell_seat_words(writer, &words)
        }
    }
}
