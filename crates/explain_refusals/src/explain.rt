// Who is told behind each refused line why it was refused.
ghost use Rattle.std.specs.Prelude.{◌≡◌, ◌==◌, ⊤, OnOk, IfOk, is_some, nat_lt, option_map};
ghost use Rattle.std.specs.List.{list_all};
ghost use Rattle.std.specs.Io.KnownBytes.{Appends, Keeps};
ghost use Rattle.device_list.specs.Tables.{table_of};
ghost use Rattle.explain_syntax.specs.Sentences.{sentence_of, seat_sentence_of};
ghost use Rattle.explain_refusals.specs.Reasons.{reason_of};
ghost use Rattle.explain_refusals.specs.Told.{is_of_form, refused_text, told_text, says_nothing, seat_told, IsTold};

use crate::reasons::tell_reason;
use command::LINE_LIMIT;
use device_list::Devices;
use explain_syntax::{put_two, tell_line, tell_seat_line};
use script_runner::{Session, Tracer, write_out};
use sector::Refusal;
use std::alloc::Global;
use std::io;
use std::io::Write;

/// A writer is told, behind each line that was refused, which word breaks which rule, or what stands against it, and what would be
/// right: the line's number, a colon and one sentence.
#[derive(Drop)]
pub struct ExplainTo<X: Write> {
    alloc: Global,
    writer: X,
    /// How many lines were refused so far.
    refused: u64,
    /// Whether a block was open before the line.
    is_open: bool,
}

impl<X: Write> ExplainTo<X> {
    /// Sentences to this writer, of which none is told yet.
    pub fn new(alloc: Global, writer: X) -> ExplainTo<X> {
        ExplainTo {
            alloc,
            writer,
            refused: 0,
            is_open: false,
        }
    }

    /// The writer, with what was told to it.
    pub fn into_writer(self) -> X {
        self.writer
    }

    /// Tells of a line, where there is something to tell.
    fn told(&mut self, number: u64, line: &[u8], session: &Session) -> io::Result<()>
        ensures { OnOk result (IsTold number (nat_lt self.old.refused session.now.desk.summary.refused) self.old.is_open (is_some session.now.block) line.now session.now.desk.table (X.contents self.old.writer) (X.contents self.new.writer)) }
    {
        let refused = session.summary().refused;
        let is_new = self.refused < refused;
        self.refused = refused;
        let (alloc, is_open) = (self.alloc, self.is_open);
        match session.refusal() {
            Some(refusal) if is_new => {
                let text = refused_text(alloc, is_open, line, refusal, session.devices())?;
                tell_numbered(&mut self.writer, number, text.as_slice(), b"\n")
            }
            _ => {
                let is_inside = is_open && session.is_open();
                tell_seat(&mut self.writer, alloc, number, is_inside, line)
            }
        }
    }
}

/// Writes a line's number, a sentence and what ends it, and no more is held back then.
#[tactic(auto, using(words::proofs::Written::appends_more, crate::proofs::Nothing::appends_kept))]
fn tell_numbered<W: Write>(
    writer: &mut W,
    number: u64,
    sentence: &[u8],
    tail: &[u8],
) -> io::Result<()>
    ensures { OnOk result (Appends (W.contents writer.old) (W.contents writer.new) (told_text number sentence.now tail.now)) }
{
    write!(writer, "{number}: ")?;
    put_two(writer, sentence, tail)?;
    writer.flush()
}

/// The sentence for the form of a line; `None` where its form is right.
#[tactic(auto, using(crate::proofs::Nothing::tells_yes, crate::proofs::Nothing::tells_no))]
fn sentence_of(alloc: Global, line: &[u8]) -> io::Result<Option<Vec<u8>>>
    ensures { IfOk result (λ sentence. option_map (λ text. text.items) sentence ≡ sentence_of line.now) }
{
    let mut sentence = Vec::new(alloc);
    if tell_line(&mut sentence, alloc, line)? {
        return Ok(Some(sentence));
    }
    Ok(None)
}

/// The same of a line of a block.
#[tactic(auto, using(crate::proofs::Nothing::tells_yes, crate::proofs::Nothing::tells_no))]
fn seat_sentence_of(alloc: Global, line: &[u8]) -> io::Result<Option<Vec<u8>>>
    ensures { IfOk result (λ sentence. option_map (λ text. text.items) sentence ≡ seat_sentence_of line.now) }
{
    let mut sentence = Vec::new(alloc);
    if tell_seat_line(&mut sentence, alloc, line)? {
        return Ok(Some(sentence));
    }
    Ok(None)
}

/// The sentence for what stands against a line.
fn reason(alloc: Global, line: &[u8], refusal: Refusal, held: &Devices) -> io::Result<Vec<u8>>
    ensures { IfOk result (λ text. text.items ≡ reason_of line.now refusal (table_of held.now)) }
{
    let mut text = Vec::new(alloc);
    tell_reason(&mut text, alloc, line, refusal, held)?;
    Ok(text)
}

/// The sentence for a line that was refused: for its form, where that may be why and no block was open before it, or else for what
/// stands against it.
#[tactic(auto, unfolding(crate::specs::Told::refused_text))]
fn refused_text(
    alloc: Global,
    is_open: bool,
    line: &[u8],
    refusal: Refusal,
    held: &Devices,
) -> io::Result<Vec<u8>>
    ensures { IfOk result (λ text. text.items ≡ refused_text is_open line.now refusal (table_of held.now)) }
{
    if is_open || !is_of_form(refusal) {
        return reason(alloc, line, refusal, held);
    }
    match sentence_of(alloc, line)? {
        Some(sentence) => Ok(sentence),
        None => reason(alloc, line, refusal, held),
    }
}

/// Tells of a line, where it stands inside a block and will refuse the block at its end.
#[tactic(auto, using(crate::proofs::Nothing::appends_nothing), unfolding(crate::specs::Told::seat_told))]
fn tell_seat<W: Write>(
    writer: &mut W,
    alloc: Global,
    number: u64,
    is_inside: bool,
    line: &[u8],
) -> io::Result<()>
    ensures { OnOk result (Appends (W.contents writer.old) (W.contents writer.new) (seat_told number is_inside line.now)) }
{
    if !is_inside || says_nothing(line) {
        return Ok(());
    }
    match seat_sentence_of(alloc, line)? {
        Some(sentence) => tell_numbered(
            writer,
            number,
            sentence.as_slice(),
            b"; the block is refused at its end\n",
        ),
        None => Ok(()),
    }
}

/// Whether a refusal may be for the form of a line.
fn is_of_form(refusal: Refusal) -> bool
    ensures { result ≡ is_of_form refusal }
{
    matches!(
        refusal,
        Refusal::BadTable | Refusal::BadChunk | Refusal::OutOfRange
    )
}

/// Whether a line has spaces alone.
fn is_blank(line: &[u8]) -> bool
    ensures { result ≡ list_all (λ byte. byte == 32) line.now }
{
    line.iter().all(|byte| *byte == b' ')
}

/// Whether a line of a block is passed over: a comment, or one that has spaces alone.
#[tactic(auto, unfolding(crate::specs::Told::says_nothing))]
fn says_nothing(line: &[u8]) -> bool
    ensures { result ≡ says_nothing line.now }
{
    line.len() <= LINE_LIMIT && (line.starts_with(b"#") || is_blank(line))
}

impl<X: Write> Tracer for ExplainTo<X> {
    ghost tells = { λ before number sitting after. ⊤ };

    #[inline(never)]
    fn behind<W: Write>(&mut self, number: u64, line: &[u8], session: &Session, writer: &mut W) {
        write_out(writer);
        let _ = self.told(number, line, session);
        self.is_open = session.is_open();
    }
}
