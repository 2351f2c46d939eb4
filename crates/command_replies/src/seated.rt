// What seats of a block answer.
ghost use Rattle.std.specs.Prelude.{OnOk};
ghost use Rattle.std.specs.Io.KnownBytes.{Appends};
ghost use Rattle.command_replies.specs.Seated.{answer_words, gate_text, seated_text};

use crate::command_reply::write_refusal;
use itoa::Buffer;
use sector::Refusal;
use std::io;
use std::io::Write;
use words::Text;

/// What a line of a block answers.
#[derive(Drop)]
pub enum SeatAnswer {
    /// It is done: `ok`.
    Done,
    /// It is done, and these are the bytes that were asked for, in words (`words_of_data`): the thread that read them has put
    /// them so.
    Data(Text),
    /// It is refused.
    Refused(Refusal),
}

/// The answer of a line of a block, by the number of its seat.
#[derive(Drop)]
pub struct Seated {
    pub seat: u8,
    pub answer: SeatAnswer,
}

/// Prints an answer, a space before it.
#[tactic(auto, using(words::proofs::Written::appends_more))]
fn write_answer<W: Write>(writer: &mut W, answer: &SeatAnswer) -> io::Result<()>
    ensures { OnOk result (Appends (W.contents writer.old) (W.contents writer.new) (answer_words answer.now)) }
{
    match answer {
        SeatAnswer::Done => writer.write_all(b" ok"),
        SeatAnswer::Data(words) => {
            writer.write_all(b" ok")?;
            writer.write_all(words.as_slice())
        }
        SeatAnswer::Refused(refusal) => {
            writer.write_all(b" ")?;
            write_refusal(writer, *refusal)
        }
    }
}

impl Seated {
    /// Prints the line of a seat's answer, its end included, straight into the writer: `SEAT ok`, `SEAT ok DATA` or
    /// `SEAT err NUMBER NAME`. The one error is the writer's own; then part of the line may stand in it.
    #[tactic(auto, using(words::proofs::Written::appends_more))]
    pub fn write_to<W: Write>(&self, writer: &mut W) -> io::Result<()>
        ensures { OnOk result (Appends (W.contents writer.old) (W.contents writer.new) (seated_text self.now)) }
    {
        let mut buffer = Buffer::new();
        writer.write_all(buffer.format(self.seat).as_bytes())?;
        write_answer(writer, &self.answer)?;
        writer.write_all(b"\n")
    }
}

/// Prints how the gate of a block ended, the line's end included: `gate ok`, or `gate limit` where its turns ran out.
pub fn write_gate<W: Write>(writer: &mut W, opened: bool) -> io::Result<()>
    ensures { OnOk result (Appends (W.contents writer.old) (W.contents writer.new) (gate_text opened)) }
{
    if opened {
        writer.write_all(b"gate ok\n")
    } else {
        writer.write_all(b"gate limit\n")
    }
}
