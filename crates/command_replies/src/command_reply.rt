// What a command answers, and the line that prints it.
ghost use Rattle.std.specs.Prelude.{◌≡◌, ◌≤◌, ◌<◌, ◌++◌, OnOk, codes, decimal, drop, length};
ghost use Rattle.std.specs.Io.KnownBytes.{Appends};
ghost use Rattle.command_replies.specs.Refusals.{refusal_text};
ghost use Rattle.command_replies.specs.Texts.{text_of};

use crate::ended::Ended;
use crate::runs::{LINE_ROOM, is_one_run, put_line, write_data_line};
use crate::seated::{Seated, write_gate};
use itoa::Buffer;
use sector::{Buf, Refusal};
use std::io;
use std::io::Write;
use table::put;
use words::Text;

/// What a command answers.
#[derive(Drop)]
pub enum CommandReply {
    /// It is done: `ok`.
    Done,
    /// It is done, and these are the bytes that were asked for: `ok`, and the bytes as longest runs `COUNT*HH`.
    Data(Buf),
    /// It is done, and this is the text that was asked for: `ok TEXT`. The text holds no line end.
    Said(Text),
    /// It is done, and this is the number that was asked for: `ok N`.
    Number(u64),
    /// An event was done in which a device failed, and which answered no request: `ok fault`.
    Fault,
    /// The line of a request that ended in a command, before that command's own line: `reply NUMBER TEXT`.
    Ended(Ended),
    /// The line of a seat of a block: `SEAT ok`, `SEAT ok DATA` or `SEAT err NUMBER NAME`.
    Seat(Seated),
    /// How the gate of a block ended: `gate ok`, or `gate limit` where its turns ran out.
    Gate(bool),
    /// It is refused: `err NUMBER NAME`.
    Refused(Refusal),
}

/// Prints a refusal, without the end of its line.
#[tactic(auto, using(words::proofs::Written::appends_more))]
pub(crate) fn write_refusal<W: Write>(writer: &mut W, refusal: Refusal) -> io::Result<()>
    ensures { OnOk result (Appends (W.contents writer.old) (W.contents writer.new) (refusal_text refusal)) }
{
    let mut buffer = Buffer::new();
    writer.write_all(b"err ")?;
    writer.write_all(buffer.format(refusal.number()).as_bytes())?;
    writer.write_all(b" ")?;
    writer.write_all(refusal.name().as_bytes())
}

/// Puts the line of a text that was asked for at the end of a room, and tells where it begins.
fn put_said(room: &mut [u8; LINE_ROOM], text: &Text) -> usize
    requires { length text.now ≤ 92 }
    ensures within { result < 96 }
    ensures line { drop result room.new ≡ codes "ok " ++ text.now ++ codes "\n" }
{
    let end = put(room, LINE_ROOM, b"\n");
    let end = text.put(room, end);
    put(room, end, b"ok ")
}

/// Prints the line of a text that was asked for. The one error is the writer's own.
#[tactic(auto, using(words::proofs::Written::appends_more))]
fn write_said<W: Write>(writer: &mut W, text: &[u8]) -> io::Result<()>
    ensures { OnOk result (Appends (W.contents writer.old) (W.contents writer.new) (codes "ok " ++ text.now ++ codes "\n")) }
{
    writer.write_all(b"ok ")?;
    writer.write_all(text)?;
    writer.write_all(b"\n")
}

/// Prints the line of a number that was asked for. The one error is the writer's own.
#[tactic(auto, using(words::proofs::Written::appends_more))]
fn write_number<W: Write>(writer: &mut W, number: u64) -> io::Result<()>
    ensures { OnOk result (Appends (W.contents writer.old) (W.contents writer.new) (codes "ok " ++ decimal number ++ codes "\n")) }
{
    let mut buffer = Buffer::new();
    writer.write_all(b"ok ")?;
    writer.write_all(buffer.format(number).as_bytes())?;
    writer.write_all(b"\n")
}

/// Prints the line of a refusal. The one error is the writer's own.
#[tactic(auto, using(words::proofs::Written::appends_more))]
fn write_refused<W: Write>(writer: &mut W, refusal: Refusal) -> io::Result<()>
    ensures { OnOk result (Appends (W.contents writer.old) (W.contents writer.new) (refusal_text refusal ++ codes "\n")) }
{
    write_refusal(writer, refusal)?;
    writer.write_all(b"\n")
}

impl CommandReply {
    /// Puts the line of a text or of one run of data at the end of a room where it has room there, and tells where it begins; the
    /// room's end for any other, which is to be printed by its parts.
    #[inline(always)]
    fn put_short(&self, room: &mut [u8; LINE_ROOM]) -> usize
        ensures within { result ≤ 96 }
        ensures line { result < 96 → drop result room.new ≡ text_of self.now }
    {
        match self {
            CommandReply::Data(bytes) => {
                let bytes = bytes.as_slice();
                if is_one_run(bytes) {
                    put_line(room, bytes.len(), bytes[0])
                } else {
                    LINE_ROOM
                }
            }
            CommandReply::Said(text) => {
                if text.len() <= LINE_ROOM - 4 {
                    put_said(room, text)
                } else {
                    LINE_ROOM
                }
            }
            _ => LINE_ROOM,
        }
    }

    /// Prints the line of a reply by its parts.
    #[inline(never)]
    #[tactic(auto, using(words::proofs::Written::appends_more))]
    fn write_parts<W: Write>(&self, writer: &mut W) -> io::Result<()>
        ensures { OnOk result (Appends (W.contents writer.old) (W.contents writer.new) (text_of self.now)) }
    {
        match self {
            CommandReply::Done => writer.write_all(b"ok\n"),
            CommandReply::Data(bytes) => write_data_line(writer, bytes.as_slice()),
            CommandReply::Said(text) => write_said(writer, text.as_slice()),
            CommandReply::Number(number) => write_number(writer, *number),
            CommandReply::Fault => writer.write_all(b"ok fault\n"),
            CommandReply::Ended(ended) => ended.write_to(writer),
            CommandReply::Seat(seated) => seated.write_to(writer),
            CommandReply::Gate(opened) => write_gate(writer, *opened),
            CommandReply::Refused(refusal) => write_refused(writer, *refusal),
        }
    }

    /// Prints the line of a reply, its end included, straight into the writer; a short one in one write. The one error is the
    /// writer's own; then part of the line may stand in it.
    #[inline(always)]
    pub fn write_to<W: Write>(&self, writer: &mut W) -> io::Result<()>
        ensures { OnOk result (Appends (W.contents writer.old) (W.contents writer.new) (text_of self.now)) }
    {
        if let CommandReply::Done = self {
            return writer.write_all(b"ok\n");
        }
        let mut room = [b' '; LINE_ROOM];
        let start = self.put_short(&mut room);
        if start < LINE_ROOM {
            return writer.write_all(&room[start..]);
        }
        self.write_parts(writer)
    }
}
