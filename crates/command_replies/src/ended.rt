// Requests that are started by one command and end in another.
ghost use Rattle.std.specs.Prelude.{OnOk};
ghost use Rattle.std.specs.Io.KnownBytes.{Appends};
ghost use Rattle.command_replies.specs.Ended.{ending_words, ended_text};

use crate::command_reply::write_refusal;
use crate::runs::write_data;
use itoa::Buffer;
use sector::{Buf, Refusal};
use std::io;
use std::io::Write;

/// How a request ended.
#[derive(Drop)]
pub enum Ending {
    /// A read, with these bytes.
    Data(Buf),
    /// A write that was done.
    Written,
    /// A flush that was done.
    Flushed,
    /// It is refused, as the snapshot that it was for is spoiled (`Invalid`) or a device failed (`Io`).
    Refused(Refusal),
}

/// A request that was started by a command of its own, by its number, and how it ended.
#[derive(Drop)]
pub struct Ended {
    pub request: u64,
    pub ending: Ending,
}

/// Prints how a request ended, a space before each word.
#[tactic(auto, using(words::proofs::Written::appends_more))]
fn write_ending<W: Write>(writer: &mut W, ending: &Ending) -> io::Result<()>
    ensures { OnOk result (Appends (W.contents writer.old) (W.contents writer.new) (ending_words ending.now)) }
{
    match ending {
        Ending::Data(bytes) => write_data(writer, bytes.as_slice()),
        Ending::Written => writer.write_all(b" written"),
        Ending::Flushed => writer.write_all(b" flushed"),
        Ending::Refused(refusal) => {
            writer.write_all(b" ")?;
            write_refusal(writer, *refusal)
        }
    }
}

impl Ended {
    /// Prints the line of a request that ended, its end included, straight into the writer: `reply NUMBER TEXT`. It stands
    /// before the line of the command in which the request ended. The one error is the writer's own; then part of the
    /// line may stand in it.
    #[tactic(auto, using(words::proofs::Written::appends_more))]
    pub fn write_to<W: Write>(&self, writer: &mut W) -> io::Result<()>
        ensures { OnOk result (Appends (W.contents writer.old) (W.contents writer.new) (ended_text self.now)) }
    {
        let mut buffer = Buffer::new();
        writer.write_all(b"reply ")?;
        writer.write_all(buffer.format(self.request).as_bytes())?;
        write_ending(writer, &self.ending)?;
        writer.write_all(b"\n")
    }
}
