// A client is served.
ghost use Rattle.std.specs.Prelude.{◌≡◌, ℕ, List, ◌++◌, OnOk, Some};
ghost use Rattle.std.specs.Io.KnownBytes.{Appends};
ghost use Rattle.nbd_messages.specs.Replies.{greeting};
ghost use Rattle.nbd_read_session.specs.Blocks.{Array};
ghost use Rattle.nbd_read_session.specs.Talk.{AreArrays, Talk, Turn, beginning};

use crate::Served;
use crate::stopped::Stopped;
use crate::turning::turn;
use nbd_messages::push_greeting;
use nbd_options::{Export, Session, Stage};
use std::alloc::Global;
use std::io::{ErrorKind, Read, Write};

/// Writes what is said.
fn say<W: Write>(writer: &mut W, answer: &[u8]) -> Result<(), Stopped>
    ensures { OnOk result (Appends (W.contents writer.old) (W.contents writer.new) answer.now) }
{
    if let Err(error) = writer.write_all(answer) {
        return Err(Stopped::Unsaid(error));
    }
    match writer.flush() {
        Ok(()) => Ok(()),
        Err(error) => Err(Stopped::Unsaid(error)),
    }
}

/// Serves a client until it goes, its input ends, or what comes is no message.
pub fn serve<T: Served, R: Read, W: Write>(
    alloc: Global,
    served: &mut T,
    exports: &[Export<'_>],
    reader: &mut R,
    writer: &mut W,
) -> Result<(), Stopped>
    ensures answers { OnOk result ((arrays : ℕ → Array) → (heard : List ℕ) → AreArrays (T.shows served.old) arrays → R.remaining reader.old ≡ Some heard →
        (said : List ℕ) × (turns : List Turn) × Talk exports.now arrays (T.may_fail served.old) beginning heard said turns × Appends (W.contents writer.old) (W.contents writer.new) (greeting ++ said)) }
{
    let mut session = Session {
        no_zeroes: false,
        structured: false,
        described: None,
        stage: Stage::Opening,
    };
    let mut text = Vec::new(alloc);
    let mut answer = Vec::new(alloc);
    push_greeting(&mut answer)?;
    say(writer, answer.as_slice())?;
    for _ in 0..u64::MAX {
        answer.clear();
        if !turn(
            served,
            exports,
            &mut session,
            reader,
            &mut text,
            &mut answer,
        )? {
            return Ok(());
        }
        say(writer, answer.as_slice())?;
    }
    Err(Stopped::Unheard(ErrorKind::TimedOut.into()))
}
