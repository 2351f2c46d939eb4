// The lines of requests that ended.
ghost use Rattle.std.specs.Prelude.{◌≡◌, IfErr, OnOk};
ghost use Rattle.std.specs.Io.KnownBytes.{Appends};
ghost use Rattle.script_runner.specs.Ended.{ended_line, ended_lines, ending_of, line_replies};
ghost use Rattle.script_runner.specs.Exit.{IsWriters};
ghost use Rattle.script_runner.specs.Output.{answered, printed};

use crate::error::RunError;
use command_replies::{CommandReply, Ended, Ending};
use plain_machine::{Replied, Reply as Answered, refusal_for};
use std::alloc::Global;
use std::io::Write;
use std::{io, mem};

/// How a request ended, by what its volume replied.
fn ending_of(reply: Answered) -> Ending
    ensures { result ≡ ending_of reply }
{
    match reply {
        Answered::Data(bytes) => Ending::Data(bytes),
        Answered::Written => Ending::Written,
        Answered::Flushed => Ending::Flushed,
        Answered::Refused(failure) => Ending::Refused(refusal_for(failure)),
    }
}

/// The line of a request that ended.
fn ended_line(replied: Replied) -> CommandReply
    ensures { result ≡ ended_line replied }
{
    let Replied { number, reply } = replied;
    let ending = ending_of(reply);
    CommandReply::Ended(Ended {
        request: number,
        ending,
    })
}

/// Prints the lines of requests that ended, in the order in which they ended. The one error is the writer's own.
#[inline(never)]
fn print_ended<W: Write>(writer: &mut W, ended: Vec<Replied>) -> io::Result<()>
    ensures { OnOk result (Appends (W.contents writer.old) (W.contents writer.new) (printed (ended_lines ended.items))) }
{
    for replied in ended {
        ended_line(replied).write_to(writer)?;
    }
    Ok(())
}

/// Prints the line that a command answers itself, if it answers one. The one error is `RunError::Write`, the writer's own.
#[inline(always)]
#[tactic(auto, using(crate::proofs::EndedLemmas::none_replied, crate::proofs::EndedLemmas::one_printed))]
fn print_own<W: Write>(writer: &mut W, own: &Option<CommandReply>) -> Result<(), RunError>
    ensures printed { OnOk result (Appends (W.contents writer.old) (W.contents writer.new) (printed (answered own.now))) }
    ensures error { IfErr result IsWriters }
{
    match own {
        None => Ok(()),
        Some(reply) => {
            if let Err(error) = reply.write_to(writer) {
                return Err(RunError::of_writer(error));
            }
            Ok(())
        }
    }
}

/// Prints the lines of requests that ended, of which none is left, and then a command's own. The one error is
/// `RunError::Write`, the writer's own; then part of them may be printed.
#[inline(never)]
#[tactic(auto, using(crate::proofs::EndedLemmas::both_printed))]
fn print_both<W: Write>(
    alloc: Global,
    writer: &mut W,
    ended: &mut Vec<Replied>,
    own: &Option<CommandReply>,
) -> Result<(), RunError>
    ensures printed { OnOk result (Appends (W.contents writer.old) (W.contents writer.new) (printed (line_replies ended.old.items own.now))) }
    ensures error { IfErr result IsWriters }
{
    let ended = mem::replace(ended, Vec::new(alloc));
    if let Err(error) = print_ended(writer, ended) {
        return Err(RunError::of_writer(error));
    }
    print_own(writer, own)
}

/// Prints all that a line answers: the lines of requests that ended, and then its command's own. The one error is
/// `RunError::Write`, the writer's own; then part of them may be printed.
#[inline(always)]
#[tactic(auto, using(crate::proofs::EndedLemmas::own_alone))]
pub fn print_all<W: Write>(
    alloc: Global,
    writer: &mut W,
    ended: &mut Vec<Replied>,
    own: &Option<CommandReply>,
) -> Result<(), RunError>
    ensures printed { OnOk result (Appends (W.contents writer.old) (W.contents writer.new) (printed (line_replies ended.old.items own.now))) }
    ensures error { IfErr result IsWriters }
{
    // In most lines no request ends.
    if ended.is_empty() {
        return print_own(writer, own);
    }
    print_both(alloc, writer, ended, own)
}
