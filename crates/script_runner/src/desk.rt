// Lines in, lines out.
ghost use Rattle.std.specs.Prelude.{◌≡◌, [], ◌∷◌, true, None, MatchResult, IfErr, IfSome, OnOk, Option, Result};
ghost use Rattle.std.specs.Io.KnownBytes.{Appends};
ghost use Rattle.sector.specs.declared.refusal.Refusal.{Refusal as AnyRefusal};
ghost use Rattle.sector.specs.declared.refusal.Refusal.TheVariants.{JournalFull};
ghost use Rattle.command_replies.specs.declared.command_reply.CommandReply.{CommandReply as AnyReply};
ghost use Rattle.command_replies.specs.declared.command_reply.CommandReply.TheVariants.{Refused};
ghost use Rattle.command_semantics.specs.Naming.{AreNamed};
ghost use Rattle.command_semantics.specs.Sound.{is_sound};
ghost use Rattle.device_list.specs.Tables.{StaysNamed, table_of};
ghost use Rattle.script_runner.specs.Asking.{IsFirst, line_first};
ghost use Rattle.script_runner.specs.Counts.{summary_of};
ghost use Rattle.script_runner.specs.Exit.{IsMemory, IsWriters};
ghost use Rattle.script_runner.specs.Done.{IsLineDone};
ghost use Rattle.script_runner.specs.Full.{IsAskedByLine};
ghost use Rattle.script_runner.specs.Left.{IsLineLeft};
ghost use Rattle.script_runner.specs.Output.{LineOutcome, MayBe, answered, empty, followed, printed, told};
ghost use Rattle.script_runner.specs.Ruled.{is_ruled_line};
ghost use Rattle.script_runner.specs.Shown.{IsLineShown};
ghost use Rattle.script_runner.specs.Sound.{is_sound_line};
ghost use Rattle.script_runner.specs.Starts.{AreStartReplies, starts_line};

use crate::ended::print_all;
use crate::error::RunError;
use crate::step::answer;
use crate::summary::Summary;
use command_replies::CommandReply;
use device_commands::checkpoint_all;
use device_list::Devices;
use plain_machine::Replied;
use sector::Refusal;
use std::alloc::Global;
use std::io::Write;
use std::marker::Model;

/// The devices that the lines so far made, a count of the lines that were printed, why the last of them was refused, if it was, and the
/// memory of the last bytes that were many.
#[derive(Drop)]
pub struct Desk {
    pub(crate) alloc: Global,
    pub(crate) held: Devices,
    pub(crate) room: Vec<u8>,
    pub(crate) summary: Summary,
    pub(crate) refusal: Option<Refusal>,
}

impl Model for Desk {
    ghost use Rattle.script_runner.specs.Output.{Standing};
    ghost use Rattle.device_list.specs.Tables.{table_of};

    ghost Value = { Standing };

    ghost view = { λ d. record { table = table_of d.held; summary = d.summary } };

    ghost use Rattle.command_semantics.specs.Naming.{AreNamed};

    ghost invariant = { λ d. AreNamed (table_of d.held) };
}

/// Does what a line says, and puts what it prints in its place: its answer, or its refusal. Requests that end in it go to the end of
/// `ended`.
#[inline(always)]
fn outcome(
    alloc: Global,
    held: &mut Devices,
    room: &mut Vec<u8>,
    line: &[u8],
    ended: &mut Vec<Replied>,
    own: &mut Option<CommandReply>,
)
    requires { own.old ≡ None }
    ensures done { is_ruled_line line.now (table_of held.old) ≡ true → MayBe line.now (table_of held.old) (record { replies = answered own.new; table = table_of held.new }) }
    ensures shows { is_ruled_line line.now (table_of held.old) ≡ true → IsLineShown line.now (table_of held.old) (record { replies = answered own.new; table = table_of held.new }) }
    ensures asks { IsFirst (line_first line.now (table_of held.old)) (answered own.new) }
    ensures number { starts_line line.now ≡ true → AreStartReplies (answered own.new) }
    ensures alone { starts_line line.now ≡ true → ended.new.items ≡ ended.old.items }
    ensures still { IfSome (line_first line.now (table_of held.old)) (λ _. (table_of held.new ≡ table_of held.old) × (ended.new.items ≡ ended.old.items)) }
    ensures told { is_ruled_line line.now (table_of held.old) ≡ true → ended.new.items ≡ ended.old.items }
    ensures left { (answer : Result (Option AnyReply) AnyRefusal) × (answered own.new ≡ told answer) × IsLineLeft line.now answer (table_of held.old) (table_of held.new) ended.old.items ended.new.items }
    ensures full { answered own.new ≡ Refused JournalFull ∷ [] → IsAskedByLine line.now (table_of held.old) (table_of held.new) }
    ensures sound { is_sound (table_of held.old) ≡ true → is_sound_line line.now ≡ true → is_sound (table_of held.new) ≡ true }
    ensures named { StaysNamed held.old held.new }
{
    if let Err(refusal) = answer(alloc, held, room, line, ended, own) {
        *own = Some(CommandReply::Refused(refusal));
    }
}

/// The refusal that an answer is, if it is one.
fn refusal_in(own: &Option<CommandReply>) -> Option<Refusal> {
    match own {
        Some(CommandReply::Refused(refusal)) => Some(*refusal),
        _ => None,
    }
}

impl Desk {
    /// No devices, and room for all that there may be. The one error is `RunError::Memory`.
    #[tactic(auto, using(crate::proofs::DeskLemmas::none_named))]
    pub fn new(alloc: Global) -> Result<Desk, RunError>
        ensures { MatchResult result (λ desk. desk ≡ record { table = empty; summary = summary_of [] }) IsMemory }
    {
        Ok(Desk {
            alloc,
            held: Devices::new(alloc).map_err(|_| RunError::Memory)?,
            room: Vec::new(alloc),
            summary: Summary::of_nothing(),
            refusal: None,
        })
    }

    /// What was printed so far, counted; a line whose printing failed counts too.
    pub fn summary(&self) -> Summary
        ensures { result ≡ self.now.summary }
    {
        self.summary
    }

    /// Folds the journal of each volume, so that all have room again; no device is changed.
    pub(crate) fn fold_journals(&mut self)
        ensures { self.new ≡ self.old }
    {
        checkpoint_all(&mut self.held);
    }

    /// Does what a line says, the line given without its end, and prints the lines of the requests that ended in it, and then
    /// its own answer. A line whose words are refused answers that refusal alone, and so does a start or an event whose
    /// names or sectors are refused, whatever is in flight. Where the allocator refuses any memory, or the
    /// journal that its command takes a place in has no room, the line prints that and changes no device, but that of a read or a
    /// write some part may have been done. Where its command has its rule, each
    /// volume shows what the command leaves of what it showed. The one error is `RunError::Write`, the writer's own; then the
    /// line was done all the same, and part of what it prints may be printed.
    #[inline(always)]
    pub fn line<W: Write>(&mut self, line: &[u8], writer: &mut W) -> Result<(), RunError>
        ensures done { (done : LineOutcome) × IsLineDone line.now self.old.table done × (self.new ≡ followed self.old done)
            × OnOk result (Appends (W.contents writer.old) (W.contents writer.new) (printed done.replies)) }
        // No device drops writes, and nothing is in flight, until a line makes one that does, starts a request or steps an event
        // of a merge.
        ensures sound { is_sound self.old.table ≡ true → is_sound_line line.now ≡ true → is_sound self.new.table ≡ true }
        ensures error { IfErr result IsWriters }
        ensures named { AreNamed self.new.table }
    {
        let mut ended = Vec::new(self.alloc);
        let mut own = None;
        outcome(
            self.alloc,
            &mut self.held,
            &mut self.room,
            line,
            &mut ended,
            &mut own,
        );
        self.summary = self.summary.with_lines(ended.len()).with_own(&own);
        self.refusal = refusal_in(&own);
        print_all(self.alloc, writer, &mut ended, &own)
    }
}
