// What each line does.
ghost use Rattle.std.specs.Prelude.{◌≡◌, ◌≢◌, [], ◌∷◌, true, None, Some, is_some, IfOk, IfSome, MatchResult};
ghost use Rattle.sector.specs.declared.refusal.Refusal.TheVariants.{JournalFull, NoMemory};
ghost use Rattle.layers.specs.declared.message.Answer.TheVariants as answers;
ghost use Rattle.command_replies.specs.declared.command_reply.CommandReply.TheVariants.{Done, Data, Said, Number, Refused};
ghost use Rattle.command_replies.specs.Answers.{reply_to};
ghost use Rattle.command_semantics.specs.Changes.{Does, ServesIf, kept};
ghost use Rattle.command_semantics.specs.Messages.{tell};
ghost use Rattle.command_semantics.specs.Sound.{is_sound};
ghost use Rattle.device_list.specs.Tables.{StaysNamed, StaysSound, table_of};
ghost use Rattle.device_commands.specs.Asked.{IsAskedMuch};
ghost use Rattle.device_commands.specs.Order.{IsLookedAt};
ghost use Rattle.script_runner.specs.Asking.{IsFirst, first_refusal, line_first};
ghost use Rattle.script_runner.specs.Changed.{changed_by};
ghost use Rattle.script_runner.specs.Full.{IsAskedByLine, entered_by};
ghost use Rattle.script_runner.specs.Lawful.{is_lawful};
ghost use Rattle.script_runner.specs.Left.{IsLeft, IsLineLeft};
ghost use Rattle.script_runner.specs.Output.{IsPartDone, IsStarved, placed, replied, told};
ghost use Rattle.script_runner.specs.Ruled.{is_ruled, is_ruled_line};
ghost use Rattle.script_runner.specs.Shown.{IsLineShown};
ghost use Rattle.script_runner.specs.Sound.{is_sound_command, is_sound_line};
ghost use Rattle.script_runner.specs.Starts.{AreStartReplies, starts, starts_line};
ghost use Rattle.script_runner.specs.Steps.{reworded, told_as, step, answer_of};
ghost use Rattle.script_runner.specs.Wants.{enters, enters_line};

use crate::events::step_volume;
use crate::room::{ends_writes, take_back};
use command::Command::{
    Checkpoint, Copy, Create, Disk, Finish, Flush, List, Load, Map, Merge, Read, Remove, Resume,
    Save, Settle, StartRead, StartWrite, Status, Step, Stop, StopLosing, Table, Tick, Write,
};
use command::{Command, LINE_LIMIT, said};
use command_replies::CommandReply;
use device_commands::{
    checkpoint_device, copy_disk, create_device, finish_device, flush_device, line_text, list_text,
    load_disk, make_disk, map_text, merge_device, read_device, remove_device, resume_device,
    save_disk, settle_device, start_read, start_write, status_text, stop_device, stop_losing, tell,
    tick, write_device,
};
use device_list::Devices;
use layers::{Answer, Message};
use plain_machine::{Replied, ReqId};
use sector::{Buf, Refusal};
use std::alloc::Global;
use std::mem;
use words::{Name, Text};

/// What was to be done is done.
fn did(call: Result<(), Refusal>) -> Result<CommandReply, Refusal>
    ensures { result ≡ reworded (λ _. Done) call }
{
    call?;
    Ok(CommandReply::Done)
}

/// Bytes that were asked for.
fn given(call: Result<Buf, Refusal>) -> Result<CommandReply, Refusal>
    ensures { result ≡ reworded Data call }
{
    let bytes = call?;
    Ok(CommandReply::Data(bytes))
}

/// A text that was asked for.
fn text(call: Result<Text, Refusal>) -> Result<CommandReply, Refusal>
    ensures { result ≡ reworded Said call }
{
    let text = call?;
    Ok(CommandReply::Said(text))
}

/// The number of a request that was started.
fn number(call: Result<ReqId, Refusal>) -> Result<CommandReply, Refusal>
    ensures { result ≡ reworded Number call }
{
    let number = call?;
    Ok(CommandReply::Number(number))
}

/// The reply to a message that was answered. The one error is `NoMemory`, for the words of an answer that has some.
fn worded(alloc: Global, answer: Answer) -> Result<CommandReply, Refusal>
    ensures { MatchResult result (λ reply. reply ≡ reply_to answer) (λ e. (e ≡ NoMemory) × (answer ≢ answers.Done)) }
{
    CommandReply::to_message(alloc, answer).map_err(|_| Refusal::NoMemory)
}

/// `message DEV 0 WORDS`: tells a layer, and puts its answer into words. An answer that has words leaves each layer as it
/// was, so where there is no memory for them, nothing changed.
fn tell_device(
    alloc: Global,
    held: &mut Devices,
    name: &Name,
    message: &Message,
) -> Result<CommandReply, Refusal>
    ensures done { Does result (table_of held.new) (λ t. t ≡ table_of held.old) (told_as reply_to (kept (table_of held.old) (tell name.now message.now (table_of held.old)))) }
    ensures sound { StaysSound held.old held.new }
    ensures named { StaysNamed held.old held.new }
{
    match tell(held, name, message) {
        Ok(answer) => worded(alloc, answer),
        Err(refusal) => Err(refusal),
    }
}

/// Does any command. The volume that it changes was in order, if it changes what one shows. Requests that end in it go to the end
/// of `ended`.
#[inline(never)]
#[tactic(auto, unfolding(crate::specs::Steps::step))]
fn obey_any(
    alloc: Global,
    held: &mut Devices,
    command: Command,
    ended: &mut Vec<Replied>,
) -> Result<CommandReply, Refusal>
    requires { is_lawful command ≡ true }
    ensures done { is_ruled command (table_of held.old) ≡ true → ServesIf (enters command) result (table_of held.new) (IsPartDone command (table_of held.old)) (step command (table_of held.old)) }
    ensures asks { IsFirst (first_refusal command (table_of held.old)) (told (reworded Some result)) }
    ensures number { starts command ≡ true → AreStartReplies (told (reworded Some result)) }
    ensures alone { starts command ≡ true → ended.new.items ≡ ended.old.items }
    ensures still { IfSome (first_refusal command (table_of held.old)) (λ _. (table_of held.new ≡ table_of held.old) × (ended.new.items ≡ ended.old.items)) }
    ensures told { is_ruled command (table_of held.old) ≡ true → ended.new.items ≡ ended.old.items }
    ensures ordered { IsLookedAt (table_of held.old) (changed_by command) }
    ensures left { IsLeft command result (table_of held.old) (table_of held.new) ended.old.items ended.new.items }
    ensures full { told (reworded Some result) ≡ Refused JournalFull ∷ [] → IsAskedMuch (entered_by command) (table_of held.old) (table_of held.new) }
    ensures sound { is_sound (table_of held.old) ≡ true → is_sound_command command ≡ true → is_sound (table_of held.new) ≡ true }
    ensures named { StaysNamed held.old held.new }
{
    match command {
        Disk { name, sectors } => did(make_disk(alloc, held, name, sectors)),
        Create { name, line } => did(create_device(alloc, held, name, line)),
        Remove { name } => did(remove_device(held, &name)),
        Load { disk, first, bytes } => did(load_disk(held, &disk, first, &bytes)),
        Save { disk, first, count } => given(save_disk(alloc, held, &disk, first, count)),
        Copy {
            from,
            first,
            to,
            count,
        } => did(copy_disk(alloc, held, &from, first, &to, count)),
        Command::Message { name, message } => tell_device(alloc, held, &name, &message),
        Tick { seconds } => did(Ok(tick(held, seconds))),
        Read { name, first, count } => given(read_device(alloc, held, &name, first, count, ended)),
        Write {
            name,
            first,
            mut bytes,
        } => did(write_device(alloc, held, &name, first, &mut bytes, ended)),
        Flush { name } => did(flush_device(held, &name, ended)),
        StartRead { name, first, count } => number(start_read(alloc, held, &name, first, count)),
        StartWrite { name, first, bytes } => number(start_write(alloc, held, &name, first, bytes)),
        Step { volume, event } => step_volume(held, &volume, &event, ended),
        Settle { volume } => did(settle_device(held, &volume, ended)),
        Merge { name } => did(merge_device(alloc, held, &name)),
        Resume { volume } => did(resume_device(held, &volume)),
        Finish { volume } => did(finish_device(held, &volume)),
        Checkpoint { volume } => did(checkpoint_device(held, &volume)),
        Stop { volume } => did(stop_device(held, &volume)),
        StopLosing { volume } => did(stop_losing(held, &volume)),
        Status { name } => text(status_text(alloc, held, &name)),
        Table { name } => text(line_text(alloc, held, &name)),
        List => text(list_text(alloc, held)),
        Map { name } => text(map_text(alloc, held, &name)),
    }
}

/// Puts what a call did in its place.
#[inline(always)]
fn put_done(own: &mut Option<CommandReply>, call: Result<(), Refusal>) -> Result<(), Refusal>
    ensures own { IfOk result (λ _. is_some own.new ≡ true) }
    ensures put { replied result own.new ≡ reworded (λ _. Done) call }
{
    call?;
    *own = Some(CommandReply::Done);
    Ok(())
}

/// Puts the bytes that were asked for in their place.
#[inline(never)]
fn put_given(own: &mut Option<CommandReply>, call: Result<Buf, Refusal>) -> Result<(), Refusal>
    ensures own { IfOk result (λ _. is_some own.new ≡ true) }
    ensures put { replied result own.new ≡ reworded Data call }
{
    let bytes = call?;
    *own = Some(CommandReply::Data(bytes));
    Ok(())
}

/// Puts the text that was asked for in its place.
#[inline(never)]
fn put_text(own: &mut Option<CommandReply>, call: Result<Text, Refusal>) -> Result<(), Refusal>
    ensures own { IfOk result (λ _. is_some own.new ≡ true) }
    ensures put { replied result own.new ≡ reworded Said call }
{
    let text = call?;
    *own = Some(CommandReply::Said(text));
    Ok(())
}

/// Does any command, as `obey_any` does, and puts what is answered in its place.
#[inline(never)]
fn obey_other(
    alloc: Global,
    held: &mut Devices,
    command: &mut Command,
    ended: &mut Vec<Replied>,
    own: &mut Option<CommandReply>,
) -> Result<(), Refusal>
    requires { is_lawful command.old ≡ true }
    ensures own { IfOk result (λ _. is_some own.new ≡ true) }
    ensures done { is_ruled command.old (table_of held.old) ≡ true → ServesIf (enters command.old) (replied result own.new) (table_of held.new) (IsPartDone command.old (table_of held.old)) (step command.old (table_of held.old)) }
    ensures asks { IsFirst (first_refusal command.old (table_of held.old)) (told (reworded Some (replied result own.new))) }
    ensures number { starts command.old ≡ true → AreStartReplies (told (reworded Some (replied result own.new))) }
    ensures alone { starts command.old ≡ true → ended.new.items ≡ ended.old.items }
    ensures still { IfSome (first_refusal command.old (table_of held.old)) (λ _. (table_of held.new ≡ table_of held.old) × (ended.new.items ≡ ended.old.items)) }
    ensures told { is_ruled command.old (table_of held.old) ≡ true → ended.new.items ≡ ended.old.items }
    ensures ordered { IsLookedAt (table_of held.old) (changed_by command.old) }
    ensures left { IsLeft command.old (replied result own.new) (table_of held.old) (table_of held.new) ended.old.items ended.new.items }
    ensures full { told (reworded Some (replied result own.new)) ≡ Refused JournalFull ∷ [] → IsAskedMuch (entered_by command.old) (table_of held.old) (table_of held.new) }
    ensures sound { is_sound (table_of held.old) ≡ true → is_sound_command command.old ≡ true → is_sound (table_of held.new) ≡ true }
    ensures named { StaysNamed held.old held.new }
{
    let command = mem::replace(command, Command::Tick { seconds: 0 });
    let reply = obey_any(alloc, held, command, ended)?;
    *own = Some(reply);
    Ok(())
}

/// Does a command, as `obey_any` does, and puts what is answered in its place, where it is not copied from call to call. The three
/// that most lines say are done here, with their words where they stand. It is a call of its own, so that each line's room stays small.
#[inline(never)]
#[tactic(auto, unfolding(crate::specs::Steps::step))]
fn obey(
    alloc: Global,
    held: &mut Devices,
    room: &mut Vec<u8>,
    command: &mut Command,
    ended: &mut Vec<Replied>,
    own: &mut Option<CommandReply>,
) -> Result<(), Refusal>
    requires { is_lawful command.old ≡ true }
    ensures own { IfOk result (λ _. is_some own.new ≡ true) }
    ensures done { is_ruled command.old (table_of held.old) ≡ true → ServesIf (enters command.old) (replied result own.new) (table_of held.new) (IsPartDone command.old (table_of held.old)) (step command.old (table_of held.old)) }
    ensures asks { IsFirst (first_refusal command.old (table_of held.old)) (told (reworded Some (replied result own.new))) }
    ensures number { starts command.old ≡ true → AreStartReplies (told (reworded Some (replied result own.new))) }
    ensures alone { starts command.old ≡ true → ended.new.items ≡ ended.old.items }
    ensures still { IfSome (first_refusal command.old (table_of held.old)) (λ _. (table_of held.new ≡ table_of held.old) × (ended.new.items ≡ ended.old.items)) }
    ensures told { is_ruled command.old (table_of held.old) ≡ true → ended.new.items ≡ ended.old.items }
    ensures ordered { IsLookedAt (table_of held.old) (changed_by command.old) }
    ensures left { IsLeft command.old (replied result own.new) (table_of held.old) (table_of held.new) ended.old.items ended.new.items }
    ensures full { told (reworded Some (replied result own.new)) ≡ Refused JournalFull ∷ [] → IsAskedMuch (entered_by command.old) (table_of held.old) (table_of held.new) }
    ensures sound { is_sound (table_of held.old) ≡ true → is_sound_command command.old ≡ true → is_sound (table_of held.new) ≡ true }
    ensures named { StaysNamed held.old held.new }
{
    match command {
        Read { name, first, count } => {
            let call = read_device(alloc, held, name, *first, *count, ended);
            put_given(own, call)
        }
        Write { name, first, bytes } => {
            let call = write_device(alloc, held, name, *first, bytes, ended);
            take_back(alloc, room, bytes);
            put_done(own, call)
        }
        Status { name } => put_text(own, status_text(alloc, held, name)),
        _ => obey_other(alloc, held, command, ended, own),
    }
}

/// Does what a line says, and puts its own answer in its place, which stays empty for a line that says nothing. Requests that end in
/// it go to the end of `ended`. The many bytes of a write stand in the room, which has that memory again afterwards.
#[inline(always)]
pub fn answer(
    alloc: Global,
    held: &mut Devices,
    room: &mut Vec<u8>,
    line: &[u8],
    ended: &mut Vec<Replied>,
    own: &mut Option<CommandReply>,
) -> Result<(), Refusal>
    requires { own.old ≡ None }
    ensures done { is_ruled_line line.now (table_of held.old) ≡ true → ServesIf (enters_line line.now) (placed result own.new) (table_of held.new) (IsStarved line.now (table_of held.old)) (answer_of line.now (table_of held.old)) }
    ensures shows { is_ruled_line line.now (table_of held.old) ≡ true → IsLineShown line.now (table_of held.old) (record { replies = told (placed result own.new); table = table_of held.new }) }
    ensures asks { IsFirst (line_first line.now (table_of held.old)) (told (placed result own.new)) }
    ensures number { starts_line line.now ≡ true → AreStartReplies (told (placed result own.new)) }
    ensures alone { starts_line line.now ≡ true → ended.new.items ≡ ended.old.items }
    ensures still { IfSome (line_first line.now (table_of held.old)) (λ _. (table_of held.new ≡ table_of held.old) × (ended.new.items ≡ ended.old.items)) }
    ensures told { is_ruled_line line.now (table_of held.old) ≡ true → ended.new.items ≡ ended.old.items }
    ensures left { IsLineLeft line.now (placed result own.new) (table_of held.old) (table_of held.new) ended.old.items ended.new.items }
    ensures full { told (placed result own.new) ≡ Refused JournalFull ∷ [] → IsAskedByLine line.now (table_of held.old) (table_of held.new) }
    ensures sound { is_sound (table_of held.old) ≡ true → is_sound_line line.now ≡ true → is_sound (table_of held.new) ≡ true }
    ensures named { StaysNamed held.old held.new }
{
    let mut words = said(alloc, room, line, LINE_LIMIT);
    match &mut words {
        Ok(Some(command)) => {
            if ends_writes(command) {
                // What the command needs itself may take the place.
                *room = Vec::new(alloc);
            }
            obey(alloc, held, room, command, ended, own)
        }
        Ok(None) => Ok(()),
        Err(refusal) => Err(*refusal),
    }
}
