// Events, one by one.
ghost use Rattle.std.specs.Prelude.{◌≡◌, true, false, Some, IfSome, OnErr};
ghost use Rattle.command_semantics.specs.Changes.{Does, refused};
ghost use Rattle.command_semantics.specs.Events.{event_asked, is_merge_event, step_event};
ghost use Rattle.command_semantics.specs.Sound.{is_sound};
ghost use Rattle.device_list.specs.Tables.{StaysNamed, table_of};
ghost use Rattle.device_commands.specs.Ruled.{is_quiet_in, volume_for};
ghost use Rattle.script_runner.specs.Asking.{IsFirst, refusal_in};
ghost use Rattle.script_runner.specs.Left.{IsStepLeft};
ghost use Rattle.script_runner.specs.Output.{told};
ghost use Rattle.script_runner.specs.Steps.{reworded};

use command::EventWords;
use command_replies::CommandReply;
use device_commands::step_device;
use device_list::Devices;
use plain_machine::{Outcome, Replied};
use sector::Refusal;
use words::Name;

/// `step VOL EVENT`: does one event of a volume, where it is due. The request that ends in it goes to the end of `ended`.
/// An event in which a device failed and no request ended answers `Fault`. The refusals are those of `step_device`, and
/// `NoMemory`; a refusal leaves all as it was.
pub fn step_volume(
    held: &mut Devices,
    name: &Name,
    event: &EventWords,
    ended: &mut Vec<Replied>,
) -> Result<CommandReply, Refusal>
    ensures done { is_merge_event event.now ≡ false → is_quiet_in (volume_for name.now (table_of held.old)) ≡ true → Does result (table_of held.new) (λ t. t ≡ table_of held.old) (refused (table_of held.old) (step_event name.now event.now (table_of held.old))) }
    ensures told { is_merge_event event.now ≡ false → is_quiet_in (volume_for name.now (table_of held.old)) ≡ true → ended.new.items ≡ ended.old.items }
    ensures asks { IsFirst (refusal_in (event_asked name.now event.now (table_of held.old))) (told (reworded Some result)) }
    ensures still { IfSome (refusal_in (event_asked name.now event.now (table_of held.old))) (λ _. (table_of held.new ≡ table_of held.old) × (ended.new.items ≡ ended.old.items)) }
    ensures left { IsStepLeft name.now event.now result (table_of held.old) (table_of held.new) ended.old.items ended.new.items }
    ensures err { OnErr result (table_of held.new ≡ table_of held.old) }
    ensures kept { OnErr result (ended.new.items ≡ ended.old.items) }
    ensures sound { is_merge_event event.now ≡ false → is_sound (table_of held.old) ≡ true → is_sound (table_of held.new) ≡ true }
    ensures named { StaysNamed held.old held.new }
{
    ended.reserve(1).map_err(|_| Refusal::NoMemory)?;
    match step_device(held, name, event)? {
        Outcome::Done => Ok(CommandReply::Done),
        Outcome::Fault => Ok(CommandReply::Fault),
        Outcome::Reply(number, reply) => {
            ended.push_reserved(Replied { number, reply });
            Ok(CommandReply::Done)
        }
    }
}
