// The journal of a volume.
ghost use Rattle.std.specs.Prelude.{◌≡◌, ◌<◌, Ok, length};
ghost use Rattle.command_semantics.specs.Changes.{Changes};
ghost use Rattle.command_semantics.specs.Events.{origin_by};
ghost use Rattle.command_semantics.specs.Journal.{checkpointed};
ghost use Rattle.device_list.specs.Tables.{table_of};
ghost use Rattle.device_commands.specs.Devices.{NeedsOrigin};

use crate::flights::origin_at;
use device_list::{Devices, find_device};
use sector::Refusal;
use words::Name;

/// The journal of a volume is folded.
fn checkpoint_at(held: &mut Devices, v: usize) -> Result<(), Refusal>
    requires { v < length (table_of held.old).volumes }
    ensures done { Changes result (table_of held.old) (table_of held.new) (Ok (table_of held.old)) }
    ensures same { table_of held.new ≡ table_of held.old }
{
    held.volumes[v].checkpoint()
}

/// `checkpoint VOL`: folds the journal of an origin's volume, so that it has room again, whatever is in flight; no device is
/// changed. In this order: `NoSuchDevice` for a name that no device has, `BadTable` for a device that is no origin, `NoMemory`
/// where the allocator refuses what is needed. A refusal changes nothing.
#[tactic(auto, unfolding(command_semantics::specs::Events::origin_by, command_semantics::specs::Journal::checkpointed))]
pub fn checkpoint_device(held: &mut Devices, name: &Name) -> Result<(), Refusal>
    ensures asks { NeedsOrigin name.now held.old result }
    ensures done { Changes result (table_of held.old) (table_of held.new) (checkpointed name.now (table_of held.old)) }
    ensures same { table_of held.new ≡ table_of held.old }
{
    let place = find_device(held, name)?;
    let v = origin_at(place)?;
    checkpoint_at(held, v)
}

/// Folds the journal of each volume, as `checkpoint_device` does of one, so that all have room again; no device is changed.
pub fn checkpoint_all(held: &mut Devices)
    ensures { table_of held.new ≡ table_of held.old }
{
    for v in 0..held.volumes.len() {
        // Memory may be refused for one: then its journal stays as it is.
        let _ = checkpoint_at(held, v);
    }
}
