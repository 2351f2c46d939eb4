// A volume is stopped: it ends with its snapshots, whatever is in flight in it.
ghost use Rattle.std.specs.Prelude.{◌≡◌, ◌≤◌, ◌<◌, ◌+◌, ◌++◌, OnErr, OnOk, length, vec_len, vec_capacity};
ghost use Rattle.command_semantics.specs.Changes.{Changes};
ghost use Rattle.command_semantics.specs.Events.{origin_by};
ghost use Rattle.command_semantics.specs.Losing.{StopsLosing};
ghost use Rattle.command_semantics.specs.Stopping.{volume_stopped};
ghost use Rattle.device_list.specs.Tables.{StaysNamed, StaysSound, table_of};
ghost use Rattle.device_commands.specs.Devices.{NeedsOrigin};
ghost use Rattle.device_commands.specs.Stopping.{AreFreedLost, IsLeftDurable, IsLeftDurableOf, StopsLosingAt, stopped_at};

use crate::flights::origin_at;
use device_list::{Devices, StoppedVolume, find_device};
use device_stacks::NamedStack;
use sector::Refusal;
use words::Name;

/// The stacks that a stopped volume leaves come behind those that nothing uses. There are `count` at most, and there is room for
/// them.
fn free_all(stacks: &mut Vec<NamedStack>, stopped: &mut StoppedVolume, count: usize)
    requires count { length stopped.old.shown ≤ count }
    requires room { vec_len stacks.old + count ≤ vec_capacity stacks.old }
    ensures { stacks.new.items ≡ stacks.old.items ++ stopped.old.shown }
{
    for _ in 0..count {
        let Some(stack) = stopped.take() else {
            break;
        };
        stacks.push_reserved(stack);
    }
}

/// The volume at a place is stopped.
fn stop_at(held: &mut Devices, v: usize) -> Result<(), Refusal>
    requires { v < length (table_of held.old).volumes }
    ensures done { Changes result (table_of held.old) (table_of held.new) (stopped_at v (table_of held.old)) }
    ensures sound { StaysSound held.old held.new }
    ensures named { StaysNamed held.old held.new }
{
    let count = held.volumes[v].devices();
    held.stacks.reserve(count).map_err(|_| Refusal::NoMemory)?;
    let mut stopped = held.volumes.remove(v).stop();
    free_all(&mut held.stacks, &mut stopped, count);
    Ok(())
}

/// `stop VOL`: an origin's volume ends with its snapshots and its merge, without a further event, whatever is in flight in it:
/// requests in flight are forgotten, and get no reply. Nothing uses its disks and layers any more; their bytes and layers stay,
/// and the stale marks of these disks are forgotten. In this order: `NoSuchDevice` for a name that no device has, `BadTable` for
/// a device that is no origin, `NoMemory` where the allocator refuses room for what is left. A refusal changes nothing.
#[tactic(auto, unfolding(command_semantics::specs::Events::origin_by, command_semantics::specs::Stopping::volume_stopped))]
pub fn stop_device(held: &mut Devices, name: &Name) -> Result<(), Refusal>
    ensures asks { NeedsOrigin name.now held.old result }
    ensures done { Changes result (table_of held.old) (table_of held.new) (volume_stopped name.now (table_of held.old)) }
    ensures sound { StaysSound held.old held.new }
    ensures named { StaysNamed held.old held.new }
{
    let place = find_device(held, name)?;
    let v = origin_at(place)?;
    stop_at(held, v)
}

/// The same, and the disk of each of them loses what was not flushed.
fn free_lost(stacks: &mut Vec<NamedStack>, stopped: &mut StoppedVolume, count: usize)
    requires many { length stopped.old.shown ≡ length stopped.old.devices }
    requires count { length stopped.old.shown ≤ count }
    requires room { vec_len stacks.old + count ≤ vec_capacity stacks.old }
    ensures { AreFreedLost stopped.old stacks.old.items stacks.new.items }
{
    for _ in 0..count {
        let Some(lost) = stopped.take_lost() else {
            break;
        };
        stacks.push_reserved(lost);
    }
}

/// The volume at a place is stopped, and its disks lose what was not flushed.
fn lose_at(held: &mut Devices, v: usize) -> Result<(), Refusal>
    requires { v < length (table_of held.old).volumes }
    ensures done { StopsLosingAt result v (table_of held.old) (table_of held.new) }
    ensures durable { OnOk result (IsLeftDurable v held.old.volumes.items held.old.stacks.items held.new.stacks.items) }
    ensures named { StaysNamed held.old held.new }
{
    let count = held.volumes[v].devices();
    held.stacks.reserve(count).map_err(|_| Refusal::NoMemory)?;
    let mut stopped = held.volumes.remove(v).stop();
    free_lost(&mut held.stacks, &mut stopped, count);
    Ok(())
}

/// `stop VOL lose`: the volume is stopped as by `stop VOL`, with the same refusals, and then its disks lose what was not flushed:
/// each of their sectors goes back to its value at its disk's last flush. All other disks stay as they are.
#[tactic(auto, unfolding(command_semantics::specs::Events::origin_by, command_semantics::specs::Stopping::volume_stopped))]
#[inline(never)]
pub fn stop_losing(held: &mut Devices, name: &Name) -> Result<(), Refusal>
    ensures asks { NeedsOrigin name.now held.old result }
    ensures done { StopsLosing result name.now (table_of held.old) (table_of held.new) }
    ensures durable { OnOk result (IsLeftDurableOf name.now held.old held.new) }
    ensures stays { OnErr result (table_of held.new ≡ table_of held.old) }
    ensures named { StaysNamed held.old held.new }
{
    let place = find_device(held, name)?;
    let v = origin_at(place)?;
    lose_at(held, v)
}
