// Origins: made over a stack, and taken away again.
ghost use Rattle.std.specs.Prelude.{◌≡◌, ◌≢◌, ◌<◌, length, IfErr};
ghost use Rattle.sector.specs.declared.refusal.Refusal.TheVariants.{JournalFull};
ghost use Rattle.command_semantics.specs.Changes.{Changes};
ghost use Rattle.command_semantics.specs.Origins.{closed, origin_made, same_size};
ghost use Rattle.device_list.specs.Tables.{StaysSound, table_of};

use crate::back::{put_stack_back, put_volume_back};
use crate::lay::top;
use device_list::{Devices, NamedVolume};
use sector::Refusal;
use std::alloc::Global;
use words::Name;

/// `BadTable` where the sectors of a line are not those that the device must have.
pub fn same_size(line: u32, device: u64) -> Result<(), Refusal>
    ensures value { result ≡ same_size line device }
    ensures room { IfErr result (λ e. e ≢ JournalFull) }
{
    if u64::from(line) == device {
        Ok(())
    } else {
        Err(Refusal::BadTable)
    }
}

/// An origin takes over the stack that the device of a name is the top of.
#[tactic(auto, unfolding(command_semantics::specs::Origins::origin_made))]
pub fn make_origin(
    alloc: Global,
    held: &mut Devices,
    name: Name,
    sectors: u32,
    device: &Name,
) -> Result<(), Refusal>
    ensures { Changes result (table_of held.old) (table_of held.new) (origin_made name sectors device.now (table_of held.old)) }
{
    let i = top(held, device)?;
    same_size(sectors, held.stacks[i].sectors())?;
    held.volumes.reserve(1).map_err(|_| Refusal::NoMemory)?;
    let stack = held.stacks.remove(i);
    match NamedVolume::open(alloc, name, stack) {
        Ok(volume) => {
            held.volumes.push_reserved(volume);
            Ok(())
        }
        Err((refusal, stack)) => {
            put_stack_back(&mut held.stacks, i, stack);
            Err(refusal)
        }
    }
}

/// An origin without snapshots goes, and nothing uses its stack any more. In this order: `Busy` where there is a snapshot or a
/// merge is begun, `NotQuiet` where something is left to do.
pub fn close(held: &mut Devices, v: usize) -> Result<(), Refusal>
    requires { v < length (table_of held.old).volumes }
    ensures done { Changes result (table_of held.old) (table_of held.new) (closed v (table_of held.old)) }
    ensures sound { StaysSound held.old held.new }
    ensures room { IfErr result (λ e. e ≢ JournalFull) }
{
    held.stacks.reserve(1).map_err(|_| Refusal::NoMemory)?;
    let volume = held.volumes.remove(v);
    match volume.close() {
        Ok(stack) => {
            held.stacks.push_reserved(stack);
            Ok(())
        }
        Err((refusal, volume)) => {
            put_volume_back(&mut held.volumes, v, volume);
            Err(refusal)
        }
    }
}
