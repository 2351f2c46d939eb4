// Raw disks: making one.
ghost use Rattle.std.specs.Prelude.{◌≤◌, length};
ghost use Rattle.command_semantics.specs.Changes.{Changes};
ghost use Rattle.device_list.specs.Tables.{StaysNamed, StaysSound, table_of};
ghost use Rattle.command_semantics.specs.Disks.{make};

use device::{MAX_SECTORS, MemDisk};
use device_list::{Devices, find, is_full};
use device_stacks::NamedStack;
use sector::Refusal;
use std::alloc::Global;
use words::Name;

/// `disk NAME N`: a disk of N zero sectors. In this order: `Busy` for a name that a device has, `OutOfRange` for a number of
/// sectors outside 1 to 2^24, `TooMany` where there are 64 devices, `NoMemory` where the allocator refuses room.
#[inline(never)]
#[tactic(auto, unfolding(command_semantics::specs::Disks::make))]
pub fn make_disk(alloc: Global, held: &mut Devices, name: Name, sectors: u32) -> Result<(), Refusal>
    ensures done { Changes result (table_of held.old) (table_of held.new) (make name sectors (table_of held.old)) }
    ensures sound { StaysSound held.old held.new }
    ensures named { StaysNamed held.old held.new }
{
    if find(held, &name).is_some() {
        return Err(Refusal::Busy);
    }
    if !(0 < sectors && sectors <= MAX_SECTORS as u32) {
        return Err(Refusal::OutOfRange);
    }
    if is_full(held) {
        return Err(Refusal::TooMany);
    }
    let disk = MemDisk::new(alloc, u64::from(sectors))?;
    let stack = NamedStack::of_disk(alloc, name, disk).map_err(|_| Refusal::NoMemory)?;
    held.stacks.push(stack).map_err(|_| Refusal::NoMemory)?;
    Ok(())
}
