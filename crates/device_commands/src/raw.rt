// Loading, saving and copying raw sectors of disks, past all layers.
ghost use Rattle.std.specs.Prelude.{◌≡◌, ◌≤◌, ◌<◌, ◌+◌, ◌*◌, ◌/◌, length, slice_get, MatchResult, Ok, Err};
ghost use Rattle.device.specs.Disk.{disk_contents};
ghost use Rattle.words.specs.Given.{Gives};
ghost use Rattle.command_semantics.specs.Changes.{Changes};
ghost use Rattle.device_list.specs.Tables.{StaysNamed, StaysSound, table_of};
ghost use Rattle.command_semantics.specs.Places.{IsPlaceIn, IsRoleIn};
ghost use Rattle.command_semantics.specs.Raw.{copied, cut, in_use, load, loaded_at, raw_at, save};
ghost use Rattle.command_semantics.specs.declared.place.Place.TheVariants.{Free};

use command_semantics::{Place, Role};
use device::{Block, MemDisk};
use device_list::{Devices, NamedVolume, find_device};
use device_stacks::{range_in, some_sectors, whole_sectors};
use sector::{Buf, Refusal, SECTOR_BYTES};
use std::alloc::Global;
use words::Name;

/// The disk at a place. `BadTable` for another device.
#[tactic(auto, using(device_list::proofs::Showing::shown_there), unfolding(command_semantics::specs::Raw::raw_at))]
fn disk_at(held: &Devices, place: Place) -> Result<&MemDisk, Refusal>
    requires { IsPlaceIn place (table_of held.now) }
    ensures { MatchResult result (λ disk. raw_at place (table_of held.now) ≡ Ok (disk_contents disk.now)) (λ e. raw_at place (table_of held.now) ≡ Err e) }
{
    match place {
        Place::Free(i, depth) => held.stacks[i].disk(depth),
        Place::In(v, role) => held.volumes[v].disk(role),
    }
}

/// Raw sectors of a disk. `OutOfRange` where they don't lie inside it.
#[tactic(auto, using(device::specs::Laws::disk_whole))]
fn raw_sectors(alloc: Global, disk: &MemDisk, first: u32, count: u32) -> Result<Buf, Refusal>
    ensures { Gives result (cut (disk_contents disk.now) first count) }
{
    let range = range_in(disk.sectors(), first, count)?;
    let mut bytes = vec![in alloc; 0u8; SECTOR_BYTES * count as usize].map_err(
        |_| Refusal::NoMemory,
    )?;
    disk.raw(range, &mut bytes);
    Ok(Buf::from_vec(bytes))
}

/// `save DISK S N`: raw sectors of a disk, used or not. In this order: `OutOfRange` for a number of sectors outside 1 to
/// 2048, `NoSuchDevice` for a name that no device has, `BadTable` for a device that is no disk. Then `OutOfRange` where the
/// sectors don't lie inside it, and `NoMemory` where the allocator refuses the bytes.
#[inline(never)]
#[tactic(auto, unfolding(command_semantics::specs::Raw::save))]
pub fn save_disk(
    alloc: Global,
    held: &Devices,
    name: &Name,
    first: u32,
    count: u32,
) -> Result<Buf, Refusal>
    ensures { Gives result (save name.now first count (table_of held.now)) }
{
    let count = some_sectors(count)?;
    let place = find_device(held, name)?;
    let disk = disk_at(held, place)?;
    raw_sectors(alloc, disk, first, count)
}

/// Writes raw sectors of a disk of a stack that nothing uses.
fn load_free(
    held: &mut Devices,
    i: usize,
    depth: usize,
    first: u32,
    count: u32,
    bytes: &[u8],
) -> Result<(), Refusal>
    requires place { IsPlaceIn (Free i depth) (table_of held.old) }
    requires room { length bytes.now ≡ 512 * count }
    ensures { Changes result (table_of held.old) (table_of held.new) (loaded_at (Free i depth) first count bytes.now (table_of held.old)) }
{
    held.stacks[i].load(depth, first, count, bytes)
}

/// Refuses to write raw sectors of a device of a volume.
#[tactic(auto, using(device::specs::Laws::disk_whole), unfolding(command_semantics::specs::Raw::in_use))]
fn refuse_load(volume: &NamedVolume, role: Role, first: u32, count: u32) -> Refusal
    requires { IsRoleIn role volume.now.shown }
    ensures { in_use role first count volume.now.shown ≡ Err result }
{
    let size = match volume.disk(role) {
        Ok(disk) => disk.sectors(),
        Err(refusal) => return refusal,
    };
    match range_in(size, first, count) {
        Ok(_) => Refusal::Busy,
        Err(refusal) => refusal,
    }
}

/// `load DISK S DATA`: writes raw sectors of a disk that nothing uses; the first sector takes the mark away that an invalid
/// mark could not be written. In this order: `BadTable` for bytes that are no whole sectors, `OutOfRange` where they are
/// not 1 to 2048, `NoSuchDevice` for a name that no device has. Then `BadTable` for a device that is no disk, `OutOfRange` where
/// the sectors don't lie inside it, and `Busy` where a layer, an origin or a snapshot uses it.
#[inline(never)]
#[tactic(auto, unfolding(command_semantics::specs::Raw::load, command_semantics::specs::Raw::loaded_at))]
pub fn load_disk(held: &mut Devices, name: &Name, first: u32, bytes: &Buf) -> Result<(), Refusal>
    ensures done { Changes result (table_of held.old) (table_of held.new) (load name.now first bytes.now (table_of held.old)) }
    ensures sound { StaysSound held.old held.new }
    ensures named { StaysNamed held.old held.new }
{
    let bytes = bytes.as_slice();
    let count = whole_sectors(bytes)?;
    match find_device(held, name)? {
        Place::Free(i, depth) => load_free(held, i, depth, first, count, bytes),
        Place::In(v, role) => Err(refuse_load(&held.volumes[v], role, first, count)),
    }
}

/// `copy DISK S DISK N`: raw sectors of a disk, used or not, written to the same place of a disk that nothing uses: what `save_disk`
/// gives of the first is what `load_disk` writes to the second. It is refused as these two are, in this order; a refusal changes
/// nothing.
#[tactic(auto, unfolding(command_semantics::specs::Raw::copied))]
pub fn copy_disk(
    alloc: Global,
    held: &mut Devices,
    from: &Name,
    first: u32,
    to: &Name,
    count: u32,
) -> Result<(), Refusal>
    ensures done { Changes result (table_of held.old) (table_of held.new) (copied from.now first to.now count (table_of held.old)) }
    ensures sound { StaysSound held.old held.new }
    ensures named { StaysNamed held.old held.new }
{
    let bytes = save_disk(alloc, held, from, first, count)?;
    load_disk(held, to, first, &bytes)
}
