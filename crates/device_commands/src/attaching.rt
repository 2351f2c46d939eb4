// Snapshots: taken over an origin, and taken away again.
ghost use Rattle.std.specs.Prelude.{◌≡◌, ◌≢◌, ◌<◌, length, true, slice_get, Some, IfErr, IfOk};
ghost use Rattle.sector.specs.declared.refusal.Refusal.TheVariants.{JournalFull};
ghost use Rattle.command_semantics.specs.Changes.{Enters, Serves};
ghost use Rattle.command_semantics.specs.Places.{IsPlaceIn, place_of};
ghost use Rattle.command_semantics.specs.Snapshots.{left_by, named_in, over, snapshot_by, snapshot_made};
ghost use Rattle.command_semantics.specs.declared.place.Place.TheVariants.{In};
ghost use Rattle.command_semantics.specs.declared.place.Role.TheVariants.{Snapshot, Under};
ghost use Rattle.device_commands.specs.Busy.{IsBusyRefused};
ghost use Rattle.device_list.specs.Tables.{StaysSound, table_of};
ghost use Rattle.device_commands.specs.Asked.{IsFullAt, IsFullFor};
ghost use Rattle.device_commands.specs.Devices.{StaysNamedWith, named_at};
ghost use Rattle.device_commands.specs.Meeting.{IsMetBy};
ghost use Rattle.device_commands.specs.Ruled.{is_sound_for};

use crate::back::put_stack_back;
use crate::lay::top;
use crate::origins::same_size;
use command_semantics::{Place, Role};
use device_list::{Devices, find};
use sector::Refusal;
use std::alloc::Global;
use words::Name;

/// The volume whose origin stands on the device of a name.
fn volume_over(held: &Devices, name: &Name) -> Result<usize, Refusal>
    ensures volume { result ≡ over (place_of name.now (table_of held.now)) }
    ensures within { IfOk result (λ v. v < length (table_of held.now).volumes) }
    ensures place { IfOk result (λ v. place_of name.now (table_of held.now) ≡ Some (In v (Under 0))) }
    ensures room { IfErr result (λ e. e ≢ JournalFull) }
{
    match find(held, name) {
        Some(Place::In(v, Role::Under(0))) => Ok(v),
        _ => Err(Refusal::NoSuchDevice),
    }
}

/// A snapshot of a volume takes over a stack that nothing uses as its store.
fn meet(
    alloc: Global,
    held: &mut Devices,
    name: Name,
    chunk: u32,
    overflow: bool,
    v: usize,
    i: usize,
) -> Result<(), Refusal>
    requires stack { i < length held.old.stacks.items }
    requires volume { v < length (table_of held.old).volumes }
    ensures done { is_sound_for (named_at v i (table_of held.old)) ≡ true → Serves result (table_of held.new) (λ t. t ≡ table_of held.old) (snapshot_by name chunk overflow (table_of held.old) (named_at v i (table_of held.old))) }
    ensures busy { IsBusyRefused result (table_of held.old) (table_of held.new) (named_at v i (table_of held.old)) }
    ensures made { IsMetBy name chunk overflow result (table_of held.old) (table_of held.new) (named_at v i (table_of held.old)) }
    ensures named { StaysNamedWith name held.old held.new }
    ensures full { IsFullAt v result held.new }
{
    let stack = held.stacks.remove(i);
    match held.volumes[v].attach(alloc, name, stack, chunk, overflow) {
        Ok(()) => Ok(()),
        Err((refusal, stack)) => {
            put_stack_back(&mut held.stacks, i, stack);
            Err(refusal)
        }
    }
}

/// A snapshot of the origin on the device of a name, with the stack that another is the top of as its store, which may
/// overflow or not.
#[tactic(auto, using(device_list::proofs::Showing::shown_there), unfolding(command_semantics::specs::Snapshots::snapshot_made, command_semantics::specs::Snapshots::named_in))]
pub fn make_snapshot(
    alloc: Global,
    held: &mut Devices,
    name: Name,
    sectors: u32,
    device: &Name,
    store: &Name,
    chunk: u32,
    overflow: bool,
) -> Result<(), Refusal>
    ensures done { is_sound_for (named_in sectors device.now store.now (table_of held.old)) ≡ true → Serves result (table_of held.new) (λ t. t ≡ table_of held.old) (snapshot_made name sectors device.now store.now chunk overflow (table_of held.old)) }
    ensures busy { IsBusyRefused result (table_of held.old) (table_of held.new) (named_in sectors device.now store.now (table_of held.old)) }
    ensures made { IsMetBy name chunk overflow result (table_of held.old) (table_of held.new) (named_in sectors device.now store.now (table_of held.old)) }
    ensures named { StaysNamedWith name held.old held.new }
    ensures full { IsFullFor device.now result held.old held.new }
{
    let v = volume_over(held, device)?;
    let i = top(held, store)?;
    same_size(sectors, u64::from(held.volumes[v].sectors()))?;
    meet(alloc, held, name, chunk, overflow, v, i)
}

/// A snapshot goes, and nothing uses its store any more. `NoMemory`, `JournalFull` where the journal of its volume has no room,
/// `NotQuiet` where it has something left to do.
pub fn detach(held: &mut Devices, v: usize, k: usize) -> Result<(), Refusal>
    requires { IsPlaceIn (In v (Snapshot k)) (table_of held.old) }
    ensures done { Enters result (table_of held.old) (table_of held.new) (left_by v k (table_of held.old)) }
    ensures sound { StaysSound held.old held.new }
    ensures full { IsFullAt v result held.new }
{
    held.stacks.reserve(1).map_err(|_| Refusal::NoMemory)?;
    match held.volumes[v].detach(k) {
        Ok(stack) => {
            held.stacks.push_reserved(stack);
            Ok(())
        }
        Err(refusal) => Err(refusal),
    }
}
