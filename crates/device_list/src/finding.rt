// Finding a device by its name.
ghost use Rattle.std.specs.Prelude.{◌≡◌, ◌≢◌, ◌<◌, ◌-◌, length, IfSome, IfErr, IfOk, nat_le, sum_by, slice_get, Some, position};
ghost use Rattle.sector.specs.declared.refusal.Refusal.TheVariants.{JournalFull};
ghost use Rattle.device_list.specs.Tables.{table_of, IsThere};
ghost use Rattle.command_semantics.specs.Places.{place_of, place_free, place_among, found, is_among, IsDepthAt, IsRoleAt, IsPlaceIn};
ghost use Rattle.command_semantics.specs.declared.place.Place.TheVariants.{Free, In};
ghost use Rattle.command_semantics.specs.Disks.{device_count, devices_in, devices_of};

use crate::NamedVolume;
use crate::held::{Devices, MOST_DEVICES};
use command_semantics::Place;
use device_stacks::NamedStack;
use sector::Refusal;
use words::Name;

fn stack_of(stacks: &[NamedStack], name: &Name) -> Option<usize>
    ensures place { result ≡ position (λ s. is_among name.now s.names) stacks.now }
    ensures within { IfSome result (λ i. i < length stacks.now) }
{
    stacks.iter().position(|stack| stack.has(name))
}

/// Where a name stands among the stacks that nothing uses.
#[tactic(auto, unfolding(command_semantics::specs::Places::place_free))]
fn place_free(held: &Devices, name: &Name) -> Option<Place>
    ensures place { result ≡ place_free name.now held.now.stacks.items }
    ensures within { IsThere result held.now }
{
    match stack_of(&held.stacks, name) {
        None => None,
        Some(i) => match held.stacks[i].depth(name) {
            None => None,
            Some(depth) => Some(Place::Free(i, depth)),
        },
    }
}

/// Where a name stands among the volumes. Each is asked once, up to the first that has it.
#[tactic(auto, using(crate::proofs::Firsts::passed_by))]
fn place_among(held: &Devices, name: &Name) -> Option<Place>
    ensures place { result ≡ place_among name.now (table_of held.now).volumes }
    ensures within { IsThere result held.now }
{
    for (v, volume) in held.volumes.iter().enumerate() {
        if let Some(role) = volume.role(name) {
            return Some(Place::In(v, role));
        }
    }
    None
}

/// Where a name stands.
#[tactic(auto, unfolding(command_semantics::specs::Places::place_of))]
pub fn find(held: &Devices, name: &Name) -> Option<Place>
    ensures place { result ≡ place_of name.now (table_of held.now) }
    ensures within { IsThere result held.now }
{
    match place_free(held, name) {
        Some(place) => Some(place),
        None => place_among(held, name),
    }
}

/// Where a name stands. `NoSuchDevice` for a name that no device has.
pub fn find_device(held: &Devices, name: &Name) -> Result<Place, Refusal>
    ensures place { result ≡ found (place_of name.now (table_of held.now)) }
    ensures within { IfOk result (λ place. IsPlaceIn place (table_of held.now)) }
    ensures room { IfErr result (λ e. e ≢ JournalFull) }
{
    match find(held, name) {
        None => Err(Refusal::NoSuchDevice),
        Some(place) => Ok(place),
    }
}

/// What is left of so many devices, those of some stacks taken away.
fn left_after_stacks(stacks: &[NamedStack], most: usize) -> usize
    ensures { result ≡ most - sum_by devices_of stacks.now }
{
    let mut left = most;
    for stack in stacks {
        left = left.saturating_sub(stack.devices());
    }
    left
}

/// What is left of so many devices, those of some volumes taken away.
fn left_after_volumes(volumes: &[NamedVolume], most: usize) -> usize
    ensures { result ≡ most - sum_by (λ v. devices_in v.shown) volumes.now }
{
    let mut left = most;
    for volume in volumes {
        left = volume.left_of(left);
    }
    left
}

/// Whether there are as many devices as there may be.
#[tactic(auto, using(crate::proofs::Showing::shown_sum))]
pub fn is_full(held: &Devices) -> bool
    ensures { result ≡ nat_le 64 (device_count (table_of held.now)) }
{
    let left = left_after_stacks(&held.stacks, MOST_DEVICES);
    left_after_volumes(&held.volumes, left) == 0
}
