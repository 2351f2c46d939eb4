// A snapshot is merged into its origin: the merge begins, goes on after a fault, and is finished.
ghost use Rattle.std.specs.Prelude.{◌≡◌, ◌≢◌, ◌<◌, length, true, false, Err, IfErr, IfOk, OnOk};
ghost use Rattle.sector.specs.declared.refusal.Refusal.TheVariants.{JournalFull};
ghost use Rattle.whole_commands.specs.Refusals.{is_starved};
ghost use Rattle.command_semantics.specs.Changes.{Changes, Enters};
ghost use Rattle.command_semantics.specs.Events.{origin_by};
ghost use Rattle.command_semantics.specs.Merging.{begun_at, merge_begun, merge_finished, merge_resumed};
ghost use Rattle.command_semantics.specs.Places.{IsPlaceIn, volume_at};
ghost use Rattle.command_semantics.specs.Sectors.{IsInVolume};
ghost use Rattle.command_semantics.specs.declared.place.Place.TheVariants.{In};
ghost use Rattle.command_semantics.specs.declared.place.Role.TheVariants.{Snapshot};
ghost use Rattle.device_list.specs.Tables.{StaysNamed, StaysSound, table_of};
ghost use Rattle.device_commands.specs.Asked.{IsFullAt, IsFullFor};
ghost use Rattle.device_commands.specs.Devices.{NeedsOrigin, StaysOnErr};
ghost use Rattle.device_commands.specs.Flights.{IsDoneFor};
ghost use Rattle.device_commands.specs.Merging.{IsBegunIn, IsFinishedIn, IsUnfinishedIn, finished_at, resumed_at};
ghost use Rattle.device_commands.specs.Order.{IsOrderedFor};
ghost use Rattle.device_commands.specs.Ruled.{is_sound_in, volume_for};

use crate::flights::origin_at;
use crate::order::find_in_order;
use command_semantics::{Place, Role};
use device_list::{Devices, find_device};
use sector::Refusal;
use std::alloc::Global;
use words::Name;

/// The volume of the snapshot at a place, and the snapshot's place in it. `MergeInProgress` for one that is being merged,
/// `BadTable` for another device.
#[tactic(auto, unfolding(command_semantics::specs::Merging::begun_at))]
fn to_merge(held: &Devices, place: Place) -> Result<(usize, usize), Refusal>
    ensures place { IfOk result (λ at. place ≡ In at.0 (Snapshot at.1)) }
    ensures err { IfErr result (λ e. begun_at place (table_of held.now) ≡ Err e) }
    ensures room { IfErr result (λ e. e ≢ JournalFull) }
{
    match place {
        Place::In(v, Role::Snapshot(k)) => Ok((v, k)),
        Place::In(_, Role::Merging) => Err(Refusal::MergeInProgress),
        _ => Err(Refusal::BadTable),
    }
}

/// The merge of a snapshot of a volume begins.
fn begin_at(alloc: Global, held: &mut Devices, v: usize, k: usize) -> Result<(), Refusal>
    requires { IsPlaceIn (In v (Snapshot k)) (table_of held.old) }
    ensures done { is_sound_in (volume_at v (table_of held.old)) ≡ true → Enters result (table_of held.old) (table_of held.new) (begun_at (In v (Snapshot k)) (table_of held.old)) }
    ensures refused { IfErr result (λ e. (table_of held.new ≡ table_of held.old) × (is_starved e ≡ false → begun_at (In v (Snapshot k)) (table_of held.old) ≡ Err e)) }
    ensures begun { OnOk result (IsInVolume IsBegunIn v (table_of held.old) (table_of held.new) (volume_at v (table_of held.old))) }
    ensures sound { StaysSound held.old held.new }
    ensures named { StaysNamed held.old held.new }
    ensures full { IsFullAt v result held.new }
{
    held.volumes[v].begin_merge(alloc, k)
}

/// `merge SNAP`: begins to merge a live snapshot into its origin, which shows what the snapshot showed from then on; it is none
/// of the snapshots any more. No device is asked for anything: `settle` merges, or the merge's events do. In this order:
/// `NoSuchDevice` for a name that no device has, `MergeInProgress` for a snapshot that is being merged, `BadTable` for another
/// device than a snapshot. Then `MergeInProgress` where another snapshot of the volume is being merged, `Invalid` for a spoiled one,
/// `NotQuiet` where its volume has something left to do, `NoMemory` where the allocator refuses what the merge will need. Where
/// the journal of its volume has no room, `JournalFull` may stand in place of the last three.
#[inline(never)]
#[tactic(auto, unfolding(command_semantics::specs::Merging::merge_begun))]
pub fn merge_device(alloc: Global, held: &mut Devices, name: &Name) -> Result<(), Refusal>
    ensures done { is_sound_in (volume_for name.now (table_of held.old)) ≡ true → Enters result (table_of held.old) (table_of held.new) (merge_begun name.now (table_of held.old)) }
    ensures refused { IfErr result (λ e. (table_of held.new ≡ table_of held.old) × (is_starved e ≡ false → merge_begun name.now (table_of held.old) ≡ Err e)) }
    ensures begun { OnOk result (IsDoneFor name.now IsBegunIn (table_of held.old) (table_of held.new)) }
    ensures ordered { IsOrderedFor name.now held.old }
    ensures sound { StaysSound held.old held.new }
    ensures named { StaysNamed held.old held.new }
    ensures full { IsFullFor name.now result held.old held.new }
{
    let place = find_in_order(held, name)?;
    let (v, k) = to_merge(held, place)?;
    begin_at(alloc, held, v, k)
}

/// The merge of a volume goes on after a fault.
fn resume_at(held: &mut Devices, v: usize) -> Result<(), Refusal>
    requires { v < length (table_of held.old).volumes }
    ensures done { Changes result (table_of held.old) (table_of held.new) (resumed_at v (table_of held.old)) }
    ensures sound { StaysSound held.old held.new }
    ensures named { StaysNamed held.old held.new }
{
    held.volumes[v].resume_merge()
}

/// `resume VOL`: lets the merge of an origin's volume go on that a fault stopped, whatever is in flight; one that goes on is
/// left as it is. In this order: `NoSuchDevice` for a name that no device has, `BadTable` for a device that is no origin,
/// `NotMerging` where no merge is begun.
#[tactic(auto, unfolding(command_semantics::specs::Events::origin_by, command_semantics::specs::Merging::merge_resumed))]
pub fn resume_device(held: &mut Devices, name: &Name) -> Result<(), Refusal>
    ensures done { Changes result (table_of held.old) (table_of held.new) (merge_resumed name.now (table_of held.old)) }
    ensures sound { StaysSound held.old held.new }
    ensures named { StaysNamed held.old held.new }
{
    let place = find_device(held, name)?;
    let v = origin_at(place)?;
    resume_at(held, v)
}

/// The merge of a volume is finished, and nothing uses its store any more.
fn finish_at(held: &mut Devices, v: usize) -> Result<(), Refusal>
    requires { v < length (table_of held.old).volumes }
    ensures done { is_sound_in (volume_at v (table_of held.old)) ≡ true → Enters result (table_of held.old) (table_of held.new) (finished_at v (table_of held.old)) }
    ensures unfinished { IfErr result (λ e. is_starved e ≡ false → IsUnfinishedIn e (volume_at v (table_of held.old))) }
    ensures finished { OnOk result (IsFinishedIn v (table_of held.old) (table_of held.new) (volume_at v (table_of held.old))) }
    ensures err { StaysOnErr result held.old held.new }
    ensures sound { StaysSound held.old held.new }
    ensures named { StaysNamed held.old held.new }
    ensures full { IsFullAt v result held.new }
{
    held.stacks.reserve(1).map_err(|_| Refusal::NoMemory)?;
    match held.volumes[v].finish_merge() {
        Ok(stack) => {
            held.stacks.push_reserved(stack);
            Ok(())
        }
        Err(refusal) => Err(refusal),
    }
}

/// `finish VOL`: ends the merge of an origin's volume that has no pair left: the snapshot's name goes, and nothing uses its
/// store any more. In this order: `NoSuchDevice` for a name that no device has, `BadTable` for a device that is no origin,
/// `NotFinished` where no merge is begun or something of it is left, `NotQuiet` where its volume has something else left to do.
/// `NoMemory` where the allocator refuses room for what is left, and `JournalFull` where the journal has none, may come before
/// those two. A refusal changes nothing.
#[inline(never)]
#[tactic(auto, unfolding(command_semantics::specs::Events::origin_by, command_semantics::specs::Merging::merge_finished))]
pub fn finish_device(held: &mut Devices, name: &Name) -> Result<(), Refusal>
    ensures asks { NeedsOrigin name.now held.old result }
    ensures done { is_sound_in (volume_for name.now (table_of held.old)) ≡ true → Enters result (table_of held.old) (table_of held.new) (merge_finished name.now (table_of held.old)) }
    ensures unfinished { IfErr result (λ e. IfOk (origin_by name.now (table_of held.old)) (λ v. is_starved e ≡ false → IsUnfinishedIn e (volume_at v (table_of held.old)))) }
    ensures finished { OnOk result (IfOk (origin_by name.now (table_of held.old)) (λ v. IsFinishedIn v (table_of held.old) (table_of held.new) (volume_at v (table_of held.old)))) }
    ensures err { StaysOnErr result held.old held.new }
    ensures sound { StaysSound held.old held.new }
    ensures named { StaysNamed held.old held.new }
    ensures full { IsFullFor name.now result held.old held.new }
{
    let place = find_device(held, name)?;
    let v = origin_at(place)?;
    finish_at(held, v)
}
