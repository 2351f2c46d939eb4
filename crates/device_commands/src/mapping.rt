// The pairs of snapshots.
ghost use Rattle.std.specs.Prelude.{◌≡◌, ◌≢◌, true, IfErr};
ghost use Rattle.sector.specs.declared.refusal.Refusal.TheVariants.{JournalFull};
ghost use Rattle.words.specs.Given.{Gives};
ghost use Rattle.command_semantics.specs.Places.{IsPlaceIn, volume_at};
ghost use Rattle.command_semantics.specs.Mapping.{map_at, map_text};
ghost use Rattle.command_semantics.specs.declared.place.Place.TheVariants.{In};
ghost use Rattle.device_list.specs.Tables.{table_of};
ghost use Rattle.device_commands.specs.Mapping.{IsMapHeld, IsMapHeldIn};
ghost use Rattle.device_commands.specs.Ruled.{is_loud_in, volume_for};

use command_semantics::{Place, Role};
use device_list::{Devices, find_device};
use sector::Refusal;
use std::alloc::Global;
use words::{Name, Text};

/// The pairs of a device of a volume.
#[tactic(auto, unfolding(command_semantics::specs::Mapping::map_at))]
fn map_at(alloc: Global, held: &Devices, v: usize, role: Role) -> Result<Text, Refusal>
    requires { IsPlaceIn (In v role) (table_of held.now) }
    ensures done { is_loud_in (volume_at v (table_of held.now)) ≡ true → Gives result (map_at (In v role) (table_of held.now)) }
    ensures held { IsMapHeldIn result role (volume_at v (table_of held.now)) }
    ensures room { IfErr result (λ e. e ≢ JournalFull) }
{
    held.volumes[v].map(alloc, role)
}

/// `map SNAP`: the pairs of a snapshot in runs, whatever is in flight. In this order: `NoSuchDevice` for a name that no device has,
/// `BadTable` for another device, `MergingSnapshot` for a snapshot that is being merged, `Invalid` for one that is spoiled,
/// `NoMemory` where the allocator refuses the bytes.
#[tactic(auto, unfolding(command_semantics::specs::Mapping::map_text, command_semantics::specs::Mapping::map_at))]
pub fn map_text(alloc: Global, held: &Devices, name: &Name) -> Result<Text, Refusal>
    ensures done { is_loud_in (volume_for name.now (table_of held.now)) ≡ true → Gives result (map_text name.now (table_of held.now)) }
    ensures held { IsMapHeld result name.now (table_of held.now) }
    ensures room { IfErr result (λ e. e ≢ JournalFull) }
{
    let Place::In(v, role) = find_device(held, name)? else {
        return Err(Refusal::BadTable);
    };
    map_at(alloc, held, v, role)
}
