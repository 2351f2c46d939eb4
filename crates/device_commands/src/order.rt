// In what order the snapshots of a volume stand, and its stores, by a name.
ghost use Rattle.std.specs.Prelude.{◌≡◌, ◌≢◌, ◌<◌, length, IfErr, IfOk};
ghost use Rattle.sector.specs.declared.refusal.Refusal.TheVariants.{JournalFull};
ghost use Rattle.std.specs.Option.{option_copied};
ghost use Rattle.command_semantics.specs.Places.{found, place_of, volume_at, IsPlaceIn};
ghost use Rattle.device_list.specs.Tables.{table_of};
ghost use Rattle.device_commands.specs.Order.{IsInOrderIn, IsLookedAt, IsOrderedFor, changed_under};

use command_semantics::Place;
use device_list::{Devices, find};
use sector::Refusal;
use table::Target;
use words::Name;

/// A look at the volume at a place.
fn look_in(held: &Devices, v: usize)
    requires { v < length (table_of held.now).volumes }
    ensures { IsInOrderIn (volume_at v (table_of held.now)) }
{
    held.volumes[v].look_at_snapshots();
}

/// Where a name stands, with a look at the volume that has its device, if one has. Whatever is in flight, each of its snapshots
/// has its name, and a number above those before it. Where no device of it drops writes and nothing is left to do, the stores of
/// those that are live, and that of a merge, are in order. `NoSuchDevice` for a name that no device has.
pub(crate) fn find_in_order(held: &Devices, name: &Name) -> Result<Place, Refusal>
    ensures place { result ≡ found (place_of name.now (table_of held.now)) }
    ensures within { IfOk result (λ place. IsPlaceIn place (table_of held.now)) }
    ensures ordered { IsOrderedFor name.now held.now }
    ensures room { IfErr result (λ e. e ≢ JournalFull) }
{
    match find(held, name) {
        None => Err(Refusal::NoSuchDevice),
        Some(Place::Free(i, depth)) => Ok(Place::Free(i, depth)),
        Some(Place::In(v, role)) => {
            look_in(held, v);
            Ok(Place::In(v, role))
        }
    }
}

/// The name on whose volume a target's snapshot is made, if it is one.
fn changed_under(target: &Target) -> Option<&Name>
    ensures { option_copied result ≡ changed_under target.now }
{
    match target {
        Target::Snapshot { device, .. } => Some(device),
        Target::Origin { .. } | Target::Merge { .. } => None,
        Target::Flakey { .. } | Target::Dust { .. } | Target::Error => None,
    }
}

/// A look at the volume on which a target's snapshot is made, if it is one.
pub(crate) fn look_under(held: &Devices, target: &Target)
    ensures { IsLookedAt (table_of held.now) (changed_under target.now) }
{
    match changed_under(target) {
        None => {}
        Some(name) => {
            let _ = find_in_order(held, name);
        }
    }
}
