// Status lines.
ghost use Rattle.std.specs.Prelude.{◌≡◌, ◌≢◌, true, IfErr};
ghost use Rattle.sector.specs.declared.refusal.Refusal.TheVariants.{JournalFull};
ghost use Rattle.words.specs.Given.{Gives};
ghost use Rattle.command_semantics.specs.Places.{IsPlaceIn, volume_at};
ghost use Rattle.command_semantics.specs.Status.{status_at, status_text};
ghost use Rattle.command_semantics.specs.declared.place.Place.TheVariants.{In};
ghost use Rattle.device_list.specs.Tables.{table_of};
ghost use Rattle.device_commands.specs.Ruled.{is_sound_in, volume_for};
ghost use Rattle.device_commands.specs.Status.{IsStatusAmong, IsStatusHeld, IsStatusHeldIn, IsStatusIn};

use command_semantics::{Place, Role};
use device_list::{Devices, find_device};
use sector::Refusal;
use std::alloc::Global;
use words::{Name, Text};

/// The status line of a device of a volume.
#[inline(always)]
#[tactic(auto, unfolding(command_semantics::specs::Status::status_at))]
fn status_at(alloc: Global, held: &Devices, v: usize, role: Role) -> Result<Text, Refusal>
    requires { IsPlaceIn (In v role) (table_of held.now) }
    ensures done { is_sound_in (volume_at v (table_of held.now)) ≡ true → Gives result (status_at (In v role) (table_of held.now)) }
    ensures among { IsStatusIn result role (volume_at v (table_of held.now)) }
    ensures held { IsStatusHeldIn result role (volume_at v (table_of held.now)) }
    ensures room { IfErr result (λ e. e ≢ JournalFull) }
{
    held.volumes[v].status(alloc, role)
}

/// `status DEV`: the status line of an origin or of a snapshot, whatever is in flight. In this order: `NoSuchDevice` for a
/// name that no device has, `BadTable` for a disk or a layer, `NoMemory` where the allocator refuses the bytes.
#[inline(always)]
#[tactic(auto, unfolding(command_semantics::specs::Status::status_text, command_semantics::specs::Status::status_at))]
pub fn status_text(alloc: Global, held: &Devices, name: &Name) -> Result<Text, Refusal>
    ensures done { is_sound_in (volume_for name.now (table_of held.now)) ≡ true → Gives result (status_text name.now (table_of held.now)) }
    ensures among { IsStatusAmong result name.now (table_of held.now) }
    ensures held { IsStatusHeld result name.now (table_of held.now) }
    ensures room { IfErr result (λ e. e ≢ JournalFull) }
{
    let Place::In(v, role) = find_device(held, name)? else {
        return Err(Refusal::BadTable);
    };
    status_at(alloc, held, v, role)
}
