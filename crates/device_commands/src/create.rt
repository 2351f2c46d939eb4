// Making devices by table lines.
ghost use Rattle.std.specs.Prelude.{◌≡◌, nat_le, true, false, None, IfErr};
ghost use Rattle.sector.specs.declared.refusal.Refusal.TheVariants.{JournalFull};
ghost use Rattle.table.specs.Lawful.{is_line, is_target};
ghost use Rattle.command_semantics.specs.Changes.{ServesIf};
ghost use Rattle.command_semantics.specs.Creating.{create, is_merge, made};
ghost use Rattle.command_semantics.specs.Disks.{device_count};
ghost use Rattle.command_semantics.specs.Journal.{enters_journal};
ghost use Rattle.command_semantics.specs.Places.{place_of};
ghost use Rattle.command_semantics.specs.Sound.{drops_writes, is_sound};
ghost use Rattle.device_commands.specs.Asked.{IsAskedMuch};
ghost use Rattle.device_commands.specs.Busy.{IsBusyTarget};
ghost use Rattle.device_list.specs.Tables.{StaysNamed, table_of};
ghost use Rattle.device_commands.specs.Devices.{StaysNamedWith};
ghost use Rattle.device_commands.specs.Meeting.{IsCreated, IsMadeBy};
ghost use Rattle.device_commands.specs.Order.{changed_under, IsLookedAt};
ghost use Rattle.device_commands.specs.Ruled.{is_sound_target};

use crate::attaching::make_snapshot;
use crate::lay::{features_of, lay_dust, lay_error, lay_flakey};
use crate::order::look_under;
use crate::origins::make_origin;
use device_list::{Devices, find, is_full};
use layers::Flakey;
use sector::Refusal;
use std::alloc::Global;
use table::{Line, Target};
use words::Name;

/// The device of a target.
#[tactic(auto, unfolding(command_semantics::specs::Creating::made))]
fn made(
    alloc: Global,
    held: &mut Devices,
    name: Name,
    sectors: u32,
    target: Target,
) -> Result<(), Refusal>
    requires { is_target target ≡ true }
    ensures done { is_sound_target sectors target (table_of held.old) ≡ true → ServesIf (enters_journal target) result (table_of held.new) (λ t. t ≡ table_of held.old) (made name sectors target (table_of held.old)) }
    ensures busy { IsBusyTarget result (table_of held.old) (table_of held.new) sectors target }
    ensures made { IsMadeBy name sectors target result (table_of held.old) (table_of held.new) }
    ensures named { StaysNamedWith name held.old held.new }
    ensures full { IfErr result (λ e. e ≡ JournalFull → IsAskedMuch (changed_under target) (table_of held.old) (table_of held.new)) }
{
    match target {
        Target::Origin { device } => make_origin(alloc, held, name, sectors, &device),
        Target::Snapshot {
            device,
            store,
            chunk,
            overflow,
        } => make_snapshot(alloc, held, name, sectors, &device, &store, chunk, overflow),
        Target::Merge { .. } => Err(Refusal::BadTable),
        Target::Flakey {
            device,
            offset,
            up,
            down,
            features,
        } => {
            let (sectors, offset) = (u64::from(sectors), u64::from(offset));
            let flakey = Flakey::new(sectors, offset, up, down, features_of(features));
            lay_flakey(alloc, held, name, &device, flakey)
        }
        Target::Dust { device, block } => lay_dust(alloc, held, name, &device, sectors, block),
        Target::Error => lay_error(alloc, held, name, sectors),
    }
}

/// Whether a target is `snapshot-merge`.
fn is_merge(target: &Target) -> bool
    ensures { result ≡ is_merge target.now }
{
    matches!(target, Target::Merge { .. })
}

/// `create NAME LINE`: makes the device of a table line. In this order: `BadTable` for `snapshot-merge`, `Busy` for a name
/// that a device has, `TooMany` where there are 64 devices, then by the target: `JournalFull` only for a snapshot, where the
/// journal of its origin's volume has no room.
#[inline(never)]
#[tactic(auto, unfolding(command_semantics::specs::Creating::create, crate::specs::Meeting::IsCreated))]
pub fn create_device(
    alloc: Global,
    held: &mut Devices,
    name: Name,
    line: Line,
) -> Result<(), Refusal>
    requires { is_line line ≡ true }
    ensures done { is_sound_target line.sectors line.target (table_of held.old) ≡ true → ServesIf (enters_journal line.target) result (table_of held.new) (λ t. t ≡ table_of held.old) (create name line (table_of held.old)) }
    ensures busy { is_merge line.target ≡ false → place_of name (table_of held.old) ≡ None → nat_le 64 (device_count (table_of held.old)) ≡ false → IsBusyTarget result (table_of held.old) (table_of held.new) line.sectors line.target }
    ensures made { IsCreated name line result (table_of held.old) (table_of held.new) }
    ensures ordered { IsLookedAt (table_of held.old) (changed_under line.target) }
    ensures sound { is_sound (table_of held.old) ≡ true → drops_writes line.target ≡ false → is_sound (table_of held.new) ≡ true }
    ensures named { StaysNamed held.old held.new }
    ensures full { IfErr result (λ e. e ≡ JournalFull → IsAskedMuch (changed_under line.target) (table_of held.old) (table_of held.new)) }
{
    look_under(held, &line.target);
    if is_merge(&line.target) {
        return Err(Refusal::BadTable);
    }
    if find(held, &name).is_some() {
        return Err(Refusal::Busy);
    }
    if is_full(held) {
        return Err(Refusal::TooMany);
    }
    let Line { sectors, target } = line;
    made(alloc, held, name, sectors, target)
}
