// Taking devices away.
ghost use Rattle.std.specs.Prelude.{◌≡◌, ◌<◌, length};
ghost use Rattle.sector.specs.declared.refusal.Refusal.TheVariants.{JournalFull};
ghost use Rattle.command_semantics.specs.Changes.{Enters};
ghost use Rattle.command_semantics.specs.Places.{IsPlaceIn};
ghost use Rattle.command_semantics.specs.Removing.{lowered, take_away};
ghost use Rattle.command_semantics.specs.declared.place.Place.TheVariants.{Free};
ghost use Rattle.device_list.specs.Tables.{StaysNamed, StaysSound, table_of};
ghost use Rattle.device_commands.specs.Asked.{IsFullFor};
ghost use Rattle.device_commands.specs.Order.{IsOrderedFor};

use crate::attaching::detach;
use crate::order::find_in_order;
use crate::origins::close;
use command_semantics::{Place, Role};
use device_list::Devices;
use sector::Refusal;
use words::Name;

/// Takes the top of a stack away that nothing uses. A bare disk and an error layer go whole.
fn take_top(held: &mut Devices, i: usize)
    requires { IsPlaceIn (Free i 0) (table_of held.old) }
    ensures { lowered i (table_of held.old) ≡ Ok (table_of held.new) }
{
    if held.stacks[i].is_layered() {
        held.stacks[i].uncover();
    } else {
        drop(held.stacks.remove(i));
    }
}

/// `remove NAME`: takes a device away that no other uses; what an origin or a snapshot stood on is left as it is. In this
/// order: `NoSuchDevice` for a name that no device has, `Busy` where another device uses it, `MergeInProgress` for a snapshot that
/// is being merged, `NotQuiet` for an origin or a snapshot whose volume has something left to do. `NoMemory` where the
/// allocator refuses room for what is left, and `JournalFull` for a snapshot where the journal of its volume has none, may
/// come before `NotQuiet`.
#[inline(never)]
#[tactic(auto, unfolding(command_semantics::specs::Removing::take_away), using(command_semantics::proofs::Starving::changes_enter))]
pub fn remove_device(held: &mut Devices, name: &Name) -> Result<(), Refusal>
    ensures done { Enters result (table_of held.old) (table_of held.new) (take_away name.now (table_of held.old)) }
    ensures ordered { IsOrderedFor name.now held.old }
    ensures sound { StaysSound held.old held.new }
    ensures named { StaysNamed held.old held.new }
    ensures full { IsFullFor name.now result held.old held.new }
{
    match find_in_order(held, name)? {
        Place::Free(i, 0) => {
            take_top(held, i);
            Ok(())
        }
        Place::In(v, Role::Origin) => close(held, v),
        Place::In(v, Role::Snapshot(k)) => detach(held, v, k),
        Place::In(_, Role::Merging) => Err(Refusal::MergeInProgress),
        Place::Free(_, _)
        | Place::In(_, Role::Under(_) | Role::Store(_, _) | Role::MergingStore(_)) => {
            Err(Refusal::Busy)
        }
    }
}
