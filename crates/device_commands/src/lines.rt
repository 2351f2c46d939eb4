// Table lines of devices that are there.
ghost use Rattle.std.specs.Prelude.{◌≡◌};
ghost use Rattle.words.specs.Given.{Gives};
ghost use Rattle.device_list.specs.Tables.{table_of};
ghost use Rattle.command_semantics.specs.Lines.{line_at, line_text};
ghost use Rattle.command_semantics.specs.Places.{IsPlaceIn};

use command_semantics::Place;
use device_list::{Devices, find_device};
use sector::Refusal;
use std::alloc::Global;
use table::{Line, print};
use words::{Name, Text};

/// The line of the device at a place. `BadTable` for a disk.
#[tactic(auto, using(device_list::proofs::Showing::shown_there), unfolding(command_semantics::specs::Lines::line_at))]
fn line_at(held: &Devices, place: Place) -> Result<Line, Refusal>
    requires { IsPlaceIn place (table_of held.now) }
    ensures { result ≡ line_at place (table_of held.now) }
{
    match place {
        Place::Free(i, depth) => held.stacks[i].line(depth),
        Place::In(v, role) => held.volumes[v].line(role),
    }
}

/// `table DEV`: the line of a device, as it is printed. In this order: `NoSuchDevice` for a name that no device has,
/// `BadTable` for a disk, `NoMemory` where the allocator refuses the bytes.
#[inline(never)]
#[tactic(auto, unfolding(command_semantics::specs::Lines::line_text))]
pub fn line_text(alloc: Global, held: &Devices, name: &Name) -> Result<Text, Refusal>
    ensures { Gives result (line_text name.now (table_of held.now)) }
{
    let place = find_device(held, name)?;
    let line = line_at(held, place)?;
    let mut text = Vec::new(alloc);
    print(&line, &mut text)?;
    Ok(Text::from_vec(text))
}
