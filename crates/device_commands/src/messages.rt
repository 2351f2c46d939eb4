// Messages to dust layers, and the time.
ghost use Rattle.std.specs.Prelude.{◌≡◌, ◌<◌, length, map};
ghost use Rattle.command_semantics.specs.Changes.{Steps};
ghost use Rattle.device_list.specs.Tables.{StaysNamed, StaysSound, table_of};
ghost use Rattle.command_semantics.specs.Messages.{stack_ticked, tell, ticked, told_at, volume_ticked};
ghost use Rattle.command_semantics.specs.Places.{IsPlaceIn};
ghost use Rattle.command_semantics.specs.declared.place.Place.TheVariants.{Free, In};

use command_semantics::{Place, Role};
use device_list::{Devices, NamedVolume, find_device};
use device_stacks::NamedStack;
use layers::{Answer, Message};
use sector::Refusal;
use words::Name;

/// Tells a device of a stack that nothing uses.
fn tell_free(
    held: &mut Devices,
    i: usize,
    depth: usize,
    message: &Message,
) -> Result<Answer, Refusal>
    requires { i < length held.old.stacks.items }
    ensures { Steps result (table_of held.old) (table_of held.new) (told_at (Free i depth) message.now (table_of held.old)) }
{
    held.stacks[i].tell(depth, message)
}

/// Tells a device of a volume.
fn tell_in(held: &mut Devices, v: usize, role: Role, message: &Message) -> Result<Answer, Refusal>
    requires { IsPlaceIn (In v role) (table_of held.old) }
    ensures { Steps result (table_of held.old) (table_of held.new) (told_at (In v role) message.now (table_of held.old)) }
{
    held.volumes[v].tell(role, message)
}

/// `message DEV 0 WORDS`: a message to a dust layer, wherever its stack is used. In this order: `NoSuchDevice` for a name
/// that no device has, `BadTable` for a device that is no dust layer, `OutOfRange` for a block past its end, `NoMemory`
/// where a block is added and the allocator refuses room.
#[tactic(auto, unfolding(command_semantics::specs::Messages::tell))]
pub fn tell(held: &mut Devices, name: &Name, message: &Message) -> Result<Answer, Refusal>
    ensures done { Steps result (table_of held.old) (table_of held.new) (tell name.now message.now (table_of held.old)) }
    ensures sound { StaysSound held.old held.new }
    ensures named { StaysNamed held.old held.new }
{
    match find_device(held, name)? {
        Place::Free(i, depth) => tell_free(held, i, depth, message),
        Place::In(v, role) => tell_in(held, v, role, message),
    }
}

fn tick_stacks(stacks: &mut [NamedStack], seconds: u32)
    ensures { stacks.new ≡ map (stack_ticked seconds) stacks.old }
{
    for stack in stacks.iter_mut() {
        stack.tick(seconds);
    }
}

fn tick_volumes(volumes: &mut [NamedVolume], seconds: u32)
    ensures { map (λ v. v.shown) volumes.new ≡ map (volume_ticked seconds) (map (λ v. v.shown) volumes.old) }
{
    for volume in volumes.iter_mut() {
        volume.tick(seconds);
    }
}

/// `tick N`: so many seconds pass for every flakey layer.
#[tactic(auto, unfolding(command_semantics::specs::Messages::ticked))]
pub fn tick(held: &mut Devices, seconds: u32)
    ensures { table_of held.new ≡ ticked seconds (table_of held.old) }
{
    tick_stacks(&mut held.stacks, seconds);
    tick_volumes(&mut held.volumes, seconds);
}
