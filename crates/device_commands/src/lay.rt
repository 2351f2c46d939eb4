// Making layers.
ghost use Rattle.std.specs.Prelude.{◌≡◌, ◌≢◌, ◌+◌, ◌<◌, ◌≤◌, false, [], length, IfErr, IfOk};
ghost use Rattle.sector.specs.declared.refusal.Refusal.TheVariants.{JournalFull};
ghost use Rattle.device.specs.Layers.{Dusty};
ghost use Rattle.layers.specs.Layer.{features_of as layer_features, flakey_layer};
ghost use Rattle.command_semantics.specs.Changes.{Changes};
ghost use Rattle.device_list.specs.Tables.{table_of};
ghost use Rattle.command_semantics.specs.Layers.{broken, features_of, laid, taken, top, unused};

use command_semantics::{Place, Role};
use device::MAX_SECTORS;
use device_list::{Devices, find_device};
use device_stacks::NamedStack;
use layers::{Features, Flakey};
use sector::Refusal;
use std::alloc::Global;
use words::Name;

/// Why nothing can be put on a device of a volume.
fn taken(role: Role) -> Refusal
    ensures value { result ≡ taken role }
    ensures room { result ≢ JournalFull }
{
    match role {
        Role::Origin | Role::Snapshot(_) | Role::Merging => Refusal::BadTable,
        Role::Under(_) | Role::Store(_, _) | Role::MergingStore(_) => Refusal::Busy,
    }
}

/// The stack that nothing uses and that a device is the top of.
fn unused(place: Place) -> Result<usize, Refusal>
    ensures value { result ≡ unused place }
    ensures room { IfErr result (λ e. e ≢ JournalFull) }
{
    match place {
        Place::Free(i, 0) => Ok(i),
        Place::Free(_, _) => Err(Refusal::Busy),
        Place::In(_, role) => Err(taken(role)),
    }
}

/// The stack that nothing uses and that the device of a name is the top of.
#[tactic(auto, unfolding(command_semantics::specs::Layers::top))]
pub fn top(held: &Devices, name: &Name) -> Result<usize, Refusal>
    ensures value { result ≡ top name.now (table_of held.now) }
    ensures within { IfOk result (λ i. i < length held.now.stacks.items) }
    ensures room { IfErr result (λ e. e ≢ JournalFull) }
{
    let place = find_device(held, name)?;
    unused(place)
}

/// Puts a flakey layer over the device of a name.
#[tactic(auto, unfolding(command_semantics::specs::Layers::laid))]
pub fn lay_flakey(
    alloc: Global,
    held: &mut Devices,
    name: Name,
    below: &Name,
    flakey: Flakey,
) -> Result<(), Refusal>
    ensures { Changes result (table_of held.old) (table_of held.new) (laid name (flakey_layer flakey) flakey.offset flakey.sectors below.now (table_of held.old)) }
{
    let i = top(held, below)?;
    held.stacks[i].add_flakey(alloc, name, flakey)
}

/// Puts a dust layer over the device of a name.
#[tactic(auto, unfolding(command_semantics::specs::Layers::laid))]
pub fn lay_dust(
    alloc: Global,
    held: &mut Devices,
    name: Name,
    below: &Name,
    sectors: u32,
    block: u32,
) -> Result<(), Refusal>
    requires { 0 < block }
    ensures { Changes result (table_of held.old) (table_of held.new) (laid name (Dusty sectors block false []) 0 sectors below.now (table_of held.old)) }
{
    let i = top(held, below)?;
    held.stacks[i].add_dust(alloc, name, sectors, block)
}

/// Makes an error layer.
pub fn lay_error(alloc: Global, held: &mut Devices, name: Name, sectors: u32) -> Result<(), Refusal>
    ensures { Changes result (table_of held.old) (table_of held.new) (broken name sectors (table_of held.old)) }
{
    if !(0 < sectors && sectors <= MAX_SECTORS as u32) {
        return Err(Refusal::BadTable);
    }
    let stack = NamedStack::of_error(alloc, name, sectors).map_err(|_| Refusal::NoMemory)?;
    held.stacks.push(stack).map_err(|_| Refusal::NoMemory)?;
    Ok(())
}

/// The features of a table line, as a layer has them.
pub fn features_of(words: table::FlakeyFeatures) -> Features
    ensures { layer_features result ≡ features_of words }
{
    Features {
        drop_writes: words.drop_writes,
        error_writes: words.error_writes,
        error_reads: words.error_reads,
    }
}
