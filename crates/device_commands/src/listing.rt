// The list of all devices.
ghost use Rattle.std.specs.Prelude.{◌≡◌, ◌++◌, IfErr, OnOk, Ok, map};
ghost use Rattle.std.specs.List.{flat_map};
ghost use Rattle.sector.specs.declared.refusal.Refusal.TheVariants.{NoMemory};
ghost use Rattle.words.specs.Given.{Gives};
ghost use Rattle.command_semantics.specs.Listing.{free_items, listed, volume_items};
ghost use Rattle.device_list.specs.Tables.{table_of};

use device_list::{Devices, NamedVolume};
use device_stacks::NamedStack;
use sector::Refusal;
use std::alloc::Global;
use words::Text;

/// Adds the devices of the stacks that nothing uses.
fn add_stacks(out: &mut Vec<u8>, stacks: &[NamedStack]) -> Result<(), Refusal>
    ensures added { OnOk result (out.new.items ≡ out.old.items ++ flat_map free_items stacks.now) }
    ensures error { IfErr result (λ e. e ≡ NoMemory) }
{
    for stack in stacks {
        stack.list(out)?;
    }
    Ok(())
}

/// Adds the devices of the volumes.
fn add_volumes(out: &mut Vec<u8>, volumes: &[NamedVolume]) -> Result<(), Refusal>
    ensures added { OnOk result (out.new.items ≡ out.old.items ++ flat_map volume_items (map (λ v. v.shown) volumes.now)) }
    ensures error { IfErr result (λ e. e ≡ NoMemory) }
{
    for volume in volumes {
        volume.list(out)?;
    }
    Ok(())
}

/// `ls`: all devices, each with its table line; a disk has none. The one refusal is `NoMemory`.
#[inline(never)]
#[tactic(auto, using(device_stacks::proofs::Listed::more), unfolding(command_semantics::specs::Listing::listed))]
pub fn list_text(alloc: Global, held: &Devices) -> Result<Text, Refusal>
    ensures { Gives result (Ok (listed (table_of held.now))) }
{
    let mut out = Vec::new(alloc);
    out.extend_from_slice(b"devices")
        .map_err(|_| Refusal::NoMemory)?;
    add_stacks(&mut out, &held.stacks)?;
    add_volumes(&mut out, &held.volumes)?;
    Ok(Text::from_vec(out))
}
