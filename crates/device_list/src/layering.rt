// The lines of layers of a trace.
ghost use Rattle.std.specs.Prelude.{◌≡◌, ◌<◌, ◌++◌, OnOk, length, get_or, map};
ghost use Rattle.std.specs.List.{flat_map};
ghost use Rattle.command_semantics.specs.State.{Names};
ghost use Rattle.device_list.specs.Layers.{free_layers, layers_in, merging_layers, snapshot_layers, stores_from, volume_layers};
ghost use Rattle.device_list.specs.Tables.{table_of};

use crate::held::Devices;
use crate::origin::NamedVolume;
use crate::stored::{merging_store, store_at};
use device_stacks::NamedStack;
use std::alloc::AllocError;
use volume_trace::add_layers;

impl NamedVolume {
    /// Adds the layers of a snapshot's store.
    fn trace_store(&self, out: &mut Vec<u8>, k: usize) -> Result<(), AllocError>
        requires { k < length self.now.shown.snaps }
        ensures { OnOk result ((d : Names) → out.new.items ≡ out.old.items ++ snapshot_layers k (get_or self.now.shown.snaps k d) self.now.shown) }
    {
        add_layers(out, &self.snaps[k].store, store_at(&self.volume, k))
    }

    /// Adds those of the snapshots' stores.
    #[tactic(auto, using(crate::proofs::Layered::next_store, crate::proofs::Layered::no_store))]
    fn trace_stores(&self, out: &mut Vec<u8>) -> Result<(), AllocError>
        ensures { OnOk result (out.new.items ≡ out.old.items ++ stores_from 0 self.now.shown.snaps self.now.shown) }
    {
        for k in 0..self.snaps.len() {
            self.trace_store(out, k)?;
        }
        Ok(())
    }

    /// Adds those of the store of the snapshot that is being merged, if there is one.
    #[tactic(auto, unfolding(crate::specs::Layers::merging_layers))]
    fn trace_merging(&self, out: &mut Vec<u8>) -> Result<(), AllocError>
        ensures { OnOk result (out.new.items ≡ out.old.items ++ merging_layers self.now.shown.merging) }
    {
        match &self.merging {
            None => Ok(()),
            Some(names) => match merging_store(&self.volume) {
                None => Ok(()),
                Some(store) => add_layers(out, &names.store, store),
            },
        }
    }

    /// Adds the lines of its layers that may fail, in the order of `ls`.
    #[tactic(auto, unfolding(crate::specs::Layers::volume_layers))]
    fn trace_layers(&self, out: &mut Vec<u8>) -> Result<(), AllocError>
        ensures { OnOk result (out.new.items ≡ out.old.items ++ volume_layers self.now.shown) }
    {
        add_layers(out, &self.under, self.volume.origin())?;
        self.trace_stores(out)?;
        self.trace_merging(out)
    }
}

/// Adds the layers of the stacks that nothing uses.
fn trace_stacks(out: &mut Vec<u8>, stacks: &[NamedStack]) -> Result<(), AllocError>
    ensures { OnOk result (out.new.items ≡ out.old.items ++ flat_map free_layers stacks.now) }
{
    for stack in stacks {
        add_layers(out, stack.names(), stack.stack())?;
    }
    Ok(())
}

/// Adds those of the volumes.
fn trace_volumes(out: &mut Vec<u8>, volumes: &[NamedVolume]) -> Result<(), AllocError>
    ensures { OnOk result (out.new.items ≡ out.old.items ++ flat_map volume_layers (map (λ v. v.shown) volumes.now)) }
{
    for volume in volumes {
        volume.trace_layers(out)?;
    }
    Ok(())
}

/// Adds the lines of a trace of all layers that may fail, in the order of `ls`. An error says that the allocator refused room.
#[tactic(auto, using(device_stacks::proofs::Listed::more), unfolding(crate::specs::Layers::layers_in))]
pub fn trace_layers(out: &mut Vec<u8>, held: &Devices) -> Result<(), AllocError>
    ensures { OnOk result (out.new.items ≡ out.old.items ++ layers_in (table_of held.now)) }
{
    trace_stacks(out, &held.stacks)?;
    trace_volumes(out, &held.volumes)
}
