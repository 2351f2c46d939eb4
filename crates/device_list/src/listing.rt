// The devices of a volume as `ls` lists them.
ghost use Rattle.std.specs.Prelude.{◌≡◌, ◌<◌, ◌++◌, IfErr, OnOk, length, get_or};
ghost use Rattle.sector.specs.declared.refusal.Refusal.TheVariants.{NoMemory};
ghost use Rattle.command_semantics.specs.Listing.{device_item, merging_items, snapshot_items, snapshots_from, stack_items, volume_items};
ghost use Rattle.command_semantics.specs.Stacks.{device_of};
ghost use Rattle.command_semantics.specs.State.{Names};

use crate::origin::NamedVolume;
use crate::stored::{merging_store, store_at};
use device_stacks::{SnapNames, add_device, add_stack};
use layers::Stack;
use sector::Refusal;
use table::Line;

/// Adds a snapshot by its names and its line, and its store.
#[tactic(auto, using(device_stacks::proofs::Listed::more))]
fn add_snapshot(
    out: &mut Vec<u8>,
    names: &SnapNames,
    line: Result<Line, Refusal>,
    store: &Stack,
) -> Result<(), Refusal>
    ensures added { OnOk result (out.new.items ≡ out.old.items ++ (device_item names.now.snapshot line ++ stack_items names.now.store (device_of store.now))) }
    ensures error { IfErr result (λ e. e ≡ NoMemory) }
{
    add_device(out, &names.snapshot, line)?;
    add_stack(out, &names.store, store)
}

impl NamedVolume {
    /// Adds a snapshot and its store.
    fn list_snapshot(&self, out: &mut Vec<u8>, k: usize) -> Result<(), Refusal>
        requires { k < length self.now.shown.snaps }
        ensures added { OnOk result ((d : Names) → out.new.items ≡ out.old.items ++ snapshot_items k (get_or self.now.shown.snaps k d) self.now.shown) }
        ensures error { IfErr result (λ e. e ≡ NoMemory) }
    {
        let names = &self.snaps[k];
        add_snapshot(
            out,
            names,
            self.line_of_snapshot(k),
            store_at(&self.volume, k),
        )
    }

    /// Adds the snapshots and their stores.
    #[tactic(auto, using(crate::proofs::Listed::next_snapshot, crate::proofs::Listed::no_snapshot))]
    fn list_snapshots(&self, out: &mut Vec<u8>) -> Result<(), Refusal>
        ensures added { OnOk result (out.new.items ≡ out.old.items ++ snapshots_from 0 self.now.shown.snaps self.now.shown) }
        ensures error { IfErr result (λ e. e ≡ NoMemory) }
    {
        for k in 0..self.snaps.len() {
            self.list_snapshot(out, k)?;
        }
        Ok(())
    }

    /// Adds the snapshot that is being merged and its store, if there is one.
    #[tactic(auto, using(device_stacks::proofs::Listed::more), unfolding(command_semantics::specs::Listing::merging_items))]
    fn list_merging(&self, out: &mut Vec<u8>) -> Result<(), Refusal>
        ensures added { OnOk result (out.new.items ≡ out.old.items ++ merging_items self.now.shown.merging self.now.shown) }
        ensures error { IfErr result (λ e. e ≡ NoMemory) }
    {
        match &self.merging {
            None => Ok(()),
            Some(names) => match merging_store(&self.volume) {
                None => Ok(()),
                Some(store) => {
                    add_device(out, &names.snapshot, self.line_of_merging())?;
                    add_stack(out, &names.store, store)
                }
            },
        }
    }

    /// Adds its devices to a list of devices: the origin and what it stands on, the snapshots with their stores, and the one that is
    /// being merged with its own. The one error is `NoMemory`.
    #[tactic(auto, using(device_stacks::proofs::Listed::more), unfolding(command_semantics::specs::Listing::volume_items))]
    pub fn list(&self, out: &mut Vec<u8>) -> Result<(), Refusal>
        ensures added { OnOk result (out.new.items ≡ out.old.items ++ volume_items self.now.shown) }
        ensures error { IfErr result (λ e. e ≡ NoMemory) }
    {
        add_device(out, &self.origin, self.line_of_origin())?;
        add_stack(out, &self.under, self.volume.origin())?;
        self.list_snapshots(out)?;
        self.list_merging(out)
    }
}
