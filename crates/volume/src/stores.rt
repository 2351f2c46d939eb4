// What the snapshots' stores say, at every moment.
ghost use Rattle.std.specs.Prelude.{◌<◌, ◌≡◌, AllPairs, None, Some, map, true};
ghost use Rattle.std.specs.List.{All};
ghost use Rattle.snapshot.specs.InStep.{IsInStep};
ghost use Rattle.snapshot_list.specs.Numbers.{number_of_snap};
ghost use Rattle.merge.specs.Merging.{Merging};
ghost use Rattle.volume.specs.Asking.{IsMergeInStep};
ghost use Rattle.volume.specs.Stopping.{StopsVolume};
ghost use Rattle.volume.specs.Volumed.{is_loud_in_all};

use crate::Volume;
use device::Block;
use snapshot::Snapshot;

/// A look at the stores of some snapshots.
fn look_at_each<B: Block>(snaps: &[Snapshot<B>])
    ensures in_step { All (IsInStep B.contents B.layers B.size) snaps.now }
{
    for snap in snaps {
        snap.look_at_store();
    }
}

impl<B: Block> Volume<B> {
    /// A look at the snapshots' stores, which does nothing. At every moment, whatever was done to the volume and whatever
    /// failed, each store is in step with its snapshot: its pairs are such as a load accepts, with room for the area of
    /// the next pair, and the next place of a live one is the least that is free; and where its layers drop no writes, its
    /// bytes hold those pairs and its first sector is the header with its chunk size. So a live snapshot's store, and a
    /// spoiled one's whose mark was not yet written, can be loaded as it is; once the mark was written it is invalid. The
    /// merging store is in step with its merge in the same way, until it is finished. Where no device drops writes, a stop at
    /// that moment, which may lose what was written since a device's last flush, leaves what is loaded again with the same
    /// arrays, up to values that are open in them.
    pub fn look_at_stores(&self)
        ensures in_step { All (IsInStep B.contents B.layers B.size) self.now.snaps }
        ensures merge { IsMergeInStep B.contents B.layers B.size self.now.merge }
        ensures stops { is_loud_in_all B.layers self.now ≡ true → StopsVolume B.may_hold B.size None self.now self.now }
    {
        look_at_each(self.snaps.as_slice());
        match &self.merge {
            Some(merge) => merge.look_at_store(),
            None => {}
        }
    }

    /// A look at the snapshots, which does nothing: their numbers ascend in the order of attaching, so that no two are the same;
    /// and a chunk of the one that is being merged has a sector at least.
    pub fn look_at_numbers(&self)
        ensures ascending { AllPairs (λ a b. a < b) (map number_of_snap self.now.snaps) }
        ensures some { (g : Merging B) → self.now.merge ≡ Some g → 0 < g.state.chunk }
    {
        let _ = &self.snaps;
    }
}
