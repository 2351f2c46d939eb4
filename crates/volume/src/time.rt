// The layers of a volume's devices, which know of time.
ghost use Rattle.std.specs.Prelude.{◌≡◌, ℕ, ◌<◌, length, slice_index_or, Option};
ghost use Rattle.snapshot.specs.Kept.{Kept};
ghost use Rattle.volume.specs.DoesTick.{DoesTick};
ghost use Rattle.volume.specs.Layering.{IsMergeLater, IsSnapLater};
ghost use Rattle.crash_laws.specs.Firm.{AddsNow};
ghost use Rattle.volume.specs.Adding.{AddsMerge};

use crate::Volume;
use layers::Layered;
use merge::Merge;
use snapshot::Snapshot;

/// Lets so many seconds pass for the layers of all stores.
fn tick_all<B: Layered>(snaps: &mut [Snapshot<B>], seconds: u32)
    ensures count { length snaps.new ≡ length snaps.old }
    ensures adds { (k : ℕ) (d : Kept B) → k < length snaps.old → AddsNow (B.may_hold (slice_index_or snaps.old k d).device) (B.may_hold (slice_index_or snaps.new k d).device) (B.contents (slice_index_or snaps.new k d).device) }
    ensures each { (k : ℕ) (d : Kept B) → k < length snaps.old → IsSnapLater (record { contents = B.contents; durable = B.durable; size = B.size; faults = B.fault_count; done = B.done_count }) B.layers seconds (slice_index_or snaps.old k d) (slice_index_or snaps.new k d) }
{
    for k in 0..snaps.len() {
        snaps[k].tick(seconds);
    }
}

/// Lets so many seconds pass for the layers of the merging store.
fn tick_merge<B: Layered>(merge: &mut Option<Merge<B>>, seconds: u32)
    ensures adds { AddsMerge B.may_hold B.contents merge.old merge.new }
    ensures later { IsMergeLater (record { contents = B.contents; durable = B.durable; size = B.size; faults = B.fault_count; done = B.done_count }) B.layers seconds merge.old merge.new }
{
    match merge {
        None => {}
        Some(merge) => merge.tick(seconds),
    }
}

impl<B: Layered> Volume<B> {
    /// Lets so many seconds pass for the layers of every device. No request, no copy and no byte changes, and no operation
    /// is counted. A stop leaves nothing then but what it might have left before.
    #[tactic(auto, using(crate::proofs::Relayered::ticked_moving, crate::proofs::Relayered::whole_alike))]
    pub fn tick(&mut self, seconds: u32)
        ensures does { DoesTick B.may_hold (record { contents = B.contents; durable = B.durable; size = B.size; faults = B.fault_count; done = B.done_count }) B.layers seconds self.old self.new }
    {
        self.origin.tick(seconds);
        tick_all(self.snaps.as_mut_slice(), seconds);
        tick_merge(&mut self.merge, seconds);
    }
}
