// A snapshot leaves a volume.
ghost use Rattle.std.specs.Prelude.{◌≡◌, IfErr, Some};
ghost use Rattle.volume.specs.DoesDetach.{DoesDetach};
ghost use Rattle.volume.specs.Leaving.{detach_refusal};

use crate::Volume;
use device::Block;
use plain_machine::SnapId;
use sector::Refusal;
use snapshot::StoreDev;
use snapshot_list::snap_at;

impl<B: Block> Volume<B> {
    /// Takes a snapshot away, and gives the device of its store back, stale where its invalid mark failed. `MergeInProgress`
    /// where it is being merged, `NoSuchDevice` where there is no such snapshot, `NotQuiet` where the volume is not quiet.
    #[tactic(auto, using(crate::proofs::Between::not_detached))]
    pub fn detach(&mut self, number: SnapId) -> Result<StoreDev<B>, Refusal>
        ensures does { DoesDetach B.may_hold B.contents B.layers B.size number result self.old self.new }
        ensures err { IfErr result (λ refusal. (detach_refusal number self.old ≡ Some refusal) × (self.new ≡ self.old)) }
    {
        self.look_at_stores();
        if self.is_merging(number) {
            return Err(Refusal::MergeInProgress);
        }
        let Some(k) = snap_at(self.snaps.as_slice(), number) else {
            return Err(Refusal::NoSuchDevice);
        };
        if !self.is_quiet() {
            return Err(Refusal::NotQuiet);
        }
        let snap = self.snaps.remove(k);
        let stale = snap.is_stale();
        self.look_at_stores();
        Ok(StoreDev {
            device: snap.into_device(),
            stale,
        })
    }
}
