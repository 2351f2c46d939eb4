// A merge that came to its end is taken out of its volume.
ghost use Rattle.std.specs.Prelude.{◌≡◌, IfErr, Some};
ghost use Rattle.volume.specs.DoesFinishMerge.{DoesFinishMerge};
ghost use Rattle.volume.specs.Finishing.{finish_refusal};

use crate::Volume;
use device::Block;
use sector::Refusal;
use snapshot::StoreDev;
use snapshot_list::let_go_all;

impl<B: Block> Volume<B> {
    /// Takes a merge out that has neither a pair nor a group left, and gives the device of its store back. Where no device
    /// drops writes, the origin disk's own bytes are then what the origin shows; and on disks with caches a stop leaves nothing
    /// in a sector of the origin disk that it might not leave in the origin's array before.
    ///
    /// Refused, in this order: no merge is begun, or a pair or a group is left (`NotFinished`), or the volume is not quiet
    /// (`NotQuiet`).
    #[tactic(auto, using(crate::proofs::Between::not_finished))]
    pub fn finish_merge(&mut self) -> Result<StoreDev<B>, Refusal>
        ensures does { DoesFinishMerge B.may_hold B.contents B.layers B.size result self.old self.new }
        ensures err { IfErr result (λ refusal. (finish_refusal self.old ≡ Some refusal) × (self.new ≡ self.old)) }
    {
        self.look_at_stores();
        match self.finish_refused() {
            Some(refusal) => return Err(refusal),
            None => {}
        }
        let Some(merge) = self.merge.take() else {
            return Err(Refusal::NotFinished);
        };
        let_go_all(self.snaps.as_mut_slice());
        self.look_at_stores();
        Ok(StoreDev {
            device: merge.into_device(),
            stale: false,
        })
    }

    /// Why the merge may not be taken out.
    fn finish_refused(&self) -> Option<Refusal>
        ensures { result ≡ finish_refusal self.now }
    {
        let Some(merge) = &self.merge else {
            return Some(Refusal::NotFinished);
        };
        if !merge.is_finished() {
            return Some(Refusal::NotFinished);
        }
        if self.is_quiet() {
            None
        } else {
            Some(Refusal::NotQuiet)
        }
    }
}
