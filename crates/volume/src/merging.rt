// A merge begins, and goes on after a fault.
ghost use Rattle.std.specs.Prelude.{◌≡◌, IfErr, IfOk, None, Option, Some};
ghost use Rattle.snapshot_list.specs.Finding.{place_of_snap};
ghost use Rattle.volume.specs.DoesBeginMerge.{DoesBeginMerge};
ghost use Rattle.volume.specs.DoesResumeMerge.{DoesResumeMerge};
ghost use Rattle.volume.specs.Beginning.{IsNotBegun, begin_refusal, beside_refusal};

use crate::Volume;
use device::Block;
use merge::Merge;
use plain_machine::SnapId;
use sector::{Refusal, SECTOR_BYTES};
use snapshot_list::{keep_back_all, snap_at};
use std::alloc::Global;

impl<B: Block> Volume<B> {
    /// Begins to merge a live snapshot into the origin, which from then on shows what the snapshot showed; the snapshot is
    /// none of the others any more. No device is asked for anything yet: what is left to do are events. On disks with caches a
    /// stop leaves no value in a sector of the origin's array but those that it might leave in the snapshot's before.
    ///
    /// Refused, in this order: there is no such snapshot, also not as the one that is being merged (`NoSuchDevice`), a merge
    /// is begun (`MergeInProgress`), the snapshot is spoiled (`Invalid`), the volume is not quiet (`NotQuiet`), or memory is
    /// refused (`NoMemory`): all that the merge will need is taken here.
    #[tactic(auto, using(crate::proofs::Between::not_begun))]
    pub fn begin_merge(&mut self, alloc: Global, number: SnapId) -> Result<(), Refusal>
        ensures does { DoesBeginMerge B.may_hold B.contents B.layers B.size number result self.old self.new }
        ensures refused { IfErr result (λ refusal. IsNotBegun number refusal self.old self.new) }
    {
        self.look_at_stores();
        let k = match self.place_to_merge(number) {
            Ok(k) => k,
            Err(refusal) => return Err(refusal),
        };
        let chunk = self.snaps[k].chunk();
        let Ok(buffer) = vec![in alloc; 0u8; SECTOR_BYTES * chunk as usize] else {
            return Err(Refusal::NoMemory);
        };
        let count = self.snaps[k].len();
        match keep_back_all(alloc, self.snaps.as_mut_slice(), number, count, chunk) {
            Ok(()) => {}
            Err(refusal) => return Err(refusal),
        }
        let snap = self.snaps.remove(k);
        let begun = Merge::begin(number, snap.into_store(), buffer);
        match self.merge.replace(begun) {
            None => {}
            Some(_) => unreachable!(),
        }
        self.look_at_stores();
        Ok(())
    }

    /// The place of the snapshot that is to be merged, or why it may not be, memory aside.
    fn place_to_merge(&self, number: SnapId) -> Result<usize, Refusal>
        ensures ok { IfOk result (λ k. (begin_refusal number self.now ≡ None) × (Some k ≡ place_of_snap number self.now.snaps)) }
        ensures err { IfErr result (λ refusal. begin_refusal number self.now ≡ Some refusal) }
    {
        let found = snap_at(self.snaps.as_slice(), number);
        if let Some(merge) = &self.merge {
            return Err(beside(merge.number() == number, found));
        }
        let Some(k) = found else {
            return Err(Refusal::NoSuchDevice);
        };
        if !self.snaps[k].is_live() {
            return Err(Refusal::Invalid);
        }
        if !self.is_quiet() {
            return Err(Refusal::NotQuiet);
        }
        Ok(k)
    }

    /// Lets a merge that failed go on, and changes nothing of one that did not. `NotMerging` where none is begun.
    #[tactic(auto, using(crate::proofs::Between::not_resumed))]
    pub fn resume_merge(&mut self) -> Result<(), Refusal>
        ensures does { DoesResumeMerge B.contents B.layers result self.old self.new }
    {
        let Some(merge) = &mut self.merge else {
            return Err(Refusal::NotMerging);
        };
        if merge.is_failed() {
            merge.resume();
        }
        Ok(())
    }
}

/// Why no merge begins while one is begun: mine says whether that is of the number that is asked for, and the place is that
/// of the snapshot with the number.
fn beside(mine: bool, place: Option<usize>) -> Refusal
    ensures { result ≡ beside_refusal mine place }
{
    if mine || place.is_some() {
        Refusal::MergeInProgress
    } else {
        Refusal::NoSuchDevice
    }
}
