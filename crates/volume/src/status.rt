// What callers may ask of a volume and of its snapshots: whether it is quiet, a snapshot by its place, its store, its usage.
ghost use Rattle.std.specs.Prelude.{◌≡◌, ◌*◌, ◌<◌, ◌≤◌, AllPairs, IfNone, IfOk, IfSome, None, Option, Some, false, length, map, slice_index_or, true};
ghost use Rattle.std.specs.List.{All, list_all};
ghost use Rattle.plain_machine.specs.declared.request.Reply.{Reply};
ghost use Rattle.chunk.specs.Sizes.{is_chunk};
ghost use Rattle.event_machine.specs.Due.{due};
ghost use Rattle.event_machine.specs.Held.{MergeHeld};
ghost use Rattle.event_machine.specs.MergeRest.{IsBetween, in_big_steps};
ghost use Rattle.event_machine.specs.Rest.{IsAtRest};
ghost use Rattle.merge.specs.Merging.{Merging};
ghost use Rattle.whole_commands.specs.MergeShown.{IsMerging};
ghost use Rattle.snapshot.specs.Kept.{Kept};
ghost use Rattle.snapshot_list.specs.Finding.{place_of_snap};
ghost use Rattle.snapshot_list.specs.Numbers.{number_of_snap};
ghost use Rattle.volume.specs.Asking.{HoldsOf, is_finished_in, merging_chunk_of, merging_number, merging_usage};
ghost use Rattle.volume.specs.Leaving.{IsStillOn, has_group_in, is_done_of, is_quiet_of, usage_of};
ghost use Rattle.volume.specs.Moved.{moving_of};
ghost use Rattle.volume.specs.Stepping.{has_failed};
ghost use Rattle.volume.specs.Stored.{is_finished_on};
ghost use Rattle.volume.specs.Submitting.{is_merging};
ghost use Rattle.volume.specs.Volumed.{is_loud_in_all};
ghost use Rattle.volume.specs.Whole.{IsCounted};
ghost use Rattle.volume.specs.Calls.{LacksSnap};

use crate::Volume;
use chunk_alloc::Usage;
use device::Block;
use merge::Merge;
use plain_machine::{CopyId, ReqId, SnapId};
use sector::Refusal;
use snapshot::Snapshot;
use snapshot_list::snap_at;

/// Whether a snapshot has neither a copy that is not published, nor an invalid mark that is untried.
pub fn is_done<B: Block>(snap: &Snapshot<B>) -> bool
    ensures value { result ≡ is_done_of snap.now }
    ensures still { result ≡ true → IsStillOn B.contents B.layers snap.now }
{
    snap.is_done()
}

/// Whether none of the snapshots has.
fn are_done<B: Block>(snaps: &[Snapshot<B>]) -> bool
    ensures value { result ≡ list_all is_done_of snaps.now }
    ensures still { result ≡ true → All (IsStillOn B.contents B.layers) snaps.now }
{
    for s in snaps {
        if !is_done(s) {
            return false;
        }
    }
    true
}

impl<B: Block> Volume<B> {
    /// The number of the snapshot that is being merged, if one is. It is none of the others, its chunks have an allowed
    /// size, and it is of this origin.
    pub fn merging(&self) -> Option<SnapId>
        ensures value { result ≡ merging_number self.now.merge }
        ensures apart { IfSome result (λ number. place_of_snap number self.now.snaps ≡ None) }
        ensures fine { (m : Merging B) → self.now.merge ≡ Some m → (is_chunk m.state.chunk ≡ true) × (m.state.origin ≡ B.size self.now.origin) }
    {
        match &self.merge {
            Some(merge) => {
                // A look: that its chunks have an allowed size is known from here on.
                let _ = merge.chunk();
                Some(merge.number())
            }
            None => None,
        }
    }

    /// The sectors of a chunk of the snapshot that is being merged, if one is.
    pub fn merging_chunk(&self) -> Option<u32>
        ensures value { result ≡ merging_chunk_of self.now.merge }
        ensures allowed { IfSome result (λ chunk. is_chunk chunk ≡ true) }
    {
        match &self.merge {
            Some(merge) => Some(merge.chunk()),
            None => None,
        }
    }

    /// The merge, if it is of the snapshot with this number.
    fn merging_as(&self, number: SnapId) -> Option<&Merge<B>>
        ensures some { IfSome result (λ merge. (self.now.merge ≡ Some merge.now) × (merge.now.number ≡ number)) }
        ensures none { IfNone result (is_merging number self.now.merge ≡ false) }
    {
        match &self.merge {
            Some(merge) => {
                if merge.number() == number {
                    Some(merge)
                } else {
                    None
                }
            }
            None => None,
        }
    }

    /// Whether a merge is begun that stopped at a fault, and was not resumed.
    pub fn is_merge_failed(&self) -> bool
        ensures { result ≡ has_failed self.now.merge }
    {
        match &self.merge {
            Some(merge) => merge.is_failed(),
            None => false,
        }
    }

    /// Whether a merge is begun that has no pair left, and no group: it can be finished, and it has not failed.
    pub fn is_merge_finished(&self) -> bool
        ensures value { result ≡ is_finished_in self.now.merge }
        ensures running { result ≡ true → has_failed self.now.merge ≡ false }
        ensures stored { is_loud_in_all B.layers self.now ≡ true → result ≡ is_finished_on B.contents self.now.merge }
    {
        match &self.merge {
            Some(merge) => merge.is_finished(),
            None => false,
        }
    }

    /// Whether a group of the merge is formed.
    fn has_group(&self) -> bool
        ensures { result ≡ has_group_in self.now.merge }
    {
        match &self.merge {
            Some(merge) => merge.has_group(),
            None => false,
        }
    }

    /// Whether no request is in flight, no group of a merge is formed, no copy is pending, and no invalid mark is untried. A
    /// quiet volume, no device of which drops writes, is one at rest between two whole commands, whatever was done to it; and
    /// between two groups of its merge, if one is begun; and no event is due of it but those of a merge.
    pub fn is_quiet(&self) -> bool
        ensures value { result ≡ is_quiet_of self.now }
        ensures between { result ≡ true → is_loud_in_all B.layers self.now ≡ true → (replied : Option Reply) → IsBetween (B.size self.now.origin) (moving_of B.contents B.layers replied self.now) }
        ensures rest { result ≡ true → is_loud_in_all B.layers self.now ≡ true → self.now.merge ≡ None → (replied : Option Reply) → IsAtRest (B.size self.now.origin) (moving_of B.contents B.layers replied self.now) }
        ensures calm { result ≡ true → (replied : Option Reply) → due (moving_of B.contents B.layers replied self.now) ≡ None }
        ensures under { result ≡ true → is_loud_in_all B.layers self.now ≡ true → (replied : Option Reply) → (h : MergeHeld) → (moving_of B.contents B.layers replied self.now).merge ≡ Some h → IsMerging (B.size self.now.origin) (in_big_steps h (moving_of B.contents B.layers replied self.now)) }
        ensures few { length self.now.snaps ≤ 8 }
        ensures numbers { AllPairs (λ m n. m < n) (map number_of_snap self.now.snaps) }
    {
        // A look: what the stores say is known from here on.
        self.look_at_stores();
        if !self.flights.is_empty() {
            return false;
        }
        if self.has_group() {
            return false;
        }
        are_done(self.snaps.as_slice())
    }

    /// How many requests are in flight: 64 at most.
    pub fn flying(&self) -> usize
        ensures len { result ≡ length self.now.flights }
        ensures few { result ≤ 64 }
    {
        self.flights.len()
    }

    /// The number of the request that was accepted last: so many were accepted so far.
    pub fn last_request(&self) -> ReqId
        ensures { result ≡ self.now.requests }
    {
        self.requests
    }

    /// The number of the copy that was started last: so many were started so far. The numbers never run out: each copy takes
    /// a place of a store of 2^31 sectors at most, and fewer than 2^32 snapshots are ever attached.
    pub fn last_copy(&self) -> CopyId
        ensures value { result ≡ self.now.copies }
        ensures few { result ≤ 2_147_483_648 * self.now.attached }
    {
        self.copies
    }

    /// The snapshot at a place, counted from 0 in order of attaching. It is not the one that is being merged.
    pub fn snap(&self, k: usize) -> &Snapshot<B>
        requires { k < length self.now.snaps }
        ensures value { (d : Kept B) → result.now ≡ slice_index_or self.now.snaps k d }
        ensures first { place_of_snap result.now.number self.now.snaps ≡ Some k }
        ensures counted { IsCounted result.now }
        ensures other { is_merging result.now.number self.now.merge ≡ false }
        ensures sized { result.now.live ≡ true → result.now.state.size ≡ B.size result.now.device }
    {
        &self.snaps[k]
    }

    /// The device of a snapshot's store, also of the one that is being merged.
    pub fn store(&self, number: SnapId) -> Result<&B, Refusal>
        ensures ok { IfOk result (λ device. HoldsOf (λ m. device.now ≡ m.device) (λ s. device.now ≡ s.device) number self.now) }
        ensures err { LacksSnap number result self.now }
    {
        if let Some(merge) = self.merging_as(number) {
            return Ok(merge.device());
        }
        match snap_at(self.snaps.as_slice(), number) {
            Some(k) => Ok(self.snaps[k].device()),
            None => Err(Refusal::NoSuchDevice),
        }
    }

    /// The sectors in use on a snapshot's store, also of the one that is being merged; none of a snapshot that is spoiled.
    pub fn usage(&self, number: SnapId) -> Result<Option<Usage>, Refusal>
        ensures ok { IfOk result (λ usage. HoldsOf (λ m. usage ≡ Some (merging_usage m)) (λ s. usage ≡ usage_of s) number self.now) }
        ensures err { LacksSnap number result self.now }
    {
        if let Some(merge) = self.merging_as(number) {
            return Ok(Some(merge.usage()));
        }
        let Some(k) = snap_at(self.snaps.as_slice(), number) else {
            return Err(Refusal::NoSuchDevice);
        };
        let snap = &self.snaps[k];
        if snap.is_live() {
            Ok(Some(snap.usage()))
        } else {
            Ok(None)
        }
    }
}
