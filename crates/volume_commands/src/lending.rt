// What callers ask of the snapshot at a place, counted from 0 in order of attaching.
ghost use Rattle.std.specs.Prelude.{◌≡◌, ℕ, ◌<◌, length, slice_index_or, is_some, IfSome, Some, false};
ghost use Rattle.std.specs.List.{remove};
ghost use Rattle.snapshot.specs.Kept.{Kept};
ghost use Rattle.volume.specs.Leaving.{usage_of};
ghost use Rattle.volume.specs.Submitting.{is_merging};
ghost use Rattle.volume_commands.specs.Flying.{IsWhole};
ghost use Rattle.volume_commands.specs.Rested.{Attached, IsSettled, snap_at, without};
ghost use Rattle.volume_commands.specs.Using.{IsInUse, IsUsed};

use crate::Resting;
use chunk_alloc::Usage;
use layers::Layered;
use plain_machine::{Overflowing, SnapId};

impl<B: Layered> Resting<B> {
    /// Its number: no snapshot before it has the same, nor the one that is being merged.
    pub fn number(&self, k: usize) -> SnapId
        requires { k < length self.now.rested.snaps }
        ensures value { (d : Attached B) → result ≡ (slice_index_or self.now.rested.snaps k d).number }
        ensures first { (d : Attached B) → snap_at result self.now.rested.snaps ≡ Some (slice_index_or self.now.rested.snaps k d) }
        ensures rest { without result self.now.rested.snaps ≡ remove self.now.rested.snaps k }
        ensures apart { is_merging result self.now.rested.events.merge ≡ false }
    {
        self.volume.snap(k).number()
    }

    /// The sectors of its chunks.
    pub fn chunk(&self, k: usize) -> u32
        requires { k < length self.now.rested.snaps }
        ensures { (d : Attached B) → result ≡ (slice_index_or self.now.rested.snaps k d).chunk }
    {
        self.volume.snap(k).chunk()
    }

    /// Whether it is live: it was not spoiled.
    pub fn is_live(&self, k: usize) -> bool
        requires { k < length self.now.rested.snaps }
        ensures { (d : Attached B) → result ≡ (slice_index_or self.now.rested.snaps k d).live }
    {
        self.volume.snap(k).is_live()
    }

    /// What a write of it does that finds its store full, and whether one did.
    pub fn overflow(&self, k: usize) -> Overflowing
        requires { k < length self.now.rested.snaps }
        ensures { (d : Attached B) → result ≡ (slice_index_or self.now.rested.snaps k d).overflow }
    {
        self.volume.snap(k).overflow()
    }

    /// The device of its store.
    pub fn store_at(&self, k: usize) -> &B
        requires { k < length self.now.rested.snaps }
        ensures { (d : Attached B) → result.now ≡ (slice_index_or self.now.rested.snaps k d).store }
    {
        self.volume.snap(k).device()
    }

    /// The sectors in use on its store, by what is kept in memory of it, whatever is in flight; none of a snapshot that is
    /// spoiled. Where the volume is settled, they are those of the store's own bytes.
    pub fn usage(&self, k: usize) -> Option<Usage>
        requires { k < length self.now.rested.snaps }
        ensures whole { IsWhole self.now.rested }
        ensures is { (d : Kept B) → result ≡ usage_of (slice_index_or self.now.rested.events.snaps k d) }
        ensures live { (d : Attached B) → is_some result ≡ (slice_index_or self.now.rested.snaps k d).live }
        ensures held { IfSome result (λ usage. (d : Kept B) → IsInUse B.size (slice_index_or self.now.rested.events.snaps k d) usage) }
        ensures used { IfSome result (λ usage. IsSettled B.layers self.now.rested → (d : Attached B) → IsUsed B.contents B.size (slice_index_or self.now.rested.snaps k d) usage) }
    {
        // What a quiet volume is.
        let _ = self.volume.is_quiet();
        let snap = self.volume.snap(k);
        if snap.is_live() {
            Some(snap.usage())
        } else {
            None
        }
    }
}
