// A merging store of which not all is flushed: pairs that were taken away may come back.
ghost use Rattle.std.specs.Prelude.{[], ◌≡◌, Bool, List, None, Option, false, length, true, ℕ};
ghost use Rattle.sector.specs.declared.pair.Pair.{Pair};
ghost use Rattle.crash_laws.specs.Stop.{Within};
ghost use Rattle.crash_laws.specs.Clauses.{Given, Gives};
ghost use Rattle.crash_laws.specs.Firm.{IsFirm};
ghost use Rattle.cache_loss_laws.specs.Kept.{Kept};
ghost use Rattle.cache_loss_laws.specs.Merging.{Merging, OpensFinished};
ghost use Rattle.cache_loss_laws.specs.Lost.{GivesDisk, GivesPlace, IsClearing, IsDiskWrite, IsLeftOn, IsMergeOn, IsOneCall, IsPlaceWrite, IsSnapOn, MergeLastsOn, NoneGiven, StopsMergeOn};

use device::Block;

/// A merge is begun of a snapshot that is not marked and whose pairs are all sure. Disk and store are the same, and so what is open.
pub fn begin<B: Block>(origin: &B, store: &B)
    ensures lasts { (v : Kept) (copies : List Pair) → IsSnapOn B.may_hold B.contents copies v origin.now store.now → v.marked ≡ false → v.sure ≡ length v.pairs → MergeLastsOn B.may_hold B.contents (record { chunk = v.chunk; sectors = v.sectors; size = v.size; pairs = v.pairs; copied = []; flushed = false }) origin.now store.now }
{
    let _ = origin;
    let _ = store;
}

/// The slots of a group are cleared, whose chunks were copied back and flushed. No value of the origin's array is opened,
/// whatever a stop within it leaves; and from then on the group's pairs are among those that may come back.
pub fn clearing<B: Block>(origin: &B, origin_after: &B, store: &B, store_after: &B)
    ensures stops { IsOneCall B.may_hold B.contents origin.now origin_after.now store.now store_after.now → (m : Merging) (kept : List Pair) (a : ℕ) → IsMergeOn B.may_hold B.contents m origin.now store.now → IsClearing B.contents m kept a origin.now origin_after.now store.now store_after.now → StopsMergeOn B.may_hold NoneGiven m origin.now origin_after.now store.now store_after.now }
    ensures lasts { IsOneCall B.may_hold B.contents origin.now origin_after.now store.now store_after.now → (m : Merging) (kept copied : List Pair) (a : ℕ) → IsMergeOn B.may_hold B.contents m origin.now store.now → IsClearing B.contents m kept a origin.now origin_after.now store.now store_after.now → IsLeftOn B.may_hold B.contents m.sectors m.size origin_after.now store_after.now → MergeLastsOn B.may_hold B.contents (record m { pairs = kept; copied = copied; flushed = false }) origin_after.now store_after.now }
{
    let _ = origin;
    let _ = origin_after;
    let _ = store;
    let _ = store_after;
}

/// A write of the origin's array goes to a chunk's place on the store: it opens the values that it gives and no others.
pub fn place_write<B: Block>(origin: &B, origin_after: &B, store: &B, store_after: &B)
    ensures stops { IsOneCall B.may_hold B.contents origin.now origin_after.now store.now store_after.now → (m : Merging) (named n r count : ℕ) (bytes : List ℕ) → IsMergeOn B.may_hold B.contents m origin.now store.now → IsPlaceWrite B.contents m named n r count bytes origin.now origin_after.now store.now store_after.now → StopsMergeOn B.may_hold (GivesPlace m.chunk named r count bytes) m origin.now origin_after.now store.now store_after.now }
    ensures lasts { IsOneCall B.may_hold B.contents origin.now origin_after.now store.now store_after.now → (m : Merging) (named n r count : ℕ) (bytes : List ℕ) → IsMergeOn B.may_hold B.contents m origin.now store.now → IsPlaceWrite B.contents m named n r count bytes origin.now origin_after.now store.now store_after.now → IsLeftOn B.may_hold B.contents m.sectors m.size origin_after.now store_after.now → MergeLastsOn B.may_hold B.contents m origin_after.now store_after.now }
{
    let _ = origin;
    let _ = origin_after;
    let _ = store;
    let _ = store_after;
}

/// A write of the origin's array goes to its disk, or a chunk is copied back there, or no byte changes: it opens the values that it
/// gives where the store has no copy, and no others.
pub fn disk_write<B: Block>(origin: &B, origin_after: &B, store: &B, store_after: &B)
    ensures stops { IsOneCall B.may_hold B.contents origin.now origin_after.now store.now store_after.now → (m : Merging) (first count : ℕ) (copied : List Pair) (flushed : Bool) → IsMergeOn B.may_hold B.contents m origin.now store.now → IsDiskWrite B.contents m first count copied flushed origin.now origin_after.now store.now store_after.now → StopsMergeOn B.may_hold (GivesDisk B.contents first count origin_after.now) m origin.now origin_after.now store.now store_after.now }
    ensures lasts { IsOneCall B.may_hold B.contents origin.now origin_after.now store.now store_after.now → (m : Merging) (first count : ℕ) (copied : List Pair) (flushed : Bool) → IsMergeOn B.may_hold B.contents m origin.now store.now → IsDiskWrite B.contents m first count copied flushed origin.now origin_after.now store.now store_after.now → MergeLastsOn B.may_hold B.contents (record m { copied = copied; flushed = flushed }) origin_after.now store_after.now }
{
    let _ = origin;
    let _ = origin_after;
    let _ = store;
    let _ = store_after;
}

/// The origin's disk is flushed, so that the group's chunks are copied back for good; or the store is, so that no pair that was taken
/// away comes back. Each changes no byte, so that no value is opened.
pub fn merge_flushes<B: Block>(origin: &B, origin_after: &B, store: &B, store_after: &B)
    ensures of_origin { IsOneCall B.may_hold B.contents origin.now origin_after.now store.now store_after.now → (m : Merging) → IsMergeOn B.may_hold B.contents m origin.now store.now → B.contents origin_after.now ≡ B.contents origin.now → B.contents store_after.now ≡ B.contents store.now → IsFirm (B.may_hold origin_after.now) (B.contents origin_after.now) m.sectors → MergeLastsOn B.may_hold B.contents (record m { flushed = true }) origin_after.now store_after.now }
    ensures of_store { IsOneCall B.may_hold B.contents origin.now origin_after.now store.now store_after.now → (m : Merging) → IsMergeOn B.may_hold B.contents m origin.now store.now → B.contents origin_after.now ≡ B.contents origin.now → B.contents store_after.now ≡ B.contents store.now → IsFirm (B.may_hold store_after.now) (B.contents store_after.now) m.size → MergeLastsOn B.may_hold B.contents m origin_after.now store_after.now }
{
    let _ = origin;
    let _ = origin_after;
    let _ = store;
    let _ = store_after;
}

/// A merge is finished where no pair is left: whatever a call leaves of the origin's disk alone was open for the origin, or is given.
pub fn finish<B: Block>(origin: &B, origin_after: &B, store: &B, store_after: &B)
    ensures opens { (m : Merging) (given : Option Given) → IsMergeOn B.may_hold B.contents m origin.now store.now → m.pairs ≡ [] → StopsMergeOn B.may_hold (Gives given None) m origin.now origin_after.now store.now store_after.now → OpensFinished (B.may_hold origin.now) (B.may_hold store.now) (Within (B.may_hold origin.now) (B.may_hold origin_after.now)) (Gives given None) m }
{
    let _ = origin;
    let _ = origin_after;
    let _ = store;
    let _ = store_after;
}
