// What a flush closes: of one device the sectors that every content takes from it, of a snapshot's store its whole array.
ghost use Rattle.std.specs.Prelude.{◌<◌, ◌≡◌, ◌⊎◌, List, None, false, length, true, ℕ};
ghost use Rattle.sector.specs.Bytes.{sector_at};
ghost use Rattle.sector.specs.declared.pair.Pair.{Pair};
ghost use Rattle.cow_format.specs.Pairs.{pairs_of};
ghost use Rattle.cow_format.specs.Picture.{picture, place_of};
ghost use Rattle.cow_format.specs.Places.{slot};
ghost use Rattle.crash_laws.specs.Again.{IsOpen};
ghost use Rattle.crash_laws.specs.Firm.{AddsNow, IsFirm};
ghost use Rattle.crash_laws.specs.May.{sector_of};
ghost use Rattle.crash_laws.specs.Stop.{MayLeave};
ghost use Rattle.cache_loss_laws.specs.Kept.{Kept};
ghost use Rattle.cache_loss_laws.specs.Lost.{ClosesOn, IsFirmOn, IsSnapOn};

use device::Block;

/// A store that was flushed: in each sector that every content takes from it no value is open but the present one.
pub fn flush_of_store<B: Block>(origin: &B, store: &B)
    ensures closes { IsFirmOn B.may_hold B.contents B.size store.now → (chunk : ℕ) → 0 < chunk → ClosesOn true B.may_hold B.contents B.size chunk origin.now store.now }
{
    let _ = origin;
    let _ = store;
}

/// An origin's disk that was flushed: the same of each sector that every content takes from the disk.
pub fn flush_of_origin<B: Block>(origin: &B, store: &B)
    ensures closes { IsFirmOn B.may_hold B.contents B.size origin.now → (chunk : ℕ) → 0 < chunk → ClosesOn false B.may_hold B.contents B.size chunk origin.now store.now }
{
    let _ = origin;
    let _ = store;
}

/// A live snapshot's store that was flushed, and in whose list all pairs surely are then: in no sector of its array, wherever it is taken
/// from, is a value open but the present one.
pub fn flush_of_snapshot<B: Block>(origin: &B, store: &B)
    ensures closes { (v : Kept) (copies : List Pair) → IsSnapOn B.may_hold B.contents copies v origin.now store.now → v.sure ≡ length v.pairs → IsFirm (B.may_hold store.now) (B.contents store.now) v.size → (s : ℕ) (x : List ℕ) → s < v.sectors → IsOpen v.chunk (B.may_hold origin.now) (B.may_hold store.now) v.sectors v.size s x → x ≡ sector_at (picture v.chunk (B.contents origin.now) (B.contents store.now)) s }
{
    let _ = origin;
    let _ = store;
}

/// A chunk that no content which may be left of a merging store has in its list stays out of it through a call that empties slots
/// and fills none.
pub fn stays_out<B: Block>(store: &B, store_after: &B)
    ensures stays { (chunk size : ℕ) → 0 < chunk → MayLeave (B.may_hold store.now) size (B.contents store.now) → AddsNow (B.may_hold store.now) (B.may_hold store_after.now) (B.contents store_after.now) → ((k : ℕ) → (slot chunk (B.contents store_after.now) k ≡ slot chunk (B.contents store.now) k) ⊎ ((slot chunk (B.contents store_after.now) k).new ≡ 0)) → (x : ℕ) → ((b : List ℕ) → MayLeave (B.may_hold store.now) size b → place_of (pairs_of chunk b) x ≡ None) → (d : List ℕ) → MayLeave (B.may_hold store_after.now) size d → ((k : ℕ) → k < length (pairs_of chunk d) → sector_of chunk k < size) → place_of (pairs_of chunk d) x ≡ None }
{
    let _ = store;
    let _ = store_after;
}
