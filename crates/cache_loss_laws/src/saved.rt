// A snapshot of which not all is flushed. `copies` are the pairs of its copies that were written and flushed, and are not committed.
ghost use Rattle.std.specs.Prelude.{[], ◌++◌, ◌≡◌, ◌≢◌, ◌<◌, ◌≤◌, ◌+◌, ◌*◌, ◌/◌, Bool, List, None, Option, Some, false, length, take, true, ℕ, Ok, Err};
ghost use Rattle.sector.specs.Bytes.{sector_at, with_sectors};
ghost use Rattle.sector.specs.declared.pair.Pair.{Pair};
ghost use Rattle.sector.specs.declared.refusal.Refusal.TheVariants.{Invalid};
ghost use Rattle.cow_header.specs.HeaderText.{found_in};
ghost use Rattle.cow_header.specs.declared.found.Found.TheVariants.{Header};
ghost use Rattle.cow_format.specs.Places.{ChangesOnly, area_place, is_area_place, slot};
ghost use Rattle.cow_format.specs.Picture.{picture, place_of};
ghost use Rattle.crash_laws.specs.Again.{IsOpen};
ghost use Rattle.crash_laws.specs.Clauses.{Given, Gives};
ghost use Rattle.crash_laws.specs.Firm.{IsFirm};
ghost use Rattle.crash_laws.specs.May.{sector_of};
ghost use Rattle.cache_loss_laws.specs.Kept.{IsThere, Kept, SnapRefused};
ghost use Rattle.cache_loss_laws.specs.Lost.{GivesPlace, IsCalmOn, IsCommit, IsFlush, IsLeftOn, IsOneCall, IsOneOf, IsSnapOn, NoneGiven, SnapLastsOn, StopsSnapOn};

use device::Block;

/// A call that leaves the list and the copies: whatever a stop within it leaves shows the array, up to what it gives, or is
/// refused where it was marked; and what held before holds after it.
pub fn calm<B: Block>(origin: &B, origin_after: &B, store: &B, store_after: &B)
    ensures stops { IsOneCall B.may_hold B.contents origin.now origin_after.now store.now store_after.now → (v : Kept) (copies copies' : List Pair) (zeroed marked : Bool) (given : Option Given) (array : Option ℕ) → IsSnapOn B.may_hold B.contents copies v origin.now store.now → IsCalmOn B.contents copies copies' zeroed marked (Gives given array) v origin.now origin_after.now store.now store_after.now → StopsSnapOn B.may_hold marked (Gives given array) v origin.now origin_after.now store.now store_after.now }
    ensures lasts { IsOneCall B.may_hold B.contents origin.now origin_after.now store.now store_after.now → (v : Kept) (copies copies' : List Pair) (zeroed marked : Bool) (given : Option Given) (array : Option ℕ) → IsSnapOn B.may_hold B.contents copies v origin.now store.now → IsCalmOn B.contents copies copies' zeroed marked (Gives given array) v origin.now origin_after.now store.now store_after.now → IsLeftOn B.may_hold B.contents v.sectors v.size origin_after.now store_after.now → SnapLastsOn B.may_hold B.contents copies' (record v { zeroed = zeroed; marked = marked }) origin_after.now store_after.now }
{
    let _ = origin;
    let _ = origin_after;
    let _ = store;
    let _ = store_after;
}

/// Such calls: one that changes no byte, where copies may be given up; a copy's write to its place; the next area zeroed; the
/// header marked invalid; a write of the snapshot's own array at the place of a chunk that is surely in the list; a write of the
/// origin's disk in chunks alone that surely are.
pub fn calm_calls<B: Block>(origin: &B, origin_after: &B, store: &B, store_after: &B)
    ensures same { (v : Kept) (copies copies' : List Pair) → IsSnapOn B.may_hold B.contents copies v origin.now store.now → B.contents origin_after.now ≡ B.contents origin.now → B.contents store_after.now ≡ B.contents store.now → ((q : Pair) → IsOneOf copies' q → IsOneOf copies q) → IsCalmOn B.contents copies copies' v.zeroed v.marked NoneGiven v origin.now origin_after.now store.now store_after.now }
    ensures copy_write { (v : Kept) (copies : List Pair) (n : ℕ) → IsSnapOn B.may_hold B.contents copies v origin.now store.now → B.contents origin_after.now ≡ B.contents origin.now → ChangesOnly v.chunk n (B.contents store.now) (B.contents store_after.now) → is_area_place v.chunk n ≡ false → 0 < n → ((x m : ℕ) → place_of v.pairs x ≡ Some m → m ≢ n) → ((q : Pair) → IsOneOf copies q → q.new ≢ n) → IsCalmOn B.contents copies copies v.zeroed v.marked NoneGiven v origin.now origin_after.now store.now store_after.now }
    ensures zero { (v : Kept) (copies : List Pair) → IsSnapOn B.may_hold B.contents copies v origin.now store.now → B.contents origin_after.now ≡ B.contents origin.now → ChangesOnly v.chunk (area_place v.chunk (v.current + 1)) (B.contents store.now) (B.contents store_after.now) → v.firm ≡ false → ((k : ℕ) → (v.current + 1) * (32 * v.chunk) ≤ k → k < (v.current + 2) * (32 * v.chunk) → ((slot v.chunk (B.contents store_after.now) k).new ≡ 0) × (sector_of v.chunk k < v.size)) → IsCalmOn B.contents copies copies true v.marked NoneGiven v origin.now origin_after.now store.now store_after.now }
    ensures mark { (v : Kept) (copies : List Pair) → IsSnapOn B.may_hold B.contents copies v origin.now store.now → B.contents origin_after.now ≡ B.contents origin.now → ChangesOnly v.chunk 0 (B.contents store.now) (B.contents store_after.now) → found_in (sector_at (B.contents store_after.now) 0) ≡ Err Invalid → IsCalmOn B.contents copies copies v.zeroed true NoneGiven v origin.now origin_after.now store.now store_after.now }
    ensures own_write { (v : Kept) (copies : List Pair) (named n r count : ℕ) (bytes : List ℕ) → IsSnapOn B.may_hold B.contents copies v origin.now store.now → B.contents origin_after.now ≡ B.contents origin.now → B.contents store_after.now ≡ with_sectors (B.contents store.now) (v.chunk * n + r) bytes → place_of (take v.sure v.pairs) named ≡ Some n → r + count ≤ v.chunk → length bytes ≡ 512 * count → ((q : Pair) → IsOneOf copies q → q.new ≢ n) → IsCalmOn B.contents copies copies v.zeroed v.marked (GivesPlace v.chunk named r count bytes) v origin.now origin_after.now store.now store_after.now }
    ensures disk_write { (v : Kept) (copies : List Pair) → IsSnapOn B.may_hold B.contents copies v origin.now store.now → B.contents store_after.now ≡ B.contents store.now → ((s : ℕ) → s < v.sectors → place_of (take v.sure v.pairs) (s / v.chunk) ≡ None → sector_at (B.contents origin_after.now) s ≡ sector_at (B.contents origin.now) s) → IsCalmOn B.contents copies copies v.zeroed v.marked NoneGiven v origin.now origin_after.now store.now store_after.now }
{
    let _ = origin;
    let _ = origin_after;
    let _ = store;
    let _ = store_after;
}

/// Pairs of copies that were flushed are committed by one write of the area. No value of the array is opened, whatever a stop
/// within it leaves; and no pair more is surely in the list until the store is flushed. It may fill the area where the next one
/// was zeroed and flushed.
pub fn commit<B: Block>(origin: &B, origin_after: &B, store: &B, store_after: &B)
    ensures stops { IsOneCall B.may_hold B.contents origin.now origin_after.now store.now store_after.now → (v : Kept) (copies copies' qs : List Pair) → IsSnapOn B.may_hold B.contents copies v origin.now store.now → IsCommit B.contents copies copies' v qs origin.now origin_after.now store.now store_after.now → StopsSnapOn B.may_hold v.marked NoneGiven v origin.now origin_after.now store.now store_after.now }
    ensures lasts { IsOneCall B.may_hold B.contents origin.now origin_after.now store.now store_after.now → (v : Kept) (copies copies' qs : List Pair) → IsSnapOn B.may_hold B.contents copies v origin.now store.now → IsCommit B.contents copies copies' v qs origin.now origin_after.now store.now store_after.now → IsLeftOn B.may_hold B.contents v.sectors v.size origin_after.now store_after.now → SnapLastsOn B.may_hold B.contents copies' (record v { pairs = v.pairs ++ qs }) origin_after.now store_after.now }
    ensures fills { IsOneCall B.may_hold B.contents origin.now origin_after.now store.now store_after.now → (v : Kept) (copies copies' qs : List Pair) → IsSnapOn B.may_hold B.contents copies v origin.now store.now → IsCommit B.contents copies copies' v qs origin.now origin_after.now store.now store_after.now → IsLeftOn B.may_hold B.contents v.sectors v.size origin_after.now store_after.now → v.firm ≡ true → SnapLastsOn B.may_hold B.contents copies' (record v { current = v.current + 1; zeroed = false; firm = false; pairs = v.pairs ++ qs }) origin_after.now store_after.now }
{
    let _ = origin;
    let _ = origin_after;
    let _ = store;
    let _ = store_after;
}

/// A store is flushed. All pairs are surely in the list then, the zeroed area is known, and each copy that was written counts as
/// flushed. It is a call that changes no byte, so no value is opened. Where its header was marked invalid it is refused from then on.
pub fn flush<B: Block>(origin: &B, origin_after: &B, store: &B, store_after: &B)
    ensures lasts { IsOneCall B.may_hold B.contents origin.now origin_after.now store.now store_after.now → (v : Kept) (copies copies' : List Pair) → IsSnapOn B.may_hold B.contents copies v origin.now store.now → IsFlush B.may_hold B.contents copies' v origin.now origin_after.now store.now store_after.now → SnapLastsOn B.may_hold B.contents copies' (record v { firm = v.zeroed; sure = length v.pairs }) origin_after.now store_after.now }
    ensures refused { (size : ℕ) → 0 < size → IsFirm (B.may_hold store_after.now) (B.contents store_after.now) size → found_in (sector_at (B.contents store_after.now) 0) ≡ Err Invalid → SnapRefused (B.may_hold store_after.now) }
{
    let _ = origin;
    let _ = origin_after;
    let _ = store;
    let _ = store_after;
}

/// An attach that flushed both devices: the invariant begins, with no copies and all pairs sure, and no value is open but the present
/// one.
pub fn attach<B: Block>(origin: &B, store: &B)
    ensures lasts { (v : Kept) → IsThere (B.may_hold origin.now) (B.may_hold store.now) (B.contents origin.now) (B.contents store.now) (IsOneOf []) v → v.zeroed ≡ false → v.firm ≡ false → v.sure ≡ length v.pairs → IsFirm (B.may_hold origin.now) (B.contents origin.now) v.sectors → IsFirm (B.may_hold store.now) (B.contents store.now) v.size → found_in (sector_at (B.contents store.now) 0) ≡ Ok (Header v.chunk) → length v.pairs < (v.current + 1) * (32 * v.chunk) → ((k : ℕ) → length v.pairs ≤ k → k < (v.current + 1) * (32 * v.chunk) → (slot v.chunk (B.contents store.now) k).new ≡ 0) → ((k : ℕ) → k < (v.current + 1) * (32 * v.chunk) → sector_of v.chunk k < v.size) → SnapLastsOn B.may_hold B.contents [] v origin.now store.now }
    ensures closes { (v : Kept) → IsThere (B.may_hold origin.now) (B.may_hold store.now) (B.contents origin.now) (B.contents store.now) (IsOneOf []) v → IsFirm (B.may_hold origin.now) (B.contents origin.now) v.sectors → IsFirm (B.may_hold store.now) (B.contents store.now) v.size → (s : ℕ) (x : List ℕ) → IsOpen v.chunk (B.may_hold origin.now) (B.may_hold store.now) v.sectors v.size s x → x ≡ sector_at (picture v.chunk (B.contents origin.now) (B.contents store.now)) s }
{
    let _ = origin;
    let _ = store;
}
