// The next place of a store.
ghost use Rattle.std.specs.Prelude.{◌≡◌, ℕ, ◌+◌, ◌*◌, ◌^◌, ◌<◌, ◌≤◌, List, [], ◌∷◌, ◌++◌, MatchOption, MatchBool, false, true};
ghost use Rattle.cow_format.specs.NextPlace.{IsNextPlace, IsFull, stepped};
ghost use Rattle.cow_format.specs.Places.{area_place, is_area_place as is_place};
ghost use Rattle.chunk_alloc.specs.Greatest.{IsGreatest};

use crate::Usage;
use cow_format::is_area_place;
use sector::Chunk;

/// The places that a store of so many sectors hands out, in chunks of so many sectors.
#[derive(Clone, Copy, PartialEq, Eq)]
pub struct Alloc {
    pub chunk: u32,
    pub sectors: u64,
    pub next: Chunk,
    /// The place of the first area after `next`.
    pub area: Chunk,
    pub ghost some: { 0 < chunk },
    pub ghost allowed: { chunk ≤ 1024 },
    pub ghost small: { sectors ≤ 2_147_483_648 },
    pub ghost near: { next ≤ 4_294_967_296 },
    pub ghost whole: { is_place chunk area ≡ true },
    pub ghost after: { next < area },
    pub ghost first: { area ≤ next + 32 * chunk },
}

impl Alloc {
    /// Of a fresh store, which has no pair: its next place is chunk 2, after the header and area 0.
    pub fn new(chunk: u32, sectors: u64) -> Alloc
        requires some { 0 < chunk }
        requires allowed { chunk ≤ 1024 }
        requires small { sectors ≤ 2_147_483_648 }
        ensures chunk { result.chunk ≡ chunk }
        ensures sectors { result.sectors ≡ sectors }
        ensures next { result.next ≡ 2 }
        ensures least { IsNextPlace chunk [] result.next }
    {
        Alloc {
            chunk,
            sectors,
            next: 2,
            area: 32 * chunk as u64 + 2,
        }
    }

    /// Of a store whose pairs have this greatest new chunk, or 1 where it has no pairs.
    pub fn after_load(chunk: u32, sectors: u64, greatest: Chunk) -> Alloc
        requires some { 0 < chunk }
        requires allowed { chunk ≤ 1024 }
        requires small { sectors ≤ 2_147_483_648 }
        requires near { greatest ≤ 2_147_483_648 }
        ensures chunk { result.chunk ≡ chunk }
        ensures sectors { result.sectors ≡ sectors }
        ensures next { result.next ≡ stepped chunk (greatest + 1) }
        ensures least { (taken : List ℕ) → IsGreatest taken greatest → IsNextPlace chunk taken result.next }
    {
        let span = 32 * chunk as u64 + 1;
        Alloc {
            chunk,
            sectors,
            next: step(chunk, greatest + 1),
            area: (greatest / span + 1) * span + 1,
        }
    }

    /// From a merge's commit on, which left so many pairs in the current area: the place after as many chunks of copies.
    pub fn after_merge(&mut self, area: u64, slots: u32)
        requires inside { self.old.chunk * (area_place self.old.chunk area + 1) ≤ self.old.sectors }
        requires slots { slots < 32 * self.old.chunk }
        ensures chunk { self.new.chunk ≡ self.old.chunk }
        ensures sectors { self.new.sectors ≡ self.old.sectors }
        ensures next { self.new.next ≡ area_place self.old.chunk area + slots + 1 }
        ensures free { is_place self.old.chunk self.new.next ≡ false }
    {
        let span = 32 * self.chunk as u64 + 1;
        let place = area * span + 1;
        self.next = place + slots as u64 + 1;
        self.area = place + span;
    }

    /// Hands out the next place, where it lies wholly inside the store; where it does not, the store is full and
    /// nothing changes.
    pub fn take(&mut self) -> Option<Chunk>
        ensures chunk { self.new.chunk ≡ self.old.chunk }
        ensures sectors { self.new.sectors ≡ self.old.sectors }
        ensures taken { MatchOption result (IsFull self.old.chunk self.old.sectors self.old.next × (self.new.next ≡ self.old.next)) (λ n. (n ≡ self.old.next) × (self.old.chunk * (n + 1) ≤ self.old.sectors) × (self.new.next ≡ stepped self.old.chunk (n + 1))) }
        ensures least { (taken : List ℕ) → IsNextPlace self.old.chunk taken self.old.next → MatchOption result (IsNextPlace self.new.chunk taken self.new.next) (λ n. IsNextPlace self.new.chunk (taken ++ n ∷ []) self.new.next) }
    {
        if self.is_full() {
            return None;
        }
        let place = self.next;
        self.next = place + 1;
        if self.next == self.area {
            self.next += 1;
            self.area += 32 * self.chunk as u64 + 1;
        }
        Some(place)
    }

    /// The place that is handed out next, whether or not it lies inside the store.
    pub fn next(&self) -> Chunk
        ensures { result ≡ self.now.next }
    {
        self.next
    }

    /// Whether the next place is not wholly inside the store.
    pub fn is_full(&self) -> bool
        ensures { MatchBool result (IsFull self.now.chunk self.now.sectors self.now.next) (self.now.chunk * (self.now.next + 1) ≤ self.now.sectors) }
    {
        self.sectors < self.chunk as u64 * (self.next + 1)
    }

    /// The numbers of the status line, of a store whose current area has this number.
    pub fn usage(&self, area: u64) -> Usage
        requires { area ≤ self.now.sectors }
        ensures allocated { result.allocated ≡ self.now.next * self.now.chunk }
        ensures total { result.total ≡ self.now.sectors }
        ensures metadata { result.metadata ≡ (area + 2) * self.now.chunk }
    {
        Usage {
            allocated: self.next * self.chunk as u64,
            total: self.sectors,
            metadata: (area + 2) * self.chunk as u64,
        }
    }
}

/// A chunk, or the one after it where it is an area's place.
fn step(chunk: u32, place: Chunk) -> Chunk
    requires allowed { chunk ≤ 1024 }
    requires near { place < 2 ^ 32 }
    ensures { result ≡ stepped chunk place }
{
    if is_area_place(chunk, place) {
        place + 1
    } else {
        place
    }
}
