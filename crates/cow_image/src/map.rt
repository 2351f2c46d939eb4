// The map of a store.
ghost use Rattle.std.specs.Prelude.{◌≡◌, ℕ, ◌+◌, ◌*◌, ◌<◌, ◌≤◌};
ghost use Rattle.std.specs.List.{All};
ghost use Rattle.cow_image.specs.Sorted.{IsRisingBy, old_of};
ghost use Rattle.cow_image.specs.Usage.{past_new as past_of, allocated_by, metadata_by};

use cow_format::is_area_place;
use sector::Pair;

/// The map of a written store that a load accepts.
#[derive(Drop)]
pub struct CowMap {
    /// The sectors of a chunk.
    pub chunk: u32,
    /// The sectors of the store.
    pub size: u64,
    /// The number of the area that has the first empty slot.
    pub current: u64,
    /// The pairs, in the order of their old chunks.
    pub pairs: Vec<Pair>,
    pub ghost some: { 0 < chunk },
    pub ghost allowed: { chunk ≤ 1024 },
    pub ghost small: { size ≤ 68_719_476_736 },
    pub ghost here: { current < size },
    pub ghost rising: { IsRisingBy old_of pairs.items },
    pub ghost within: { All (λ pair. pair.new < size) pairs.items },
}

/// The numbers of a status line, in sectors.
#[derive(Clone, Copy, PartialEq, Eq)]
pub struct StoreUsage {
    /// The front of the store, up to the next place.
    pub allocated: u64,
    /// The store.
    pub total: u64,
    /// The header, and the areas up to the current one.
    pub metadata: u64,
}

impl CowMap {
    /// The numbers that a status line says of the store, as the kernel counts them.
    pub fn usage(&self) -> StoreUsage
        ensures allocated { result.allocated ≡ allocated_by self.now.chunk self.now.pairs.items }
        ensures total { result.total ≡ self.now.size }
        ensures metadata { result.metadata ≡ metadata_by self.now.chunk self.now.current }
    {
        let chunk = self.chunk as u64;
        let mut next = past_new(self.size, self.pairs.as_slice());
        if is_area_place(self.chunk, next) {
            next += 1;
        }
        StoreUsage {
            allocated: next * chunk,
            total: self.size,
            metadata: (self.current + 2) * chunk,
        }
    }
}

/// The chunk after the greatest new chunk of these pairs, or 2 where there is none.
fn past_new(size: u64, pairs: &[Pair]) -> u64
    requires small { size ≤ 68_719_476_736 }
    requires within { All (λ pair. pair.new < size) pairs.now }
    ensures past { result ≡ past_of pairs.now }
    ensures low { result ≤ size + 2 }
{
    let mut past: u64 = 2;
    for pair in pairs {
        past = past.max(pair.new + 1);
    }
    past
}
