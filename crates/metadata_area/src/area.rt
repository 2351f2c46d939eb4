// An area, and the pairs in its slots.
ghost use Rattle.std.specs.Prelude.{◌≡◌, ◌≢◌, ℕ, ◌+◌, ◌*◌, ◌<◌, ◌≤◌, length, replicate, IfOk, IfErr};
ghost use Rattle.cow_format.specs.Slots.{pair_in, with_pair};
ghost use Rattle.sector.specs.declared.refusal.Refusal.TheVariants.{NoMemory};

use sector::{Pair, Refusal, SECTOR_BYTES, put_u64, u64_at};
use std::alloc::Global;

/// The pairs of a sector of an area.
pub(crate) const SECTOR_SLOTS: u32 = 32;

/// The bytes of a pair: the old chunk and the new one, eight bytes each.
pub(crate) const PAIR_BYTES: usize = 16;

/// The bytes of an area: one chunk of so many sectors. Slots are counted from 0.
#[derive(Drop)]
pub struct Area {
    pub bytes: Vec<u8>,
    pub chunk: u32,
    pub ghost some: { 0 < chunk },
    pub ghost allowed: { chunk ≤ 1024 },
    pub ghost whole: { length bytes.items ≡ 512 * chunk },
}

impl Area {
    /// An area of zeros, whose slots are all empty. `NoMemory` where memory for the chunk is refused.
    pub fn new(alloc: Global, chunk: u32) -> Result<Area, Refusal>
        requires some { 0 < chunk }
        requires allowed { chunk ≤ 1024 }
        ensures chunk { IfOk result (λ area. area.chunk ≡ chunk) }
        ensures zero { IfOk result (λ area. area.bytes.items ≡ replicate (512 * chunk) 0) }
        ensures refusal { IfErr result (λ e. e ≡ NoMemory) }
    {
        let Ok(bytes) = vec![in alloc; 0u8; SECTOR_BYTES * chunk as usize] else {
            return Err(Refusal::NoMemory);
        };
        Ok(Area { bytes, chunk })
    }

    /// The area that a chunk's bytes hold. They are not copied.
    pub fn decode(bytes: Vec<u8>, chunk: u32) -> Area
        requires some { 0 < chunk }
        requires allowed { chunk ≤ 1024 }
        requires whole { length bytes.items ≡ 512 * chunk }
        ensures chunk { result.chunk ≡ chunk }
        ensures bytes { result.bytes.items ≡ bytes.items }
    {
        Area { bytes, chunk }
    }

    /// The bytes of the chunk that holds it.
    pub fn encode(&self) -> &[u8]
        ensures { result.now ≡ self.now.bytes.items }
    {
        self.bytes.as_slice()
    }

    /// How many slots it has: 32 a sector.
    pub fn slots(&self) -> u32
        ensures { result ≡ 32 * self.now.chunk }
    {
        SECTOR_SLOTS * self.chunk
    }

    /// The pair in a slot. Its new chunk is 0 where the slot is empty.
    pub fn pair(&self, slot: u32) -> Pair
        requires { slot < 32 * self.now.chunk }
        ensures { result ≡ pair_in self.now.bytes.items slot }
    {
        let at = PAIR_BYTES * slot as usize;
        let bytes = self.bytes.as_slice();
        Pair {
            old: u64_at(bytes, at),
            new: u64_at(bytes, at + 8),
        }
    }

    /// Puts a pair into a slot.
    pub fn put(&mut self, slot: u32, pair: Pair)
        requires { slot < 32 * self.old.chunk }
        ensures chunk { self.new.chunk ≡ self.old.chunk }
        ensures bytes { self.new.bytes.items ≡ with_pair self.old.bytes.items slot pair }
        ensures here { pair_in self.new.bytes.items slot ≡ pair }
        ensures others { (k : ℕ) → k ≢ slot → pair_in self.new.bytes.items k ≡ pair_in self.old.bytes.items k }
    {
        put_pair(self.bytes.as_mut_slice(), slot as usize, pair);
    }
}

/// Puts a pair into a slot of an area's bytes.
#[tactic(auto, using(sector::proofs::Numbers::same_number))]
fn put_pair(bytes: &mut [u8], slot: usize, pair: Pair)
    requires { 16 * slot + 16 ≤ length bytes.old }
    ensures len { length bytes.new ≡ length bytes.old }
    ensures bytes { bytes.new ≡ with_pair bytes.old slot pair }
    ensures here { pair_in bytes.new slot ≡ pair }
    ensures others { (k : ℕ) → k ≢ slot → pair_in bytes.new k ≡ pair_in bytes.old k }
{
    put_u64(bytes, PAIR_BYTES * slot, pair.old);
    put_u64(bytes, PAIR_BYTES * slot + 8, pair.new);
}
