// A run of sectors.
ghost use Rattle.std.specs.Prelude.{◌≡◌, ℕ, ◌+◌, ◌^◌, ◌<◌, ◌≤◌, ◌↔◌, IsOk, IfOk, IfErr};
ghost use Rattle.sector.specs.declared.refusal.Refusal.TheVariants.{OutOfRange};

use crate::{Refusal, Sector};

/// The sectors from `first` on, `count` of them, of a device of `size` sectors. They lie inside it.
#[derive(Clone, Copy, PartialEq, Eq)]
pub struct Range {
    pub first: Sector,
    pub count: u32,
    pub size: u64,
    pub ghost inside: { first + count ≤ size },
}

impl Range {
    /// The range, where it lies inside the size; else `OutOfRange`. A range of no sectors may stand anywhere
    /// inside, its end included.
    pub fn new(first: u64, count: u32, size: u64) -> Result<Range, Refusal>
        ensures inside { IsOk result ↔ (first + count ≤ size) }
        ensures range { IfOk result (λ r. (r.first ≡ first) × (r.count ≡ count) × (r.size ≡ size)) }
        ensures refusal { IfErr result (λ e. e ≡ OutOfRange) }
    {
        if first <= size && count as u64 <= size - first {
            Ok(Range { first, count, size })
        } else {
            Err(Refusal::OutOfRange)
        }
    }

    /// As many sectors, `by` further on, of a device that ends with them.
    pub fn shifted(&self, by: u64) -> Range
        requires { self.now.first + self.now.count + by < 2 ^ 64 }
        ensures first { result.first ≡ self.now.first + by }
        ensures count { result.count ≡ self.now.count }
        ensures size { result.size ≡ self.now.first + by + self.now.count }
    {
        Range {
            first: self.first + by,
            count: self.count,
            size: self.first + by + self.count as u64,
        }
    }
}
