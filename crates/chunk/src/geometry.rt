// The chunks of one device.
ghost use Rattle.std.specs.Prelude.{◌≡◌, ℕ, ◌+◌, ◌-◌, ◌*◌, ◌/◌, ◌<◌, ◌≤◌, ◌↔◌, min, true, IsOk, IfOk, IfErr};
ghost use Rattle.sector.specs.declared.refusal.Refusal.TheVariants.{BadChunk};
ghost use Rattle.chunk.specs.Sizes.{is_chunk};
ghost use Rattle.chunk.specs.Pieces.{span_of, pieces_of, AreCutFrom};

use crate::Pieces;
use sector::{Chunk, Range, Refusal, Sector};

/// The sizes of a device and of its chunks, both in sectors.
#[derive(Clone, Copy, PartialEq, Eq)]
pub struct Geometry {
    pub chunk: u32,
    pub sectors: u64,
    pub ghost allowed: { is_chunk chunk ≡ true },
    pub ghost some: { 0 < chunk },
    pub ghost small: { chunk ≤ 1024 },
}

/// Whether a chunk may have so many sectors: a power of two from 1 to 1024.
pub fn is_chunk_size(sectors: u32) -> bool
    ensures { result ≡ is_chunk sectors }
{
    sectors.is_power_of_two() && sectors <= 1024
}

impl Geometry {
    /// A device of `origin` sectors, cut into chunks of `chunk` sectors. `BadChunk` where that is no power of two
    /// from 1 to 1024.
    pub fn new(chunk: u32, origin: u64) -> Result<Geometry, Refusal>
        ensures allowed { IsOk result ↔ (is_chunk chunk ≡ true) }
        ensures geometry { IfOk result (λ g. (g.chunk ≡ chunk) × (g.sectors ≡ origin)) }
        ensures refusal { IfErr result (λ e. e ≡ BadChunk) }
    {
        if is_chunk_size(chunk) {
            Ok(Geometry {
                chunk,
                sectors: origin,
            })
        } else {
            Err(Refusal::BadChunk)
        }
    }

    /// The chunk in which a sector lies.
    pub fn chunk_of(&self, sector: Sector) -> Chunk
        ensures { result ≡ sector / self.now.chunk }
    {
        sector / u64::from(self.chunk)
    }

    /// The sectors of a chunk that begins inside the device, counted from 0. The last chunk may be short.
    pub fn chunk_range(&self, number: Chunk) -> Range
        requires { self.now.chunk * number < self.now.sectors }
        ensures first { result.first ≡ self.now.chunk * number }
        ensures count { result.count ≡ min self.now.chunk (self.now.sectors - self.now.chunk * number) }
        ensures size { result.size ≡ self.now.sectors }
    {
        let first = u64::from(self.chunk) * number;
        let left = self.sectors - first;
        Range {
            first,
            count: u64::from(self.chunk).min(left) as u32,
            size: self.sectors,
        }
    }

    /// The pieces of a range: for each chunk that it touches, in order, its sectors in that chunk. A range of no
    /// sectors has none.
    #[tactic(auto, using(crate::proofs::Whole::cut_pieces))]
    pub fn pieces(&self, range: Range) -> Pieces
        ensures pieces { result ≡ pieces_of self.now.chunk (span_of range) }
        ensures cut { AreCutFrom self.now.chunk (span_of range) result }
    {
        Pieces::new(self.chunk, range)
    }
}
