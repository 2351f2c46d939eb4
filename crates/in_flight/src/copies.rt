// Copies of chunks, from their start until their snapshot has published them.
ghost use Rattle.std.specs.Prelude.{◌≡◌, ◌==◌, ◌*◌, ◌<◌, ◌^◌, IfOk, length, map, not};
ghost use Rattle.std.specs.List.{list_any};
ghost use Rattle.in_flight.specs.Copies.{count_of};
ghost use Rattle.in_flight.specs.Flushed.{flushed_copy, flushed_stage as stage_after, safe_mark};
ghost use Rattle.in_flight.specs.declared.copies.Stage.TheVariants.{Waiting};

use plain_machine::CopyId;
use sector::{Chunk, Pair};
use std::alloc::{AllocError, Global};

/// A volume has at most so many copies that are started for requests.
pub const MAX_COPIES: usize = 256;

/// How far a copy is whose pair is not committed.
#[derive(Clone, Copy, PartialEq, Eq)]
pub enum Stage {
    Waiting,
    /// Its chunk was read from the origin disk, into its buffer.
    Read,
    /// And written to its place on the store.
    Written,
    /// And the store was flushed since.
    Flushed,
}

/// A copy of one chunk of the origin for one snapshot, whose pair is not committed.
#[derive(Drop)]
pub struct ChunkCopy {
    /// Its number in the volume.
    pub number: CopyId,
    /// The origin's chunk, and its place on the store.
    pub pair: Pair,
    pub stage: Stage,
    /// As many bytes as the chunk has; the origin's last chunk may be short.
    pub buffer: Vec<u8>,
}

/// A copy whose pair is committed, and which its snapshot has not published.
#[derive(Clone, Copy, PartialEq, Eq)]
pub struct Mark {
    pub number: CopyId,
    /// The chunk of the origin.
    pub chunk: Chunk,
    /// Whether the store was flushed since the pair was committed.
    pub safe: bool,
}

/// How many sectors a chunk of the origin has: all but the last have a whole chunk's.
pub fn sectors_of(chunk_sectors: u32, origin: u64, chunk: Chunk) -> u32
    requires { chunk_sectors * chunk < 2 ^ 64 }
    ensures { result ≡ count_of chunk_sectors origin chunk }
{
    let first = chunk_sectors as u64 * chunk;
    if first >= origin {
        0
    } else {
        (origin - first).min(chunk_sectors as u64) as u32
    }
}

impl ChunkCopy {
    /// A copy that waits to be read, of a chunk of so many sectors. Its buffer is the only memory that it needs.
    pub fn new(
        alloc: Global,
        number: CopyId,
        pair: Pair,
        sectors: u32,
    ) -> Result<ChunkCopy, AllocError>
        ensures number { IfOk result (λ c. c.number ≡ number) }
        ensures pair { IfOk result (λ c. c.pair ≡ pair) }
        ensures stage { IfOk result (λ c. c.stage ≡ Waiting) }
        ensures room { IfOk result (λ c. length c.buffer.items ≡ 512 * sectors) }
    {
        let buffer = vec![in alloc; 0u8; 512 * sectors as usize]?;
        Ok(ChunkCopy {
            number,
            pair,
            stage: Stage::Waiting,
            buffer,
        })
    }
}

/// Whether a copy of this chunk is not committed.
pub fn has_copy(copies: &[ChunkCopy], chunk: Chunk) -> bool
    ensures { result ≡ list_any (λ c. c.pair.old == chunk) copies.now }
{
    copies.iter().any(|c| c.pair.old == chunk)
}

/// Whether a copy of this chunk is committed and not published.
pub fn is_marked(marks: &[Mark], chunk: Chunk) -> bool
    ensures { result ≡ list_any (λ m. m.chunk == chunk) marks.now }
{
    marks.iter().any(|m| m.chunk == chunk)
}

/// Whether a committed pair waits for a flush of the store.
pub fn has_unsafe(marks: &[Mark]) -> bool
    ensures { result ≡ list_any (λ m. not m.safe) marks.now }
{
    marks.iter().any(|m| !m.safe)
}

/// How far a copy is after a flush of the store: what is written counts as flushed.
pub fn flushed_stage(stage: Stage) -> Stage
    ensures { result ≡ stage_after stage }
{
    match stage {
        Stage::Waiting => Stage::Waiting,
        Stage::Read => Stage::Read,
        Stage::Written => Stage::Flushed,
        Stage::Flushed => Stage::Flushed,
    }
}

/// The store was flushed: the copies that are written may be committed.
pub fn flush_copies(copies: &mut [ChunkCopy])
    ensures { copies.new ≡ map flushed_copy copies.old }
{
    for copy in copies.iter_mut() {
        copy.stage = flushed_stage(copy.stage);
    }
}

/// The store was flushed: what is committed may be published.
pub fn flush_marks(marks: &mut [Mark])
    ensures { marks.new ≡ map safe_mark marks.old }
{
    for mark in marks.iter_mut() {
        mark.safe = true;
    }
}
