// The ranges of what a snapshot shows are found.
ghost use Rattle.std.specs.Prelude.{◌≡◌, ◌-◌, ◌*◌, ◌<◌, ◌≤◌, IfOk, IfSome};
ghost use Rattle.std.specs.List.{All};
ghost use Rattle.cow_image.specs.Sorted.{IsRisingBy, old_of};
ghost use Rattle.snapshot_extents.specs.Ranges.{AreRanges, byte_of_place};

use crate::adding::add;
use crate::range::Range;
use cow_image::run_at;
use sector::{Chunk, Pair};
use std::alloc::{AllocError, Global};

/// How many chunks in a row are looked for.
const MOST: u64 = 65536;

/// Where the bytes stand that a snapshot shows by these pairs, with chunks of so many sectors, of an origin of so many.
pub fn ranges(
    alloc: Global,
    chunk: u32,
    pairs: &[Pair],
    size: u64,
) -> Result<Vec<Range>, AllocError>
    requires some { 0 < chunk }
    requires allowed { chunk ≤ 1024 }
    requires rising { IsRisingBy old_of pairs.now }
    requires within { All (λ pair. pair.new < 68_719_476_736) pairs.now }
    requires small { size ≤ 68_719_476_736 }
    ensures { IfOk result (λ ranges. AreRanges chunk pairs.now (512 * size) ranges.items) }
{
    let sectors = chunk as u64;
    let mut ranges = Vec::new(alloc);
    let mut number = 0;
    let mut done = 0;
    while done < size {
        let run = run_at(pairs, number, MOST);
        let chunks = run.chunks.min(size - done);
        let end = size.min(done + chunks * sectors);
        add(&mut ranges, range_of(chunk, run.place, done, end))?;
        number += chunks;
        done = end;
    }
    Ok(ranges)
}

/// The range of the sectors from one on up to another, whose copies stand from a place on, if they have any.
fn range_of(chunk: u32, place: Option<Chunk>, first: u64, end: u64) -> Range
    requires allowed { chunk ≤ 1024 }
    requires near { IfSome place (λ n. n < 68_719_476_736) }
    requires order { first ≤ end }
    requires small { end ≤ 68_719_476_736 }
    ensures start { result.start ≡ 512 * first }
    ensures count { result.count ≡ 512 * (end - first) }
    ensures copy { result.copy ≡ byte_of_place chunk place }
{
    let copy = match place {
        Some(place) => Some(512 * (chunk as u64 * place)),
        None => None,
    };
    Range {
        start: 512 * first,
        count: 512 * (end - first),
        copy,
    }
}
