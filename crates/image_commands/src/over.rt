// What is told of a store over its origin.
ghost use Rattle.std.specs.Prelude.{◌≡◌, ◌+◌, ◌-◌, ◌*◌, ◌/◌, ◌<◌, ◌≤◌, IfOk};
ghost use Rattle.snapshot_extents.specs.Ranges.{AreRanges};
ghost use Rattle.map_drawing.specs.Cells.{AreCells};
ghost use Rattle.image_commands.specs.Maps.{chunk_told as chunk_told_by, pairs_told};

use crate::commands::{put_text, seen_both};
use crate::seaming::put_file;
use cow_image::{MAX_IMAGE, Told};
use cow_reports::{Seen, is_good, shown};
use image_options::{Form, Telling};
use image_reports::{ranged, table_lines};
use map_drawing::{Cells, cell_drawing, cell_rows, count_cells};
use opened_files::{Inputs, Trouble, held};
use sector::Pair;
use snapshot_extents::{Range, ranges};
use std::alloc::{AllocError, Global};
use std::io::Write;

/// The chunk size of a fresh store, of which a kernel is given one by its table: 4 KiB. Without pairs any is the same.
const FRESH_CHUNK: u32 = 8;

/// The chunk size of a store of which this is told.
fn chunk_told(told: &Told) -> u32
    ensures value { result ≡ chunk_told_by told.now }
    ensures some { 0 < result }
    ensures allowed { result ≤ 1024 }
{
    match told {
        Told::Written(map) => map.chunk,
        Told::Fresh => FRESH_CHUNK,
        Told::Refused(_) => FRESH_CHUNK,
    }
}

/// Where the bytes stand that the snapshot shows of whose store this is told, of an origin of so many sectors.
#[tactic(auto, using(crate::proofs::Near::near))]
fn found_ranges(alloc: Global, told: &Told, size: u64) -> Result<Vec<Range>, AllocError>
    requires { size ≤ 68_719_476_736 }
    ensures { IfOk result (λ ranges. AreRanges (chunk_told_by told.now) (pairs_told told.now) (512 * size) ranges.items) }
{
    match told {
        Told::Written(map) => ranges(alloc, map.chunk, map.pairs.as_slice(), size),
        Told::Fresh => ranges(alloc, FRESH_CHUNK, &[], size),
        Told::Refused(_) => ranges(alloc, FRESH_CHUNK, &[], size),
    }
}

/// In how many chunks of each part of an origin of so many sectors there are copies, by the store of which this is told.
fn found_cells(alloc: Global, told: &Told, size: u64) -> Result<Cells, AllocError>
    requires { size ≤ 68_719_476_736 }
    ensures { IfOk result (λ found. AreCells (pairs_told told.now) ((size + chunk_told_by told.now - 1) / chunk_told_by told.now) found) }
{
    match told {
        Told::Written(map) => cells_of(alloc, map.pairs.as_slice(), map.chunk, size),
        Told::Fresh => cells_of(alloc, &[], FRESH_CHUNK, size),
        Told::Refused(_) => cells_of(alloc, &[], FRESH_CHUNK, size),
    }
}

/// In how many chunks of each part there are copies, by pairs and the sectors of a chunk.
#[tactic(auto, using(crate::proofs::Near::few_chunks))]
fn cells_of(alloc: Global, pairs: &[Pair], chunk: u32, size: u64) -> Result<Cells, AllocError>
    requires some { 0 < chunk }
    requires allowed { chunk ≤ 1024 }
    requires small { size ≤ 68_719_476_736 }
    ensures { IfOk result (λ found. AreCells pairs.now ((size + chunk - 1) / chunk) found) }
{
    let sectors = chunk as u64;
    count_cells(alloc, pairs, (size + sectors - 1) / sectors)
}

/// Reads a store over its origin, neither of which was written meanwhile.
fn looked<'a>(
    rt: &'a HostRuntime,
    origin: &'a str,
    cow: &'a str,
    telling: Telling,
) -> Result<(u64, Seen), Trouble<'a>>
    ensures { IfOk result (λ both. both.0 ≤ MAX_IMAGE) }
{
    let mut inputs = Inputs::open(rt, origin, cow, telling)?;
    let (size, seen) = seen_both(rt, &mut inputs)?;
    inputs.are_unchanged()?;
    Ok((size, seen))
}

/// Prints where each byte of the snapshot's array stands, or why its store is refused.
pub fn ranged_map<'a, W: Write>(
    rt: &'a HostRuntime,
    origin: &'a str,
    cow: &'a str,
    form: Form,
    telling: Telling,
    output: &mut W,
) -> Result<bool, Trouble<'a>> {
    let (size, seen) = looked(rt, origin, cow, telling)?;
    if !is_good(&seen.told) {
        return put_text(cow, shown(rt.alloc(), &seen, form), &seen, output);
    }
    let found = held(cow, found_ranges(rt.alloc(), &seen.told, size))?;
    let text = ranged(rt.alloc(), origin, cow, found.as_slice(), form);
    put_text(cow, text, &seen, output)
}

/// Prints which parts of an origin have copies, or draws them into a new file; or prints why the store is refused.
pub fn picture<'a, W: Write>(
    rt: &'a HostRuntime,
    origin: &'a str,
    cow: &'a str,
    svg: Option<&'a str>,
    telling: Telling,
    output: &mut W,
) -> Result<bool, Trouble<'a>> {
    let (size, seen) = looked(rt, origin, cow, telling)?;
    if !is_good(&seen.told) {
        return put_text(cow, shown(rt.alloc(), &seen, Form::Lines), &seen, output);
    }
    let found = held(cow, found_cells(rt.alloc(), &seen.told, size))?;
    match svg {
        None => put_text(cow, cell_rows(rt.alloc(), &found), &seen, output),
        Some(out) => {
            let text = held(out, cell_drawing(rt.alloc(), &found))?;
            put_file(rt, out, text.as_slice(), output)?;
            Ok(true)
        }
    }
}

/// Prints the lines of tables that a kernel is given for a store and its origin, or why the store is refused.
pub fn table<'a, W: Write>(
    rt: &'a HostRuntime,
    origin: &'a str,
    cow: &'a str,
    telling: Telling,
    output: &mut W,
) -> Result<bool, Trouble<'a>> {
    let (size, seen) = looked(rt, origin, cow, telling)?;
    if !is_good(&seen.told) {
        return put_text(cow, shown(rt.alloc(), &seen, Form::Lines), &seen, output);
    }
    let chunk = chunk_told(&seen.told);
    let text = table_lines(rt.alloc(), size, origin, cow, chunk);
    put_text(cow, text, &seen, output)
}
