// A snapshot is compared with its origin.
ghost use Rattle.std.specs.Prelude.{◌≡◌, ℕ, ◌+◌, ◌*◌, ◌<◌, ◌≤◌, List, length, IfOk, OnOk, Some};
ghost use Rattle.cow_format.specs.Picture.{picture};
ghost use Rattle.cow_image.specs.Maps.{IsMapOf};
ghost use Rattle.cow_image.specs.Sorted.{IsRisingBy, old_of};
ghost use Rattle.cow_image.specs.Shown.{shown};
ghost use Rattle.cow_salvage.specs.Differences.{AreDifferences};

use crate::Span;
use crate::comparing::compare;
use cow_image::{CowMap, run_at, show_range};
use image::Image;
use sector::Pair;
use std::alloc::Global;
use std::io;

/// Why a comparison came to no end.
#[derive(Debug, Drop)]
pub enum Undone {
    /// A read of the origin or of the store failed.
    Unreadable(io::Error),
    /// Memory is refused.
    NoMemory,
}

/// How many sectors are compared at once.
const PIECE: u64 = 2048;

/// How many chunks in a row are looked for.
const MOST: u64 = 65536;

/// The sectors in which what a snapshot shows is another than its origin, which has so many; neighbours are joined. Only
/// chunks with copies are read.
pub fn differences<O: Image, C: Image>(
    alloc: Global,
    origin: &mut O,
    cow: &mut C,
    map: &CowMap,
    size: u64,
) -> Result<Vec<Span>, Undone>
    requires { size ≤ 68_719_476_736 }
    ensures all { IfOk result (λ spans. (o : List ℕ) → (b : List ℕ) → O.bytes origin.old ≡ Some o → C.bytes cow.old ≡ Some b → length o ≡ 512 * size → IsMapOf size b map.now → AreDifferences (picture map.now.chunk o b) o size spans.items) }
{
    let Ok(mut ours) = vec![in alloc; 0u8; 1_048_576] else {
        return Err(Undone::NoMemory);
    };
    let Ok(mut theirs) = vec![in alloc; 0u8; 1_048_576] else {
        return Err(Undone::NoMemory);
    };
    let mut spans: Vec<Span> = Vec::new(alloc);
    let pairs = map.pairs.as_slice();
    let ours = ours.as_mut_slice();
    let theirs = theirs.as_mut_slice();
    match compare_all(
        origin, cow, map.chunk, pairs, size, ours, theirs, &mut spans,
    ) {
        Ok(()) => Ok(spans),
        Err(undone) => Err(undone),
    }
}

/// Compares all chunks that have copies, by these pairs, through room for a piece of both.
fn compare_all<O: Image, C: Image>(
    origin: &mut O,
    cow: &mut C,
    chunk: u32,
    pairs: &[Pair],
    size: u64,
    ours: &mut [u8],
    theirs: &mut [u8],
    spans: &mut Vec<Span>,
) -> Result<(), Undone>
    requires some { 0 < chunk }
    requires allowed { chunk ≤ 1024 }
    requires rising { IsRisingBy old_of pairs.now }
    requires small { size ≤ 68_719_476_736 }
    requires ours { length ours.old ≡ 1_048_576 }
    requires theirs { length theirs.old ≡ 1_048_576 }
    ensures all { OnOk result ((o : List ℕ) → (b : List ℕ) → O.bytes origin.old ≡ Some o → C.bytes cow.old ≡ Some b → length o ≡ 512 * size → AreDifferences (shown chunk o b pairs.now 0 (512 * size)) o 0 spans.old.items → AreDifferences (shown chunk o b pairs.now 0 (512 * size)) o size spans.new.items) }
{
    let sectors = chunk as u64;
    let mut number = 0;
    let mut done = 0;
    while done < size {
        let run = run_at(pairs, number, MOST);
        let chunks = run.chunks.min(size - done);
        let end = size.min(done + chunks * sectors);
        if run.place.is_some() {
            compare_run(origin, cow, chunk, pairs, done, end, ours, theirs, spans)?;
        }
        number += chunks;
        done = end;
    }
    Ok(())
}

/// Compares the sectors from one on up to another, piece by piece.
fn compare_run<O: Image, C: Image>(
    origin: &mut O,
    cow: &mut C,
    chunk: u32,
    pairs: &[Pair],
    first: u64,
    end: u64,
    ours: &mut [u8],
    theirs: &mut [u8],
    spans: &mut Vec<Span>,
) -> Result<(), Undone>
    requires some { 0 < chunk }
    requires allowed { chunk ≤ 1024 }
    requires rising { IsRisingBy old_of pairs.now }
    requires order { first ≤ end }
    requires small { end ≤ 68_719_476_736 }
    requires ours { length ours.old ≡ 1_048_576 }
    requires theirs { length theirs.old ≡ 1_048_576 }
    ensures all { OnOk result ((size : ℕ) → (o : List ℕ) → (b : List ℕ) → O.bytes origin.old ≡ Some o → C.bytes cow.old ≡ Some b → end ≤ size → AreDifferences (shown chunk o b pairs.now 0 (512 * size)) o first spans.old.items → AreDifferences (shown chunk o b pairs.now 0 (512 * size)) o end spans.new.items) }
    ensures origin { O.bytes origin.new ≡ O.bytes origin.old }
    ensures cow { C.bytes cow.new ≡ C.bytes cow.old }
{
    let mut done = first;
    while done < end {
        let count = PIECE.min(end - done);
        let len = 512 * count as usize;
        let ours = &mut ours[..len];
        let theirs = &mut theirs[..len];
        match origin.read_at(512 * done, theirs) {
            Ok(()) => {}
            Err(error) => return Err(Undone::Unreadable(error)),
        }
        match show_range(origin, cow, chunk, pairs, 512 * done, ours) {
            Ok(()) => {}
            Err(error) => return Err(Undone::Unreadable(error)),
        }
        match compare(ours, theirs, done, count, spans) {
            Ok(()) => {}
            Err(_) => return Err(Undone::NoMemory),
        }
        done += count;
    }
    Ok(())
}
