// The store that leads from one array to another.
ghost use Rattle.std.specs.Prelude.{◌≡◌, ℕ, ◌+◌, ◌*◌, ◌<◌, ◌≤◌, List, length, true, IfOk, OnOk, Some, take, drop};
ghost use Rattle.std.specs.Io.KnownBytes.{Appends};
ghost use Rattle.chunk.specs.Sizes.{is_chunk};
ghost use Rattle.new_store_files.specs.Changed.{AreChanged, IsStoreBetween};

use crate::padding::Padded;
use crate::write_store;
use cow_image::Stopped;
use image::{Image, Sink};
use sector::{Chunk, Pair};
use std::alloc::{AllocError, Global};

/// How many bytes are compared at once.
const PIECE: usize = 1_048_576;

/// Compares so many chunks of an origin and an array from one on, by the bytes that were read of both, and adds each that differs
/// as a pair with itself.
fn compare(
    theirs: &[u8],
    ours: &[u8],
    chunk: u32,
    first: Chunk,
    count: usize,
    pairs: &mut Vec<Pair>,
) -> Result<(), AllocError>
    requires theirs { length theirs.now ≡ 512 * (chunk * count) }
    requires ours { length ours.now ≡ 512 * (chunk * count) }
    requires small { chunk ≤ 1024 }
    requires near { first + count ≤ 68_719_476_736 }
    ensures added { OnOk result ((o : List ℕ) → (a : List ℕ) → theirs.now ≡ take (512 * (chunk * count)) (drop (512 * (chunk * first)) o) → ours.now ≡ take (512 * (chunk * count)) (drop (512 * (chunk * first)) a) → AreChanged chunk o a first pairs.old.items → AreChanged chunk o a (first + count) pairs.new.items) }
{
    let bytes = 512 * chunk as usize;
    for index in 0..count {
        let from = bytes * index;
        if ours[from..from + bytes] != theirs[from..from + bytes] {
            let old = first + index as u64;
            pairs.push(Pair { old, new: old })?;
        }
    }
    Ok(())
}

/// Compares chunks from one on, as many as there is room for both, and adds those that differ.
fn compare_piece<O: Image, A: Image>(
    origin: &mut O,
    array: &mut A,
    chunk: u32,
    first: Chunk,
    count: usize,
    theirs: &mut [u8],
    ours: &mut [u8],
    pairs: &mut Vec<Pair>,
) -> Result<(), Stopped>
    requires theirs { length theirs.old ≡ 512 * (chunk * count) }
    requires ours { length ours.old ≡ 512 * (chunk * count) }
    requires small { chunk ≤ 1024 }
    requires near { first + count ≤ 68_719_476_736 }
    ensures added { OnOk result ((o : List ℕ) → (a : List ℕ) → O.bytes origin.old ≡ Some o → A.bytes array.old ≡ Some a → AreChanged chunk o a first pairs.old.items → AreChanged chunk o a (first + count) pairs.new.items) }
    ensures origin { O.bytes origin.new ≡ O.bytes origin.old }
    ensures array { A.bytes array.new ≡ A.bytes array.old }
{
    let at = 512 * (chunk as u64 * first);
    match origin.read_at(at, theirs) {
        Ok(()) => {}
        Err(error) => return Err(Stopped::Unreadable(error)),
    }
    match array.read_at(at, ours) {
        Ok(()) => {}
        Err(error) => return Err(Stopped::Unreadable(error)),
    }
    match compare(theirs, ours, chunk, first, count, pairs) {
        Ok(()) => Ok(()),
        Err(_) => Err(Stopped::NoMemory),
    }
}

/// The chunks of so many in which an array differs from an origin, in their order, each as a pair with itself.
fn changed<O: Image, A: Image>(
    alloc: Global,
    origin: &mut O,
    array: &mut A,
    chunk: u32,
    total: u64,
) -> Result<Vec<Pair>, Stopped>
    requires some { 0 < chunk }
    requires allowed { chunk ≤ 1024 }
    requires small { total ≤ 68_719_476_736 }
    ensures all { IfOk result (λ pairs. (o : List ℕ) → (a : List ℕ) → O.bytes origin.old ≡ Some o → A.bytes array.old ≡ Some a → AreChanged chunk o a total pairs.items) }
    ensures origin { O.bytes origin.new ≡ O.bytes origin.old }
    ensures array { A.bytes array.new ≡ A.bytes array.old }
{
    let Ok(mut theirs) = vec![in alloc; 0u8; PIECE] else {
        return Err(Stopped::NoMemory);
    };
    let Ok(mut ours) = vec![in alloc; 0u8; PIECE] else {
        return Err(Stopped::NoMemory);
    };
    let mut pairs: Vec<Pair> = Vec::new(alloc);
    let theirs = theirs.as_mut_slice();
    let ours = ours.as_mut_slice();
    match compare_all(origin, array, chunk, total, theirs, ours, &mut pairs) {
        Ok(()) => Ok(pairs),
        Err(stopped) => Err(stopped),
    }
}

/// Compares so many chunks, through room for a piece of both, and adds those that differ.
fn compare_all<O: Image, A: Image>(
    origin: &mut O,
    array: &mut A,
    chunk: u32,
    total: u64,
    theirs: &mut [u8],
    ours: &mut [u8],
    pairs: &mut Vec<Pair>,
) -> Result<(), Stopped>
    requires some { 0 < chunk }
    requires allowed { chunk ≤ 1024 }
    requires small { total ≤ 68_719_476_736 }
    requires theirs { length theirs.old ≡ 1_048_576 }
    requires ours { length ours.old ≡ 1_048_576 }
    ensures all { OnOk result ((o : List ℕ) → (a : List ℕ) → O.bytes origin.old ≡ Some o → A.bytes array.old ≡ Some a → AreChanged chunk o a 0 pairs.old.items → AreChanged chunk o a total pairs.new.items) }
    ensures origin { O.bytes origin.new ≡ O.bytes origin.old }
    ensures array { A.bytes array.new ≡ A.bytes array.old }
{
    let bytes = 512 * chunk as usize;
    let most = (PIECE / bytes) as u64;
    let mut done: u64 = 0;
    while done < total {
        let count = most.min(total - done) as usize;
        let theirs = &mut theirs[..bytes * count];
        let ours = &mut ours[..bytes * count];
        match compare_piece(origin, array, chunk, done, count, theirs, ours, pairs) {
            Ok(()) => {}
            Err(stopped) => return Err(stopped),
        }
        done += count as u64;
    }
    Ok(())
}

/// How many chunks an array of so many sectors has; the last one may be short.
fn chunks_in(chunk: u32, size: u64) -> u64
    requires some { 0 < chunk }
    requires small { size ≤ 68_719_476_736 }
    ensures few { result ≤ 68_719_476_736 }
    ensures all { size ≤ chunk * result }
    ensures each { (c : ℕ) → c < result → chunk * c < size }
{
    size.div_ceil(chunk as u64)
}

/// Writes the store whose snapshot, over an origin of so many sectors, is an array: with copies of just the chunks in which the two
/// differ.
pub fn write_between<O: Image, A: Image, S: Sink>(
    alloc: Global,
    origin: &mut O,
    array: &mut A,
    chunk: u32,
    size: u64,
    sink: &mut S,
) -> Result<(), Stopped>
    requires allowed { is_chunk chunk ≡ true }
    requires small { size ≤ 68_719_476_736 }
    ensures all { OnOk result ((o : List ℕ) → (a : List ℕ) → O.bytes origin.old ≡ Some o → A.bytes array.old ≡ Some a → length o ≡ 512 * size → length a ≡ 512 * size → (s : List ℕ) × IsStoreBetween chunk size o a s × Appends (S.contents sink.old) (S.contents sink.new) s) }
{
    let end = 512 * size;
    let mut theirs = Padded { below: origin, end };
    let mut ours = Padded { below: array, end };
    let total = chunks_in(chunk, size);
    let pairs = match changed(alloc, &mut theirs, &mut ours, chunk, total) {
        Ok(pairs) => pairs,
        Err(stopped) => return Err(stopped),
    };
    match write_store(alloc, &mut ours, chunk, pairs.as_slice(), sink) {
        Ok(()) => Ok(()),
        Err(stopped) => Err(stopped),
    }
}
