// Chunks of an image are copied to a sink.
ghost use Rattle.std.specs.Prelude.{◌≡◌, ℕ, ◌+◌, ◌*◌, ◌<◌, ◌≤◌, List, length, take, drop, slice_index_or, OnOk, Some};
ghost use Rattle.std.specs.Io.KnownBytes.{Appends};
ghost use Rattle.sector.specs.declared.pair.Pair.{Pair as PairOf};
ghost use Rattle.new_store_files.specs.Parts.{AreCopies};

use cow_image::Stopped;
use image::{Image, Sink};
use sector::{Chunk, Pair};
use std::io;

/// How many pairs from one on have new chunks in a row.
fn row_from(pairs: &[Pair], low: usize) -> usize
    requires { low < length pairs.now }
    ensures some { 0 < result }
    ensures inside { low + result ≤ length pairs.now }
    ensures row { (q : ℕ) → (d : PairOf) → q < result → (slice_index_or pairs.now (low + q) d).new ≡ (slice_index_or pairs.now low d).new + q }
{
    let first = pairs[low].new;
    let mut count: usize = 1;
    while count < pairs.len() - low {
        if first.checked_add(count as u64) != Some(pairs[low + count].new) {
            return count;
        }
        count += 1;
    }
    count
}

/// Reads chunks in a row, from one on.
fn read_row<I: Image>(image: &mut I, chunk: u32, first: Chunk, out: &mut [u8]) -> io::Result<()>
    ensures data { OnOk result ((b : List ℕ) → I.bytes image.old ≡ Some b → out.new ≡ take (length out.old) (drop (512 * (chunk * first)) b)) }
    ensures inside { OnOk result ((b : List ℕ) → I.bytes image.old ≡ Some b → 512 * (chunk * first) + length out.old ≤ length b) }
    ensures bytes { I.bytes image.new ≡ I.bytes image.old }
{
    let Some(at) = (512 * chunk as u64).checked_mul(first) else {
        return Err(io::ErrorKind::UnexpectedEof.into());
    };
    match image.read_at(at, out) {
        Ok(()) => Ok(()),
        Err(error) => Err(error),
    }
}

/// Reads the new chunks of these pairs, one behind the other.
fn read_copies<I: Image>(
    image: &mut I,
    chunk: u32,
    pairs: &[Pair],
    out: &mut [u8],
) -> io::Result<()>
    requires some { 0 < chunk }
    requires allowed { chunk ≤ 1024 }
    requires room { length out.old ≡ 512 * (chunk * length pairs.now) }
    ensures data { OnOk result ((b : List ℕ) → I.bytes image.old ≡ Some b → AreCopies chunk b pairs.now (length pairs.now) out.new) }
    ensures bytes { I.bytes image.new ≡ I.bytes image.old }
{
    let bytes = 512 * chunk as usize;
    let mut done = 0;
    while done < pairs.len() {
        let count = row_from(pairs, done);
        let part = &mut out[bytes * done..bytes * (done + count)];
        match read_row(image, chunk, pairs[done].new, part) {
            Ok(()) => {}
            Err(error) => return Err(error),
        }
        done += count;
    }
    Ok(())
}

/// Writes the new chunks of these pairs, one behind the other, through room for a chunk at least.
pub(crate) fn write_copies<I: Image, S: Sink>(
    image: &mut I,
    chunk: u32,
    pairs: &[Pair],
    room: &mut [u8],
    sink: &mut S,
) -> Result<(), Stopped>
    requires some { 0 < chunk }
    requires allowed { chunk ≤ 1024 }
    requires room { 512 * chunk ≤ length room.old }
    ensures all { OnOk result ((b : List ℕ) → I.bytes image.old ≡ Some b → (x : List ℕ) × (length x ≡ 512 * (chunk * length pairs.now)) × AreCopies chunk b pairs.now (length pairs.now) x × Appends (S.contents sink.old) (S.contents sink.new) x) }
    ensures bytes { I.bytes image.new ≡ I.bytes image.old }
{
    let bytes = 512 * chunk as usize;
    let most = room.len() / bytes;
    let mut done = 0;
    while done < pairs.len() {
        let count = most.min(pairs.len() - done);
        let part = &mut room[..bytes * count];
        match read_copies(image, chunk, &pairs[done..done + count], part) {
            Ok(()) => {}
            Err(error) => return Err(Stopped::Unreadable(error)),
        }
        match sink.put(part) {
            Ok(()) => {}
            Err(error) => return Err(Stopped::Unwritable(error)),
        }
        done += count;
    }
    Ok(())
}
