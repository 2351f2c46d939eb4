// What a snapshot shows is read from any byte on.
ghost use Rattle.std.specs.Prelude.{◌≡◌, ℕ, ◌+◌, ◌*◌, ◌^◌, ◌<◌, ◌≤◌, List, length, IfSome, OnErr, OnOk, Some, None};
ghost use Rattle.image.specs.Reads.{MayNoMore};
ghost use Rattle.cow_image.specs.Sorted.{IsRisingBy, old_of};
ghost use Rattle.cow_image.specs.Fails.{PlaceFails, ShownFails};
ghost use Rattle.cow_image.specs.Runs.{IsRun};
ghost use Rattle.cow_image.specs.Shown.{shown};

use crate::running::{Run, run_at};
use image::Image;
use sector::{Chunk, Pair};
use std::io;

/// Reads what a snapshot shows in chunks in a row, from a byte of the first one on.
fn show_run<O: Image, C: Image>(
    origin: &mut O,
    cow: &mut C,
    chunk: u32,
    pairs: &[Pair],
    number: Chunk,
    inside: u64,
    run: Run,
    out: &mut [u8],
) -> io::Result<()>
    requires some { 0 < chunk }
    requires allowed { chunk ≤ 1024 }
    requires run { IsRun pairs.now number run.place run.chunks }
    requires part { inside + length out.old ≤ run.chunks * (512 * chunk) }
    ensures shown { OnOk result ((o : List ℕ) → (b : List ℕ) → O.bytes origin.old ≡ Some o → C.bytes cow.old ≡ Some b → out.new ≡ shown chunk o b pairs.now (512 * (chunk * number) + inside) (length out.old)) }
    ensures fails { OnErr result (PlaceFails (O.may_fail origin.old) (C.may_fail cow.old) chunk number inside (length out.old) run.place) }
    ensures origin { O.bytes origin.new ≡ O.bytes origin.old }
    ensures cow { C.bytes cow.new ≡ C.bytes cow.old }
    ensures calm { MayNoMore O.may_fail origin.old origin.new }
    ensures calm_cow { MayNoMore C.may_fail cow.old cow.new }
{
    let bytes = 512 * chunk as u64;
    match run.place {
        Some(place) => {
            let Some(at) = byte_in(bytes, place, inside) else {
                return Err(io::ErrorKind::UnexpectedEof.into());
            };
            match cow.read_at(at, out) {
                Ok(()) => Ok(()),
                Err(error) => Err(error),
            }
        }
        None => {
            let Some(at) = byte_in(bytes, number, inside) else {
                return Err(io::ErrorKind::UnexpectedEof.into());
            };
            match origin.read_at(at, out) {
                Ok(()) => Ok(()),
                Err(error) => Err(error),
            }
        }
    }
}

/// A byte of a chunk of so many bytes.
fn byte_in(bytes: u64, number: Chunk, inside: u64) -> Option<u64>
    ensures value { IfSome result (λ at. at ≡ bytes * number + inside) }
    ensures past { result ≡ None → 2 ^ 64 ≤ bytes * number + inside }
{
    bytes.checked_mul(number)?.checked_add(inside)
}

/// How many copies in a row are read at once.
const MOST: u64 = 65536;

/// Reads what a snapshot shows by these pairs, from a byte on.
pub fn show_range<O: Image, C: Image>(
    origin: &mut O,
    cow: &mut C,
    chunk: u32,
    pairs: &[Pair],
    at: u64,
    out: &mut [u8],
) -> io::Result<()>
    requires some { 0 < chunk }
    requires allowed { chunk ≤ 1024 }
    requires rising { IsRisingBy old_of pairs.now }
    requires near { at + length out.old < 2 ^ 64 }
    ensures shown { OnOk result ((o : List ℕ) → (b : List ℕ) → O.bytes origin.old ≡ Some o → C.bytes cow.old ≡ Some b → out.new ≡ shown chunk o b pairs.now at (length out.old)) }
    ensures fails { OnErr result (ShownFails (O.may_fail origin.old) (C.may_fail cow.old) chunk pairs.now at (length out.old)) }
    ensures origin { O.bytes origin.new ≡ O.bytes origin.old }
    ensures cow { C.bytes cow.new ≡ C.bytes cow.old }
    ensures calm { MayNoMore O.may_fail origin.old origin.new }
    ensures calm_cow { MayNoMore C.may_fail cow.old cow.new }
{
    let bytes = 512 * chunk as u64;
    let mut done = 0;
    while done < out.len() {
        let from = at + done as u64;
        let number = from / bytes;
        let inside = from % bytes;
        let run = run_at(pairs, number, MOST);
        let most = run.chunks.saturating_mul(bytes) - inside;
        let len = most.min((out.len() - done) as u64) as usize;
        let part = &mut out[done..done + len];
        match show_run(origin, cow, chunk, pairs, number, inside, run, part) {
            Ok(()) => {}
            Err(error) => return Err(error),
        }
        done += len;
    }
    Ok(())
}
