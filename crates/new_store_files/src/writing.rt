// A store is written from its front to its end.
ghost use Rattle.std.specs.Prelude.{◌≡◌, ℕ, ◌*◌, ◌<◌, ◌≤◌, ◌++◌, List, length, true, OnOk, Some};
ghost use Rattle.std.specs.Io.KnownBytes.{Appends};
ghost use Rattle.chunk.specs.Sizes.{is_chunk};
ghost use Rattle.cow_header.specs.HeaderText.{header_bytes};
ghost use Rattle.new_store_files.specs.Parts.{IsFrontOf};
ghost use Rattle.new_store_files.specs.Written.{IsStoreOf, IsGoodStore};

use crate::areas::write_area;
use cow_header::encode;
use cow_image::Stopped;
use image::{Image, Sink};
use metadata_area::Area;
use sector::Pair;
use std::alloc::Global;

/// How many bytes of copies are read and written at once, where a chunk is not larger.
const PIECE: usize = 1_048_576;

/// Writes a header.
fn write_header<S: Sink>(alloc: Global, chunk: u32, sink: &mut S) -> Result<(), Stopped>
    requires some { 0 < chunk }
    requires allowed { chunk ≤ 1024 }
    ensures { OnOk result (Appends (S.contents sink.old) (S.contents sink.new) (header_bytes (512 * chunk) true chunk)) }
{
    let Ok(mut header) = vec![in alloc; 0u8; 512 * chunk as usize] else {
        return Err(Stopped::NoMemory);
    };
    encode(header.as_mut_slice(), true, chunk);
    match sink.put(header.as_slice()) {
        Ok(()) => Ok(()),
        Err(error) => Err(Stopped::Unwritable(error)),
    }
}

/// Writes the areas of these pairs, and their copies, behind a header: full ones, and one that is not.
fn write_areas<I: Image, S: Sink>(
    image: &mut I,
    area: &mut Area,
    pairs: &[Pair],
    room: &mut [u8],
    sink: &mut S,
) -> Result<(), Stopped>
    requires room { 512 * area.old.chunk ≤ length room.old }
    ensures all { OnOk result ((b : List ℕ) → I.bytes image.old ≡ Some b → (front : List ℕ) → IsFrontOf area.old.chunk b pairs.now 0 front → (x : List ℕ) × IsStoreOf area.old.chunk b pairs.now (front ++ x) × Appends (S.contents sink.old) (S.contents sink.new) x) }
    ensures bytes { I.bytes image.new ≡ I.bytes image.old }
{
    let slots = area.slots() as usize;
    let mut first: usize = 0;
    let mut number: u64 = 0;
    while first + slots <= pairs.len() {
        let place = first as u64 + number + 2;
        let part = &pairs[first..first + slots];
        match write_area(image, area, place, part, room, sink) {
            Ok(()) => {}
            Err(stopped) => return Err(stopped),
        }
        first += slots;
        number += 1;
    }
    let place = first as u64 + number + 2;
    match write_area(image, area, place, &pairs[first..], room, sink) {
        Ok(()) => Ok(()),
        Err(stopped) => Err(stopped),
    }
}

/// Writes the store of these pairs, with copies of the image's chunks that are their new ones.
pub fn write_store<I: Image, S: Sink>(
    alloc: Global,
    image: &mut I,
    chunk: u32,
    pairs: &[Pair],
    sink: &mut S,
) -> Result<(), Stopped>
    requires { is_chunk chunk ≡ true }
    ensures all { OnOk result ((b : List ℕ) → I.bytes image.old ≡ Some b → (s : List ℕ) × IsStoreOf chunk b pairs.now s × IsGoodStore chunk b pairs.now s × Appends (S.contents sink.old) (S.contents sink.new) s) }
    ensures bytes { I.bytes image.new ≡ I.bytes image.old }
{
    let Ok(mut area) = Area::new(alloc, chunk) else {
        return Err(Stopped::NoMemory);
    };
    let Ok(mut room) = vec![in alloc; 0u8; PIECE] else {
        return Err(Stopped::NoMemory);
    };
    let room = room.as_mut_slice();
    match write_header(alloc, chunk, sink) {
        Ok(()) => {}
        Err(stopped) => return Err(stopped),
    }
    match write_areas(image, &mut area, pairs, room, sink) {
        Ok(()) => Ok(()),
        Err(stopped) => Err(stopped),
    }
}
