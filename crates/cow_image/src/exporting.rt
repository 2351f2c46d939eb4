// A snapshot's array is written out.
ghost use Rattle.std.specs.Prelude.{◌≡◌, ℕ, ◌+◌, ◌*◌, ◌<◌, ◌≤◌, List, length, OnErr, OnOk, Some};
ghost use Rattle.std.specs.Io.KnownBytes.{Appends};
ghost use Rattle.cow_format.specs.Picture.{picture};
ghost use Rattle.cow_image.specs.Maps.{IsMapOf};
ghost use Rattle.cow_image.specs.Sorted.{IsRisingBy, old_of};
ghost use Rattle.cow_image.specs.Shown.{shown, IsFrontOf};

use crate::windowed::Windowed;
use crate::{CowMap, show_range};
use image::{Image, MemImage, Sink};
use sector::Pair;
use std::alloc::Global;
use std::io;

/// Why an export came to no end.
#[derive(Debug, Drop)]
pub enum Stopped {
    /// A read of the origin or of the store failed.
    Unreadable(io::Error),
    /// A write failed.
    Unwritable(io::Error),
    /// Memory for a piece is refused.
    NoMemory,
}

/// How many bytes are written at once: unsaved chunks in a row, or copies in a row, are read by one read, and short ones that lie
/// near one another by windows.
const PIECE: usize = 1_048_576;

/// Writes what a snapshot shows, for an origin of so many sectors: its array, from the front to the end.
pub fn export<O: Image, C: Image, S: Sink>(
    alloc: Global,
    origin: &mut O,
    cow: &mut C,
    map: &CowMap,
    size: u64,
    sink: &mut S,
) -> Result<(), Stopped>
    requires { size ≤ 68_719_476_736 }
    ensures all { OnOk result ((o : List ℕ) → (b : List ℕ) → O.bytes origin.old ≡ Some o → C.bytes cow.old ≡ Some b → length o ≡ 512 * size → IsMapOf size b map.now → Appends (S.contents sink.old) (S.contents sink.new) (picture map.now.chunk o b)) }
    ensures part { OnErr result ((o : List ℕ) → (b : List ℕ) → O.bytes origin.old ≡ Some o → C.bytes cow.old ≡ Some b → length o ≡ 512 * size → IsMapOf size b map.now → (front : List ℕ) × IsFrontOf front (picture map.now.chunk o b) × Appends (S.contents sink.old) (S.contents sink.new) front) }
{
    let pairs = map.pairs.as_slice();
    match export_pairs(alloc, origin, cow, map.chunk, pairs, size, sink) {
        Ok(()) => Ok(()),
        Err(stopped) => Err(stopped),
    }
}

/// Writes what a snapshot shows by these pairs, for an origin of so many sectors, from the front to the end.
pub fn export_pairs<O: Image, C: Image, S: Sink>(
    alloc: Global,
    origin: &mut O,
    cow: &mut C,
    chunk: u32,
    pairs: &[Pair],
    size: u64,
    sink: &mut S,
) -> Result<(), Stopped>
    requires some { 0 < chunk }
    requires allowed { chunk ≤ 1024 }
    requires rising { IsRisingBy old_of pairs.now }
    requires small { size ≤ 68_719_476_736 }
    ensures all { OnOk result ((o : List ℕ) → (b : List ℕ) → O.bytes origin.old ≡ Some o → C.bytes cow.old ≡ Some b → Appends (S.contents sink.old) (S.contents sink.new) (shown chunk o b pairs.now 0 (512 * size))) }
    ensures part { OnErr result ((o : List ℕ) → (b : List ℕ) → O.bytes origin.old ≡ Some o → C.bytes cow.old ≡ Some b → (front : List ℕ) × IsFrontOf front (shown chunk o b pairs.now 0 (512 * size)) × Appends (S.contents sink.old) (S.contents sink.new) front) }
{
    let Ok(mut room) = vec![in alloc; 0u8; PIECE] else {
        return Err(Stopped::NoMemory);
    };
    let Ok(mut origin) = Windowed::new(alloc, origin) else {
        return Err(Stopped::NoMemory);
    };
    let Ok(mut cow) = Windowed::new(alloc, cow) else {
        return Err(Stopped::NoMemory);
    };
    let end = 512 * size;
    let room = room.as_mut_slice();
    match write_all(&mut origin, &mut cow, chunk, pairs, end, room, sink) {
        Ok(()) => Ok(()),
        Err(stopped) => Err(stopped),
    }
}

/// The chunk size with which the origin of a fresh store is copied: without pairs any is the same.
const FRESH_CHUNK: u32 = 128;

/// Writes what the snapshot of a fresh store shows: its origin, which has so many sectors, from the front to the end.
pub fn export_fresh<O: Image, S: Sink>(
    alloc: Global,
    origin: &mut O,
    size: u64,
    sink: &mut S,
) -> Result<(), Stopped>
    requires { size ≤ 68_719_476_736 }
    ensures all { OnOk result ((o : List ℕ) → O.bytes origin.old ≡ Some o → length o ≡ 512 * size → Appends (S.contents sink.old) (S.contents sink.new) o) }
    ensures part { OnErr result ((o : List ℕ) → O.bytes origin.old ≡ Some o → length o ≡ 512 * size → (front : List ℕ) × IsFrontOf front o × Appends (S.contents sink.old) (S.contents sink.new) front) }
{
    let Ok(mut room) = vec![in alloc; 0u8; PIECE] else {
        return Err(Stopped::NoMemory);
    };
    let mut none = MemImage {
        bytes: Vec::new(alloc),
    };
    let pairs: Vec<Pair> = Vec::new(alloc);
    let pairs = pairs.as_slice();
    let room = room.as_mut_slice();
    let end = 512 * size;
    match write_all(origin, &mut none, FRESH_CHUNK, pairs, end, room, sink) {
        Ok(()) => Ok(()),
        Err(stopped) => Err(stopped),
    }
}

/// Writes so many bytes of what a snapshot shows by these pairs, through room for a piece of it.
fn write_all<O: Image, C: Image, S: Sink>(
    origin: &mut O,
    cow: &mut C,
    chunk: u32,
    pairs: &[Pair],
    end: u64,
    room: &mut [u8],
    sink: &mut S,
) -> Result<(), Stopped>
    requires some { 0 < chunk }
    requires allowed { chunk ≤ 1024 }
    requires rising { IsRisingBy old_of pairs.now }
    requires small { end ≤ 35_184_372_088_832 }
    requires room { 0 < length room.old }
    ensures all { OnOk result ((o : List ℕ) → (b : List ℕ) → O.bytes origin.old ≡ Some o → C.bytes cow.old ≡ Some b → Appends (S.contents sink.old) (S.contents sink.new) (shown chunk o b pairs.now 0 end)) }
    ensures part { OnErr result ((o : List ℕ) → (b : List ℕ) → O.bytes origin.old ≡ Some o → C.bytes cow.old ≡ Some b → (front : List ℕ) × IsFrontOf front (shown chunk o b pairs.now 0 end) × Appends (S.contents sink.old) (S.contents sink.new) front) }
{
    let mut done = 0;
    while done < end {
        let len = (end - done).min(room.len() as u64);
        let out = &mut room[..len as usize];
        if let Err(stopped) = put_piece(origin, cow, chunk, pairs, done, out, sink) {
            return Err(stopped);
        }
        done += len;
    }
    Ok(())
}

/// Writes as much of what a snapshot shows, from a byte on, as there is room for.
fn put_piece<O: Image, C: Image, S: Sink>(
    origin: &mut O,
    cow: &mut C,
    chunk: u32,
    pairs: &[Pair],
    at: u64,
    room: &mut [u8],
    sink: &mut S,
) -> Result<(), Stopped>
    requires some { 0 < chunk }
    requires allowed { chunk ≤ 1024 }
    requires rising { IsRisingBy old_of pairs.now }
    requires near { at + length room.old ≤ 35_184_372_088_832 }
    ensures all { OnOk result ((o : List ℕ) → (b : List ℕ) → O.bytes origin.old ≡ Some o → C.bytes cow.old ≡ Some b → Appends (S.contents sink.old) (S.contents sink.new) (shown chunk o b pairs.now at (length room.old))) }
    ensures part { OnErr result ((o : List ℕ) → (b : List ℕ) → O.bytes origin.old ≡ Some o → C.bytes cow.old ≡ Some b → (front : List ℕ) × IsFrontOf front (shown chunk o b pairs.now at (length room.old)) × Appends (S.contents sink.old) (S.contents sink.new) front) }
    ensures origin { O.bytes origin.new ≡ O.bytes origin.old }
    ensures cow { C.bytes cow.new ≡ C.bytes cow.old }
{
    if let Err(error) = show_range(origin, cow, chunk, pairs, at, room) {
        return Err(Stopped::Unreadable(error));
    }
    match sink.put(room) {
        Ok(()) => Ok(()),
        Err(error) => Err(Stopped::Unwritable(error)),
    }
}
