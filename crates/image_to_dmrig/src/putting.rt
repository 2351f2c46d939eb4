// An image's bytes are written as lines of commands.
ghost use Rattle.std.specs.Prelude.{◌≡◌, ℕ, ◌+◌, ◌*◌, ◌<◌, ◌≤◌, ◌==◌, ◌++◌, List, length, IfOk, OnErr, OnOk, Some};
ghost use Rattle.std.specs.List.{list_all};
ghost use Rattle.std.specs.Io.KnownBytes.{Appends};
ghost use Rattle.image_to_dmrig.specs.Loads.{disk_line, load_if, loads_below, piece, pieces, words_text, IsFrontOf, IsRest};

use crate::texts::{disk_text, load_text};
use image::{Image, Sink};
use std::alloc::Global;
use std::io;
use words::Name;

/// The most sectors that a disk of `dmrig` has.
pub const MOST_SECTORS: u64 = 16_777_216;

/// Why not all lines were written.
#[derive(Debug, Drop)]
pub enum Stopped {
    /// A read of the image failed.
    Unreadable(io::Error),
    /// A write failed.
    Unwritable(io::Error),
    /// Memory for a line is refused.
    NoMemory,
}

/// Writes the lines that make a disk with the bytes of an image of so many sectors: its own line, and a line for each 16
/// sectors that are not all zeros.
pub fn put_words<I: Image, S: Sink>(
    alloc: Global,
    name: &Name,
    image: &mut I,
    sectors: u64,
    sink: &mut S,
) -> Result<(), Stopped>
    requires { sectors ≤ MOST_SECTORS }
    ensures all { OnOk result ((b : List ℕ) → I.bytes image.old ≡ Some b → length b ≡ 512 * sectors → Appends (S.contents sink.old) (S.contents sink.new) (words_text name.now b sectors)) }
    ensures part { OnErr result ((b : List ℕ) → I.bytes image.old ≡ Some b → length b ≡ 512 * sectors → (front : List ℕ) × IsFrontOf front (words_text name.now b sectors) × Appends (S.contents sink.old) (S.contents sink.new) front) }
{
    let Ok(line) = disk_text(alloc, name, sectors) else {
        return Err(Stopped::NoMemory);
    };
    if let Err(error) = sink.put(line.as_slice()) {
        return Err(Stopped::Unwritable(error));
    }
    match put_loads(alloc, name, image, sectors, sink) {
        Ok(()) => Ok(()),
        Err(stopped) => Err(stopped),
    }
}

/// Writes the lines that give a disk the bytes of an image.
fn put_loads<I: Image, S: Sink>(
    alloc: Global,
    name: &Name,
    image: &mut I,
    sectors: u64,
    sink: &mut S,
) -> Result<(), Stopped>
    requires { sectors ≤ MOST_SECTORS }
    ensures all { OnOk result ((b : List ℕ) → I.bytes image.old ≡ Some b → length b ≡ 512 * sectors → Appends (S.contents sink.old) (S.contents sink.new) (loads_below name.now b (pieces sectors))) }
    ensures part { OnErr result ((b : List ℕ) → I.bytes image.old ≡ Some b → length b ≡ 512 * sectors → (front : List ℕ) × IsFrontOf front (loads_below name.now b (pieces sectors)) × Appends (S.contents sink.old) (S.contents sink.new) front) }
{
    let Ok(mut room) = vec![in alloc; 0u8; 8192] else {
        return Err(Stopped::NoMemory);
    };
    let room = room.as_mut_slice();
    for number in 0..(sectors + 15) / 16 {
        let len = (512 * sectors - 8192 * number).min(8192);
        let out = &mut room[..len as usize];
        if let Err(stopped) = put_piece(alloc, name, image, number, out, sink) {
            return Err(stopped);
        }
    }
    Ok(())
}

/// Writes the line that gives a disk a piece of an image, of as many bytes as there is room for, if it is not all zeros.
fn put_piece<I: Image, S: Sink>(
    alloc: Global,
    name: &Name,
    image: &mut I,
    number: u64,
    room: &mut [u8],
    sink: &mut S,
) -> Result<(), Stopped>
    requires small { number ≤ MOST_SECTORS }
    requires part { length room.old ≤ 8192 }
    ensures all { OnOk result ((b : List ℕ) → I.bytes image.old ≡ Some b → IsRest b number (length room.old) → Appends (S.contents sink.old) (S.contents sink.new) (load_if name.now number (piece b number))) }
    ensures part { OnErr result ((b : List ℕ) → I.bytes image.old ≡ Some b → IsRest b number (length room.old) → (front : List ℕ) × IsFrontOf front (load_if name.now number (piece b number)) × Appends (S.contents sink.old) (S.contents sink.new) front) }
    ensures bytes { I.bytes image.new ≡ I.bytes image.old }
{
    if let Err(error) = image.read_at(8192 * number, room) {
        return Err(Stopped::Unreadable(error));
    }
    if is_blank(room) {
        return Ok(());
    }
    let Ok(line) = load_text(alloc, name, 16 * number, room) else {
        return Err(Stopped::NoMemory);
    };
    match sink.put(line.as_slice()) {
        Ok(()) => Ok(()),
        Err(error) => Err(Stopped::Unwritable(error)),
    }
}

/// Whether all bytes are zeros.
fn is_blank(bytes: &[u8]) -> bool
    ensures { result ≡ list_all (λ byte. byte == 0) bytes.now }
{
    bytes.iter().all(|byte| *byte == 0)
}
