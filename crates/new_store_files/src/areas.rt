// An area is written, and its copies behind it.
ghost use Rattle.std.specs.Prelude.{◌≡◌, ℕ, ◌+◌, ◌*◌, ◌^◌, ◌<◌, ◌≤◌, List, length, slice_index_or, OnOk, Some};
ghost use Rattle.std.specs.Io.KnownBytes.{Appends};
ghost use Rattle.sector.specs.declared.pair.Pair.{Pair as PairOf};
ghost use Rattle.cow_format.specs.Slots.{pair_in};
ghost use Rattle.metadata_area.specs.Cleared.{no_pair};
ghost use Rattle.new_store_files.specs.Parts.{IsAreaOf, moved};

use crate::copying::write_copies;
use cow_image::Stopped;
use image::{Image, Sink};
use metadata_area::Area;
use sector::{Chunk, Pair};

/// Puts these pairs into an area's slots, with places in a row from one on, and empties the others.
fn fill(area: &mut Area, place: Chunk, pairs: &[Pair])
    requires few { length pairs.now ≤ 32 * area.old.chunk }
    requires near { place + length pairs.now < 2 ^ 64 }
    ensures pairs { (k : ℕ) → (d : PairOf) → k < length pairs.now → pair_in area.new.bytes.items k ≡ moved (slice_index_or pairs.now k d) (place + k) }
    ensures empty { (k : ℕ) → length pairs.now ≤ k → pair_in area.new.bytes.items k ≡ no_pair }
    ensures chunk { area.new.chunk ≡ area.old.chunk }
{
    for slot in 0..pairs.len() {
        let old = pairs[slot].old;
        let new = place + slot as u64;
        area.put(slot as u32, Pair { old, new });
    }
    area.clear_from(pairs.len() as u32);
}

/// Writes an area of these pairs, with places in a row from one on, and their copies, through room for a chunk at least.
pub(crate) fn write_area<I: Image, S: Sink>(
    image: &mut I,
    area: &mut Area,
    place: Chunk,
    pairs: &[Pair],
    room: &mut [u8],
    sink: &mut S,
) -> Result<(), Stopped>
    requires few { length pairs.now ≤ 32 * area.old.chunk }
    requires near { place + length pairs.now < 2 ^ 64 }
    requires room { 512 * area.old.chunk ≤ length room.old }
    ensures all { OnOk result ((b : List ℕ) → I.bytes image.old ≡ Some b → (x : List ℕ) × IsAreaOf area.old.chunk b place pairs.now x × Appends (S.contents sink.old) (S.contents sink.new) x) }
    ensures chunk { area.new.chunk ≡ area.old.chunk }
    ensures bytes { I.bytes image.new ≡ I.bytes image.old }
{
    fill(area, place, pairs);
    match sink.put(area.encode()) {
        Ok(()) => {}
        Err(error) => return Err(Stopped::Unwritable(error)),
    }
    match write_copies(image, area.chunk, pairs, room, sink) {
        Ok(()) => Ok(()),
        Err(stopped) => Err(stopped),
    }
}
