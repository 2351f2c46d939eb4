// The areas of a written store are read from an image, up to the first empty slot.
ghost use Rattle.std.specs.Prelude.{◌≡◌, ℕ, ◌+◌, ◌*◌, ◌<◌, ◌≤◌, List, length, IfOk, OnOk, Some};
ghost use Rattle.cow_format.specs.Places.{chunk_at};
ghost use Rattle.cow_image.specs.Listed.{IsListedIn, EndsBelow};
ghost use Rattle.cow_image.specs.Loaded.{IsLoaded};

use crate::Failure;
use image::Image;
use metadata_area::Area;
use sector::Pair;
use std::io;

/// The most sectors of an image: 2^36, 32 TiB.
pub const MAX_IMAGE: u64 = 68_719_476_736;

/// How the areas of a store end.
#[derive(Clone, Copy, PartialEq, Eq)]
pub enum Listed {
    /// The first empty slot stands in this area.
    Ends(u64),
    /// All areas before this one are full, and it does not lie wholly inside the store.
    Lacks(u64),
}

/// Reads the chunk at a place as an area.
pub fn read_area<I: Image>(cow: &mut I, area: &mut Area, place: u64) -> io::Result<()>
    requires near { area.old.chunk * (place + 1) ≤ MAX_IMAGE }
    ensures data { OnOk result ((b : List ℕ) → I.bytes cow.old ≡ Some b → area.new.bytes.items ≡ chunk_at area.old.chunk b place) }
    ensures chunk { area.new.chunk ≡ area.old.chunk }
    ensures bytes { I.bytes cow.new ≡ I.bytes cow.old }
{
    let at = 512 * (area.chunk as u64 * place);
    cow.read_at(at, area.bytes.as_mut_slice())
}

/// Reads the areas up to the first empty slot, takes their pairs, and tells the number of that slot's area, which is then
/// in memory; or which area is not there after full ones.
pub fn read_pairs<I: Image>(
    cow: &mut I,
    size: u64,
    area: &mut Area,
    pairs: &mut Vec<Pair>,
) -> Result<Listed, Failure>
    requires none { length pairs.old.items ≡ 0 }
    requires small { size ≤ MAX_IMAGE }
    ensures listed { IfOk result (λ listed. (b : List ℕ) → I.bytes cow.old ≡ Some b → IsListedIn area.old.chunk size b pairs.new.items area.new.bytes.items listed) }
    ensures below { IfOk result (EndsBelow size) }
    ensures chunk { area.new.chunk ≡ area.old.chunk }
    ensures bytes { I.bytes cow.new ≡ I.bytes cow.old }
{
    let chunk = area.chunk;
    for current in 0..size {
        let place = current * (32 * chunk as u64 + 1) + 1;
        if size < chunk as u64 * (place + 1) {
            return Ok(Listed::Lacks(current));
        }
        if let Err(error) = read_area(cow, area, place) {
            return Err(Failure::Unreadable(error));
        }
        if take_slots(area, pairs)? < 32 * chunk {
            return Ok(Listed::Ends(current));
        }
    }
    Ok(Listed::Lacks(size))
}

/// Takes an area's pairs up to its first empty slot, and tells how many they are.
fn take_slots(area: &Area, pairs: &mut Vec<Pair>) -> Result<u32, Failure>
    ensures loaded { IfOk result (λ count. IsLoaded pairs.old.items pairs.new.items area.now.bytes.items (32 * area.now.chunk) count) }
{
    let count = area.first_empty();
    for slot in 0..count {
        let Ok(()) = pairs.push(area.pair(slot)) else {
            return Err(Failure::NoMemory);
        };
    }
    Ok(count)
}
