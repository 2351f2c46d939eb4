// The slots of a store that are not empty are read from an image, whatever they hold.
ghost use Rattle.std.specs.Prelude.{◌≡◌, ℕ, ◌+◌, ◌*◌, ◌<◌, ◌≤◌, List, ◌++◌, IfOk, OnOk, Some};
ghost use Rattle.sector.specs.declared.pair.Pair.{Pair as PairOf};
ghost use Rattle.cow_format.specs.Slots.{pair_in};
ghost use Rattle.cow_salvage.specs.Used.{AreUsedIn, used_below, used_if};

use cow_image::{Failure, MAX_IMAGE, read_area};
use image::Image;
use metadata_area::Area;
use sector::Pair;
use std::alloc::{AllocError, Global};

/// A slot that is not empty. Slots are counted from 0 over all areas.
#[derive(Clone, Copy, PartialEq, Eq)]
pub struct Slot {
    pub number: u64,
    pub pair: Pair,
}

/// The slots of a store that are not empty, in their order, and how many areas lie wholly inside it.
#[derive(Drop)]
pub struct Used {
    pub areas: u64,
    pub slots: Vec<Slot>,
}

/// Reads all areas of a store of so many sectors, and takes their slots that are not empty, also those behind the first
/// empty one.
pub fn read_used<I: Image>(
    alloc: Global,
    cow: &mut I,
    chunk: u32,
    size: u64,
) -> Result<Used, Failure>
    requires some { 0 < chunk }
    requires allowed { chunk ≤ 1024 }
    requires small { size ≤ MAX_IMAGE }
    ensures used { IfOk result (λ used. (b : List ℕ) → I.bytes cow.old ≡ Some b → AreUsedIn chunk size b used.areas used.slots.items) }
    ensures bytes { I.bytes cow.new ≡ I.bytes cow.old }
{
    let Ok(mut area) = Area::new(alloc, chunk) else {
        return Err(Failure::NoMemory);
    };
    let mut slots: Vec<Slot> = Vec::new(alloc);
    for current in 0..size {
        let place = current * (32 * chunk as u64 + 1) + 1;
        if size < chunk as u64 * (place + 1) {
            let areas = current;
            return Ok(Used { areas, slots });
        }
        if let Err(error) = read_area(cow, &mut area, place) {
            return Err(Failure::Unreadable(error));
        }
        let Ok(()) = take_used(&area, current * (32 * chunk as u64), &mut slots) else {
            return Err(Failure::NoMemory);
        };
    }
    let areas = size;
    Ok(Used { areas, slots })
}

/// Adds an area's slots that are not empty, the first of which has this number.
fn take_used(area: &Area, first: u64, slots: &mut Vec<Slot>) -> Result<(), AllocError>
    requires { first ≤ MAX_IMAGE * 32768 }
    ensures { OnOk result ((slot_at : ℕ → PairOf) → ((j : ℕ) → j < 32 * area.now.chunk → slot_at (first + j) ≡ pair_in area.now.bytes.items j) → slots.old.items ≡ used_below slot_at first → slots.new.items ≡ used_below slot_at (first + 32 * area.now.chunk)) }
{
    for slot in 0..32 * area.chunk {
        add_used(first + slot as u64, area.pair(slot), slots)?;
    }
    Ok(())
}

/// Adds a slot, where it is not empty.
fn add_used(number: u64, pair: Pair, slots: &mut Vec<Slot>) -> Result<(), AllocError>
    ensures { OnOk result (slots.new.items ≡ slots.old.items ++ used_if number pair) }
{
    if pair.new != 0 {
        slots.push(Slot { number, pair })?;
    }
    Ok(())
}
