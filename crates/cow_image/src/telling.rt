// A store is read from its image and judged.
ghost use Rattle.std.specs.Prelude.{◌≡◌, ℕ, ◌+◌, ◌*◌, ◌/◌, ◌<◌, ◌≤◌, List, ◌∷◌, length, IfOk, OnOk, Ok, Some};
ghost use Rattle.sector.specs.Bytes.{sector_at};
ghost use Rattle.cow_header.specs.HeaderText.{found_in};
ghost use Rattle.cow_format.specs.Pairs.{pairs_of};
ghost use Rattle.cow_image.specs.Judged.{IsFirstFault};
ghost use Rattle.cow_image.specs.Listed.{IsListedBy};
ghost use Rattle.cow_image.specs.Maps.{IsToldOf};
ghost use Rattle.cow_image.specs.declared.fault.Fault.{Fault as FaultOf};
ghost use Rattle.cow_image.specs.declared.reading.Listed.TheVariants.{Ends};
ghost use Rattle.cow_header.specs.declared.found.Found.TheVariants.{Header};

use crate::{CowMap, Failure, Fault, Listed, MAX_IMAGE, Reason, Told, faults, judge, read_pairs};
use cow_header::{Found, decode};
use image::Image;
use metadata_area::Area;
use sector::{Pair, SECTOR_BYTES};
use std::alloc::Global;

/// How many sectors an image has.
pub fn sectors_of<I: Image>(image: &mut I) -> Result<u64, Failure>
    ensures value { IfOk result (λ size. (b : List ℕ) → I.bytes image.old ≡ Some b → length b ≡ 512 * size) }
    ensures small { IfOk result (λ size. size ≤ MAX_IMAGE) }
    ensures bytes { I.bytes image.new ≡ I.bytes image.old }
{
    let bytes = match image.len() {
        Ok(bytes) => bytes,
        Err(error) => return Err(Failure::Unreadable(error)),
    };
    if bytes % SECTOR_BYTES as u64 != 0 {
        return Err(Failure::PartOfSector(bytes));
    }
    let size = bytes / SECTOR_BYTES as u64;
    if MAX_IMAGE < size {
        return Err(Failure::TooLarge(size));
    }
    Ok(size)
}

/// Reads an image's first sector.
pub fn read_first<I: Image>(cow: &mut I, first: &mut [u8; 512]) -> Result<(), Failure>
    ensures first { OnOk result ((b : List ℕ) → I.bytes cow.old ≡ Some b → first.new ≡ sector_at b 0) }
    ensures len { length first.new ≡ 512 }
    ensures bytes { I.bytes cow.new ≡ I.bytes cow.old }
{
    match cow.read_at(0, first.as_mut_slice()) {
        Ok(()) => Ok(()),
        Err(error) => Err(Failure::Unreadable(error)),
    }
}

/// Reads a store and judges it, for an origin of so many sectors: its map where a load accepts it, else the first reason
/// in the order of a load. Of an image that is no whole number of sectors, or whose reads fail, nothing is told.
pub fn read_store<I: Image>(alloc: Global, cow: &mut I, origin: u64) -> Result<Told, Failure>
    ensures told { IfOk result (λ told. (b : List ℕ) → I.bytes cow.old ≡ Some b → IsToldOf origin b told) }
    ensures bytes { I.bytes cow.new ≡ I.bytes cow.old }
{
    let size = sectors_of(cow)?;
    if size == 0 {
        return Ok(Told::Refused(Reason::Empty));
    }
    let mut first = [0u8; 512];
    read_first(cow, &mut first)?;
    match decode(&first) {
        Err(refusal) => Ok(Told::Refused(Reason::Header(refusal))),
        Ok(Found::Fresh) => {
            if size < 2 {
                return Ok(Told::Refused(Reason::NoRoom));
            }
            Ok(Told::Fresh)
        }
        Ok(Found::Header { chunk }) => {
            if size < 2 * chunk as u64 {
                return Ok(Told::Refused(Reason::TooSmall(chunk)));
            }
            read_written(alloc, cow, chunk, size, origin)
        }
    }
}

/// Reads a written store's pairs and judges them.
fn read_written<I: Image>(
    alloc: Global,
    cow: &mut I,
    chunk: u32,
    size: u64,
    origin: u64,
) -> Result<Told, Failure>
    requires some { 0 < chunk }
    requires allowed { chunk ≤ 1024 }
    requires small { size ≤ MAX_IMAGE }
    ensures told { IfOk result (λ told. (b : List ℕ) → I.bytes cow.old ≡ Some b → length b ≡ 512 * size → 2 * chunk ≤ size → found_in (sector_at b 0) ≡ Ok (Header chunk) → IsToldOf origin b told) }
    ensures bytes { I.bytes cow.new ≡ I.bytes cow.old }
{
    let Ok(mut area) = Area::new(alloc, chunk) else {
        return Err(Failure::NoMemory);
    };
    let mut pairs: Vec<Pair> = Vec::new(alloc);
    let current = match read_pairs(cow, size, &mut area, &mut pairs)? {
        Listed::Ends(current) => current,
        Listed::Lacks(area) => {
            return Ok(Told::Refused(Reason::NoArea(area)));
        }
    };
    if !judge(chunk, origin, size, &mut pairs) {
        let fault = read_fault(alloc, cow, chunk, size, origin)?;
        return Ok(Told::Refused(Reason::Pairs(fault)));
    }
    Ok(Told::Written(CowMap {
        chunk,
        size,
        current,
        pairs,
    }))
}

/// The first fault of a store whose pairs are not well formed, from its areas once more: a judge leaves pairs in another
/// order.
fn read_fault<I: Image>(
    alloc: Global,
    cow: &mut I,
    chunk: u32,
    size: u64,
    origin: u64,
) -> Result<Fault, Failure>
    requires some { 0 < chunk }
    requires allowed { chunk ≤ 1024 }
    requires small { size ≤ MAX_IMAGE }
    ensures first { IfOk result (λ fault. (b : List ℕ) → I.bytes cow.old ≡ Some b → IsFirstFault chunk origin size (pairs_of chunk b) fault) }
    ensures bytes { I.bytes cow.new ≡ I.bytes cow.old }
{
    let (pairs, listed) = listed_slots(alloc, cow, chunk, size)?;
    let Listed::Ends(_) = listed else {
        return Err(Failure::Changed);
    };
    let Ok(found) = faults(alloc, chunk, origin, size, pairs.as_slice(), 1) else {
        return Err(Failure::NoMemory);
    };
    let fault = first_of(found.as_slice())?;
    Ok(fault)
}

/// The first of these faults.
fn first_of(faults: &[Fault]) -> Result<Fault, Failure>
    ensures { IfOk result (λ fault. (rest : List FaultOf) × (faults.now ≡ fault ∷ rest)) }
{
    if faults.is_empty() {
        return Err(Failure::Changed);
    }
    Ok(faults[0])
}

/// The slots of a store of so many sectors up to the first that is empty, and how its areas end.
fn listed_slots<I: Image>(
    alloc: Global,
    cow: &mut I,
    chunk: u32,
    size: u64,
) -> Result<(Vec<Pair>, Listed), Failure>
    requires some { 0 < chunk }
    requires allowed { chunk ≤ 1024 }
    requires small { size ≤ MAX_IMAGE }
    ensures slots { IfOk result (λ slots. (b : List ℕ) → I.bytes cow.old ≡ Some b → IsListedBy chunk size b slots.0.items slots.1) }
    ensures bytes { I.bytes cow.new ≡ I.bytes cow.old }
{
    let Ok(mut area) = Area::new(alloc, chunk) else {
        return Err(Failure::NoMemory);
    };
    let mut pairs: Vec<Pair> = Vec::new(alloc);
    let listed = read_pairs(cow, size, &mut area, &mut pairs)?;
    Ok((pairs, listed))
}

/// The slots of a store with chunks of so many sectors up to the first that is empty, whatever they hold, and how its areas
/// end.
pub fn read_slots<I: Image>(
    alloc: Global,
    cow: &mut I,
    chunk: u32,
) -> Result<(Vec<Pair>, Listed), Failure>
    requires some { 0 < chunk }
    requires allowed { chunk ≤ 1024 }
    ensures slots { IfOk result (λ slots. (b : List ℕ) → I.bytes cow.old ≡ Some b → (a : ℕ) → slots.1 ≡ Ends a → pairs_of chunk b ≡ slots.0.items) }
    ensures bytes { I.bytes cow.new ≡ I.bytes cow.old }
{
    let size = sectors_of(cow)?;
    listed_slots(alloc, cow, chunk, size)
}
