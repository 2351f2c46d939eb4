// What is told of a store in units for a reader.
ghost use Rattle.std.specs.Prelude.{◌≡◌, ◌<◌, ◌≤◌, ◌++◌, IfOk, OnOk};
ghost use Rattle.image_reports.specs.Human.{tenths, size_text, size_line, used_text, map_human, human_of, human_text};

use cow_image::{CowMap, Told};
use cow_reports::{Seen, push_line, push_number, push_told, slots_of};
use std::alloc::{AllocError, Global};

/// What `show --human` prints.
pub fn told_human(alloc: Global, seen: &Seen) -> Result<Vec<u8>, AllocError>
    ensures { IfOk result (λ text. text.items ≡ human_text seen.now) }
{
    let mut text = Vec::new(alloc);
    push_size(&mut text, b"size ", seen.sectors)?;
    push_human(&mut text, slots_of(seen.numbers), &seen.told)?;
    Ok(text)
}

/// Adds what is told of a store, whose areas have so many slots.
fn push_human(text: &mut Vec<u8>, slots: u64, told: &Told) -> Result<(), AllocError>
    requires { 0 < slots }
    ensures { OnOk result (text.new.items ≡ text.old.items ++ human_of slots told.now) }
{
    match told {
        Told::Written(map) => push_map(text, map),
        Told::Fresh => push_told(text, slots, told),
        Told::Refused(_) => push_told(text, slots, told),
    }
}

/// Adds how much of a written store is in use.
fn push_map(text: &mut Vec<u8>, map: &CowMap) -> Result<(), AllocError>
    ensures { OnOk result (text.new.items ≡ text.old.items ++ map_human map.now) }
{
    let usage = map.usage();
    push_size(text, b"chunk ", map.chunk as u64)?;
    push_line(text, b"pairs", map.pairs.len() as u64)?;
    push_used(text, usage.allocated, usage.total)
}

/// Adds how many of all sectors are in use.
fn push_used(text: &mut Vec<u8>, used: u64, all: u64) -> Result<(), AllocError>
    requires small { used ≤ 140_737_488_355_328 }
    requires some { 0 < all }
    requires few { all ≤ 68_719_476_736 }
    ensures { OnOk result (text.new.items ≡ text.old.items ++ used_text used all) }
{
    text.extend_from_slice(b"used ")?;
    push_units(text, used)?;
    text.extend_from_slice(b", ")?;
    push_tenths(text, 100 * used, all)?;
    text.extend_from_slice(b" %\n")
}

/// Adds a line of so many sectors behind a key.
fn push_size(text: &mut Vec<u8>, key: &[u8], sectors: u64) -> Result<(), AllocError>
    ensures { OnOk result (text.new.items ≡ text.old.items ++ size_line key.now sectors) }
{
    text.extend_from_slice(key)?;
    push_units(text, sectors)?;
    text.extend_from_slice(b"\n")
}

/// Adds so many sectors, in the largest unit of which there is one.
fn push_units(text: &mut Vec<u8>, sectors: u64) -> Result<(), AllocError>
    ensures { OnOk result (text.new.items ≡ text.old.items ++ size_text sectors) }
{
    if sectors < 2_048 {
        push_tenths(text, sectors, 2)?;
        return text.extend_from_slice(b" KiB");
    }
    if sectors < 2_097_152 {
        push_tenths(text, sectors, 2_048)?;
        return text.extend_from_slice(b" MiB");
    }
    if sectors < 2_147_483_648 {
        push_tenths(text, sectors, 2_097_152)?;
        return text.extend_from_slice(b" GiB");
    }
    push_tenths(text, sectors, 2_147_483_648)?;
    text.extend_from_slice(b" TiB")
}

/// Adds a number in units, to a tenth, rounded down.
fn push_tenths(text: &mut Vec<u8>, number: u64, unit: u64) -> Result<(), AllocError>
    requires some { 0 < unit }
    requires few { unit ≤ 68_719_476_736 }
    ensures { OnOk result (text.new.items ≡ text.old.items ++ tenths number unit) }
{
    push_number(text, number / unit)?;
    text.extend_from_slice(b".")?;
    push_number(text, number % unit * 10 / unit)
}
