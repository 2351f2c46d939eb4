// What a store holds, in lines.
ghost use Rattle.std.specs.Prelude.{◌≡◌, ℕ, ◌+◌, ◌*◌, ◌<◌, ◌≤◌, ◌++◌, length, OnOk, codes, decimal, None};
ghost use Rattle.sector.specs.Number.{number_at};
ghost use Rattle.cow_reports.specs.Shows.{line_text, numbers_text, slots_by, told_text, status_text, usage_text, status_of, header_of, show_text};

use crate::reasons::{push_reason, refused_as};
use crate::text::{push_line, push_number};
use cow_image::{CowMap, Told};
use sector::u32_at;
use std::alloc::AllocError;

/// The four numbers of a store's header, whatever they are.
#[derive(Clone, Copy, PartialEq, Eq)]
pub struct Numbers {
    pub magic: u32,
    pub valid: u32,
    pub version: u32,
    pub chunk: u32,
}

impl Numbers {
    /// The numbers in a first sector.
    pub fn of(first: &[u8]) -> Numbers
        requires { 16 ≤ length first.now }
        ensures magic { result.magic ≡ number_at first.now 0 4 }
        ensures valid { result.valid ≡ number_at first.now 4 4 }
        ensures version { result.version ≡ number_at first.now 8 4 }
        ensures chunk { result.chunk ≡ number_at first.now 12 4 }
    {
        Numbers {
            magic: u32_at(first, 0),
            valid: u32_at(first, 4),
            version: u32_at(first, 8),
            chunk: u32_at(first, 12),
        }
    }
}

/// Adds the four numbers of a header.
pub fn push_numbers(text: &mut Vec<u8>, numbers: Numbers) -> Result<(), AllocError>
    ensures { OnOk result (text.new.items ≡ text.old.items ++ numbers_text numbers) }
{
    push_line(text, b"magic", numbers.magic as u64)?;
    push_line(text, b"valid", numbers.valid as u64)?;
    push_line(text, b"version", numbers.version as u64)?;
    push_line(text, b"chunk", numbers.chunk as u64)
}

/// The slots of an area by the numbers of a header, or 1 where they say nothing of use.
pub fn slots_of(numbers: Option<Numbers>) -> u64
    ensures value { result ≡ slots_by numbers }
    ensures some { 0 < result }
{
    match numbers {
        Some(numbers) => {
            if numbers.chunk == 0 {
                return 1;
            }
            32 * numbers.chunk as u64
        }
        None => 1,
    }
}

/// Adds what a store holds, or why it is refused.
pub fn push_told(text: &mut Vec<u8>, slots: u64, told: &Told) -> Result<(), AllocError>
    requires { 0 < slots }
    ensures { OnOk result (text.new.items ≡ text.old.items ++ told_text slots told.now) }
{
    match told {
        Told::Fresh => text.extend_from_slice(b"fresh\n"),
        Told::Refused(reason) => {
            text.extend_from_slice(b"refused ")?;
            text.extend_from_slice(refused_as(*reason).as_bytes())?;
            text.extend_from_slice(b"\nreason ")?;
            push_reason(text, slots, *reason)?;
            text.extend_from_slice(b"\n")
        }
        Told::Written(map) => {
            push_line(text, b"pairs", map.pairs.len() as u64)?;
            push_line(text, b"area", map.current)?;
            push_line(text, b"slot", map.pairs.len() as u64 % slots)
        }
    }
}

/// Adds the line of the numbers that `dmsetup status` prints of a snapshot: sectors in use, all, and those in use that hold
/// no copies.
fn push_status(
    text: &mut Vec<u8>,
    allocated: u64,
    total: u64,
    metadata: u64,
) -> Result<(), AllocError>
    ensures { OnOk result (text.new.items ≡ text.old.items ++ status_text allocated total metadata) }
{
    text.extend_from_slice(b"status ")?;
    push_number(text, allocated)?;
    text.extend_from_slice(b"/")?;
    push_number(text, total)?;
    text.extend_from_slice(b" ")?;
    push_number(text, metadata)?;
    text.extend_from_slice(b"\n")
}

/// Adds the line of a store's size.
pub fn push_sectors(text: &mut Vec<u8>, sectors: u64) -> Result<(), AllocError>
    ensures { OnOk result (text.new.items ≡ text.old.items ++ line_text (codes "sectors") sectors) }
{
    push_line(text, b"sectors", sectors)
}

/// Adds the status line of a store's map.
pub fn push_usage(text: &mut Vec<u8>, map: &CowMap) -> Result<(), AllocError>
    ensures { OnOk result (text.new.items ≡ text.old.items ++ usage_text map.now) }
{
    let usage = map.usage();
    push_status(text, usage.allocated, usage.total, usage.metadata)
}

/// Adds the four numbers of a header, where there is one.
fn push_header(text: &mut Vec<u8>, numbers: Option<Numbers>) -> Result<(), AllocError>
    ensures { OnOk result (text.new.items ≡ text.old.items ++ header_of numbers) }
{
    if let Some(numbers) = numbers {
        push_numbers(text, numbers)?;
    }
    Ok(())
}

/// Adds the status line, where there is one.
fn push_status_of(text: &mut Vec<u8>, told: &Told) -> Result<(), AllocError>
    ensures { OnOk result (text.new.items ≡ text.old.items ++ status_of told.now) }
{
    match told {
        Told::Written(map) => push_usage(text, map),
        Told::Fresh => Ok(()),
        Told::Refused(_) => Ok(()),
    }
}

/// Adds all that is shown of a store of so many sectors, by its header's numbers and what is told of it.
pub fn push_show(
    text: &mut Vec<u8>,
    sectors: u64,
    numbers: Option<Numbers>,
    told: &Told,
) -> Result<(), AllocError>
    ensures { OnOk result (text.new.items ≡ text.old.items ++ show_text sectors numbers told.now) }
{
    push_sectors(text, sectors)?;
    push_header(text, numbers)?;
    push_told(text, slots_of(numbers), told)?;
    push_status_of(text, told)
}
