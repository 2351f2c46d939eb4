// Why a store is refused, in words.
ghost use Rattle.std.specs.Prelude.{◌≡◌, ℕ, ◌*◌, ◌<◌, ◌++◌, OnOk, codes, decimal};
ghost use Rattle.cow_reports.specs.Reasons.{slot_text, fault_text, fault_line, faults_text, header_text, reason_text, refused_name};

use crate::text::push_number;
use cow_image::{Fault, Reason};
use sector::Refusal;
use std::alloc::AllocError;

/// Adds the place of a slot, in a store whose areas have so many slots.
pub(crate) fn push_slot(text: &mut Vec<u8>, slots: u64, slot: u64) -> Result<(), AllocError>
    requires { 0 < slots }
    ensures { OnOk result (text.new.items ≡ text.old.items ++ slot_text slots slot) }
{
    text.extend_from_slice(b"area ")?;
    push_number(text, slot / slots)?;
    text.extend_from_slice(b" slot ")?;
    push_number(text, slot % slots)
}

/// Adds a number between two words.
fn push_between(
    text: &mut Vec<u8>,
    before: &[u8],
    number: u64,
    after: &[u8],
) -> Result<(), AllocError>
    ensures { OnOk result (text.new.items ≡ text.old.items ++ before.now ++ decimal number ++ after.now) }
{
    text.extend_from_slice(before)?;
    push_number(text, number)?;
    text.extend_from_slice(after)
}

/// Adds the place of a slot, and what is wrong with a number in it.
fn push_slot_fault(
    text: &mut Vec<u8>,
    slots: u64,
    slot: u64,
    before: &[u8],
    number: u64,
    after: &[u8],
) -> Result<(), AllocError>
    requires { 0 < slots }
    ensures { OnOk result (text.new.items ≡ text.old.items ++ (slot_text slots slot ++ before.now ++ decimal number ++ after.now)) }
{
    push_slot(text, slots, slot)?;
    push_between(text, before, number, after)
}

/// Adds what is wrong with the pairs, in a store whose areas have so many slots.
pub(crate) fn push_fault(text: &mut Vec<u8>, slots: u64, fault: Fault) -> Result<(), AllocError>
    requires { 0 < slots }
    ensures { OnOk result (text.new.items ≡ text.old.items ++ fault_text slots fault) }
{
    match fault {
        Fault::PastOrigin { slot, pair } => {
            let after = b" begins past the origin's end";
            push_slot_fault(text, slots, slot, b": old chunk ", pair.old, after)
        }
        Fault::OutsideStore { slot, pair } => {
            let after = b" does not lie inside the store";
            push_slot_fault(text, slots, slot, b": new chunk ", pair.new, after)
        }
        Fault::AtArea { slot, pair } => {
            let after = b" is an area's place";
            push_slot_fault(text, slots, slot, b": new chunk ", pair.new, after)
        }
        Fault::OldTwice { slot, pair } => {
            let after = b" stands in an earlier slot";
            push_slot_fault(text, slots, slot, b": old chunk ", pair.old, after)
        }
        Fault::NewTwice { slot, pair } => {
            let after = b" stands in an earlier slot";
            push_slot_fault(text, slots, slot, b": new chunk ", pair.new, after)
        }
    }
}

/// Adds a line for each of these faults, in a store whose areas have so many slots.
pub fn push_faults(text: &mut Vec<u8>, slots: u64, faults: &[Fault]) -> Result<(), AllocError>
    requires { 0 < slots }
    ensures { OnOk result (text.new.items ≡ text.old.items ++ faults_text slots faults.now) }
{
    for fault in faults {
        push_fault_line(text, slots, *fault)?;
    }
    Ok(())
}

/// Adds the line of a fault.
fn push_fault_line(text: &mut Vec<u8>, slots: u64, fault: Fault) -> Result<(), AllocError>
    requires { 0 < slots }
    ensures { OnOk result (text.new.items ≡ text.old.items ++ fault_line slots fault) }
{
    text.extend_from_slice(b"fault ")?;
    push_fault(text, slots, fault)?;
    text.extend_from_slice(b"\n")
}

/// Adds that a store is smaller than two of its chunks.
fn push_small(text: &mut Vec<u8>, chunk: u32) -> Result<(), AllocError>
    ensures { OnOk result (text.new.items ≡ text.old.items ++ (codes "less than two chunks of " ++ decimal chunk ++ codes " sectors")) }
{
    text.extend_from_slice(b"less than two chunks of ")?;
    push_number(text, chunk as u64)?;
    text.extend_from_slice(b" sectors")
}

/// What is wrong with a first sector.
fn header_words(refusal: Refusal) -> &'static str
    ensures { result.now ≡ header_text refusal }
{
    match refusal {
        Refusal::BadHeader => "the store begins neither with zero nor with SnAp",
        Refusal::BadVersion => "the version is not 1",
        Refusal::BadChunk => "the chunk size is no power of two from 1 to 1024",
        Refusal::Invalid => "the store is marked as invalid",
        _ => "the first sector is refused",
    }
}

/// Adds why a store is refused, whose areas have so many slots.
pub(crate) fn push_reason(text: &mut Vec<u8>, slots: u64, reason: Reason) -> Result<(), AllocError>
    requires { 0 < slots }
    ensures { OnOk result (text.new.items ≡ text.old.items ++ reason_text slots reason) }
{
    match reason {
        Reason::Empty => text.extend_from_slice(b"the store has no sector"),
        Reason::Header(refusal) => text.extend_from_slice(header_words(refusal).as_bytes()),
        Reason::TooSmall(chunk) => push_small(text, chunk),
        Reason::NoRoom => text.extend_from_slice(b"no header, and less than two sectors"),
        Reason::NoArea(area) => push_between(
            text,
            b"area ",
            area,
            b" comes after full areas and does not lie inside the store",
        ),
        Reason::Pairs(fault) => push_fault(text, slots, fault),
    }
}

/// The refusal's name.
pub(crate) fn refused_as(reason: Reason) -> &'static str
    ensures { result.now ≡ refused_name reason }
{
    match reason {
        Reason::Empty | Reason::TooSmall(_) | Reason::NoRoom => Refusal::StoreTooSmall.name(),
        Reason::Header(refusal) => refusal.name(),
        Reason::NoArea(_) | Reason::Pairs(_) => Refusal::Damaged.name(),
    }
}
