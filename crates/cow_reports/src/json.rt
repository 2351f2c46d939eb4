// What a store holds, as one JSON object.
ghost use Rattle.std.specs.Prelude.{◌≡◌, ℕ, ◌*◌, ◌<◌, ◌++◌, OnOk, decimal};
ghost use Rattle.cow_reports.specs.Json.{member_text, header_members, name_member, reason_member, place_members, status_members, usage_members, quoted_text, told_members, front_text, json_text, span_object, spans_objects};

use crate::reasons::{push_reason, refused_as};
use crate::showing::{Numbers, slots_of};
use crate::text::push_number;
use cow_image::{CowMap, Reason, Told};
use cow_salvage::Span;
use std::alloc::AllocError;

/// Adds one member more: a key and a number.
pub fn push_member(text: &mut Vec<u8>, key: &[u8], number: u64) -> Result<(), AllocError>
    ensures { OnOk result (text.new.items ≡ text.old.items ++ member_text key.now number) }
{
    text.extend_from_slice(b",\"")?;
    text.extend_from_slice(key)?;
    text.extend_from_slice(b"\":")?;
    push_number(text, number)
}

/// Adds the members of a header, where there is one.
fn push_header(text: &mut Vec<u8>, numbers: Option<Numbers>) -> Result<(), AllocError>
    ensures { OnOk result (text.new.items ≡ text.old.items ++ header_members numbers) }
{
    if let Some(numbers) = numbers {
        push_member(text, b"magic", numbers.magic as u64)?;
        push_member(text, b"valid", numbers.valid as u64)?;
        push_member(text, b"version", numbers.version as u64)?;
        push_member(text, b"chunk", numbers.chunk as u64)?;
    }
    Ok(())
}

/// Adds the members of a map: its pairs, and where they end.
fn push_place(text: &mut Vec<u8>, slots: u64, map: &CowMap) -> Result<(), AllocError>
    requires { 0 < slots }
    ensures { OnOk result (text.new.items ≡ text.old.items ++ place_members slots map.now) }
{
    let count = map.pairs.len() as u64;
    push_member(text, b"pairs", count)?;
    push_member(text, b"area", map.current)?;
    push_member(text, b"slot", count % slots)
}

/// Adds the members of a status.
fn push_status(
    text: &mut Vec<u8>,
    allocated: u64,
    total: u64,
    metadata: u64,
) -> Result<(), AllocError>
    ensures { OnOk result (text.new.items ≡ text.old.items ++ status_members allocated total metadata) }
{
    push_member(text, b"allocated", allocated)?;
    push_member(text, b"total", total)?;
    push_member(text, b"metadata", metadata)?;
    Ok(())
}

/// Adds the members of a map's status.
pub(crate) fn push_usage(text: &mut Vec<u8>, map: &CowMap) -> Result<(), AllocError>
    ensures { OnOk result (text.new.items ≡ text.old.items ++ usage_members map.now) }
{
    let usage = map.usage();
    push_status(text, usage.allocated, usage.total, usage.metadata)
}

/// Adds one member more: a key and a text.
fn push_quoted(text: &mut Vec<u8>, key: &[u8], value: &[u8]) -> Result<(), AllocError>
    ensures { OnOk result (text.new.items ≡ text.old.items ++ quoted_text key.now value.now) }
{
    text.extend_from_slice(b",\"")?;
    text.extend_from_slice(key)?;
    text.extend_from_slice(b"\":\"")?;
    text.extend_from_slice(value)?;
    text.extend_from_slice(b"\"")
}

/// Adds the member of a refusal's name.
fn push_name(text: &mut Vec<u8>, reason: Reason) -> Result<(), AllocError>
    ensures { OnOk result (text.new.items ≡ text.old.items ++ name_member reason) }
{
    push_quoted(text, b"refused", refused_as(reason).as_bytes())
}

/// Adds the member of a refusal's reason, in a store whose areas have so many slots.
fn push_why(text: &mut Vec<u8>, slots: u64, reason: Reason) -> Result<(), AllocError>
    requires { 0 < slots }
    ensures { OnOk result (text.new.items ≡ text.old.items ++ reason_member slots reason) }
{
    text.extend_from_slice(b",\"reason\":\"")?;
    push_reason(text, slots, reason)?;
    text.extend_from_slice(b"\"")
}

/// Adds the members of what is told of a store, whose areas have so many slots.
fn push_members(text: &mut Vec<u8>, slots: u64, told: &Told) -> Result<(), AllocError>
    requires { 0 < slots }
    ensures { OnOk result (text.new.items ≡ text.old.items ++ told_members slots told.now) }
{
    match told {
        Told::Fresh => text.extend_from_slice(b",\"fresh\":true"),
        Told::Refused(reason) => {
            push_name(text, *reason)?;
            push_why(text, slots, *reason)
        }
        Told::Written(map) => {
            push_place(text, slots, map)?;
            push_usage(text, map)
        }
    }
}

/// Adds the front of an object.
fn push_front(text: &mut Vec<u8>, sectors: u64) -> Result<(), AllocError>
    ensures { OnOk result (text.new.items ≡ text.old.items ++ front_text sectors) }
{
    text.extend_from_slice(b"{\"sectors\":")?;
    push_number(text, sectors)?;
    Ok(())
}

/// Adds the object of a store of so many sectors, by its header's numbers and what is told of it.
pub fn push_json(
    text: &mut Vec<u8>,
    sectors: u64,
    numbers: Option<Numbers>,
    told: &Told,
) -> Result<(), AllocError>
    ensures { OnOk result (text.new.items ≡ text.old.items ++ json_text sectors numbers told.now) }
{
    push_front(text, sectors)?;
    push_header(text, numbers)?;
    push_members(text, slots_of(numbers), told)?;
    text.extend_from_slice(b"}\n")
}

/// Adds an object for each span, one a line: the byte where it begins, and how many bytes it has.
pub fn push_spans_json(text: &mut Vec<u8>, spans: &[Span]) -> Result<(), AllocError>
    ensures { OnOk result (text.new.items ≡ text.old.items ++ spans_objects spans.now) }
{
    for span in spans {
        push_span_json(text, *span)?;
    }
    Ok(())
}

/// Adds the object of a span.
fn push_span_json(text: &mut Vec<u8>, span: Span) -> Result<(), AllocError>
    ensures { OnOk result (text.new.items ≡ text.old.items ++ span_object span) }
{
    text.extend_from_slice(b"{\"start\":")?;
    push_number(text, 512 * span.first)?;
    push_member(text, b"length", 512 * span.count)?;
    text.extend_from_slice(b"}\n")
}
