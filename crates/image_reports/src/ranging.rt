// The ranges of a snapshot's array.
ghost use Rattle.std.specs.Prelude.{◌≡◌, ◌++◌, IfOk, OnOk, flat_map};
ghost use Rattle.image_reports.specs.Ranging.{place_text, range_line, name_members, range_object, next_object, objects_text, document, ranged_by};

use crate::names::push_json_name;
use cow_reports::{push_first, push_member, push_number};
use image_options::Form;
use snapshot_extents::Range;
use std::alloc::{AllocError, Global};

/// What `map --over` prints of the ranges of a snapshot's array, by the names of both images.
pub fn ranged(
    alloc: Global,
    origin: &str,
    cow: &str,
    ranges: &[Range],
    form: Form,
) -> Result<Vec<u8>, AllocError>
    ensures { IfOk result (λ text. text.items ≡ ranged_by form origin.now cow.now ranges.now) }
{
    let mut text = Vec::new(alloc);
    match form {
        Form::Lines => push_ranges(&mut text, ranges)?,
        Form::Json => push_document(&mut text, origin, cow, ranges)?,
    }
    Ok(text)
}

/// Adds a line for each range.
fn push_ranges(text: &mut Vec<u8>, ranges: &[Range]) -> Result<(), AllocError>
    ensures { OnOk result (text.new.items ≡ text.old.items ++ flat_map range_line ranges.now) }
{
    for range in ranges {
        push_range(text, *range)?;
    }
    Ok(())
}

/// Adds the line of a range.
fn push_range(text: &mut Vec<u8>, range: Range) -> Result<(), AllocError>
    ensures { OnOk result (text.new.items ≡ text.old.items ++ range_line range) }
{
    push_number(text, range.start)?;
    text.extend_from_slice(b" ")?;
    push_number(text, range.count)?;
    push_place(text, range.copy)
}

/// Adds where a range's bytes stand.
fn push_place(text: &mut Vec<u8>, copy: Option<u64>) -> Result<(), AllocError>
    ensures { OnOk result (text.new.items ≡ text.old.items ++ place_text copy) }
{
    match copy {
        None => text.extend_from_slice(b" origin\n"),
        Some(at) => {
            text.extend_from_slice(b" cow ")?;
            push_number(text, at)?;
            text.extend_from_slice(b"\n")
        }
    }
}

/// Adds one array of an object for each range.
fn push_document(
    text: &mut Vec<u8>,
    origin: &str,
    cow: &str,
    ranges: &[Range],
) -> Result<(), AllocError>
    ensures { OnOk result (text.new.items ≡ text.old.items ++ document origin.now cow.now ranges.now) }
{
    text.extend_from_slice(b"[")?;
    push_objects(text, origin, cow, ranges)?;
    text.extend_from_slice(b"]\n")
}

/// Adds an object for each range.
fn push_objects(
    text: &mut Vec<u8>,
    origin: &str,
    cow: &str,
    ranges: &[Range],
) -> Result<(), AllocError>
    ensures { OnOk result (text.new.items ≡ text.old.items ++ objects_text origin.now cow.now ranges.now) }
{
    let Some((first, others)) = ranges.split_first() else {
        return Ok(());
    };
    push_object(text, origin, cow, *first)?;
    push_others(text, origin, cow, others)
}

/// Adds an object for each range behind the first.
fn push_others(
    text: &mut Vec<u8>,
    origin: &str,
    cow: &str,
    ranges: &[Range],
) -> Result<(), AllocError>
    ensures { OnOk result (text.new.items ≡ text.old.items ++ flat_map (next_object origin.now cow.now) ranges.now) }
{
    for range in ranges {
        push_next(text, origin, cow, *range)?;
    }
    Ok(())
}

/// Adds the object of a range behind another.
fn push_next(text: &mut Vec<u8>, origin: &str, cow: &str, range: Range) -> Result<(), AllocError>
    ensures { OnOk result (text.new.items ≡ text.old.items ++ next_object origin.now cow.now range) }
{
    text.extend_from_slice(b",\n")?;
    push_object(text, origin, cow, range)
}

/// Adds the object of a range.
fn push_object(text: &mut Vec<u8>, origin: &str, cow: &str, range: Range) -> Result<(), AllocError>
    ensures { OnOk result (text.new.items ≡ text.old.items ++ range_object origin.now cow.now range) }
{
    push_first(text, b"start", range.start)?;
    push_member(text, b"length", range.count)?;
    text.extend_from_slice(b",\"present\":true,\"data\":true")?;
    match range.copy {
        None => push_names(text, range.start, origin),
        Some(at) => push_names(text, at, cow),
    }
}

/// Adds the members of a place in a file.
fn push_names(text: &mut Vec<u8>, at: u64, name: &str) -> Result<(), AllocError>
    ensures { OnOk result (text.new.items ≡ text.old.items ++ name_members at name.now) }
{
    push_member(text, b"offset", at)?;
    text.extend_from_slice(b",\"filename\":\"")?;
    push_json_name(text, name.as_bytes())?;
    text.extend_from_slice(b"\"}")
}
