// How two images compare.
ghost use Rattle.std.specs.Prelude.{◌≡◌, ◌≤◌, ◌++◌, IfOk, OnOk};
ghost use Rattle.image_reports.specs.Comparing.{compared_by, compared_lines, compared_object, shorter_lines, shorter_members};

use cow_reports::{push_first, push_line, push_member, push_number_json};
use image_compare::Compared;
use image_options::Form;
use std::alloc::{AllocError, Global};

/// What `compare` prints of two images, which have so many sectors.
pub fn compared(
    alloc: Global,
    found: Compared,
    size: u64,
    other: u64,
    form: Form,
) -> Result<Vec<u8>, AllocError>
    requires small { size ≤ 68_719_476_736 }
    requires other_small { other ≤ 68_719_476_736 }
    ensures { IfOk result (λ text. text.items ≡ compared_by form found size other) }
{
    let mut text = Vec::new(alloc);
    match form {
        Form::Lines => push_lines(&mut text, found, size, other)?,
        Form::Json => push_object(&mut text, found, size, other)?,
    }
    Ok(text)
}

/// Adds it in lines.
fn push_lines(text: &mut Vec<u8>, found: Compared, size: u64, other: u64) -> Result<(), AllocError>
    requires small { size ≤ 68_719_476_736 }
    requires other_small { other ≤ 68_719_476_736 }
    ensures { OnOk result (text.new.items ≡ text.old.items ++ compared_lines size other found.differing found.first) }
{
    let Some(at) = found.first else {
        return push_line(text, b"same", 512 * size);
    };
    push_line(text, b"first", at)?;
    push_line(text, b"differing", found.differing)?;
    push_shorter(text, size, other)
}

/// Adds the line of the shorter one.
fn push_shorter(text: &mut Vec<u8>, size: u64, other: u64) -> Result<(), AllocError>
    requires small { size ≤ 68_719_476_736 }
    requires other_small { other ≤ 68_719_476_736 }
    ensures { OnOk result (text.new.items ≡ text.old.items ++ shorter_lines size other) }
{
    if size < other {
        return push_line(text, b"shorter A", 512 * size);
    }
    if other < size {
        return push_line(text, b"shorter B", 512 * other);
    }
    Ok(())
}

/// Adds it as an object.
fn push_object(text: &mut Vec<u8>, found: Compared, size: u64, other: u64) -> Result<(), AllocError>
    requires small { size ≤ 68_719_476_736 }
    requires other_small { other ≤ 68_719_476_736 }
    ensures { OnOk result (text.new.items ≡ text.old.items ++ compared_object size other found.differing found.first) }
{
    let Some(at) = found.first else {
        return push_number_json(text, b"same", 512 * size);
    };
    push_first(text, b"first", at)?;
    push_member(text, b"differing", found.differing)?;
    push_shorter_members(text, size, other)?;
    text.extend_from_slice(b"}\n")
}

/// Adds the members of the shorter one.
fn push_shorter_members(text: &mut Vec<u8>, size: u64, other: u64) -> Result<(), AllocError>
    requires small { size ≤ 68_719_476_736 }
    requires other_small { other ≤ 68_719_476_736 }
    ensures { OnOk result (text.new.items ≡ text.old.items ++ shorter_members size other) }
{
    if size < other {
        text.extend_from_slice(b",\"shorter\":\"A\"")?;
        return push_member(text, b"length", 512 * size);
    }
    if other < size {
        text.extend_from_slice(b",\"shorter\":\"B\"")?;
        return push_member(text, b"length", 512 * other);
    }
    Ok(())
}
