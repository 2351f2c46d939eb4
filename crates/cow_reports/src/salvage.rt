// What is listed of a salvage, in lines.
ghost use Rattle.std.specs.Prelude.{◌≡◌, ◌*◌, ◌<◌, ◌++◌, OnOk};
ghost use Rattle.cow_reports.specs.Salvage.{doubtful_line, doubtful_text, skipped_line, skipped_text, span_line, spans_text, behind_text};

use crate::listing::push_two;
use crate::reasons::{push_fault, push_slot};
use crate::text::push_number;
use cow_image::Fault;
use cow_salvage::Span;
use sector::Pair;
use std::alloc::AllocError;

/// Adds a line for each pair that is skipped, in a store whose areas have so many slots.
pub fn push_skipped(text: &mut Vec<u8>, slots: u64, faults: &[Fault]) -> Result<(), AllocError>
    requires { 0 < slots }
    ensures { OnOk result (text.new.items ≡ text.old.items ++ skipped_text slots faults.now) }
{
    for fault in faults {
        push_skipped_line(text, slots, *fault)?;
    }
    Ok(())
}

/// Adds the line of a pair that is skipped.
fn push_skipped_line(text: &mut Vec<u8>, slots: u64, fault: Fault) -> Result<(), AllocError>
    requires { 0 < slots }
    ensures { OnOk result (text.new.items ≡ text.old.items ++ skipped_line slots fault) }
{
    text.extend_from_slice(b"skipped ")?;
    push_fault(text, slots, fault)?;
    text.extend_from_slice(b"\n")
}

/// Adds a line for each pair that is kept from behind the first empty slot.
pub fn push_doubtful(text: &mut Vec<u8>, pairs: &[Pair]) -> Result<(), AllocError>
    ensures { OnOk result (text.new.items ≡ text.old.items ++ doubtful_text pairs.now) }
{
    for pair in pairs {
        push_doubtful_line(text, *pair)?;
    }
    Ok(())
}

/// Adds the line of a pair that is kept from behind the first empty slot.
fn push_doubtful_line(text: &mut Vec<u8>, pair: Pair) -> Result<(), AllocError>
    ensures { OnOk result (text.new.items ≡ text.old.items ++ doubtful_line pair) }
{
    text.extend_from_slice(b"doubtful ")?;
    push_two(text, pair.old, pair.new)?;
    text.extend_from_slice(b"\n")
}

/// Adds a line for each span after a key: the byte where it begins, and how many bytes it has.
pub fn push_spans(text: &mut Vec<u8>, key: &[u8], spans: &[Span]) -> Result<(), AllocError>
    ensures { OnOk result (text.new.items ≡ text.old.items ++ spans_text key.now spans.now) }
{
    for span in spans {
        push_span(text, key, *span)?;
    }
    Ok(())
}

/// Adds the line of a span.
fn push_span(text: &mut Vec<u8>, key: &[u8], span: Span) -> Result<(), AllocError>
    ensures { OnOk result (text.new.items ≡ text.old.items ++ span_line key.now span) }
{
    text.extend_from_slice(key)?;
    text.extend_from_slice(b" ")?;
    push_number(text, 512 * span.first)?;
    text.extend_from_slice(b" ")?;
    push_number(text, 512 * span.count)?;
    text.extend_from_slice(b"\n")
}

/// Adds how many slots behind the first empty one are not empty, and the first of them, in a store whose areas have so many.
pub fn push_behind_lines(
    text: &mut Vec<u8>,
    slots: u64,
    count: u64,
    slot: u64,
) -> Result<(), AllocError>
    requires { 0 < slots }
    ensures { OnOk result (text.new.items ≡ text.old.items ++ behind_text slots count slot) }
{
    text.extend_from_slice(b"behind ")?;
    push_number(text, count)?;
    text.extend_from_slice(b" ")?;
    push_slot(text, slots, slot)?;
    text.extend_from_slice(b"\n")
}
