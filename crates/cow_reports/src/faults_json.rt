// What is wrong with a store as JSON, an object a line.
ghost use Rattle.std.specs.Prelude.{◌≡◌, ◌*◌, ◌<◌, ◌++◌, OnOk, codes};
ghost use Rattle.cow_reports.specs.Items.{doubtful_object, doubtful_objects, faulty_object, fault_object, fault_objects, behind_object, span_end, unread_object, unread_objects};

use crate::json::push_member;
use crate::members::{push_first, push_first_quoted, push_pair_end, push_slot_members};
use cow_image::Fault;
use cow_salvage::Span;
use sector::Pair;
use std::alloc::AllocError;

/// Adds an object for each pair that is kept from behind the first empty slot.
pub fn push_doubtful_json(text: &mut Vec<u8>, pairs: &[Pair]) -> Result<(), AllocError>
    ensures { OnOk result (text.new.items ≡ text.old.items ++ doubtful_objects pairs.now) }
{
    for pair in pairs {
        push_doubtful_pair(text, *pair)?;
    }
    Ok(())
}

/// Adds the object of a pair that is kept from behind the first empty slot.
fn push_doubtful_pair(text: &mut Vec<u8>, pair: Pair) -> Result<(), AllocError>
    ensures { OnOk result (text.new.items ≡ text.old.items ++ doubtful_object pair) }
{
    push_first_quoted(text, b"doubtful", b"behind")?;
    push_pair_end(text, pair)
}

/// Adds an object for each of these faults, under a key, in a store whose areas have so many slots.
pub fn push_faults_json(
    text: &mut Vec<u8>,
    key: &[u8],
    slots: u64,
    faults: &[Fault],
) -> Result<(), AllocError>
    requires { 0 < slots }
    ensures { OnOk result (text.new.items ≡ text.old.items ++ fault_objects key.now slots faults.now) }
{
    for fault in faults {
        push_fault_json(text, key, slots, *fault)?;
    }
    Ok(())
}

/// Adds the object of a fault.
fn push_fault_json(
    text: &mut Vec<u8>,
    key: &[u8],
    slots: u64,
    fault: Fault,
) -> Result<(), AllocError>
    requires { 0 < slots }
    ensures { OnOk result (text.new.items ≡ text.old.items ++ fault_object key.now slots fault) }
{
    match fault {
        Fault::PastOrigin { slot, pair } => {
            push_faulty(text, key, b"past_origin", slots, slot, pair)
        }
        Fault::OutsideStore { slot, pair } => {
            push_faulty(text, key, b"outside_store", slots, slot, pair)
        }
        Fault::AtArea { slot, pair } => push_faulty(text, key, b"at_area", slots, slot, pair),
        Fault::OldTwice { slot, pair } => push_faulty(text, key, b"old_twice", slots, slot, pair),
        Fault::NewTwice { slot, pair } => push_faulty(text, key, b"new_twice", slots, slot, pair),
    }
}

/// Adds the object of a slot whose pair has this fault.
fn push_faulty(
    text: &mut Vec<u8>,
    key: &[u8],
    word: &[u8],
    slots: u64,
    slot: u64,
    pair: Pair,
) -> Result<(), AllocError>
    requires { 0 < slots }
    ensures { OnOk result (text.new.items ≡ text.old.items ++ faulty_object key.now word.now slots slot pair) }
{
    push_first_quoted(text, key, word)?;
    push_slot_members(text, slots, slot)?;
    push_pair_end(text, pair)
}

/// Adds how many slots behind the first empty one are not empty, and the first of them, in a store whose areas have so many.
pub fn push_behind_json(
    text: &mut Vec<u8>,
    slots: u64,
    count: u64,
    slot: u64,
) -> Result<(), AllocError>
    requires { 0 < slots }
    ensures { OnOk result (text.new.items ≡ text.old.items ++ behind_object slots count slot) }
{
    push_first(text, b"behind", count)?;
    push_slot_members(text, slots, slot)?;
    text.extend_from_slice(b"}\n")
}

/// Adds an object for each span of a file that could not be read.
pub fn push_unread_json(text: &mut Vec<u8>, file: &[u8], spans: &[Span]) -> Result<(), AllocError>
    ensures { OnOk result (text.new.items ≡ text.old.items ++ unread_objects file.now spans.now) }
{
    for span in spans {
        push_unread_span(text, file, *span)?;
    }
    Ok(())
}

/// Adds the object of a span that could not be read.
fn push_unread_span(text: &mut Vec<u8>, file: &[u8], span: Span) -> Result<(), AllocError>
    ensures { OnOk result (text.new.items ≡ text.old.items ++ unread_object file.now span) }
{
    push_first_quoted(text, b"unreadable", file)?;
    push_span_end(text, span)
}

/// Ends an object with the byte where a span begins, and how many bytes it has.
fn push_span_end(text: &mut Vec<u8>, span: Span) -> Result<(), AllocError>
    ensures { OnOk result (text.new.items ≡ text.old.items ++ span_end span) }
{
    push_member(text, b"start", 512 * span.first)?;
    push_member(text, b"length", 512 * span.count)?;
    text.extend_from_slice(b"}\n")
}
