// The pairs of a store as JSON, an object a line.
ghost use Rattle.std.specs.Prelude.{◌≡◌, ◌/◌, ◌%◌, ◌<◌, ◌++◌, OnOk, codes};
ghost use Rattle.cow_reports.specs.Items.{run_object, run_objects, slot_object, slot_objects, listed_object};

use crate::json::push_member;
use crate::listing::{Run, follows};
use crate::members::{push_first, push_number_json, push_pair_end};
use cow_image::Listed;
use sector::Pair;
use std::alloc::AllocError;

/// Adds an object for each run of pairs, in the order that they have: pairs whose old chunks and new chunks both rise by one.
pub fn push_runs_json(text: &mut Vec<u8>, pairs: &[Pair]) -> Result<(), AllocError>
    ensures { OnOk result (text.new.items ≡ text.old.items ++ run_objects pairs.now) }
{
    if pairs.len() == 0 {
        return Ok(());
    }
    let mut run = Run {
        first: pairs[0],
        last: pairs[0],
        count: 1,
    };
    for index in 1..pairs.len() {
        let pair = pairs[index];
        if follows(run.last, pair) {
            run.last = pair;
            run.count += 1;
        } else {
            push_run_json(text, run.first, run.count)?;
            run = Run {
                first: pair,
                last: pair,
                count: 1,
            };
        }
    }
    push_run_json(text, run.first, run.count)
}

/// Adds the object of a run.
fn push_run_json(text: &mut Vec<u8>, pair: Pair, count: u64) -> Result<(), AllocError>
    ensures { OnOk result (text.new.items ≡ text.old.items ++ run_object pair count) }
{
    push_first(text, b"old", pair.old)?;
    push_member(text, b"new", pair.new)?;
    push_member(text, b"count", count)?;
    text.extend_from_slice(b"}\n")
}

/// Adds an object for each slot, in a store whose areas have so many slots.
pub fn push_slots_json(text: &mut Vec<u8>, slots: u64, pairs: &[Pair]) -> Result<(), AllocError>
    requires { 0 < slots }
    ensures { OnOk result (text.new.items ≡ text.old.items ++ slot_objects slots 0 pairs.now) }
{
    for (slot, pair) in pairs.iter().enumerate() {
        push_slot_json(text, slots, slot as u64, *pair)?;
    }
    Ok(())
}

/// Adds the object of a slot.
fn push_slot_json(text: &mut Vec<u8>, slots: u64, slot: u64, pair: Pair) -> Result<(), AllocError>
    requires { 0 < slots }
    ensures { OnOk result (text.new.items ≡ text.old.items ++ slot_object slots slot pair) }
{
    push_first(text, b"area", slot / slots)?;
    push_member(text, b"slot", slot % slots)?;
    push_pair_end(text, pair)
}

/// Adds how the areas of a store end.
pub fn push_listed_json(text: &mut Vec<u8>, listed: Listed) -> Result<(), AllocError>
    ensures { OnOk result (text.new.items ≡ text.old.items ++ listed_object listed) }
{
    match listed {
        Listed::Ends(area) => push_number_json(text, b"ends", area),
        Listed::Lacks(area) => push_number_json(text, b"lacks", area),
    }
}
