// The pairs of a store, in lines.
ghost use Rattle.std.specs.Prelude.{◌≡◌, ◌<◌, ◌++◌, OnOk, codes, decimal};
ghost use Rattle.cow_reports.specs.Lines.{follows as follows_in, run_text, runs_text, listed_text, slot_line, slots_text, two_text};

use crate::text::{push_line, push_number};
use cow_image::Listed;
use sector::Pair;
use std::alloc::AllocError;

/// A run of pairs: the first, the last, and how many they are.
#[derive(Clone, Copy)]
pub(crate) struct Run {
    pub first: Pair,
    pub last: Pair,
    pub count: u64,
}

/// Adds a line `OLD NEW COUNT` for each run of pairs, in the order that they have: pairs whose old chunks and new chunks
/// both rise by one.
pub fn push_runs_lines(text: &mut Vec<u8>, pairs: &[Pair]) -> Result<(), AllocError>
    ensures { OnOk result (text.new.items ≡ text.old.items ++ runs_text pairs.now) }
{
    if pairs.len() == 0 {
        return Ok(());
    }
    let mut run = Run {
        first: pairs[0],
        last: pairs[0],
        count: 1,
    };
    for index in 1..pairs.len() {
        let pair = pairs[index];
        if follows(run.last, pair) {
            run.last = pair;
            run.count += 1;
        } else {
            push_run(text, run.first, run.count)?;
            run = Run {
                first: pair,
                last: pair,
                count: 1,
            };
        }
    }
    push_run(text, run.first, run.count)
}

/// Whether both chunks of a pair come right after those of another.
pub(crate) fn follows(before: Pair, pair: Pair) -> bool
    ensures { result ≡ follows_in before pair }
{
    before.old.checked_add(1) == Some(pair.old) && before.new.checked_add(1) == Some(pair.new)
}

/// Adds the line of a run.
fn push_run(text: &mut Vec<u8>, pair: Pair, count: u64) -> Result<(), AllocError>
    ensures { OnOk result (text.new.items ≡ text.old.items ++ run_text pair count) }
{
    push_number(text, pair.old)?;
    text.extend_from_slice(b" ")?;
    push_number(text, pair.new)?;
    text.extend_from_slice(b" ")?;
    push_number(text, count)?;
    text.extend_from_slice(b"\n")
}

/// Adds a line `AREA SLOT OLD NEW` for each slot, in a store whose areas have so many slots.
pub fn push_slots(text: &mut Vec<u8>, slots: u64, pairs: &[Pair]) -> Result<(), AllocError>
    requires { 0 < slots }
    ensures { OnOk result (text.new.items ≡ text.old.items ++ slots_text slots 0 pairs.now) }
{
    for (slot, pair) in pairs.iter().enumerate() {
        push_slot_line(text, slots, slot as u64, *pair)?;
    }
    Ok(())
}

/// Adds the line of a slot.
fn push_slot_line(text: &mut Vec<u8>, slots: u64, slot: u64, pair: Pair) -> Result<(), AllocError>
    requires { 0 < slots }
    ensures { OnOk result (text.new.items ≡ text.old.items ++ slot_line slots slot pair) }
{
    push_two(text, slot / slots, slot % slots)?;
    text.extend_from_slice(b" ")?;
    push_two(text, pair.old, pair.new)?;
    text.extend_from_slice(b"\n")
}

/// Adds two numbers.
pub(crate) fn push_two(text: &mut Vec<u8>, first: u64, second: u64) -> Result<(), AllocError>
    ensures { OnOk result (text.new.items ≡ text.old.items ++ two_text first second) }
{
    push_number(text, first)?;
    text.extend_from_slice(b" ")?;
    push_number(text, second)
}

/// Adds how the areas of a store end.
pub fn push_listed(text: &mut Vec<u8>, listed: Listed) -> Result<(), AllocError>
    ensures { OnOk result (text.new.items ≡ text.old.items ++ listed_text listed) }
{
    match listed {
        Listed::Ends(area) => push_line(text, b"ends", area),
        Listed::Lacks(area) => push_line(text, b"lacks", area),
    }
}
