// What is told of a salvage, and of slots behind the end of a list.
ghost use Rattle.std.specs.Prelude.{◌≡◌, ◌<◌, ◌≤◌, ◌++◌, length, IfOk, OnOk, MatchBool};
ghost use Rattle.cow_reports.specs.Noted.{front_by, lacks_by, first_by, behind_by, notes_by};
ghost use Rattle.cow_reports.specs.Notes.{salvaged_words, kept_text, others_text, unknown_text, notes_text, salvaged_text, lacks_of, behind_of, IsWhole};

use crate::listing::{push_listed, push_runs_lines};
use crate::salvage::{push_behind_lines, push_doubtful, push_skipped, push_spans};
use cow_image::Listed;
use cow_salvage::{Saved, Slot, Span, Used, front_of};
use std::alloc::{AllocError, Global};

/// What is noted of a store's slots.
#[derive(Clone, Copy)]
pub struct Notes {
    /// The area that comes after full ones and is not there.
    pub lacks: Option<u64>,
    /// How many slots are not empty behind the first empty one, and the first of them.
    pub behind: Option<Behind>,
}

/// Slots behind the first empty one that are not empty.
#[derive(Clone, Copy)]
pub struct Behind {
    pub count: u64,
    pub first: u64,
}

/// What is noted of a store's slots, so many an area, where those behind the first empty one are taken or not.
pub fn notes_of(used: &Used, slots: u64, taken: bool) -> Notes
    ensures { result ≡ notes_by used.now.areas used.now.slots.items slots taken }
{
    let front = front_of(used.slots.as_slice());
    let lacks = lacks_after(used.areas, slots, front as u64);
    let behind = behind_in(used.slots.as_slice(), front, taken);
    Notes { lacks, behind }
}

/// The area that lacks after so many areas of so many slots each, of which so many stand before the first empty one.
fn lacks_after(areas: u64, slots: u64, front: u64) -> Option<u64>
    ensures { result ≡ lacks_by areas slots front }
{
    let all = areas.checked_mul(slots)?;
    if all == front { Some(areas) } else { None }
}

/// The slots from a place on, where they are not taken.
fn behind_in(slots: &[Slot], front: usize, taken: bool) -> Option<Behind>
    requires { front ≤ length slots.now }
    ensures { front ≡ front_by slots.now → result ≡ behind_by slots.now taken }
{
    if taken {
        return None;
    }
    first_in(&slots[front..])
}

/// How many slots these are, and the first of them.
fn first_in(slots: &[Slot]) -> Option<Behind>
    ensures { result ≡ first_by slots.now }
{
    let first = slots.first()?;
    Some(Behind {
        count: slots.len() as u64,
        first: first.number,
    })
}

/// What is printed of a salvage of a store whose areas have so many slots: the runs of the certain pairs, the doubtful ones, the
/// others and why they are skipped, and what of both images could not be read.
pub(crate) fn salvaged_lines(
    alloc: Global,
    slots: u64,
    saved: &Saved,
    origin: &[Span],
    cow: &[Span],
    notes: Notes,
) -> Result<Vec<u8>, AllocError>
    requires { 0 < slots }
    ensures { IfOk result (λ text. text.items ≡ salvaged_text slots saved.now.certain.items saved.now.doubtful.items saved.now.skipped.items origin.now cow.now notes) }
{
    let mut text = Vec::new(alloc);
    push_kept(&mut text, slots, saved)?;
    push_unknown(&mut text, slots, origin, cow, notes)?;
    Ok(text)
}

/// Adds which pairs are kept, and why each other one is not.
fn push_kept(text: &mut Vec<u8>, slots: u64, saved: &Saved) -> Result<(), AllocError>
    requires { 0 < slots }
    ensures { OnOk result (text.new.items ≡ text.old.items ++ kept_text slots saved.now.certain.items saved.now.doubtful.items saved.now.skipped.items) }
{
    push_words(text)?;
    push_runs_lines(text, saved.certain.as_slice())?;
    push_others(text, slots, saved)?;
    Ok(())
}

/// Adds which pairs are doubtful, and why each other one is not kept.
fn push_others(text: &mut Vec<u8>, slots: u64, saved: &Saved) -> Result<(), AllocError>
    requires { 0 < slots }
    ensures { OnOk result (text.new.items ≡ text.old.items ++ others_text slots saved.now.doubtful.items saved.now.skipped.items) }
{
    push_doubtful(text, saved.doubtful.as_slice())?;
    push_skipped(text, slots, saved.skipped.as_slice())
}

/// Adds what a salvaged array is, before the runs of its copies.
fn push_words(text: &mut Vec<u8>) -> Result<(), AllocError>
    ensures { OnOk result (text.new.items ≡ text.old.items ++ salvaged_words) }
{
    text.extend_from_slice(
        b"salvaged the runs below are the chunks that have copies: OLD NEW COUNT\nunknown every other chunk is the origin's of today, and may be newer than the snapshot\n",
    )
}

/// Adds what of both images could not be read, and what is noted of the slots.
fn push_unknown(
    text: &mut Vec<u8>,
    slots: u64,
    origin: &[Span],
    cow: &[Span],
    notes: Notes,
) -> Result<(), AllocError>
    requires { 0 < slots }
    ensures { OnOk result (text.new.items ≡ text.old.items ++ unknown_text slots origin.now cow.now notes) }
{
    push_spans(text, b"unreadable ORIGIN", origin)?;
    push_spans(text, b"unreadable COW", cow)?;
    push_notes(text, slots, notes)
}

/// Adds what is noted of a store's slots.
fn push_notes(text: &mut Vec<u8>, slots: u64, notes: Notes) -> Result<(), AllocError>
    requires { 0 < slots }
    ensures { OnOk result (text.new.items ≡ text.old.items ++ notes_text slots notes) }
{
    push_lacks(text, notes.lacks)?;
    push_behind_of(text, slots, notes.behind)
}

/// Adds the line of an area that is not there.
fn push_lacks(text: &mut Vec<u8>, lacks: Option<u64>) -> Result<(), AllocError>
    ensures { OnOk result (text.new.items ≡ text.old.items ++ lacks_of lacks) }
{
    match lacks {
        Some(area) => push_listed(text, Listed::Lacks(area)),
        None => Ok(()),
    }
}

/// Adds the line of the slots behind the first empty one.
pub(crate) fn push_behind_of(
    text: &mut Vec<u8>,
    slots: u64,
    behind: Option<Behind>,
) -> Result<(), AllocError>
    requires { 0 < slots }
    ensures { OnOk result (text.new.items ≡ text.old.items ++ behind_of slots behind) }
{
    match behind {
        Some(behind) => push_behind_lines(text, slots, behind.count, behind.first),
        None => Ok(()),
    }
}

/// Whether nothing is listed: each pair is kept, and none is doubtful, both images could be read, and no area lacks.
pub fn is_whole(saved: &Saved, origin: &[Span], cow: &[Span], notes: Notes) -> bool
    ensures { MatchBool result (IsWhole saved.now.doubtful.items saved.now.skipped.items origin.now cow.now notes) (IsWhole saved.now.doubtful.items saved.now.skipped.items origin.now cow.now notes → ⊥) }
{
    if saved.doubtful.len() != 0 {
        return false;
    }
    if saved.skipped.len() != 0 || origin.len() != 0 || cow.len() != 0 {
        return false;
    }
    match notes.lacks {
        None => true,
        Some(_) => false,
    }
}
