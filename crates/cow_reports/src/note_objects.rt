// What is told as JSON of a salvage, and of slots behind the end of a list.
ghost use Rattle.std.specs.Prelude.{◌≡◌, ◌<◌, ◌++◌, IfOk, OnOk};
ghost use Rattle.cow_reports.specs.Objects.{count_object, kept_objects, others_objects, unknown_objects, notes_objects, salvaged_objects, lacks_object_of, behind_object_of};

use crate::faults_json::{
    push_behind_json, push_doubtful_json, push_faults_json, push_unread_json,
};
use crate::listing_json::{push_listed_json, push_runs_json};
use crate::members::push_number_json;
use crate::notes::{Behind, Notes};
use cow_image::Listed;
use cow_salvage::{Saved, Span};
use std::alloc::{AllocError, Global};

/// What is printed of a salvage of a store whose areas have so many slots: how many pairs are certain, their runs, the doubtful
/// ones, the others and why they are skipped, and what of both images could not be read.
pub(crate) fn salvaged_json(
    alloc: Global,
    slots: u64,
    saved: &Saved,
    origin: &[Span],
    cow: &[Span],
    notes: Notes,
) -> Result<Vec<u8>, AllocError>
    requires { 0 < slots }
    ensures { IfOk result (λ text. text.items ≡ salvaged_objects slots saved.now.certain.items saved.now.doubtful.items saved.now.skipped.items origin.now cow.now notes) }
{
    let mut text = Vec::new(alloc);
    push_kept(&mut text, slots, saved)?;
    push_unknown(&mut text, slots, origin, cow, notes)?;
    Ok(text)
}

/// Adds how many pairs are certain, which they are, which are doubtful, and why each other one is not.
fn push_kept(text: &mut Vec<u8>, slots: u64, saved: &Saved) -> Result<(), AllocError>
    requires { 0 < slots }
    ensures { OnOk result (text.new.items ≡ text.old.items ++ kept_objects slots saved.now.certain.items saved.now.doubtful.items saved.now.skipped.items) }
{
    push_count(text, saved)?;
    push_runs_json(text, saved.certain.as_slice())?;
    push_others(text, slots, saved)?;
    Ok(())
}

/// Adds which pairs are doubtful, and why each other one is not kept.
fn push_others(text: &mut Vec<u8>, slots: u64, saved: &Saved) -> Result<(), AllocError>
    requires { 0 < slots }
    ensures { OnOk result (text.new.items ≡ text.old.items ++ others_objects slots saved.now.doubtful.items saved.now.skipped.items) }
{
    push_doubtful_json(text, saved.doubtful.as_slice())?;
    push_faults_json(text, b"skipped", slots, saved.skipped.as_slice())
}

/// Adds how many pairs are certain.
fn push_count(text: &mut Vec<u8>, saved: &Saved) -> Result<(), AllocError>
    ensures { OnOk result (text.new.items ≡ text.old.items ++ count_object saved.now.certain.items) }
{
    push_number_json(text, b"salvaged", saved.certain.len() as u64)
}

/// Adds what of both images could not be read, and what is noted of the slots.
fn push_unknown(
    text: &mut Vec<u8>,
    slots: u64,
    origin: &[Span],
    cow: &[Span],
    notes: Notes,
) -> Result<(), AllocError>
    requires { 0 < slots }
    ensures { OnOk result (text.new.items ≡ text.old.items ++ unknown_objects slots origin.now cow.now notes) }
{
    push_unread_json(text, b"ORIGIN", origin)?;
    push_unread_json(text, b"COW", cow)?;
    push_notes(text, slots, notes)
}

/// Adds what is noted of a store's slots.
fn push_notes(text: &mut Vec<u8>, slots: u64, notes: Notes) -> Result<(), AllocError>
    requires { 0 < slots }
    ensures { OnOk result (text.new.items ≡ text.old.items ++ notes_objects slots notes) }
{
    push_lacks(text, notes.lacks)?;
    push_behind_object(text, slots, notes.behind)
}

/// Adds the object of an area that is not there.
fn push_lacks(text: &mut Vec<u8>, lacks: Option<u64>) -> Result<(), AllocError>
    ensures { OnOk result (text.new.items ≡ text.old.items ++ lacks_object_of lacks) }
{
    match lacks {
        Some(area) => push_listed_json(text, Listed::Lacks(area)),
        None => Ok(()),
    }
}

/// Adds the object of the slots behind the first empty one.
pub(crate) fn push_behind_object(
    text: &mut Vec<u8>,
    slots: u64,
    behind: Option<Behind>,
) -> Result<(), AllocError>
    requires { 0 < slots }
    ensures { OnOk result (text.new.items ≡ text.old.items ++ behind_object_of slots behind) }
{
    match behind {
        Some(behind) => push_behind_json(text, slots, behind.count, behind.first),
        None => Ok(()),
    }
}
