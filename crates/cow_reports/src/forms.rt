// What is printed, by the form that is asked for.
ghost use Rattle.std.specs.Prelude.{◌≡◌, ◌*◌, ◌<◌, ◌≤◌, ◌++◌, IfOk, OnOk};
ghost use Rattle.cow_reports.specs.Forms.{shown_by, map_by, raw_by, check_by, behind_by, salvaged_by};

use crate::answers::{check_lines, map_lines, raw_lines, shown_line, shown_lines};
use crate::looking::Seen;
use crate::note_objects::{push_behind_object, salvaged_json};
use crate::notes::{Behind, Notes, push_behind_of, salvaged_lines};
use crate::objects::{check_json, map_json, raw_json};
use crate::showing::Numbers;
use cow_image::{Fault, Listed};
use cow_salvage::{Saved, Span};
use image_options::Form;
use sector::Pair;
use std::alloc::{AllocError, Global};

/// What `show` prints.
pub fn shown(alloc: Global, seen: &Seen, form: Form) -> Result<Vec<u8>, AllocError>
    ensures { IfOk result (λ text. text.items ≡ shown_by form seen.now) }
{
    match form {
        Form::Lines => shown_lines(alloc, seen),
        Form::Json => shown_line(alloc, seen),
    }
}

/// What `map` prints: the runs of the pairs, or why there are none.
pub fn mapped(alloc: Global, seen: &Seen, form: Form) -> Result<Vec<u8>, AllocError>
    ensures { IfOk result (λ text. text.items ≡ map_by form seen.now) }
{
    match form {
        Form::Lines => map_lines(alloc, seen),
        Form::Json => map_json(alloc, seen),
    }
}

/// What `map --raw` prints of a store's slots, where a chunk has so many sectors.
pub fn raw(
    alloc: Global,
    chunk: u32,
    slots: &[Pair],
    listed: Listed,
    seen: &Seen,
    form: Form,
) -> Result<Vec<u8>, AllocError>
    requires some { 0 < chunk }
    requires allowed { chunk ≤ 1024 }
    ensures { IfOk result (λ text. text.items ≡ raw_by form chunk slots.now listed seen.now) }
{
    match form {
        Form::Lines => raw_lines(alloc, chunk, slots, listed, seen),
        Form::Json => raw_json(alloc, chunk, slots, listed, seen),
    }
}

/// What `check` prints after what `show` prints, of a store whose pairs are refused: each fault, and an area that is not there.
pub fn checked(
    alloc: Global,
    numbers: Option<Numbers>,
    faults: &[Fault],
    listed: Listed,
    form: Form,
) -> Result<Vec<u8>, AllocError>
    ensures { IfOk result (λ text. text.items ≡ check_by form numbers faults.now listed) }
{
    match form {
        Form::Lines => check_lines(alloc, numbers, faults, listed),
        Form::Json => check_json(alloc, numbers, faults, listed),
    }
}

/// Adds what is told of the slots behind the first empty one, in a store whose areas have so many slots.
pub fn push_behind(
    text: &mut Vec<u8>,
    slots: u64,
    behind: Option<Behind>,
    form: Form,
) -> Result<(), AllocError>
    requires { 0 < slots }
    ensures { OnOk result (text.new.items ≡ text.old.items ++ behind_by form slots behind) }
{
    match form {
        Form::Lines => push_behind_of(text, slots, behind),
        Form::Json => push_behind_object(text, slots, behind),
    }
}

/// What is printed of a salvage of a store whose areas have so many slots: the runs of the certain pairs, the doubtful ones, the
/// others and why they are skipped, and what of both images could not be read.
pub fn salvaged(
    alloc: Global,
    slots: u64,
    saved: &Saved,
    origin: &[Span],
    cow: &[Span],
    notes: Notes,
    form: Form,
) -> Result<Vec<u8>, AllocError>
    requires { 0 < slots }
    ensures { IfOk result (λ text. text.items ≡ salvaged_by form slots saved.now.certain.items saved.now.doubtful.items saved.now.skipped.items origin.now cow.now notes) }
{
    match form {
        Form::Lines => salvaged_lines(alloc, slots, saved, origin, cow, notes),
        Form::Json => salvaged_json(alloc, slots, saved, origin, cow, notes),
    }
}
