// What is printed of a merge, by the form that is asked for.
ghost use Rattle.std.specs.Prelude.{◌≡◌, ◌++◌, OnOk};
ghost use Rattle.cow_reports.specs.Merges.{bytes_by, runs_by, left_by};

use crate::listing::push_runs_lines;
use crate::listing_json::push_runs_json;
use crate::members::push_number_json;
use crate::remaining::{push_left_json, push_left_lines};
use crate::text::push_line;
use cow_image::CowMap;
use image_options::Form;
use sector::Pair;
use std::alloc::AllocError;

/// Adds how many bytes will be written to the origin.
pub fn push_bytes(text: &mut Vec<u8>, bytes: u64, form: Form) -> Result<(), AllocError>
    ensures { OnOk result (text.new.items ≡ text.old.items ++ bytes_by form bytes) }
{
    match form {
        Form::Lines => push_line(text, b"bytes", bytes),
        Form::Json => push_number_json(text, b"bytes", bytes),
    }
}

/// Adds pairs, in runs.
pub fn push_runs(text: &mut Vec<u8>, pairs: &[Pair], form: Form) -> Result<(), AllocError>
    ensures { OnOk result (text.new.items ≡ text.old.items ++ runs_by form pairs.now) }
{
    match form {
        Form::Lines => push_runs_lines(text, pairs),
        Form::Json => push_runs_json(text, pairs),
    }
}

/// Adds how many pairs are gone, how many are left, and the store's status.
pub fn push_left(
    text: &mut Vec<u8>,
    gone: u64,
    left: u64,
    map: &CowMap,
    form: Form,
) -> Result<(), AllocError>
    ensures { OnOk result (text.new.items ≡ text.old.items ++ left_by form gone left map.now) }
{
    match form {
        Form::Lines => push_left_lines(text, gone, left, map),
        Form::Json => push_left_json(text, gone, left, map),
    }
}
