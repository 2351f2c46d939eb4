// In which bytes a snapshot and its origin differ.
ghost use Rattle.std.specs.Prelude.{◌≡◌, ℕ, ◌*◌, ◌≤◌, List, length, true, IfOk, Some};
ghost use Rattle.cow_image.specs.Maps.{IsToldOf};
ghost use Rattle.cow_salvage.specs.Differences.{AreDifferences};
ghost use Rattle.cow_reports.specs.Answers.{is_good as is_good_by};
ghost use Rattle.image_commands.specs.Differing.{differing_by};
ghost use Rattle.image_commands.specs.Arrays.{array_of};

use crate::commands::{put_text, seen_both};
use crate::rolling::of_put;
use cow_image::{Stopped, Told};
use cow_reports::{push_spans, push_spans_json, shown};
use cow_salvage::{Span, Undone, differences};
use image::Image;
use image_options::{Form, Telling};
use opened_files::{Inputs, Trouble};
use std::alloc::{AllocError, Global};
use std::io::Write;

/// The sectors in which the array of a snapshot, of whose store this was told, and its origin of so many sectors differ: of a
/// fresh store, and of one that is refused, none.
pub fn found<O: Image, C: Image>(
    alloc: Global,
    origin: &mut O,
    cow: &mut C,
    told: &Told,
    size: u64,
) -> Result<Vec<Span>, Undone>
    requires { size ≤ 68_719_476_736 }
    ensures { IfOk result (λ spans. (o : List ℕ) → (b : List ℕ) → O.bytes origin.old ≡ Some o → C.bytes cow.old ≡ Some b → length o ≡ 512 * size → IsToldOf size b told.now → is_good_by told.now ≡ true → AreDifferences (array_of told.now o b) o size spans.items) }
{
    match told {
        Told::Fresh => Ok(Vec::new(alloc)),
        Told::Refused(_) => Ok(Vec::new(alloc)),
        Told::Written(map) => differences(alloc, origin, cow, map, size),
    }
}

/// The text of the ranges in which they differ.
fn differing(alloc: Global, spans: &[Span], form: Form) -> Result<Vec<u8>, AllocError>
    ensures { IfOk result (λ text. text.items ≡ differing_by form spans.now) }
{
    let mut text = Vec::new(alloc);
    match form {
        Form::Lines => push_spans(&mut text, b"differs", spans)?,
        Form::Json => push_spans_json(&mut text, spans)?,
    }
    Ok(text)
}

/// Prints in which bytes a snapshot and its origin differ, or why its store is refused.
pub fn diff<'a, W: Write>(
    rt: &'a HostRuntime,
    origin: &'a str,
    cow: &'a str,
    form: Form,
    telling: Telling,
    output: &mut W,
) -> Result<bool, Trouble<'a>> {
    let mut inputs = Inputs::open(rt, origin, cow, telling)?;
    let (size, seen) = seen_both(rt, &mut inputs)?;
    if let Told::Refused(_) = seen.told {
        return put_text(cow, shown(rt.alloc(), &seen, form), &seen, output);
    }
    inputs.origin.hush();
    let Inputs { origin, cow: store } = &mut inputs;
    let found = found(rt.alloc(), origin, store, &seen.told, size);
    let spans = of_put(&inputs.origin, &inputs.cow, cow, found.map_err(stopped))?;
    inputs.are_unchanged()?;
    let text = differing(rt.alloc(), spans.as_slice(), form);
    put_text(cow, text, &seen, output)
}

/// Why a comparison stopped, in the words of an export.
fn stopped(undone: Undone) -> Stopped {
    match undone {
        Undone::Unreadable(error) => Stopped::Unreadable(error),
        Undone::NoMemory => Stopped::NoMemory,
    }
}
