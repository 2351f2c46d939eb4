// What is printed of what is seen of a store.
ghost use Rattle.std.specs.Prelude.{◌≡◌, ◌*◌, ◌<◌, ◌≤◌, ◌++◌, IfOk, OnOk};
ghost use Rattle.cow_reports.specs.Answers.{shown_text, object_text, map_text, raw_text, refusal_text, check_text, lacks_text};

use crate::json::push_json;
use crate::listing::{push_listed, push_runs_lines, push_slots};
use crate::looking::Seen;
use crate::reasons::push_faults;
use crate::showing::{Numbers, push_show, push_told, slots_of};
use cow_image::{Fault, Listed, Told};
use sector::Pair;
use std::alloc::{AllocError, Global};

/// What `show` prints.
pub(crate) fn shown_lines(alloc: Global, seen: &Seen) -> Result<Vec<u8>, AllocError>
    ensures { IfOk result (λ text. text.items ≡ shown_text seen.now) }
{
    let mut text = Vec::new(alloc);
    push_show(&mut text, seen.sectors, seen.numbers, &seen.told)?;
    Ok(text)
}

/// What `show --json` prints.
pub(crate) fn shown_line(alloc: Global, seen: &Seen) -> Result<Vec<u8>, AllocError>
    ensures { IfOk result (λ text. text.items ≡ object_text seen.now) }
{
    let mut text = Vec::new(alloc);
    push_json(&mut text, seen.sectors, seen.numbers, &seen.told)?;
    Ok(text)
}

/// What `map` prints: the runs of the pairs, or why there are none.
pub(crate) fn map_lines(alloc: Global, seen: &Seen) -> Result<Vec<u8>, AllocError>
    ensures { IfOk result (λ text. text.items ≡ map_text seen.now) }
{
    let mut text = Vec::new(alloc);
    match &seen.told {
        Told::Written(map) => push_runs_lines(&mut text, map.pairs.as_slice())?,
        Told::Fresh => push_told(&mut text, slots_of(seen.numbers), &seen.told)?,
        Told::Refused(_) => push_told(&mut text, slots_of(seen.numbers), &seen.told)?,
    }
    Ok(text)
}

/// What `map --raw` prints of a store's slots, where a chunk has so many sectors.
pub(crate) fn raw_lines(
    alloc: Global,
    chunk: u32,
    slots: &[Pair],
    listed: Listed,
    seen: &Seen,
) -> Result<Vec<u8>, AllocError>
    requires some { 0 < chunk }
    requires allowed { chunk ≤ 1024 }
    ensures { IfOk result (λ text. text.items ≡ raw_text chunk slots.now listed seen.now) }
{
    let mut text = Vec::new(alloc);
    push_slots(&mut text, 32 * chunk as u64, slots)?;
    push_listed(&mut text, listed)?;
    push_refusal(&mut text, seen)?;
    Ok(text)
}

/// Adds why a store is refused, if it is.
fn push_refusal(text: &mut Vec<u8>, seen: &Seen) -> Result<(), AllocError>
    ensures { OnOk result (text.new.items ≡ text.old.items ++ refusal_text seen.now) }
{
    match &seen.told {
        Told::Refused(_) => push_told(text, slots_of(seen.numbers), &seen.told),
        Told::Fresh => Ok(()),
        Told::Written(_) => Ok(()),
    }
}

/// What `check` prints after what `show` prints, of a store whose pairs are refused: a line for each fault, and one for an
/// area that is not there.
pub(crate) fn check_lines(
    alloc: Global,
    numbers: Option<Numbers>,
    faults: &[Fault],
    listed: Listed,
) -> Result<Vec<u8>, AllocError>
    ensures { IfOk result (λ text. text.items ≡ check_text numbers faults.now listed) }
{
    let mut text = Vec::new(alloc);
    push_faults(&mut text, slots_of(numbers), faults)?;
    push_lacks(&mut text, listed)?;
    Ok(text)
}

/// Adds the line of an area that is not there.
fn push_lacks(text: &mut Vec<u8>, listed: Listed) -> Result<(), AllocError>
    ensures { OnOk result (text.new.items ≡ text.old.items ++ lacks_text listed) }
{
    match listed {
        Listed::Ends(_) => Ok(()),
        Listed::Lacks(area) => push_listed(text, Listed::Lacks(area)),
    }
}
