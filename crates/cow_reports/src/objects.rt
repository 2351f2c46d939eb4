// What is printed as JSON of what is seen of a store.
ghost use Rattle.std.specs.Prelude.{◌≡◌, ◌*◌, ◌<◌, ◌≤◌, ◌++◌, IfOk, OnOk};
ghost use Rattle.cow_reports.specs.Objects.{map_objects, raw_objects, refusal_object, check_objects, lacks_object};

use crate::faults_json::push_faults_json;
use crate::json::push_json;
use crate::listing_json::{push_listed_json, push_runs_json, push_slots_json};
use crate::looking::Seen;
use crate::showing::{Numbers, slots_of};
use cow_image::{Fault, Listed, Told};
use sector::Pair;
use std::alloc::{AllocError, Global};

/// What `map` prints: the runs of the pairs, or the store's object where there are none.
pub(crate) fn map_json(alloc: Global, seen: &Seen) -> Result<Vec<u8>, AllocError>
    ensures { IfOk result (λ text. text.items ≡ map_objects seen.now) }
{
    let mut text = Vec::new(alloc);
    match &seen.told {
        Told::Written(map) => push_runs_json(&mut text, map.pairs.as_slice())?,
        Told::Fresh => push_json(&mut text, seen.sectors, seen.numbers, &seen.told)?,
        Told::Refused(_) => push_json(&mut text, seen.sectors, seen.numbers, &seen.told)?,
    }
    Ok(text)
}

/// What `map --raw` prints of a store's slots, where a chunk has so many sectors.
pub(crate) fn raw_json(
    alloc: Global,
    chunk: u32,
    slots: &[Pair],
    listed: Listed,
    seen: &Seen,
) -> Result<Vec<u8>, AllocError>
    requires some { 0 < chunk }
    requires allowed { chunk ≤ 1024 }
    ensures { IfOk result (λ text. text.items ≡ raw_objects chunk slots.now listed seen.now) }
{
    let mut text = Vec::new(alloc);
    push_slots_json(&mut text, 32 * chunk as u64, slots)?;
    push_listed_json(&mut text, listed)?;
    push_refusal(&mut text, seen)?;
    Ok(text)
}

/// Adds the object of a store that is refused.
fn push_refusal(text: &mut Vec<u8>, seen: &Seen) -> Result<(), AllocError>
    ensures { OnOk result (text.new.items ≡ text.old.items ++ refusal_object seen.now) }
{
    match &seen.told {
        Told::Refused(_) => push_json(text, seen.sectors, seen.numbers, &seen.told),
        Told::Fresh => Ok(()),
        Told::Written(_) => Ok(()),
    }
}

/// What `check` prints after the store's object, of a store whose pairs are refused: each fault, and an area that is not there.
pub(crate) fn check_json(
    alloc: Global,
    numbers: Option<Numbers>,
    faults: &[Fault],
    listed: Listed,
) -> Result<Vec<u8>, AllocError>
    ensures { IfOk result (λ text. text.items ≡ check_objects numbers faults.now listed) }
{
    let mut text = Vec::new(alloc);
    push_faults_json(&mut text, b"fault", slots_of(numbers), faults)?;
    push_lacks(&mut text, listed)?;
    Ok(text)
}

/// Adds the object of an area that is not there.
fn push_lacks(text: &mut Vec<u8>, listed: Listed) -> Result<(), AllocError>
    ensures { OnOk result (text.new.items ≡ text.old.items ++ lacks_object listed) }
{
    match listed {
        Listed::Ends(_) => Ok(()),
        Listed::Lacks(area) => push_listed_json(text, Listed::Lacks(area)),
    }
}
