// The commands that look at a store.
ghost use Rattle.std.specs.Prelude.{◌<◌, ◌≤◌, IfOk};

use crate::printing::printed;
use cow_image::{MAX_IMAGE, Reason, Told, read_slots};
use cow_reports::{
    Behind, Seen, all_faults, checked, chunk_listed, chunk_of, is_good, look, mapped, notes_of,
    push_behind, raw, shown,
};
use cow_salvage::read_used;
use image_options::{Form, Telling};
use image_reports::told_human;
use opened_files::{Input, Inputs, Trouble, held, of_input, size_of};
use std::alloc::AllocError;
use std::io::Write;

/// Reads a store, for an origin of so many sectors, and sees that it was not written meanwhile.
pub fn seen_in<'a>(
    rt: &HostRuntime,
    cow: &mut Input<'a>,
    origin: u64,
) -> Result<Seen, Trouble<'a>> {
    let seen = look(rt.alloc(), cow, origin);
    let seen = of_input(cow, seen)?;
    cow.is_unchanged()?;
    Ok(seen)
}

/// How many sectors an origin has, and what is seen of its store for it, which was not written meanwhile.
pub fn seen_both<'a>(rt: &HostRuntime, inputs: &mut Inputs<'a>) -> Result<(u64, Seen), Trouble<'a>>
    ensures { IfOk result (λ both. both.0 ≤ MAX_IMAGE) }
{
    let size = size_of(&mut inputs.origin)?;
    let seen = seen_in(rt, &mut inputs.cow, size)?;
    Ok((size, seen))
}

/// Opens a store, and reads it for an origin of any size.
pub fn seen_alone<'a>(
    rt: &'a HostRuntime,
    cow: &'a str,
    telling: Telling,
) -> Result<(Input<'a>, Seen), Trouble<'a>> {
    let mut input = Input::open(rt, cow, telling)?;
    let seen = seen_in(rt, &mut input, u64::MAX)?;
    Ok((input, seen))
}

/// Prints a text about a store, and tells whether the store is good.
pub fn put_text<'a, W: Write>(
    cow: &'a str,
    text: Result<Vec<u8>, AllocError>,
    seen: &Seen,
    output: &mut W,
) -> Result<bool, Trouble<'a>> {
    let text = held(cow, text)?;
    printed(output, text.as_slice())?;
    Ok(is_good(&seen.told))
}

/// What is printed of a store that is good.
#[derive(Clone, Copy, PartialEq, Eq)]
pub enum Part {
    /// Its numbers.
    Numbers(Form),
    /// Some of them in units for a reader.
    Units,
    /// Its pairs in runs.
    Runs(Form),
}

/// Prints a part of what a store holds, for an origin of any size, or why it is refused.
pub fn show<'a, W: Write>(
    rt: &'a HostRuntime,
    cow: &'a str,
    part: Part,
    telling: Telling,
    output: &mut W,
) -> Result<bool, Trouble<'a>> {
    let (_input, seen) = seen_alone(rt, cow, telling)?;
    let text = match part {
        Part::Numbers(form) => shown(rt.alloc(), &seen, form),
        Part::Units => told_human(rt.alloc(), &seen),
        Part::Runs(form) => mapped(rt.alloc(), &seen, form),
    };
    put_text(cow, text, &seen, output)
}

/// Prints the slots of a store up to the first that is empty, whether it is good or not, and why it is refused, if it is. Of
/// a store whose header has no chunk size that is allowed it prints what `map` prints: it has no slots.
pub fn raw_map<'a, W: Write>(
    rt: &'a HostRuntime,
    cow: &'a str,
    form: Form,
    telling: Telling,
    output: &mut W,
) -> Result<bool, Trouble<'a>> {
    let (mut input, seen) = seen_alone(rt, cow, telling)?;
    let Some(chunk) = chunk_of(seen.numbers) else {
        return put_text(cow, mapped(rt.alloc(), &seen, form), &seen, output);
    };
    let slots = read_slots(rt.alloc(), &mut input, chunk);
    let (slots, listed) = of_input(&mut input, slots)?;
    input.is_unchanged()?;
    let text = raw(rt.alloc(), chunk, slots.as_slice(), listed, &seen, form);
    put_text(cow, text, &seen, output)
}

/// Prints what a store holds for this origin, and all faults of its pairs.
pub fn check<'a, W: Write>(
    rt: &'a HostRuntime,
    origin: &'a str,
    cow: &'a str,
    form: Form,
    telling: Telling,
    output: &mut W,
) -> Result<bool, Trouble<'a>> {
    let mut inputs = Inputs::open(rt, origin, cow, telling)?;
    let (size, seen) = seen_both(rt, &mut inputs)?;
    let mut text = held(cow, shown(rt.alloc(), &seen, form))?;
    match seen.told {
        Told::Refused(Reason::Pairs(_)) | Told::Refused(Reason::NoArea(_)) => {
            let faults = faults_text(rt, &mut inputs.cow, &seen, size, form)?;
            held(cow, text.extend_from_slice(faults.as_slice()))?;
        }
        _ => {}
    }
    add_behind(rt, &mut inputs.cow, &seen, &mut text, form)?;
    printed(output, text.as_slice())?;
    Ok(is_good(&seen.told))
}

/// Adds what is told of the slots behind the first empty one that are not empty.
fn add_behind<'a>(
    rt: &HostRuntime,
    cow: &mut Input<'a>,
    seen: &Seen,
    text: &mut Vec<u8>,
    form: Form,
) -> Result<(), Trouble<'a>> {
    match chunk_listed(seen) {
        None => Ok(()),
        Some(chunk) => {
            let behind = behind_in(rt, cow, chunk)?;
            held(cow.name, push_behind(text, 32 * chunk as u64, behind, form))
        }
    }
}

/// The slots behind the first empty one that are not empty, where chunks have so many sectors.
fn behind_in<'a>(
    rt: &HostRuntime,
    cow: &mut Input<'a>,
    chunk: u32,
) -> Result<Option<Behind>, Trouble<'a>>
    requires some { 0 < chunk }
    requires allowed { chunk ≤ 1024 }
{
    let sectors = size_of(cow)?;
    let used = read_used(rt.alloc(), cow, chunk, sectors);
    let used = of_input(cow, used)?;
    cow.is_unchanged()?;
    Ok(notes_of(&used, 32 * chunk as u64, false).behind)
}

/// All faults of a store's pairs, for an origin of so many sectors.
fn faults_text<'a>(
    rt: &HostRuntime,
    cow: &mut Input<'a>,
    seen: &Seen,
    origin: u64,
    form: Form,
) -> Result<Vec<u8>, Trouble<'a>> {
    let Some(chunk) = chunk_of(seen.numbers) else {
        return Ok(Vec::new(rt.alloc()));
    };
    let found = all_faults(rt.alloc(), cow, chunk, origin, seen.sectors);
    let (faults, listed) = of_input(cow, found)?;
    cow.is_unchanged()?;
    held(
        cow.name,
        checked(rt.alloc(), seen.numbers, faults.as_slice(), listed, form),
    )
}
