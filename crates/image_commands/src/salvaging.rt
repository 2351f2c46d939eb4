// What is known of the array of a snapshot whose store is refused, or can't be read everywhere, is written to a new file.
ghost use Rattle.std.specs.Prelude.{◌<◌, ◌≤◌, IfSome};

use crate::printing::told_beside;
use crate::rolling::{of_put, put_seen, roll};
use cow_image::{MAX_IMAGE, Told};
use cow_reports::{Seen, chunk_listed, is_good, is_whole, look, notes_of, salvaged};
use cow_salvage::{Blanked, Saved, Slot, Span, Used, export_kept, front_of, read_used, unreadable};
use image_options::{Form, Telling};
use opened_files::{
    Input, Inputs, Trouble, Watched, about, file_begun, file_ended, held, of_input, size_of,
};
use std::io::Write;

/// What is asked of a salvage.
#[derive(Clone, Copy)]
pub struct Salvage<'a> {
    pub out: &'a str,
    /// The sectors of a chunk, where the header does not say them.
    pub chunk: Option<u32>,
    /// Whether pairs are taken that stand behind the first empty slot.
    pub behind: bool,
    pub form: Form,
    pub telling: Telling,
}

/// The two inputs, of which some sectors are not read.
#[derive(Drop)]
struct Both<'a> {
    origin: Blanked<Input<'a>>,
    cow: Blanked<Input<'a>>,
}

/// Writes what is known of a snapshot's array, and prints what is not. A store that is good is exported.
pub fn salvage_array<'a, W: Write, E: Write>(
    rt: &'a HostRuntime,
    origin: &'a str,
    cow: &'a str,
    asked: Salvage<'a>,
    output: &mut W,
    errors: &mut E,
) -> Result<bool, Trouble<'a>> {
    let Inputs { origin, cow } = Inputs::open_for(rt, origin, cow, asked.out, asked.telling)?;
    let mut both = Both {
        origin: all_read(rt, origin),
        cow: all_read(rt, cow),
    };
    let tried = attempt(rt, &mut both, asked, output, errors);
    if let Err(trouble) = &tried {
        if trouble.is_unreadable() {
            blank(rt, &mut both)?;
            return attempt(rt, &mut both, asked, output, errors);
        }
    }
    tried
}

/// The sectors of both inputs that can't be read.
#[derive(Clone, Copy)]
pub(crate) struct Lost<'s> {
    pub(crate) origin: &'s [Span],
    pub(crate) cow: &'s [Span],
}

/// An input of which all sectors are read.
pub(crate) fn all_read<'a>(rt: &HostRuntime, below: Input<'a>) -> Blanked<Input<'a>> {
    let spans = Vec::new(rt.alloc());
    Blanked { below, spans }
}

/// Finds the sectors of both inputs that can't be read.
fn blank<'a>(rt: &HostRuntime, both: &mut Both<'a>) -> Result<(), Trouble<'a>> {
    both.origin.spans = unread(rt, &mut both.origin.below)?;
    both.cow.spans = unread(rt, &mut both.cow.below)?;
    Ok(())
}

/// The sectors of an input that can't be read.
pub fn unread<'a>(rt: &HostRuntime, input: &mut Input<'a>) -> Result<Vec<Span>, Trouble<'a>> {
    let size = size_of(input)?;
    held(input.name, unreadable(rt.alloc(), input, size))
}

/// Writes what is known of a snapshot's array, if both inputs can be read where they are not blanked.
fn attempt<'a, W: Write, E: Write>(
    rt: &'a HostRuntime,
    both: &mut Both<'a>,
    asked: Salvage<'a>,
    output: &mut W,
    errors: &mut E,
) -> Result<bool, Trouble<'a>> {
    let size = size_of(&mut both.origin.below)?;
    let sectors = size_of(&mut both.cow.below)?;
    let seen = look(rt.alloc(), &mut both.cow, size);
    let seen = of_input(&mut both.cow.below, seen)?;
    if is_good(&seen.told) && is_plain(both, asked) {
        let out = asked.out;
        roll(
            rt,
            &mut both.origin.below,
            &mut both.cow.below,
            &seen,
            size,
            out,
            output,
        )?;
        return Ok(true);
    }
    match chunk_asked(asked, &seen) {
        None => put_seen(rt, asked.out, &seen, asked.form, output, errors),
        Some(chunk) => salvage_by(rt, both, asked, &seen, chunk, size, sectors, output, errors),
    }
}

/// Whether nothing else is asked than a store that is good would give.
fn is_plain(both: &Both<'_>, asked: Salvage<'_>) -> bool {
    both.origin.spans.is_empty()
        && both.cow.spans.is_empty()
        && asked.chunk.is_none()
        && !asked.behind
}

/// The sectors of a chunk: as they are asked for, else by a header that says them, whatever else is wrong.
fn chunk_asked(asked: Salvage<'_>, seen: &Seen) -> Option<u32>
    ensures { IfSome result (λ chunk. (0 < chunk) × (chunk ≤ 1024)) }
{
    if let Some(chunk) = asked.chunk {
        return allowed(chunk);
    }
    match &seen.told {
        Told::Fresh => Some(128),
        _ => chunk_listed(seen),
    }
}

/// A number of sectors that a chunk may have.
fn allowed(chunk: u32) -> Option<u32>
    ensures { IfSome result (λ chunk. (0 < chunk) × (chunk ≤ 1024)) }
{
    if chunk == 0 || 1024 < chunk {
        return None;
    }
    Some(chunk)
}

/// Writes what the kept pairs show, and prints which they are, and what is not known.
fn salvage_by<'a, W: Write, E: Write>(
    rt: &'a HostRuntime,
    both: &mut Both<'a>,
    asked: Salvage<'a>,
    seen: &Seen,
    chunk: u32,
    size: u64,
    sectors: u64,
    output: &mut W,
    errors: &mut E,
) -> Result<bool, Trouble<'a>>
    requires some { 0 < chunk }
    requires allowed { chunk ≤ 1024 }
    requires small { size ≤ MAX_IMAGE }
    requires few { sectors ≤ MAX_IMAGE }
{
    let used = used_in(rt, both, asked, seen, chunk, sectors)?;
    let saved = write_kept(rt, both, asked, &used, chunk, size, sectors, output)?;
    let lost = Lost {
        origin: both.origin.spans.as_slice(),
        cow: both.cow.spans.as_slice(),
    };
    tell(rt, lost, asked, &used, &saved, chunk, output, errors)
}

/// The slots of a store that are not empty: of a fresh one none, where no chunk size is asked for.
fn used_in<'a>(
    rt: &HostRuntime,
    both: &mut Both<'a>,
    asked: Salvage<'a>,
    seen: &Seen,
    chunk: u32,
    sectors: u64,
) -> Result<Used, Trouble<'a>>
    requires some { 0 < chunk }
    requires allowed { chunk ≤ 1024 }
    requires few { sectors ≤ MAX_IMAGE }
{
    if let Told::Fresh = seen.told {
        if asked.chunk.is_none() {
            return Ok(none_used(rt));
        }
    }
    let used = read_used(rt.alloc(), &mut both.cow, chunk, sectors);
    of_input(&mut both.cow.below, used)
}

/// Prints which pairs are kept, and what is not known, and tells whether all is.
pub(crate) fn tell<'a, W: Write, E: Write>(
    rt: &HostRuntime,
    lost: Lost<'_>,
    asked: Salvage<'a>,
    used: &Used,
    saved: &Saved,
    chunk: u32,
    output: &mut W,
    errors: &mut E,
) -> Result<bool, Trouble<'a>>
    requires some { 0 < chunk }
    requires allowed { chunk ≤ 1024 }
{
    let slots = 32 * chunk as u64;
    let notes = notes_of(used, slots, asked.behind);
    let text = salvaged(
        rt.alloc(),
        slots,
        saved,
        lost.origin,
        lost.cow,
        notes,
        asked.form,
    );
    let text = held(asked.out, text)?;
    told_beside(output, errors, asked.out, text.as_slice())?;
    Ok(is_whole(saved, lost.origin, lost.cow, notes))
}

/// The slots of a fresh store.
fn none_used(rt: &HostRuntime) -> Used {
    Used {
        areas: 1,
        slots: Vec::new(rt.alloc()),
    }
}

/// Writes what the kept pairs show to a new file, or to standard output. Where that fails no file is left.
fn write_kept<'a, W: Write>(
    rt: &'a HostRuntime,
    both: &mut Both<'a>,
    asked: Salvage<'a>,
    used: &Used,
    chunk: u32,
    size: u64,
    sectors: u64,
    output: &mut W,
) -> Result<Saved, Trouble<'a>>
    requires some { 0 < chunk }
    requires allowed { chunk ≤ 1024 }
    requires small { size ≤ MAX_IMAGE }
{
    let mut watched = file_begun(rt, asked.out, size, asked.telling, output)?;
    let put = put_kept(rt, both, asked, used, chunk, size, sectors, &mut watched);
    file_ended(rt, asked.out, put)
}

/// Writes what the kept pairs show, makes it last, and sees that the inputs are still as they were read.
fn put_kept<'a, W: Write>(
    rt: &HostRuntime,
    both: &mut Both<'a>,
    asked: Salvage<'a>,
    used: &Used,
    chunk: u32,
    size: u64,
    sectors: u64,
    watched: &mut Watched<'_, '_, W>,
) -> Result<Saved, Trouble<'a>>
    requires some { 0 < chunk }
    requires allowed { chunk ≤ 1024 }
    requires small { size ≤ MAX_IMAGE }
{
    both.origin.below.hush();
    both.cow.below.hush();
    let slots = taken(used, asked.behind);
    let front = front_of(slots);
    let origin = &mut both.origin;
    let cow = &mut both.cow;
    let put = export_kept(
        rt.alloc(),
        origin,
        cow,
        chunk,
        size,
        sectors,
        slots,
        front,
        watched,
    );
    watched.hush();
    let saved = of_put(&both.origin.below, &both.cow.below, asked.out, put)?;
    about(asked.out, watched.finish())?;
    both.cow.below.is_unchanged()?;
    both.origin.below.is_unchanged()?;
    Ok(saved)
}

/// The slots whose pairs are taken: those before the first empty one, or all.
pub fn taken(used: &Used, behind: bool) -> &[Slot] {
    let slots = used.slots.as_slice();
    if behind {
        return slots;
    }
    &slots[..front_of(slots)]
}
