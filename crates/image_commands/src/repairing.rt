// The pairs that are kept of a store, damaged or not, are written to a new one.
ghost use Rattle.std.specs.Prelude.{◌≡◌, ◌≤◌, IfSome, true};
ghost use Rattle.chunk.specs.Sizes.{is_chunk};

use crate::rolling::of_put;
use crate::salvaging::{Lost, Salvage, all_read, taken, tell, unread};
use chunk::is_chunk_size;
use cow_image::MAX_IMAGE;
use cow_reports::{Seen, chunk_listed, is_good, look};
use cow_salvage::{Blanked, Saved, Used, front_of, read_used};
use new_store_files::repair;
use opened_files::{
    Input, Trouble, Watched, Why, about, file_begun, file_ended, is_free, of_input, size_of,
};
use std::io::Write;

/// Writes a new store of the pairs that a salvage of one keeps, and prints which they are. Of a store that is good, where nothing else
/// is asked, it prints nothing.
pub fn repair_store<'a, W: Write, E: Write>(
    rt: &'a HostRuntime,
    cow: &'a str,
    asked: Salvage<'a>,
    output: &mut W,
    errors: &mut E,
) -> Result<bool, Trouble<'a>> {
    is_free(rt, asked.out)?;
    let below = Input::open(rt, cow, asked.telling)?;
    below.is_unused(rt, true)?;
    let mut cow = all_read(rt, below);
    let tried = attempt(rt, &mut cow, asked, output, errors);
    if let Err(trouble) = &tried {
        if trouble.is_unreadable() {
            cow.spans = unread(rt, &mut cow.below)?;
            return attempt(rt, &mut cow, asked, output, errors);
        }
    }
    tried
}

/// Writes the new store, if the other can be read where it is not blanked.
fn attempt<'a, W: Write, E: Write>(
    rt: &'a HostRuntime,
    cow: &mut Blanked<Input<'a>>,
    asked: Salvage<'a>,
    output: &mut W,
    errors: &mut E,
) -> Result<bool, Trouble<'a>> {
    let sectors = size_of(&mut cow.below)?;
    let seen = look(rt.alloc(), cow, u64::MAX);
    let seen = of_input(&mut cow.below, seen)?;
    let Some(chunk) = chunk_of_store(asked, &seen) else {
        return Err(Trouble::new(cow.below.name, Why::NoChunk));
    };
    let used = read_used(rt.alloc(), cow, chunk, sectors);
    let used = of_input(&mut cow.below, used)?;
    let saved = write_repaired(rt, cow, asked, &used, chunk, sectors, output)?;
    if is_good(&seen.told) && is_plain(cow, asked) {
        return Ok(true);
    }
    let lost = Lost {
        origin: &[],
        cow: cow.spans.as_slice(),
    };
    tell(rt, lost, asked, &used, &saved, chunk, output, errors)
}

/// The sectors of a chunk: as they are asked for, else by a header that says them, whatever else is wrong.
fn chunk_of_store(asked: Salvage<'_>, seen: &Seen) -> Option<u32>
    ensures { IfSome result (λ chunk. is_chunk chunk ≡ true) }
{
    let chunk = match asked.chunk {
        Some(chunk) => chunk,
        None => chunk_listed(seen)?,
    };
    if !is_chunk_size(chunk) {
        return None;
    }
    Some(chunk)
}

/// Whether nothing is asked but the store's own list, and all of it could be read.
fn is_plain(cow: &Blanked<Input<'_>>, asked: Salvage<'_>) -> bool {
    cow.spans.is_empty() && asked.chunk.is_none() && !asked.behind
}

/// Writes the pairs that are kept of these slots to a new store, or to standard output. Where that fails no file is left.
fn write_repaired<'a, W: Write>(
    rt: &'a HostRuntime,
    cow: &mut Blanked<Input<'a>>,
    asked: Salvage<'a>,
    used: &Used,
    chunk: u32,
    sectors: u64,
    output: &mut W,
) -> Result<Saved, Trouble<'a>>
    requires { is_chunk chunk ≡ true }
{
    let most = sectors_for(taken(used, asked.behind).len() as u64, chunk);
    let mut watched = file_begun(rt, asked.out, most, asked.telling, output)?;
    let put = put_repaired(rt, cow, asked, used, chunk, sectors, &mut watched);
    file_ended(rt, asked.out, put)
}

/// How many sectors a store of so many pairs has.
fn sectors_for(pairs: u64, chunk: u32) -> u64
    requires { is_chunk chunk ≡ true }
{
    let chunk = chunk as u64;
    let areas = pairs / (32 * chunk) + 1;
    chunk.saturating_mul(pairs.saturating_add(areas + 1))
}

/// Writes the pairs that are kept, makes them last, and sees that the input is still as it was read.
fn put_repaired<'a, W: Write>(
    rt: &HostRuntime,
    cow: &mut Blanked<Input<'a>>,
    asked: Salvage<'a>,
    used: &Used,
    chunk: u32,
    sectors: u64,
    watched: &mut Watched<'_, '_, W>,
) -> Result<Saved, Trouble<'a>>
    requires { is_chunk chunk ≡ true }
{
    cow.below.hush();
    let slots = taken(used, asked.behind);
    let front = front_of(slots);
    let put = repair(
        rt.alloc(),
        cow,
        chunk,
        u64::MAX,
        sectors,
        slots,
        front,
        watched,
    );
    watched.hush();
    let saved = of_put(&cow.below, &cow.below, asked.out, put)?;
    about(asked.out, watched.finish())?;
    cow.below.is_unchanged()?;
    Ok(saved)
}
