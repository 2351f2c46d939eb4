// The array of a snapshot is written to a new file.
ghost use Rattle.std.specs.Prelude.{◌≤◌};

use crate::array::put_array;
use crate::commands::seen_both;
use crate::printing::told_beside;
use cow_image::{Failure, MAX_IMAGE, Stopped, Told, read_store};
use cow_reports::{Seen, is_good, shown};
use image_options::{Form, Telling};
use opened_files::{
    Input, Inputs, Trouble, Watched, Why, about, file_begun, file_ended, held, of_input,
};
use std::io::Write;

/// Writes a snapshot's array to a new file, or prints why its store is refused. With no other snapshot of the origin this
/// is also what the origin holds once the snapshot was merged into it.
pub fn export<'a, W: Write, E: Write>(
    rt: &'a HostRuntime,
    origin: &'a str,
    cow: &'a str,
    out: &'a str,
    form: Form,
    telling: Telling,
    output: &mut W,
    errors: &mut E,
) -> Result<bool, Trouble<'a>> {
    let mut inputs = Inputs::open_for(rt, origin, cow, out, telling)?;
    let (size, seen) = seen_both(rt, &mut inputs)?;
    if let Told::Refused(_) = seen.told {
        return put_seen(rt, out, &seen, form, output, errors);
    }
    let Inputs { origin, cow } = &mut inputs;
    roll(rt, origin, cow, &seen, size, out, output)?;
    Ok(true)
}

/// Writes the array of a store that is good to a new file, or to standard output. Where that fails no file is left.
pub fn roll<'a, W: Write>(
    rt: &'a HostRuntime,
    origin: &mut Input<'a>,
    cow: &mut Input<'a>,
    seen: &Seen,
    size: u64,
    out: &'a str,
    output: &mut W,
) -> Result<(), Trouble<'a>>
    requires { size ≤ MAX_IMAGE }
{
    let mut watched = file_begun(rt, out, size, origin.telling(), output)?;
    let rolled = rolled(rt, origin, cow, seen, size, &mut watched, out);
    file_ended(rt, out, rolled)
}

/// Prints what a store holds or why it is refused, and tells whether it is good.
pub fn put_seen<'a, W: Write, E: Write>(
    rt: &HostRuntime,
    out: &'a str,
    seen: &Seen,
    form: Form,
    output: &mut W,
    errors: &mut E,
) -> Result<bool, Trouble<'a>> {
    let text = held(out, shown(rt.alloc(), seen, form))?;
    told_beside(output, errors, out, text.as_slice())?;
    Ok(is_good(&seen.told))
}

/// Writes the array, makes it last, and sees that the inputs are still as they were read.
fn rolled<'a, W: Write>(
    rt: &HostRuntime,
    origin: &mut Input<'a>,
    cow: &mut Input<'a>,
    seen: &Seen,
    size: u64,
    watched: &mut Watched<'_, '_, W>,
    out: &'a str,
) -> Result<(), Trouble<'a>>
    requires { size ≤ MAX_IMAGE }
{
    origin.hush();
    cow.hush();
    let put = put_array(rt.alloc(), origin, cow, &seen.told, size, watched);
    watched.hush();
    of_put(origin, cow, out, put)?;
    about(out, watched.finish())?;
    let again = read_store(rt.alloc(), cow, size);
    let again = of_input(cow, again)?;
    if !is_same(&seen.told, &again) {
        return Err(cow.trouble(Failure::Changed));
    }
    cow.is_unchanged()?;
    origin.is_unchanged()
}

/// Says with which file an export stopped.
pub fn of_put<'a, T: Drop>(
    origin: &Input<'a>,
    cow: &Input<'a>,
    out: &'a str,
    put: Result<T, Stopped>,
) -> Result<T, Trouble<'a>> {
    let stopped = match put {
        Ok(value) => return Ok(value),
        Err(stopped) => stopped,
    };
    let (name, at) = match &stopped {
        Stopped::Unreadable(_) => match cow.failed() {
            Some(at) => (cow.name, Some(at)),
            None => (origin.name, origin.failed()),
        },
        Stopped::Unwritable(_) => (out, None),
        Stopped::NoMemory => (out, None),
    };
    Err(Trouble::new(name, Why::of_stopped(stopped, at)))
}

/// Whether two looks at a store told the same header and the same pairs.
fn is_same(told: &Told, again: &Told) -> bool {
    match (told, again) {
        (Told::Fresh, Told::Fresh) => true,
        (Told::Written(map), Told::Written(again)) => {
            map.chunk == again.chunk && map.pairs.as_slice() == again.pairs.as_slice()
        }
        _ => false,
    }
}
