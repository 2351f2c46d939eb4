// A snapshot is served to a client, on standard input and output.
ghost use Rattle.std.specs.Prelude.{◌≡◌, ℕ, ◌*◌, ◌≤◌, List, length, OnOk, IsTrue, Some};
ghost use Rattle.cow_image.specs.Maps.{IsToldOf};
ghost use Rattle.cow_nbd.specs.Shows.{IsServedBy, OrChanged};
ghost use Rattle.image_commands.specs.Arrays.{array_of, marks_of, FailsTold};
ghost use Rattle.cow_reports.specs.Answers.{is_good};

use crate::commands::seen_both;
use cow_image::Told;
use cow_nbd::{Watch, serve_fresh, serve_written};
use cow_reports::shown;
use image::Image;
use image_options::{Form, Telling};
use nbd_read_session::Stopped;
use opened_files::{Inputs, Trouble, Why, Witness, held};
use std::alloc::Global;
use std::io::{Read, Write};

/// Serves a snapshot, and its origin, to the client on standard input and output, or tells on standard error why the store
/// is refused. Once a file has changed, no bytes are given any more, and it is told when the client has left.
pub fn serve<'a, R: Read, W: Write, E: Write>(
    rt: &'a HostRuntime,
    origin: &'a str,
    cow: &'a str,
    reader: &mut R,
    writer: &mut W,
    errors: &mut E,
) -> Result<bool, Trouble<'a>> {
    let mut inputs = Inputs::open(rt, origin, cow, Telling::Terminal)?;
    let (size, seen) = seen_both(rt, &mut inputs)?;
    if let Told::Refused(_) = seen.told {
        let text = held(cow, shown(rt.alloc(), &seen, Form::Lines))?;
        let _ = errors.write_all(text.as_slice());
        return Ok(false);
    }
    inputs.hush();
    let Inputs { origin, cow } = inputs;
    let mut watch = Witness::new(origin.kept()?, cow.kept()?);
    let ended = serve_told(
        rt.alloc(),
        origin,
        cow,
        seen.told,
        size,
        &mut watch,
        reader,
        writer,
    );
    if let Some(name) = watch.changed() {
        return Err(Trouble::new(name, Why::Changed));
    }
    of_served(ended)
}

/// Serves the snapshot of a store of which this was told, and its origin, which has so many sectors, while they are as they
/// were. A read is answered EIO only where a read of the images may fail, or they may have changed.
fn serve_told<O: Image + Drop, C: Image + Drop, V: Watch, R: Read, W: Write>(
    alloc: Global,
    origin: O,
    cow: C,
    told: Told,
    size: u64,
    watch: &mut V,
    reader: &mut R,
    writer: &mut W,
) -> Result<(), Stopped>
    requires size { size ≤ 68_719_476_736 }
    requires good { IsTrue (is_good told) }
    ensures { OnOk result ((o : List ℕ) → (b : List ℕ) → (heard : List ℕ) → O.bytes origin ≡ Some o → C.bytes cow ≡ Some b → R.remaining reader.old ≡ Some heard → length o ≡ 512 * size → IsToldOf size b told → IsServedBy (OrChanged (V.has_told watch.old) (V.may_change watch.old) (FailsTold told (O.may_fail origin) (C.may_fail cow) size)) size (array_of told o b) o (marks_of told) heard (W.contents writer.old) (W.contents writer.new)) }
{
    match told {
        Told::Fresh => match serve_fresh(alloc, origin, size, watch, reader, writer) {
            Ok(()) => Ok(()),
            Err(stopped) => Err(stopped),
        },
        Told::Refused(_) => unreachable!(),
        Told::Written(map) => match serve_written(
            alloc, origin, cow, map, size, watch, reader, writer,
        ) {
            Ok(()) => Ok(()),
            Err(stopped) => Err(stopped),
        },
    }
}

/// Says why a client is served no more, where it did not leave.
pub(crate) fn of_served(served: Result<(), Stopped>) -> Result<bool, Trouble<'static>> {
    match served {
        Ok(()) => Ok(true),
        Err(Stopped::Unheard(error)) => {
            Err(Trouble::new("standard input", Why::Unreadable(None, error)))
        }
        Err(Stopped::Unsaid(error)) => {
            Err(Trouble::new("standard output", Why::Unwritable(error)))
        }
        Err(Stopped::NoMemory) => Err(Trouble::new("a client's request", Why::NoMemory)),
    }
}
