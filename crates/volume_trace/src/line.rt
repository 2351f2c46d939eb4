// The line of a trace.
ghost use Rattle.std.specs.Prelude.{◌≡◌, IfOk};
ghost use Rattle.volume_trace.specs.Trace.{line_of, trace_of};

use crate::copies::add_snaps;
use crate::due::add_dues;
use crate::requests::add_flights;
use device_stacks::SnapNames;
use in_flight::Flight;
use layers::Stack;
use plain_machine::Event;
use snapshot::Snapshot;
use std::alloc::{AllocError, Global};
use words::{Name, Text};

/// A line of items about a device; no bytes where there is no item.
fn line_of(alloc: Global, name: &Name, items: Vec<u8>) -> Result<Text, AllocError>
    ensures { IfOk result (λ text. text ≡ line_of name.now items.items) }
{
    if items.is_empty() {
        return Ok(Text::from_vec(items));
    }
    let mut line = Vec::new(alloc);
    line.extend_from_slice(name.as_slice())?;
    line.extend_from_slice(&items)?;
    line.push(b'\n')?;
    Ok(Text::from_vec(line))
}

/// The line of a trace: the origin's name, the requests in flight, the snapshots that are lost, the copies that are not published,
/// the item of a merge, and the events that are due, under the words that `step` takes. No bytes where there is none of them. An error
/// says that the allocator refused room.
pub fn trace_line(
    alloc: Global,
    origin: &Name,
    names: &[SnapNames],
    snaps: &[Snapshot<Stack>],
    flights: &[Flight],
    merge: &[u8],
    due: &[Event],
) -> Result<Text, AllocError>
    ensures { IfOk result (λ text. text ≡ trace_of origin.now names.now snaps.now flights.now merge.now due.now) }
{
    let mut items = Vec::new(alloc);
    add_flights(&mut items, origin, names, snaps, flights)?;
    add_snaps(&mut items, names, snaps, snaps)?;
    items.extend_from_slice(merge)?;
    add_dues(&mut items, names, snaps, due)?;
    line_of(alloc, origin, items)
}
