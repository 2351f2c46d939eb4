// The items of events that are due, in the words of `step`.
ghost use Rattle.std.specs.Prelude.{◌≡◌, ◌++◌, ◌∷◌, [], OnOk, codes, decimal};
ghost use Rattle.volume_trace.specs.Trace.{due_text, dues_text, item_of};

use crate::items::{add_item, name_of};
use device_stacks::SnapNames;
use itoa::Buffer;
use layers::Stack;
use plain_machine::Event;
use snapshot::Snapshot;
use std::alloc::AllocError;

/// Adds an event that is due, of a request or a copy.
fn add_numbered(out: &mut Vec<u8>, kind: &[u8], number: u64) -> Result<(), AllocError>
    ensures { OnOk result (out.new.items ≡ out.old.items ++ item_of (codes "due" ∷ kind.now ∷ decimal number ∷ [])) }
{
    let mut buffer = Buffer::new();
    add_item(
        out,
        &[b"due".as_slice(), kind, buffer.format(number).as_bytes()],
    )
}

/// Adds one of a snapshot.
fn add_named(out: &mut Vec<u8>, kind: &[u8], name: &[u8]) -> Result<(), AllocError>
    ensures { OnOk result (out.new.items ≡ out.old.items ++ item_of (codes "due" ∷ kind.now ∷ name.now ∷ [])) }
{
    add_item(out, &[b"due".as_slice(), kind, name])
}

/// Adds one of a merge.
fn add_merging(out: &mut Vec<u8>, kind: &[u8]) -> Result<(), AllocError>
    ensures { OnOk result (out.new.items ≡ out.old.items ++ item_of (codes "due" ∷ kind.now ∷ [])) }
{
    add_item(out, &[b"due".as_slice(), kind])
}

/// Adds an event that is due.
fn add_due(
    out: &mut Vec<u8>,
    names: &[SnapNames],
    snaps: &[Snapshot<Stack>],
    event: Event,
) -> Result<(), AllocError>
    ensures { OnOk result (out.new.items ≡ out.old.items ++ due_text names.now snaps.now event) }
{
    match event {
        Event::Issue(number) => add_numbered(out, b"issue", number),
        Event::CopyRead(number) => add_numbered(out, b"copy-read", number),
        Event::CopyWrite(number) => add_numbered(out, b"copy-write", number),
        Event::Publish(number) => add_numbered(out, b"publish", number),
        Event::ZeroNext(number) => add_named(out, b"zero-next", name_of(names, snaps, number)),
        Event::WriteArea(number) => add_named(out, b"write-area", name_of(names, snaps, number)),
        Event::WriteInvalid(number) => add_named(
            out,
            b"write-invalid",
            name_of(names, snaps, number),
        ),
        Event::FlushStore(number) => add_named(out, b"flush-store", name_of(names, snaps, number)),
        Event::MergeGroup => add_merging(out, b"merge-group"),
        Event::MergeAreaRead => add_merging(out, b"merge-area-read"),
        Event::MergeRead => add_merging(out, b"merge-read"),
        Event::MergeWrite => add_merging(out, b"merge-write"),
        Event::MergeFlush => add_merging(out, b"merge-flush"),
        Event::MergeCommit => add_merging(out, b"merge-commit"),
        Event::MergeRelease => add_merging(out, b"merge-release"),
    }
}

/// Adds the events that are due.
pub fn add_dues(
    out: &mut Vec<u8>,
    names: &[SnapNames],
    snaps: &[Snapshot<Stack>],
    events: &[Event],
) -> Result<(), AllocError>
    ensures { OnOk result (out.new.items ≡ out.old.items ++ dues_text names.now snaps.now events.now) }
{
    for event in events {
        add_due(out, names, snaps, *event)?;
    }
    Ok(())
}
