// Items of a line, and the names of snapshots in them.
ghost use Rattle.std.specs.Prelude.{◌≡◌, ◌++◌, OnOk};
ghost use Rattle.words.specs.Texts.{texts};
ghost use Rattle.volume_trace.specs.Trace.{item_of, name_of};

use device_stacks::SnapNames;
use layers::Stack;
use plain_machine::SnapId;
use snapshot::Snapshot;
use snapshot_list::snap_at;
use std::alloc::AllocError;

/// Adds an item: a semicolon, and each word after a space.
pub fn add_item(out: &mut Vec<u8>, words: &[&[u8]]) -> Result<(), AllocError>
    ensures { OnOk result (out.new.items ≡ out.old.items ++ item_of (texts words.now)) }
{
    out.push(b';')?;
    for word in words {
        out.push(b' ')?;
        out.extend_from_slice(word)?;
    }
    Ok(())
}

/// The name of the snapshot with a number, `?` where there is none.
pub fn name_of<'a>(names: &'a [SnapNames], snaps: &[Snapshot<Stack>], number: SnapId) -> &'a [u8]
    ensures { result.now ≡ name_of names.now snaps.now number }
{
    match snap_at(snaps, number) {
        Some(k) => match names.get(k) {
            Some(names) => names.snapshot.as_slice(),
            None => b"?",
        },
        None => b"?",
    }
}
