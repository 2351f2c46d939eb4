// The items of snapshots: which are lost, and the copies that are not published.
ghost use Rattle.std.specs.Prelude.{◌≡◌, ◌++◌, ◌∷◌, [], OnOk, codes, decimal};
ghost use Rattle.volume_trace.specs.Trace.{copied_text, copies_text, copy_text, item_of, lost_text, mark_text, marks_text, snap_text, stage_word, told_text};

use crate::items::{add_item, name_of};
use device_stacks::SnapNames;
use in_flight::{ChunkCopy, Mark, Stage};
use itoa::Buffer;
use layers::Stack;
use snapshot::Snapshot;
use std::alloc::AllocError;

/// The word for how far a copy is whose pair is not committed.
fn stage_word(stage: Stage) -> &'static [u8]
    ensures { result.now ≡ stage_word stage }
{
    match stage {
        Stage::Waiting => b"waiting",
        Stage::Read => b"read",
        Stage::Written => b"written",
        Stage::Flushed => b"flushed",
    }
}

/// Adds a copy: its number, its snapshot's name, its chunk, and how far it is.
fn add_told(
    out: &mut Vec<u8>,
    number: u64,
    name: &[u8],
    chunk: u64,
    state: &[u8],
) -> Result<(), AllocError>
    ensures { OnOk result (out.new.items ≡ out.old.items ++ item_of (codes "copy" ∷ decimal number ∷ name.now ∷ decimal chunk ∷ state.now ∷ [])) }
{
    let mut number_buffer = Buffer::new();
    let mut chunk_buffer = Buffer::new();
    let number = number_buffer.format(number).as_bytes();
    let chunk = chunk_buffer.format(chunk).as_bytes();
    add_item(out, &[b"copy".as_slice(), number, name, chunk, state])
}

/// Adds a copy whose pair is not committed.
fn add_copy(out: &mut Vec<u8>, name: &[u8], copy: &ChunkCopy) -> Result<(), AllocError>
    ensures { OnOk result (out.new.items ≡ out.old.items ++ copy_text name.now copy.now) }
{
    let state = stage_word(copy.stage);
    add_told(out, copy.number, name, copy.pair.old, state)
}

/// Adds a copy whose pair is committed.
fn add_mark(out: &mut Vec<u8>, name: &[u8], mark: &Mark) -> Result<(), AllocError>
    ensures { OnOk result (out.new.items ≡ out.old.items ++ mark_text name.now mark.now) }
{
    add_told(out, mark.number, name, mark.chunk, b"committed")
}

/// Adds the copies that are committed.
fn add_marks(out: &mut Vec<u8>, name: &[u8], marks: &[Mark]) -> Result<(), AllocError>
    ensures { OnOk result (out.new.items ≡ out.old.items ++ marks_text name.now marks.now) }
{
    for mark in marks {
        add_mark(out, name, mark)?;
    }
    Ok(())
}

/// Adds those that are not.
fn add_copies(out: &mut Vec<u8>, name: &[u8], copies: &[ChunkCopy]) -> Result<(), AllocError>
    ensures { OnOk result (out.new.items ≡ out.old.items ++ copies_text name.now copies.now) }
{
    for copy in copies {
        add_copy(out, name, copy)?;
    }
    Ok(())
}

/// Adds that a snapshot is lost, where it is, and whether its store is full.
#[tactic(auto, using(crate::proofs::Lost::none_lost, crate::proofs::Lost::lost_full, crate::proofs::Lost::lost_else))]
fn add_lost(out: &mut Vec<u8>, name: &[u8], snap: &Snapshot<Stack>) -> Result<(), AllocError>
    ensures { OnOk result (out.new.items ≡ out.old.items ++ lost_text name.now snap.now) }
{
    if snap.is_live() {
        return Ok(());
    }
    if snap.is_full() {
        add_item(out, &[b"lost".as_slice(), name, b"full"])
    } else {
        add_item(out, &[b"lost".as_slice(), name])
    }
}

/// Adds that a snapshot is lost, where it is, and its copies, in the order in which they began.
fn add_snap(out: &mut Vec<u8>, name: &[u8], snap: &Snapshot<Stack>) -> Result<(), AllocError>
    ensures { OnOk result (out.new.items ≡ out.old.items ++ snap_text name.now snap.now) }
{
    add_lost(out, name, snap)?;
    add_marks(out, name, snap.marks())?;
    add_copies(out, name, snap.copies())
}

/// Adds the copies of a snapshot, under its name.
#[tactic(auto, unfolding(crate::specs::Trace::told_text))]
fn add_named_snap(
    out: &mut Vec<u8>,
    names: &[SnapNames],
    snaps: &[Snapshot<Stack>],
    snap: &Snapshot<Stack>,
) -> Result<(), AllocError>
    ensures { OnOk result (out.new.items ≡ out.old.items ++ told_text names.now snaps.now snap.now) }
{
    let name = name_of(names, snaps, snap.number());
    add_snap(out, name, snap)
}

/// Adds the copies of some of the snapshots that have these names.
pub fn add_snaps(
    out: &mut Vec<u8>,
    names: &[SnapNames],
    snaps: &[Snapshot<Stack>],
    some: &[Snapshot<Stack>],
) -> Result<(), AllocError>
    ensures { OnOk result (out.new.items ≡ out.old.items ++ copied_text names.now snaps.now some.now) }
{
    for snap in some {
        add_named_snap(out, names, snaps, snap)?;
    }
    Ok(())
}
