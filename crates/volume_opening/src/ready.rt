// Before a snapshot is taken.
ghost use Rattle.std.specs.Prelude.{◌≡◌, ◌*◌, ◌<◌, ◌≤◌, true, Ok, OnOk, IfErr};
ghost use Rattle.sector.specs.Bytes.{sector_at};
ghost use Rattle.chunk.specs.Sizes.{is_chunk};
ghost use Rattle.cow_header.specs.HeaderText.{found_in};
ghost use Rattle.cow_header.specs.declared.found.Found.TheVariants.{Fresh};
ghost use Rattle.device.specs.Layers.{is_loud};
ghost use Rattle.volume_opening.specs.Seen.{IsSeen};
ghost use Rattle.volume_opening.specs.NotReady.{IsNotReady};

use crate::NotOpened;
use crate::looking::first_said;
use chunk::is_chunk_size;
use cow_header::Found;
use device::Ahead;
use sector::Refusal;
use std::alloc::Global;

/// Sees that a store is empty.
fn is_empty<B: Ahead>(alloc: Global, store: &mut B, chunk: u32) -> Result<(), NotOpened>
    requires { 0 < B.size store.old }
    ensures seen { IsSeen B.may_hold B.contents B.layers B.size store.old store.new }
    ensures empty { OnOk result (found_in (sector_at (B.contents store.new) 0) ≡ Ok Fresh) }
    ensures refused { IfErr result (IsNotReady chunk (B.size store.new) (B.contents store.new)) }
{
    match first_said(alloc, store)? {
        Ok(Found::Fresh) => Ok(()),
        Ok(Found::Header { .. }) => Err(NotOpened::Written),
        Err(refusal) => Err(NotOpened::Refused(refusal)),
    }
}

/// Sees, before anything is written, that a snapshot with chunks of so many sectors may be taken of an origin over a store. Refused, in
/// this order: a chunk size that is none (`BadChunk`), a store of less than two chunks (`StoreTooSmall`), one that can't be
/// read (`StoreFailed`), one whose first sector is refused, one that has a snapshot (`Written`), and an origin or a store that can't be
/// synced (`OriginFailed`, `StoreFailed`); `NoMemory` where memory is refused.
pub fn are_ready<B: Ahead>(
    alloc: Global,
    origin: &mut B,
    store: &mut B,
    chunk: u32,
) -> Result<(), NotOpened>
    ensures origin { IsSeen B.may_hold B.contents B.layers B.size origin.old origin.new }
    ensures store { IsSeen B.may_hold B.contents B.layers B.size store.old store.new }
    ensures chunk { OnOk result (is_chunk chunk ≡ true) }
    ensures large { OnOk result (2 * chunk ≤ B.size store.new) }
    ensures empty { OnOk result (is_loud (B.layers store.new) ≡ true → found_in (sector_at (B.contents store.new) 0) ≡ Ok Fresh) }
    ensures refused { IfErr result (IsNotReady chunk (B.size store.new) (B.contents store.new)) }
{
    if !is_chunk_size(chunk) {
        return Err(NotOpened::Refused(Refusal::BadChunk));
    }
    if store.sectors() < 2 * chunk as u64 {
        return Err(NotOpened::Refused(Refusal::StoreTooSmall));
    }
    is_empty(alloc, store, chunk)?;
    if !origin.sync_ahead() {
        return Err(NotOpened::OriginFailed);
    }
    if !store.sync_ahead() {
        return Err(NotOpened::StoreFailed);
    }
    Ok(())
}
