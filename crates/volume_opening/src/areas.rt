// The areas of a written store are read ahead.
ghost use Rattle.std.specs.Prelude.{◌≡◌, ◌+◌, ◌<◌, ◌≤◌, IfErr};
ghost use Rattle.volume_opening.specs.Seen.{IsSeen};
ghost use Rattle.volume_opening.specs.NotReady.{IsReadFailure};

use crate::NotOpened;
use crate::looking::read_seen;
use device::Ahead;
use metadata_area::Area;
use sector::{Range, SECTOR_BYTES};
use std::alloc::Global;

/// Reads an area ahead, and gives whether it has an empty slot.
fn has_end<B: Ahead>(
    alloc: Global,
    store: &mut B,
    chunk: u32,
    range: Range,
) -> Result<bool, NotOpened>
    requires some { 0 < chunk }
    requires allowed { chunk ≤ 1024 }
    requires whole { range.count ≡ chunk }
    requires inside { range.first + range.count ≤ B.size store.old }
    ensures seen { IsSeen B.may_hold B.contents B.layers B.size store.old store.new }
    ensures failed { IfErr result IsReadFailure }
{
    let Ok(mut bytes) = vec![in alloc; 0u8; SECTOR_BYTES * chunk as usize] else {
        return Err(NotOpened::NoMemory);
    };
    read_seen(alloc, store, range, bytes.as_mut_slice())?;
    let area = Area::decode(bytes, chunk);
    Ok(area.first_empty() < area.slots())
}

/// Reads ahead the areas of a written store that its load will read, with chunks of so many sectors: up to the first that has an
/// empty slot, or to the last that lies inside the store.
pub fn areas_ahead<B: Ahead>(alloc: Global, store: &mut B, chunk: u32) -> Result<(), NotOpened>
    requires some { 0 < chunk }
    requires allowed { chunk ≤ 1024 }
    ensures seen { IsSeen B.may_hold B.contents B.layers B.size store.old store.new }
    ensures failed { IfErr result IsReadFailure }
{
    let size = store.sectors();
    let sectors = chunk as u64;
    let apart = sectors.saturating_mul(32 * sectors + 1);
    for area in 0..size {
        let first = apart.saturating_mul(area).saturating_add(sectors);
        if size < sectors || size - sectors < first {
            return Ok(());
        }
        let range = Range {
            first,
            count: chunk,
            size,
        };
        if has_end(alloc, store, chunk, range)? {
            return Ok(());
        }
    }
    Ok(())
}
