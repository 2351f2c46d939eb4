// What an event that reads for a copy or a merge will ask.
ghost use Rattle.std.specs.Prelude.{◌≡◌, ◌+◌, ◌*◌, ◌^◌, ◌<◌, ◌≤◌, length, slice_index_or};
ghost use Rattle.device.specs.declared.operation.Operation.TheVariants.{Reads};
ghost use Rattle.plain_machine.specs.declared.event.Event.TheVariants.{CopyRead, MergeAreaRead, MergeRead};
ghost use Rattle.cow_format.specs.Places.{area_place};
ghost use Rattle.in_flight.specs.Copies.{count_of};
ghost use Rattle.in_flight.specs.declared.copies.ChunkCopy.{ChunkCopy};
ghost use Rattle.volume.specs.Asks.{AsksIfDue};

use crate::Volume;
use crate::ahead::Ask;
use device::{Ahead, Operation};
use in_flight::{ChunkCopy, Stage, sectors_of};
use plain_machine::CopyId;
use sector::{Chunk, Range};
use snapshot_list::find_copy_from;

/// The chunk of the copy at this place.
fn chunk_of(copies: &[ChunkCopy], index: usize) -> Chunk
    requires { index < length copies.now }
    ensures { (p : ChunkCopy) → result ≡ (slice_index_or copies.now index p).pair.old }
{
    copies[index].pair.old
}

/// A read of as many sectors as an origin of so many has in one chunk, from the front of a chunk of a device on.
fn chunk_read(chunk: u32, origin: u64, old: Chunk, at: Chunk) -> Operation
    requires old { chunk * old < 2 ^ 64 }
    requires at { chunk * at < 2 ^ 64 }
    ensures { result ≡ Reads (chunk * at) (count_of chunk origin old) }
{
    Operation::Reads(u64::from(chunk) * at, sectors_of(chunk, origin, old))
}

/// A read of an area of a store of so many sectors.
fn area_read(chunk: u32, area: u64, size: u64) -> Operation
    requires some { 0 < chunk }
    requires inside { chunk * (area_place chunk area + 1) ≤ size }
    ensures { result ≡ Reads (chunk * area_place chunk area) chunk }
{
    let sectors = u64::from(chunk);
    let place = area * (32 * sectors + 1) + 1;
    let range = Range {
        first: sectors * place,
        count: chunk,
        size,
    };
    Operation::Reads(range.first, range.count)
}

impl<B: Ahead> Volume<B> {
    /// The origin disk is asked for the chunk of a copy.
    pub(crate) fn asked_by_copy(&self, number: CopyId) -> Ask
        ensures { AsksIfDue B.Block (CopyRead number) result self.now }
    {
        match find_copy_from(&self.snaps, self.last, Stage::Waiting, number) {
            Some((place, index)) => {
                let snap = &self.snaps[place];
                let old = chunk_of(snap.copies(), index);
                let size = self.origin.sectors();
                Ask::Origin(chunk_read(snap.chunk(), size, old, old))
            }
            None => Ask::Nobody,
        }
    }

    /// The merging store is asked for the area before the current one.
    pub(crate) fn asked_by_area_read(&self) -> Ask
        ensures { AsksIfDue B.Block MergeAreaRead result self.now }
    {
        match &self.merge {
            Some(merge) => {
                // A look: its pairs, and so its areas, lie in its store.
                merge.look_at_store();
                let area = merge.current_area().saturating_sub(1);
                let size = merge.device().sectors();
                Ask::Merging(area_read(merge.chunk(), area, size))
            }
            None => Ask::Nobody,
        }
    }

    /// The merging store is asked for the chunk of the last pair that waits.
    pub(crate) fn asked_by_merge_read(&self) -> Ask
        ensures { AsksIfDue B.Block MergeRead result self.now }
    {
        let Some(merge) = &self.merge else {
            return Ask::Nobody;
        };
        // A look: what the merge's looks say of its books is known from here on.
        let _ = merge.has_group();
        match merge.next_read() {
            Some(pair) => {
                let origin = merge.sectors();
                Ask::Merging(chunk_read(merge.chunk(), origin, pair.old, pair.new))
            }
            None => Ask::Nobody,
        }
    }
}
