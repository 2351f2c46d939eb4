// What the boards are to say of a volume's places.
ghost use Rattle.std.specs.Prelude.{◌≡◌, ◌<◌, ◌^◌, Some, count_by, map, slice_index_or, true};
ghost use Rattle.thread_channels.specs.Words.{IsNarrow, no_usage};
ghost use Rattle.volume.specs.Asking.{merging_number};
ghost use Rattle.merge.specs.Merging.{Merging};
ghost use Rattle.plain_machine.specs.Plain.{did_overflow};
ghost use Rattle.locked_volume.specs.Usages.{fitted, is_before, shown_merge, shown_of, used, usage_at as usage_of_place};

use chunk_alloc::Usage as Sectors;
use device::Block;
use plain_machine::{Overflowing, SnapId};
use snapshot::Snapshot;
use thread_channels::{PlaceState, PlaceUsage};
use volume::Volume;

/// The largest number that a board's word has room for.
const MOST: u64 = (1 << 28) - 1;

/// A number, as a board's word has it.
fn fit(number: u64) -> u64
    ensures is { result ≡ fitted number }
    ensures narrow { result < 2 ^ 28 }
{
    if number < MOST { number } else { MOST }
}

/// A store in use.
fn in_use(sectors: Sectors) -> PlaceUsage
    ensures is { result ≡ used sectors }
    ensures narrow { IsNarrow result }
{
    PlaceUsage {
        state: PlaceState::Good,
        allocated: fit(sectors.allocated),
        metadata: fit(sectors.metadata),
    }
}

/// A store that is in no use any more, for this reason.
fn out_of_use(state: PlaceState) -> PlaceUsage
    ensures is { result ≡ record { state = state; allocated = 0; metadata = 0 } }
    ensures narrow { IsNarrow result }
{
    PlaceUsage {
        state,
        allocated: 0,
        metadata: 0,
    }
}

/// Whether a store overflowed.
fn is_marked(overflow: Overflowing) -> bool
    ensures { result ≡ did_overflow overflow }
{
    match overflow {
        Overflowing::Did => true,
        Overflowing::Never => false,
        Overflowing::May => false,
    }
}

/// The usage of a live snapshot, whose store may have overflowed.
fn live_usage<B: Block>(snap: &Snapshot<B>) -> PlaceUsage
    requires { snap.now.live ≡ true }
    ensures is { result ≡ shown_of snap.now }
    ensures narrow { IsNarrow result }
{
    if is_marked(snap.overflow()) {
        out_of_use(PlaceState::Overflow)
    } else {
        in_use(snap.usage())
    }
}

/// The usage of a snapshot by its place among those that are not being merged.
fn snap_usage<B: Block>(volume: &Volume<B>, k: usize) -> PlaceUsage
    ensures is { result ≡ slice_index_or (map shown_of volume.now.snaps) k no_usage }
    ensures narrow { IsNarrow result }
{
    if k >= volume.len() {
        return PlaceUsage::empty();
    }
    let snap = volume.snap(k);
    if snap.is_live() {
        live_usage(snap)
    } else {
        out_of_use(PlaceState::Invalid)
    }
}

/// The usage of the snapshot that is being merged.
fn merge_usage<B: Block>(volume: &Volume<B>, number: SnapId) -> PlaceUsage
    requires { merging_number volume.now.merge ≡ Some number }
    ensures is { (m : Merging B) → volume.now.merge ≡ Some m → result ≡ shown_merge m }
    ensures narrow { IsNarrow result }
{
    if volume.is_merge_failed() {
        return out_of_use(PlaceState::MergeFailed);
    }
    match volume.usage(number) {
        Ok(Some(sectors)) => in_use(sectors),
        Ok(None) => unreachable!(),
        Err(_) => unreachable!(),
    }
}

/// How many snapshots were attached before the one with a number.
fn attached_before<B: Block>(volume: &Volume<B>, number: SnapId) -> usize
    ensures { result ≡ count_by (is_before number) volume.now.snaps }
{
    let mut count = 0;
    for k in 0..volume.len() {
        if volume.snap(k).number() < number {
            count += 1;
        }
    }
    count
}

/// The usage of a place.
pub(crate) fn usage_at<B: Block>(volume: &Volume<B>, place: usize) -> PlaceUsage
    ensures is { result ≡ usage_of_place place volume.now }
    ensures narrow { IsNarrow result }
{
    let Some(number) = volume.merging() else {
        return snap_usage(volume, place);
    };
    let front = attached_before(volume, number);
    if place < front {
        snap_usage(volume, place)
    } else if place == front {
        merge_usage(volume, number)
    } else {
        snap_usage(volume, place - 1)
    }
}
