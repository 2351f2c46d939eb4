// Where an event or a request that names a snapshot, a copy or a mark finds it.
ghost use Rattle.std.specs.Prelude.{◌≡◌, ◌<◌, false, length, IfNone, IfSome, slice_index_or, Some, true};
ghost use Rattle.std.specs.List.{All, list_any, position};
ghost use Rattle.snapshot.specs.Kept.{Kept};
ghost use Rattle.snapshot_list.specs.Finding.{FindsCommitting, FindsCopy, FindsFlushing, LacksCommitting, LacksCopy, LacksFlushing, has_mark_at, is_mark_of, is_trying, is_zeroing, place_of_snap};

use crate::due::{can_commit, can_flush_store, can_mark, can_zero};
use device::Block;
use in_flight::{Flight, Stage, copy_at, publishable_at};
use plain_machine::{CopyId, SnapId};
use snapshot::Snapshot;

/// The place of the snapshot with this number.
pub fn snap_at<B: Block>(snaps: &[Snapshot<B>], number: SnapId) -> Option<usize>
    ensures { result ≡ place_of_snap number snaps.now }
{
    snaps.iter().position(|s| s.number() == number)
}

/// The place of the first snapshot with this number whose store's header is to be marked invalid.
pub fn trying_at<B: Block>(snaps: &[Snapshot<B>], number: SnapId) -> Option<usize>
    ensures found { IfSome result (λ k. (k < length snaps.now) × ((s : Kept B) → is_trying number (slice_index_or snaps.now k s) ≡ true)) }
    ensures none { IfNone result (list_any (is_trying number) snaps.now ≡ false) }
{
    for (place, s) in snaps.iter().enumerate() {
        if s.number() == number && can_mark(s) {
            return Some(place);
        }
    }
    None
}

/// The place of the first snapshot with this number whose store is to be flushed.
pub fn flushing_at<B: Block>(snaps: &[Snapshot<B>], number: SnapId) -> Option<usize>
    ensures found { FindsFlushing number result snaps.now }
    ensures none { LacksFlushing number result snaps.now }
{
    for (place, s) in snaps.iter().enumerate() {
        if s.number() == number && can_flush_store(s) {
            return Some(place);
        }
    }
    None
}

/// The place of the first snapshot with this number whose first copy can be committed.
pub fn committing_at<B: Block>(snaps: &[Snapshot<B>], number: SnapId) -> Option<usize>
    ensures found { FindsCommitting number result snaps.now }
    ensures none { LacksCommitting number result snaps.now }
{
    for (place, s) in snaps.iter().enumerate() {
        if s.number() == number && can_commit(s) {
            return Some(place);
        }
    }
    None
}

/// The place of the first snapshot with this number that needs its next area zeroed for its first copy.
pub fn zeroing_at<B: Block>(snaps: &[Snapshot<B>], number: SnapId) -> Option<usize>
    ensures found { IfSome result (λ k. (k < length snaps.now) × ((s : Kept B) → is_zeroing number (slice_index_or snaps.now k s) ≡ true)) }
    ensures none { IfNone result (list_any (is_zeroing number) snaps.now ≡ false) }
{
    for (place, s) in snaps.iter().enumerate() {
        if s.number() == number && can_zero(s) {
            return Some(place);
        }
    }
    None
}

/// The place of the first snapshot that has a copy with this number at this stage, and the copy's place in it.
pub fn find_copy<B: Block>(
    snaps: &[Snapshot<B>],
    stage: Stage,
    number: CopyId,
) -> Option<(usize, usize)>
    ensures found { FindsCopy stage number result snaps.now }
    ensures none { LacksCopy stage number result snaps.now }
{
    for (place, s) in snaps.iter().enumerate() {
        match copy_at(s.copies(), stage, number) {
            Some(index) => return Some((place, index)),
            None => {}
        }
    }
    None
}

/// The place of the first snapshot that has a safe mark with this number whose chunk no request reads from the origin disk,
/// and the mark's place in it.
pub fn find_mark<B: Block>(
    snaps: &[Snapshot<B>],
    flights: &[Flight],
    number: CopyId,
) -> Option<(usize, usize)>
    requires { All (λ s. 0 < s.state.chunk) snaps.now }
    ensures found { IfSome result (λ p. (p.0 < length snaps.now) × ((s : Kept B) → position (is_mark_of (slice_index_or snaps.now p.0 s) flights.now number) (slice_index_or snaps.now p.0 s).marks ≡ Some p.1)) }
    ensures none { IfNone result (list_any (has_mark_at flights.now number) snaps.now ≡ false) }
{
    for (place, s) in snaps.iter().enumerate() {
        match publishable_at(s.marks(), flights, s.number(), s.chunk(), number) {
            Some(index) => return Some((place, index)),
            None => {}
        }
    }
    None
}
