// The same searches, with a place that is looked at first: what an event names is mostly where the event before found its own.
ghost use Rattle.std.specs.Prelude.{◌≡◌, ◌<◌, false, length, IfNone, IfSome, slice_index_or, Some};
ghost use Rattle.std.specs.List.{All, list_any, position};
ghost use Rattle.snapshot.specs.Kept.{Kept};
ghost use Rattle.snapshot_list.specs.Finding.{FindsCommitting, FindsCopy, FindsFlushing, LacksCommitting, LacksCopy, LacksFlushing, has_mark_at, is_committing, is_flushing, is_mark_of};

use crate::due::{can_commit, can_flush_store};
use crate::finding::{committing_at, find_copy, find_mark, flushing_at};
use device::Block;
use in_flight::{Flight, Stage, copy_at, publishable_at};
use plain_machine::{CopyId, SnapId};
use snapshot::Snapshot;

/// Whether a snapshot has this number, and its store is to be flushed.
#[inline(always)]
fn is_flushing_as<B: Block>(snap: &Snapshot<B>, number: SnapId) -> bool
    ensures { result ≡ is_flushing number snap.now }
{
    snap.number() == number && can_flush_store(snap)
}

/// Whether a snapshot has this number, and its first copy can be committed.
#[inline(always)]
fn is_committing_as<B: Block>(snap: &Snapshot<B>, number: SnapId) -> bool
    ensures { result ≡ is_committing number snap.now }
{
    snap.number() == number && can_commit(snap)
}

/// The place of a snapshot with this number whose store is to be flushed: a place that is looked at first, or else the first of
/// all.
#[inline(always)]
pub fn flushing_near<B: Block>(snaps: &[Snapshot<B>], near: usize, number: SnapId) -> Option<usize>
    ensures found { FindsFlushing number result snaps.now }
    ensures none { LacksFlushing number result snaps.now }
{
    if near < snaps.len() && is_flushing_as(&snaps[near], number) {
        return Some(near);
    }
    flushing_at(snaps, number)
}

/// The place of a snapshot with this number whose first copy can be committed: a place that is looked at first, or else the first
/// of all.
#[inline(always)]
pub fn committing_near<B: Block>(
    snaps: &[Snapshot<B>],
    near: usize,
    number: SnapId,
) -> Option<usize>
    ensures found { FindsCommitting number result snaps.now }
    ensures none { LacksCommitting number result snaps.now }
{
    if near < snaps.len() && is_committing_as(&snaps[near], number) {
        return Some(near);
    }
    committing_at(snaps, number)
}

/// The place of a snapshot that has a copy with this number at this stage, a place that is looked at first or else the first of
/// all, and the copy's place in it.
#[inline(always)]
pub fn find_copy_near<B: Block>(
    snaps: &[Snapshot<B>],
    near: usize,
    stage: Stage,
    number: CopyId,
) -> Option<(usize, usize)>
    ensures found { FindsCopy stage number result snaps.now }
    ensures none { LacksCopy stage number result snaps.now }
{
    if near < snaps.len() {
        match copy_at(snaps[near].copies(), stage, number) {
            Some(index) => return Some((near, index)),
            None => {}
        }
    }
    find_copy(snaps, stage, number)
}

/// The place of a snapshot that has a safe mark with this number whose chunk no request reads from the origin disk, a place that
/// is looked at first or else the first of all, and the mark's place in it.
#[inline(always)]
pub fn find_mark_near<B: Block>(
    snaps: &[Snapshot<B>],
    near: usize,
    flights: &[Flight],
    number: CopyId,
) -> Option<(usize, usize)>
    requires { All (λ s. 0 < s.state.chunk) snaps.now }
    ensures found { IfSome result (λ p. (p.0 < length snaps.now) × ((s : Kept B) → position (is_mark_of (slice_index_or snaps.now p.0 s) flights.now number) (slice_index_or snaps.now p.0 s).marks ≡ Some p.1)) }
    ensures none { IfNone result (list_any (has_mark_at flights.now number) snaps.now ≡ false) }
{
    if near < snaps.len() {
        let s = &snaps[near];
        match publishable_at(s.marks(), flights, s.number(), s.chunk(), number) {
            Some(index) => return Some((near, index)),
            None => {}
        }
    }
    find_mark(snaps, flights, number)
}

/// The place of a snapshot that has a copy with this number at this stage, the first from a place on or else the first of all,
/// and the copy's place in it.
#[inline(always)]
pub fn find_copy_from<B: Block>(
    snaps: &[Snapshot<B>],
    from: usize,
    stage: Stage,
    number: CopyId,
) -> Option<(usize, usize)>
    ensures found { FindsCopy stage number result snaps.now }
    ensures none { LacksCopy stage number result snaps.now }
{
    if from < snaps.len() {
        match find_copy(&snaps[from..], stage, number) {
            Some((place, index)) => return Some((from + place, index)),
            None => {}
        }
    }
    find_copy(snaps, stage, number)
}
