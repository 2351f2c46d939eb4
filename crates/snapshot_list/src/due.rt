// What is due of a volume's snapshots and requests: the first event, by kind and then by number.
ghost use Rattle.std.specs.Prelude.{◌≡◌, ◌<◌, None, map};
ghost use Rattle.std.specs.List.{All, list_any};
ghost use Rattle.plain_machine.specs.declared.event.Event.TheVariants.{CopyRead, Issue};
ghost use Rattle.in_flight.specs.Due.{first_by, is_issuable, least as lesser, number_of_flight};
ghost use Rattle.in_flight.specs.declared.copies.Stage.TheVariants.{Waiting};
ghost use Rattle.volume_laws.specs.Due.{can_commit as can_be_committed, can_flush_store as can_be_flushed, can_mark as can_be_marked, can_zero as can_be_zeroed, copy_of, due_of, event_or, least_of, publishable_of, snap_number};
ghost use Rattle.snapshot.specs.Kept.{due_of_kept};
ghost use Rattle.snapshot_list.specs.Busy.{AreAlike, busy_due, is_begun, is_busy as is_busy_in, waiting_due as due_of_waiting};

use device::Block;
use in_flight::{
    ChunkCopy, Flight, Stage, first_copy, first_publishable, first_routed, front_ready,
    front_unflushed, has_unsafe, is_at, least,
};
use plain_machine::{CopyId, Event, SnapId};
use snapshot::Snapshot;

/// Whether the header of a spoiled snapshot's store is to be marked invalid.
pub(crate) fn can_mark<B: Block>(snap: &Snapshot<B>) -> bool
    ensures { result ≡ can_be_marked (due_of_kept B.contents B.layers snap.now) }
{
    snap.is_untried() && !snap.is_marked()
}

/// Whether something of a snapshot waits for a flush of its store: the mark of a spoiled one, its first copy, the area that is
/// zeroed for the first copies, or a publication.
#[inline(always)]
pub(crate) fn can_flush_store<B: Block>(snap: &Snapshot<B>) -> bool
    ensures { result ≡ can_be_flushed (due_of_kept B.contents B.layers snap.now) }
{
    snap.is_untried() && snap.is_marked()
        || front_unflushed(snap.copies())
        || front_ready(snap.copies()) && snap.waits_for_next_area() && !snap.needs_next_area()
        || has_unsafe(snap.marks())
}

/// Whether a snapshot's first copies can be committed: the first is written and flushed, and the area of their pairs can be
/// written.
pub(crate) fn can_commit<B: Block>(snap: &Snapshot<B>) -> bool
    ensures { result ≡ can_be_committed (due_of_kept B.contents B.layers snap.now) }
{
    front_ready(snap.copies()) && !snap.waits_for_next_area()
}

/// Whether a snapshot needs its next area zeroed for its first copies, which are written and flushed.
pub(crate) fn can_zero<B: Block>(snap: &Snapshot<B>) -> bool
    ensures { result ≡ can_be_zeroed (due_of_kept B.contents B.layers snap.now) }
{
    front_ready(snap.copies()) && snap.needs_next_area()
}

/// The number of the first snapshot whose store's header is to be marked invalid.
fn first_marking<B: Block>(snaps: &[Snapshot<B>]) -> Option<SnapId>
    ensures { result ≡ first_by can_be_marked snap_number (map (due_of_kept B.contents B.layers) snaps.now) }
{
    for s in snaps {
        if can_mark(s) {
            return Some(s.number());
        }
    }
    None
}

/// The number of the first snapshot whose store is to be flushed.
fn first_flushing<B: Block>(snaps: &[Snapshot<B>]) -> Option<SnapId>
    ensures { result ≡ first_by can_be_flushed snap_number (map (due_of_kept B.contents B.layers) snaps.now) }
{
    for s in snaps {
        if can_flush_store(s) {
            return Some(s.number());
        }
    }
    None
}

/// The number of the first snapshot whose first copy can be committed.
fn first_committing<B: Block>(snaps: &[Snapshot<B>]) -> Option<SnapId>
    ensures { result ≡ first_by can_be_committed snap_number (map (due_of_kept B.contents B.layers) snaps.now) }
{
    for s in snaps {
        if can_commit(s) {
            return Some(s.number());
        }
    }
    None
}

/// The number of the first snapshot that needs its next area zeroed for its first copy.
fn first_zeroing<B: Block>(snaps: &[Snapshot<B>]) -> Option<SnapId>
    ensures { result ≡ first_by can_be_zeroed snap_number (map (due_of_kept B.contents B.layers) snaps.now) }
{
    for s in snaps {
        if can_zero(s) {
            return Some(s.number());
        }
    }
    None
}

/// The least number of a copy at a stage, of each snapshot's first.
fn least_copy<B: Block>(snaps: &[Snapshot<B>], stage: Stage) -> Option<CopyId>
    ensures { result ≡ least_of (copy_of stage) (map (due_of_kept B.contents B.layers) snaps.now) }
{
    let mut found = None;
    for s in snaps {
        found = least(found, first_copy(s.copies(), stage));
    }
    found
}

/// The least number of a mark that can be taken away, of each snapshot's first.
fn least_mark<B: Block>(snaps: &[Snapshot<B>], flights: &[Flight]) -> Option<CopyId>
    ensures { result ≡ least_of (publishable_of flights.now) (map (due_of_kept B.contents B.layers) snaps.now) }
{
    let mut found = None;
    for s in snaps {
        found = least(
            found,
            first_publishable(s.marks(), flights, s.number(), s.chunk()),
        );
    }
    found
}

/// Whether one of these copies does not wait to be read any more.
fn has_begun(copies: &[ChunkCopy]) -> bool
    ensures { result ≡ list_any is_begun copies.now }
{
    copies.iter().any(|c| !is_at(Stage::Waiting, c.stage))
}

/// Whether more may be due of a snapshot than reads of chunks: it has a mark, or a copy whose chunk was read, or the header of
/// its store is to be marked invalid.
pub fn is_busy<B: Block>(snap: &Snapshot<B>) -> bool
    ensures { result ≡ is_busy_in (due_of_kept B.contents B.layers snap.now) }
{
    snap.is_untried() || !snap.marks().is_empty() || has_begun(snap.copies())
}

/// The snapshots from the first that is busy on, and the least number of a copy that waits in those before: what is due of all,
/// but reads of chunks, is due of the former.
fn from_busy<B: Block>(snaps: &[Snapshot<B>]) -> (&[Snapshot<B>], Option<CopyId>)
    ensures alike { AreAlike (map (due_of_kept B.contents B.layers) result.0.now) (map (due_of_kept B.contents B.layers) snaps.now) }
    ensures waiting { least_of (copy_of Waiting) (map (due_of_kept B.contents B.layers) snaps.now) ≡ lesser result.1 (least_of (copy_of Waiting) (map (due_of_kept B.contents B.layers) result.0.now)) }
{
    let mut waiting = None;
    for (k, snap) in snaps.iter().enumerate() {
        if is_busy(snap) {
            return (&snaps[k..], waiting);
        }
        match snap.copies() {
            [] => {}
            [first, ..] => waiting = least(waiting, Some(first.number)),
        }
    }
    (&snaps[snaps.len()..], waiting)
}

/// The snapshots up to the last that is busy.
fn to_busy<B: Block>(snaps: &[Snapshot<B>]) -> &[Snapshot<B>]
    ensures { AreAlike (map (due_of_kept B.contents B.layers) result.now) (map (due_of_kept B.contents B.layers) snaps.now) }
{
    for k in (0..snaps.len()).rev() {
        if is_busy(&snaps[k]) {
            return &snaps[..k + 1];
        }
    }
    &snaps[..0]
}

/// The event that is due first, but for reads of chunks and requests.
#[inline(never)]
fn first_busy<B: Block>(snaps: &[Snapshot<B>], flights: &[Flight]) -> Option<Event>
    ensures { result ≡ busy_due (map (due_of_kept B.contents B.layers) snaps.now) flights.now }
{
    if let Some(number) = first_marking(snaps) {
        return Some(Event::WriteInvalid(number));
    }
    if let Some(number) = first_flushing(snaps) {
        return Some(Event::FlushStore(number));
    }
    if let Some(number) = least_mark(snaps, flights) {
        return Some(Event::Publish(number));
    }
    if let Some(number) = first_committing(snaps) {
        return Some(Event::WriteArea(number));
    }
    if let Some(number) = first_zeroing(snaps) {
        return Some(Event::ZeroNext(number));
    }
    match least_copy(snaps, Stage::Read) {
        Some(number) => Some(Event::CopyWrite(number)),
        None => None,
    }
}

/// The read of a chunk or the request that is due first, where nothing else is: `waiting` is the least number of a copy that waits.
fn first_waiting(waiting: Option<CopyId>, flights: &[Flight]) -> Option<Event>
    ensures { result ≡ event_or waiting CopyRead (event_or (first_by is_issuable number_of_flight flights.now) Issue None) }
{
    if let Some(number) = waiting {
        return Some(Event::CopyRead(number));
    }
    match first_routed(flights) {
        Some(number) => Some(Event::Issue(number)),
        None => None,
    }
}

/// What is due first where no more is than reads of chunks and requests.
pub fn waiting_due<B: Block>(snaps: &[Snapshot<B>], flights: &[Flight]) -> Option<Event>
    ensures { result ≡ due_of_waiting (map (due_of_kept B.contents B.layers) snaps.now) flights.now }
{
    first_waiting(least_copy(snaps, Stage::Waiting), flights)
}

/// The event that is due first: a mark of a spoiled snapshot, a flush of a store, a publication, a commit, a zeroed area, a
/// copy's write, a copy's read, or the first request that goes somewhere; in each kind the one with the least number.
/// Snapshots that only wait are looked at for the last two alone.
pub fn first_due<B: Block>(snaps: &[Snapshot<B>], flights: &[Flight]) -> Option<Event>
    requires { All (λ s. 0 < s.state.chunk) snaps.now }
    ensures { result ≡ due_of (map (due_of_kept B.contents B.layers) snaps.now) flights.now }
{
    let (busy, waiting) = from_busy(snaps);
    if busy.is_empty() {
        return first_waiting(waiting, flights);
    }
    match first_busy(to_busy(busy), flights) {
        Some(event) => Some(event),
        None => first_waiting(least(waiting, least_copy(busy, Stage::Waiting)), flights),
    }
}
