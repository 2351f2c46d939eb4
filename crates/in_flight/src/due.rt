// What is due in these lists: the first element of a kind, which has the least number.
ghost use Rattle.std.specs.Prelude.{◌≡◌, ◌==◌, ◌&&◌, ◌<◌, length};
ghost use Rattle.std.specs.List.{list_any, position};
ghost use Rattle.in_flight.specs.Due.{batch as batch_of, first_by, front_ready as is_front_ready, front_unflushed as is_front_unflushed, is_copy_at, is_issuable, is_publishable, is_ready as can_be_committed, is_routed as goes_somewhere, is_stage, least as lesser, number_of_copy, number_of_flight, number_of_mark};

use crate::copies::{ChunkCopy, Mark, Stage};
use crate::flights::{Flight, Route};
use crate::routes::is_being_read;
use plain_machine::{CopyId, ReqId, SnapId};

/// The lesser of two numbers, if there are any.
pub fn least(one: Option<u64>, other: Option<u64>) -> Option<u64>
    ensures { result ≡ lesser one other }
{
    match one {
        None => other,
        Some(m) => match other {
            None => Some(m),
            Some(n) => Some(m.min(n)),
        },
    }
}

/// Whether these are one stage.
pub fn is_at(stage: Stage, other: Stage) -> bool
    ensures { result ≡ is_stage stage other }
{
    match (stage, other) {
        (Stage::Waiting, Stage::Waiting) => true,
        (Stage::Waiting, Stage::Read) => false,
        (Stage::Waiting, Stage::Written) => false,
        (Stage::Waiting, Stage::Flushed) => false,
        (Stage::Read, Stage::Waiting) => false,
        (Stage::Read, Stage::Read) => true,
        (Stage::Read, Stage::Written) => false,
        (Stage::Read, Stage::Flushed) => false,
        (Stage::Written, Stage::Waiting) => false,
        (Stage::Written, Stage::Read) => false,
        (Stage::Written, Stage::Written) => true,
        (Stage::Written, Stage::Flushed) => false,
        (Stage::Flushed, Stage::Waiting) => false,
        (Stage::Flushed, Stage::Read) => false,
        (Stage::Flushed, Stage::Written) => false,
        (Stage::Flushed, Stage::Flushed) => true,
    }
}

/// The number of the first copy at a stage.
pub fn first_copy(copies: &[ChunkCopy], stage: Stage) -> Option<CopyId>
    ensures { result ≡ first_by (is_copy_at stage) number_of_copy copies.now }
{
    for copy in copies {
        if is_at(stage, copy.stage) {
            return Some(copy.number);
        }
    }
    None
}

/// The place of the first copy at a stage that has this number.
pub fn copy_at(copies: &[ChunkCopy], stage: Stage, number: CopyId) -> Option<usize>
    ensures { result ≡ position (λ c. (c.number == number) && is_copy_at stage c) copies.now }
{
    copies
        .iter()
        .position(|c| c.number == number && is_at(stage, c.stage))
}

/// Whether a copy's pair may be committed: it is written, and the store was flushed since.
pub fn is_ready(copy: &ChunkCopy) -> bool
    ensures { result ≡ can_be_committed copy.now }
{
    is_at(Stage::Flushed, copy.stage)
}

/// Whether the first copy's pair may be committed.
pub fn front_ready(copies: &[ChunkCopy]) -> bool
    ensures { result ≡ is_front_ready copies.now }
{
    match copies {
        [] => false,
        [first, ..] => is_ready(first),
    }
}

/// Whether the first copy is written, and waits for a flush of the store.
pub fn front_unflushed(copies: &[ChunkCopy]) -> bool
    ensures { result ≡ is_front_unflushed copies.now }
{
    match copies {
        [] => false,
        [first, ..] => is_at(Stage::Written, first.stage),
    }
}

/// How many of the first copies one write of an area commits that has so many empty slots: those that are ready, up to
/// the first that is not, and up to the end of the area.
pub fn batch(copies: &[ChunkCopy], slots: u32) -> u32
    ensures { result ≡ batch_of slots copies.now }
{
    let mut count = 0;
    for copy in copies {
        if count == slots || !is_ready(copy) {
            return count;
        }
        count += 1;
    }
    count
}

/// The number of the first mark that is safe, and whose chunk no request reads from the origin disk.
pub fn first_publishable(
    marks: &[Mark],
    flights: &[Flight],
    snap: SnapId,
    chunk_sectors: u32,
) -> Option<CopyId>
    requires { 0 < chunk_sectors }
    ensures { result ≡ first_by (is_publishable snap chunk_sectors flights.now) number_of_mark marks.now }
{
    for mark in marks {
        if mark.safe && !is_being_read(flights, snap, chunk_sectors, mark.chunk) {
            return Some(mark.number);
        }
    }
    None
}

/// The place of the first safe mark with this number whose chunk no request reads from the origin disk.
pub fn publishable_at(
    marks: &[Mark],
    flights: &[Flight],
    snap: SnapId,
    chunk_sectors: u32,
    number: CopyId,
) -> Option<usize>
    requires { 0 < chunk_sectors }
    ensures { result ≡ position (λ m. (m.number == number) && is_publishable snap chunk_sectors flights.now m) marks.now }
{
    marks.iter().position(|m| m.number == number
        && m.safe
        && !is_being_read(flights, snap, chunk_sectors, m.chunk))
}

/// Whether a request goes somewhere.
pub fn is_routed(route: Route) -> bool
    ensures { result ≡ goes_somewhere route }
{
    match route {
        Route::Held => false,
        Route::Origin => true,
        Route::Store(_) => true,
        Route::Whole => true,
        Route::Refused => true,
    }
}

/// The number of the first request that goes somewhere.
pub fn first_routed(flights: &[Flight]) -> Option<ReqId>
    ensures { result ≡ first_by is_issuable number_of_flight flights.now }
{
    for f in flights {
        if is_routed(f.route) {
            return Some(f.number);
        }
    }
    None
}
