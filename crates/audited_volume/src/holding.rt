// What stands beside each request in flight, and whether the journal has room.
ghost use Rattle.std.specs.Prelude.{◌≡◌, ◌≢◌, ◌+◌, ◌<◌, ◌≤◌, nat_lt, IfNone, IfOk, IfSome, ℕ, length, slice_index_or, slice_set};
ghost use Rattle.in_flight.specs.Kinds.{room_of};
ghost use Rattle.plain_machine.specs.Kept.{kept};
ghost use Rattle.audited_volume.specs.Noted.{kept_count, live_count, may_count};
ghost use Rattle.audited_volume.specs.declared.entry.HeldRequest.{HeldRequest};

use crate::audit::MAX_ENTRIES;
use crate::entry::HeldRequest;
use crate::verdict::copy;
use plain_machine::{Op, ReqId, Request};
use sector::{Buf, SECTOR_BYTES};
use std::alloc::{AllocError, Global};

/// How many of the snapshots are live.
fn count_live(lives: &[bool]) -> usize
    ensures { result ≡ live_count lives.now }
{
    let mut count = 0;
    for live in lives {
        if *live {
            count += 1;
        }
    }
    count
}

/// How many of those that are live may still overflow.
fn count_may(lives: &[bool], may: &[bool]) -> usize
    requires { length may.now ≡ length lives.now }
    ensures { result ≡ may_count lives.now may.now }
{
    let mut count = 0;
    for k in 0..lives.len() {
        if lives[k] && may[k] {
            count += 1;
        }
    }
    count
}

/// How many places are taken: before the journal began, by its entries, by requests in flight, by live snapshots, and by those of
/// them that may still overflow.
pub(crate) fn count_places(
    taken: usize,
    entries: usize,
    held: usize,
    lives: &[bool],
    may: &[bool],
) -> usize
    requires same { length may.now ≡ length lives.now }
    requires room { taken + entries + held + kept_count lives.now may.now ≤ 65_536 }
    ensures { result ≡ taken + entries + held + kept_count lives.now may.now }
{
    taken + entries + held + count_live(lives) + count_may(lives, may)
}

/// Whether so many places more would be too many.
pub(crate) fn is_full(
    taken: usize,
    entries: usize,
    held: usize,
    lives: &[bool],
    may: &[bool],
    more: usize,
) -> bool
    requires same { length may.now ≡ length lives.now }
    requires room { taken + entries + held + kept_count lives.now may.now ≤ 65_536 }
    requires more { more < 4 }
    ensures { result ≡ nat_lt 65_536 (taken + entries + held + kept_count lives.now may.now + more) }
{
    count_places(taken, entries, held, lives, may) + more > MAX_ENTRIES
}

/// What stands beside a request as it is kept, under no number yet.
pub(crate) fn hold(alloc: Global, seat: u8, request: &Request) -> Result<HeldRequest, AllocError>
    ensures { IfOk result (λ h. (h.seat ≡ seat) × (h.for_entry ≡ kept request.now) × (h.for_receipt ≡ kept request.now) × (length h.entry_room ≡ room_of request.now) × (length h.receipt_room ≡ room_of request.now)) }
{
    let room = match &request.op {
        Op::Read => request.range.count as usize * SECTOR_BYTES,
        Op::Write(_) => 0,
        Op::Flush => 0,
    };
    Ok(HeldRequest {
        number: 0,
        seat,
        for_entry: copy(request, alloc)?.kept(),
        for_receipt: copy(request, alloc)?.kept(),
        entry_room: Buf::zeroed(alloc, room)?,
        receipt_room: Buf::zeroed(alloc, room)?,
    })
}

/// The place of the first request with this number.
pub(crate) fn place_of(held: &[HeldRequest], number: ReqId) -> Option<usize>
    ensures some { IfSome result (λ k. (k < length held.now) × ((d : HeldRequest) → (slice_index_or held.now k d).number ≡ number) × ((j : ℕ) (d : HeldRequest) → j < k → (slice_index_or held.now j d).number ≢ number)) }
    ensures none { IfNone result ((j : ℕ) (d : HeldRequest) → j < length held.now → (slice_index_or held.now j d).number ≢ number) }
{
    held.iter().position(|h| h.number == number)
}

/// One more for a seat.
pub(crate) fn count_one(counts: &mut Vec<u64>, seat: u8) -> u64
    requires within { seat < length counts.old.items }
    requires few { slice_index_or counts.old.items seat 0 < 18_446_744_073_709_551_615 }
    ensures result { result ≡ slice_index_or counts.old.items seat 0 + 1 }
    ensures counts { counts.new.items ≡ slice_set counts.old.items seat (slice_index_or counts.old.items seat 0 + 1) }
{
    counts[seat as usize] += 1;
    counts[seat as usize]
}
