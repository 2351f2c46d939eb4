// Why a request is refused, memory and full stores aside.
ghost use Rattle.std.specs.Prelude.{◌≡◌, ◌%◌, ◌<◌};
ghost use Rattle.plain_machine.specs.Kept.{kept_range};
ghost use Rattle.in_flight.specs.Kinds.{kind_of};
ghost use Rattle.volume.specs.Volumed.{piece_with};
ghost use Rattle.snapshot_list.specs.Finding.{place_of_snap};
ghost use Rattle.volume.specs.Submitting.{are_too_many, dev_refusal, is_merging as is_merging_of, is_piece_of, refusal_at, shut_at, shut_refusal, starting as starting_of, submit_refusal};

use crate::Volume;
use device::Block;
use in_flight::{Kind, MAX_COPIES, MAX_REQUESTS, request_kind};
use plain_machine::{Dev, Overflowing, Request, SnapId};
use sector::{Range, Refusal};
use snapshot_list::{is_merged_at, pending_count, snap_at, starting_count, starting_count_of};

/// The remainder of so many sectors, divided by a piece. Pieces are powers of two: a mask is several times as fast as a
/// division.
#[inline(always)]
fn rest_of(sectors: u64, piece: u32) -> u64
    requires { 0 < piece }
    ensures { result ≡ sectors % piece }
{
    if piece.is_power_of_two() {
        sectors & (piece as u64 - 1)
    } else {
        sectors % piece as u64
    }
}

impl<B: Block> Volume<B> {
    /// Why a request is refused, memory and full stores aside: there is no such snapshot (`NoSuchDevice`), it is being merged
    /// (`MergingSnapshot`) or is spoiled (`Invalid`), it is a write of one whose store overflowed (`Overflow`), the range is
    /// empty or lies not inside the origin and one piece (`OutOfRange`), or there are too many requests, copies or numbers
    /// (`TooMany`). The request is one that is kept.
    pub(crate) fn submit_refused(&self, request: &Request) -> Option<Refusal>
        requires whole { kept_range request.now.op request.now.range ≡ request.now.range }
        ensures { result ≡ submit_refusal B.size request.now self.now }
    {
        if let Some(refusal) = self.dev_refused(request.dev) {
            return Some(refusal);
        }
        if let Some(refusal) = self.shut_refused(request) {
            return Some(refusal);
        }
        if !self.is_piece(&request.range) {
            return Some(Refusal::OutOfRange);
        }
        if self.is_past_limits(request) {
            Some(Refusal::TooMany)
        } else {
            None
        }
    }

    /// Why a device takes no request: it is the snapshot that is being merged (`MergingSnapshot`), or another that is not
    /// there (`NoSuchDevice`) or is spoiled (`Invalid`).
    pub(crate) fn dev_refused(&self, dev: Dev) -> Option<Refusal>
        ensures { result ≡ dev_refusal dev self.now.merge self.now.snaps }
    {
        match dev {
            Dev::Origin => None,
            Dev::Snap(number) => if self.is_merging(number) {
                Some(Refusal::MergingSnapshot)
            } else {
                self.snap_refused(number)
            },
        }
    }

    /// Whether a number is that of the snapshot that is being merged.
    pub(crate) fn is_merging(&self, number: SnapId) -> bool
        ensures { result ≡ is_merging_of number self.now.merge }
    {
        match &self.merge {
            None => false,
            Some(merge) => merge.number() == number,
        }
    }

    /// Why a snapshot that is not being merged takes no request.
    fn snap_refused(&self, number: SnapId) -> Option<Refusal>
        ensures { result ≡ refusal_at self.now.snaps (place_of_snap number self.now.snaps) }
    {
        match snap_at(self.snaps.as_slice(), number) {
            None => Some(Refusal::NoSuchDevice),
            Some(k) => if self.snaps[k].is_live() {
                None
            } else {
                Some(Refusal::Invalid)
            },
        }
    }

    /// Why a write of a snapshot whose store overflowed is refused.
    fn shut_refused(&self, request: &Request) -> Option<Refusal>
        ensures { result ≡ shut_refusal (kind_of request.now) self.now.snaps }
    {
        match request_kind(request) {
            Kind::OriginRead | Kind::OriginWrite | Kind::OriginFlush => None,
            Kind::SnapRead(_) | Kind::SnapFlush(_) => None,
            Kind::SnapWrite(number) => self.overflow_refused(number),
        }
    }

    /// Why a snapshot takes no write: its store overflowed.
    fn overflow_refused(&self, number: SnapId) -> Option<Refusal>
        ensures { result ≡ shut_at self.now.snaps (place_of_snap number self.now.snaps) }
    {
        match snap_at(self.snaps.as_slice(), number) {
            None => None,
            Some(k) => match self.snaps[k].overflow() {
                Overflowing::Did => Some(Refusal::Overflow),
                Overflowing::Never | Overflowing::May => None,
            },
        }
    }

    /// Whether a range is not empty, and lies inside the origin and inside one piece.
    fn is_piece(&self, range: &Range) -> bool
        ensures { result ≡ is_piece_of (piece_with self.now.merge self.now.snaps) (B.size self.now.origin) range.now }
    {
        let piece = self.piece();
        let count = range.count as u64;
        0 < count
            && range.first + count <= self.origin.sectors()
            && rest_of(range.first, piece) + count <= piece as u64
    }

    /// How many copies a request starts.
    fn starting(&self, request: &Request) -> usize
        ensures { result ≡ starting_of (kind_of request.now) request.now.range.first self.now.merge self.now.snaps }
    {
        let snaps = self.snaps.as_slice();
        let first = request.range.first;
        match request_kind(request) {
            Kind::OriginRead | Kind::OriginFlush => 0,
            Kind::OriginWrite => if is_merged_at(&self.merge, first) {
                0
            } else {
                starting_count(snaps, first)
            },
            Kind::SnapRead(_) | Kind::SnapFlush(_) => 0,
            Kind::SnapWrite(number) => starting_count_of(snaps, number, first),
        }
    }

    /// Whether a request passes a limit. Which copies it starts is looked up only where one in every snapshot would.
    fn is_past_limits(&self, request: &Request) -> bool
        ensures { result ≡ are_too_many (starting_of (kind_of request.now) request.now.range.first self.now.merge self.now.snaps) self.now }
    {
        if !self.is_too_many(self.snaps.len()) {
            return false;
        }
        self.is_too_many(self.starting(request))
    }

    /// Whether one request more, with so many copies, passes a limit.
    fn is_too_many(&self, new: usize) -> bool
        ensures { result ≡ are_too_many new self.now }
    {
        self.flights.len() >= MAX_REQUESTS
            || self.requests >= u64::MAX
            || new > MAX_COPIES - pending_count(self.snaps.as_slice())
    }
}
