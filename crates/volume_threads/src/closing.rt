// A rig is closed.
ghost use Rattle.std.specs.Prelude.{◌≡◌, ◌<◌, ◌++◌, ℕ, List, [], length, slice_index_or};
ghost use Rattle.audited_volume.specs.declared.entry.Entry.{Entry};
ghost use Rattle.audited_volume.specs.Books.{AuditShape};
ghost use Rattle.locked_volume.specs.AskedFor.{AddsAskedFor};
ghost use Rattle.locked_volume.specs.Beside.{IsBeside};
ghost use Rattle.locked_volume.specs.Fixed.{StaysFrom, fixed_of};
ghost use Rattle.volume_threads.specs.Rigs.{IsSettledAt, SeatShape};

use crate::place::VolumePlace;
use crate::rig::Rig;
use crate::seat::Seat;
use crate::worker::Worker;
use audited_volume::Audit;
use layers::Layered;
use locked_volume::{Beside, Post, Room};
use std::sync::Wait;
use thread_channels::{Gate, never};

impl<J: Room> Seat<J> {
    /// Compares what the seat knows of a volume with its journal.
    fn settle<B: Layered>(&mut self, post: &mut Post<B, J>, beside: &Beside, volume: usize)
        requires volume { (volume < J.volumes) × (post.old.volume ≡ volume) }
        requires beside { IsBeside (J.history volume) (J.boards volume) beside.now }
        ensures seat { self.new ≡ self.old }
        ensures post { post.new ≡ post.old }
        ensures settled { IsSettledAt (J.start volume) post.old.audit volume self.new }
    {
        let sitting = &mut self.sittings[volume];
        sitting.settle(post, beside);
    }
}

/// Compares what each seat knows of a volume with its journal.
fn settle_all<B: Layered, J: Room>(
    post: &mut Post<B, J>,
    beside: &Beside,
    volume: usize,
    seats: &mut [Seat<J>],
)
    requires volume { (volume < J.volumes) × (post.old.volume ≡ volume) }
    requires beside { IsBeside (J.history volume) (J.boards volume) beside.now }
    ensures seats { seats.new ≡ seats.old }
    ensures post { post.new ≡ post.old }
    ensures settled { (i : ℕ) (s : SeatShape) → i < length seats.new → IsSettledAt (J.start volume) post.old.audit volume (slice_index_or seats.new i s) }
{
    for i in 0..seats.len() {
        let seat = &mut seats[i];
        seat.settle(post, beside, volume);
    }
}

/// What stood under a volume's lock. It is of this volume, and every request of a seat was issued, so that none is in flight; no
/// type says either.
fn checked<B: Layered, J: Room, R: Wait>(rt: &R, post: Post<B, J>, volume: usize) -> Post<B, J>
    ensures { (result.volume ≡ volume) × (result.audit.held ≡ []) }
{
    if post.volume() != volume || post.in_flight() != 0 {
        never(rt);
    }
    post
}

/// Takes the audit out of its place.
fn close_one<B: Layered, J: Room, R: Wait>(
    rt: &R,
    place: VolumePlace<B, J>,
    seats: &mut [Seat<J>],
) -> Audit<B>
    requires { place.volume < J.volumes }
    ensures quiet { result.held ≡ [] }
    ensures stays { StaysFrom (J.fixed place.volume) (fixed_of B.size B.layers result) }
    ensures grows { (more : List Entry) × (result.entries ≡ J.start place.volume ++ more) }
    ensures asked { AddsAskedFor (J.merges place.volume) (J.start place.volume) result.entries }
    ensures seats { seats.new ≡ seats.old }
    ensures settled { (i : ℕ) (s : SeatShape) → i < length seats.new → IsSettledAt (J.start place.volume) result place.volume (slice_index_or seats.new i s) }
{
    let VolumePlace {
        volume,
        piece: _,
        lock,
        moved: _,
        beside,
    } = place;
    let mut post = checked(rt, lock.into_inner(), volume);
    settle_all(&mut post, &beside, volume, seats);
    post.into_audit()
}

impl<B: Layered + Drop, G: Gate + Drop, J: Room> Rig<B, G, J> {
    /// Gives the audits back, in their order. A journal begins with the entries that it had when the rig was made, and each of the
    /// others is one that was asked for. Each seat's receipts of the volume are its entries after those, in their order, and there
    /// are as many; each one's count is the place of its entry among the seat's, so that the audit's `check` agrees with it.
    pub fn close<R: Wait>(
        self,
        rt: &R,
        workers: &mut [Worker<J>],
        seats: &mut [Seat<J>],
    ) -> Vec<Audit<B>>
        ensures many { length result.items ≡ J.volumes }
        ensures quiet { (k : ℕ) (d : AuditShape B) → k < J.volumes → (slice_index_or result.items k d).held ≡ [] }
        ensures stays { (k : ℕ) (d : AuditShape B) → k < J.volumes → StaysFrom (J.fixed k) (fixed_of B.size B.layers (slice_index_or result.items k d)) }
        ensures grows { (k : ℕ) (d : AuditShape B) → k < J.volumes → (more : List Entry) × ((slice_index_or result.items k d).entries ≡ J.start k ++ more) }
        ensures asked { (k : ℕ) (d : AuditShape B) → k < J.volumes → AddsAskedFor (J.merges k) (J.start k) (slice_index_or result.items k d).entries }
        ensures seats { seats.new ≡ seats.old }
        ensures settled { (k : ℕ) (d : AuditShape B) (i : ℕ) (s : SeatShape) → k < J.volumes → i < length seats.new → IsSettledAt (J.start k) (slice_index_or result.items k d) k (slice_index_or seats.new i s) }
    {
        let _ = workers;
        let Rig {
            mut places,
            mut audits,
            queue: _,
            workers: _,
            gate: _,
        } = self;
        for _ in 0..places.len() {
            audits.push_reserved(close_one(rt, places.remove(0), seats));
        }
        audits
    }
}
