// A request of a snapshot is accepted: it is routed, and the copy that a write waits for is started.
ghost use Rattle.std.specs.Prelude.{◌≡◌, ◌≢◌, ◌⊎◌, ◌==◌, ◌&&◌, false, true, ℕ, ◌+◌, ◌*◌, ◌^◌, ◌<◌, ◌≤◌, List, length, sum_by, count_by, slice_index_or, Some, None, IfOk, IfErr};
ghost use Rattle.sector.specs.declared.refusal.Refusal.TheVariants.{Invalid, Overflow};
ghost use Rattle.plain_machine.specs.Plain.{did_overflow};
ghost use Rattle.plain_machine.specs.declared.request.Overflowing.TheVariants.{Did, May, Never};
ghost use Rattle.plain_machine.specs.Kept.{kept_range};
ghost use Rattle.in_flight.specs.Kinds.{kind_of};
ghost use Rattle.in_flight.specs.declared.flights.Kind.TheVariants.{SnapFlush, SnapRead, SnapWrite};
ghost use Rattle.snapshot.specs.Kept.{Kept};
ghost use Rattle.volume.specs.Volumed.{piece_with};
ghost use Rattle.snapshot_list.specs.Numbers.{count_in};
ghost use Rattle.snapshot_list.specs.Finding.{place_of_snap};
ghost use Rattle.snapshot_list.specs.Starting.{HasRoomFor, IsSavedIn, lacks, overflows, own_of, starts};
ghost use Rattle.volume.specs.Submitting.{dev_refusal, shut_at, IsAsked};
ghost use Rattle.volume.specs.Calls.{Accepts, FindsFull, LacksMemory};

use crate::Volume;
use device::Block;
use in_flight::{Flight, Route, read_route};
use plain_machine::{Overflowing, ReqId, Request, SnapId};
use sector::Refusal;
use snapshot::Snapshot;
use snapshot_list::{is_lacking, own_chunk, save_in, snap_at, take_room};
use std::alloc::Global;

impl<B: Block> Volume<B> {
    /// Accepts a read of a live snapshot: it goes to the place of its chunk's committed copy, or to the origin disk.
    pub(crate) fn submit_snap_read(
        &mut self,
        alloc: Global,
        request: Request,
        id: SnapId,
    ) -> Result<ReqId, Refusal>
        requires kind { kind_of request ≡ SnapRead id }
        requires found { dev_refusal request.dev self.old.merge self.old.snaps ≡ None }
        requires asked { IsAsked (B.size self.old.origin) (piece_with self.old.merge self.old.snaps) request }
        requires room { length self.old.flights < 64 }
        requires numbers { self.old.requests + 1 < 2 ^ 64 }
        ensures ok { Accepts B.Block request result self.old self.new }
        ensures err { LacksMemory result self.old self.new }
    {
        let Some(k) = snap_at(self.snaps.as_slice(), id) else {
            return Err(Refusal::NoSuchDevice);
        };
        let snap = &self.snaps[k];
        let route = read_route(snap.place_of(own_chunk(snap, request.range.first)));
        self.enter(alloc, request, route)
    }

    /// Accepts a flush of a live snapshot: it goes to its whole store.
    pub(crate) fn submit_snap_flush(
        &mut self,
        alloc: Global,
        request: Request,
        id: SnapId,
    ) -> Result<ReqId, Refusal>
        requires kind { kind_of request ≡ SnapFlush id }
        requires whole { kept_range request.op request.range ≡ request.range }
        requires found { dev_refusal request.dev self.old.merge self.old.snaps ≡ None }
        requires asked { IsAsked (B.size self.old.origin) (piece_with self.old.merge self.old.snaps) request }
        requires room { length self.old.flights < 64 }
        requires numbers { self.old.requests + 1 < 2 ^ 64 }
        ensures ok { Accepts B.Block request result self.old self.new }
        ensures err { LacksMemory result self.old self.new }
    {
        let Some(_) = snap_at(self.snaps.as_slice(), id) else {
            return Err(Refusal::NoSuchDevice);
        };
        self.enter(alloc, request, Route::Whole)
    }

    /// Accepts a write of a live snapshot: it goes to the place of its chunk's copy once that is published, and is held until
    /// then. Where no copy is under way one is started. Where the store is full the snapshot is spoiled, and the write is
    /// refused with `Invalid`; or, where that one may overflow, it is marked, and the write is refused with `Overflow`.
    pub(crate) fn submit_snap_write(
        &mut self,
        alloc: Global,
        request: Request,
        id: SnapId,
    ) -> Result<ReqId, Refusal>
        requires kind { kind_of request ≡ SnapWrite id }
        requires found { dev_refusal request.dev self.old.merge self.old.snaps ≡ None }
        requires writable { shut_at self.old.snaps (place_of_snap id self.old.snaps) ≡ None }
        requires asked { IsAsked (B.size self.old.origin) (piece_with self.old.merge self.old.snaps) request }
        requires room { length self.old.flights < 64 }
        requires numbers { self.old.requests + 1 < 2 ^ 64 }
        requires copies { self.old.copies + 8 < 2 ^ 64 }
        requires few { sum_by count_in self.old.snaps + count_by (λ s. (s.number == id) && starts request.range.first s) self.old.snaps ≤ 256 }
        ensures ok { Accepts B.Block request result self.old self.new }
        ensures err { FindsFull B.Block id request result self.old self.new }
    {
        let Some(k) = snap_at(self.snaps.as_slice(), id) else {
            return Err(Refusal::NoSuchDevice);
        };
        let snap = &self.snaps[k];
        if is_lacking(snap, request.range.first) {
            return self.start_and_enter(alloc, request, id, k);
        }
        let chunk = own_chunk(snap, request.range.first);
        if snap.is_published(chunk) {
            let route = read_route(snap.place_of(chunk));
            return self.enter(alloc, request, route);
        }
        self.enter(alloc, request, Route::Held)
    }

    /// Starts the copy that a write of the snapshot at place `k` waits for, and puts the write in flight.
    fn start_and_enter(
        &mut self,
        alloc: Global,
        request: Request,
        id: SnapId,
        k: usize,
    ) -> Result<ReqId, Refusal>
        requires kind { kind_of request ≡ SnapWrite id }
        requires found { dev_refusal request.dev self.old.merge self.old.snaps ≡ None }
        requires writable { shut_at self.old.snaps (place_of_snap id self.old.snaps) ≡ None }
        requires place { Some k ≡ place_of_snap id self.old.snaps }
        requires lacking { (s : Kept B) → s ≡ slice_index_or self.old.snaps k s → lacks request.range.first s ≡ true }
        requires asked { IsAsked (B.size self.old.origin) (piece_with self.old.merge self.old.snaps) request }
        requires room { length self.old.flights < 64 }
        requires numbers { self.old.requests + 1 < 2 ^ 64 }
        requires copies { self.old.copies + 8 < 2 ^ 64 }
        requires few { sum_by count_in self.old.snaps + count_by (λ s. (s.number == id) && starts request.range.first s) self.old.snaps ≤ 256 }
        ensures ok { Accepts B.Block request result self.old self.new }
        ensures err { FindsFull B.Block id request result self.old self.new }
    {
        let first = request.range.first;
        let room = match take_room(alloc, &mut self.snaps[k], first) {
            Ok(room) => room,
            Err(refusal) => return Err(refusal),
        };
        let Ok(flight) = Flight::new(alloc, self.requests + 1, request, Route::Held) else {
            return Err(Refusal::NoMemory);
        };
        match self.flights.reserve(1) {
            Ok(()) => {}
            Err(_) => return Err(Refusal::NoMemory),
        }
        self.copies = match save_or_mark(
            &mut self.snaps[k],
            self.flights.as_mut_slice(),
            self.copies,
            first,
            room,
        ) {
            Ok(given) => given,
            Err(refusal) => return Err(refusal),
        };
        self.flights.push_reserved(flight);
        self.requests += 1;
        Ok(self.requests)
    }
}

/// Starts the copy of a snapshot's chunk of a sector, which it lacks, and tells the copy's number: the one after `copies`.
/// Where the store is full the snapshot is spoiled, and its requests are refused (`Invalid`); or, where it may overflow, it is
/// marked, and its requests stay (`Overflow`).
fn save_or_mark<B: Block>(
    snap: &mut Snapshot<B>,
    flights: &mut [Flight],
    copies: u64,
    first: u64,
    room: Vec<u8>,
) -> Result<u64, Refusal>
    requires begins { first < snap.old.state.origin }
    requires room { HasRoomFor first snap.old room }
    requires few { copies + 1 < 2 ^ 64 }
    requires lacking { lacks first snap.old ≡ true }
    requires writable { did_overflow snap.old.overflow ≡ false }
    ensures ok { IfOk result (λ given. (given ≢ copies) × IsSavedIn B.contents B.layers (own_of first snap.old) snap.old snap.new copies given flights.old flights.new) }
    ensures err { IfErr result (λ e. ((e ≡ Invalid) × (snap.old.overflow ≡ Never) × IsSavedIn B.contents B.layers (own_of first snap.old) snap.old snap.new copies copies flights.old flights.new) ⊎ ((e ≡ Overflow) × (snap.old.overflow ≡ May) × (overflows first snap.old ≡ true) × (snap.new ≡ record snap.old { overflow = Did }) × (flights.new ≡ flights.old))) }
{
    if snap.is_full() && snap.overflow() == Overflowing::May {
        snap.mark();
        return Err(Refusal::Overflow);
    }
    let given = save_in(snap, flights, copies, first, room);
    if given == copies {
        Err(Refusal::Invalid)
    } else {
        Ok(given)
    }
}
