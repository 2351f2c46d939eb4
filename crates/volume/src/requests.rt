// A request is accepted or refused: it is routed, and the copies that it waits for are started.
ghost use Rattle.std.specs.Prelude.{◌≡◌, ◌*◌, ◌+◌, ◌<◌, ◌^◌, ◌≤◌, IfOk, List, None, [], count_by, false, length, map, sum_by, ℕ};
ghost use Rattle.plain_machine.specs.Kept.{kept_range};
ghost use Rattle.plain_machine.specs.declared.request.Op.TheVariants.{Write};
ghost use Rattle.in_flight.specs.Kinds.{kind_of, room_of};
ghost use Rattle.in_flight.specs.declared.flights.Flight.{Flight};
ghost use Rattle.in_flight.specs.declared.flights.Kind.TheVariants.{OriginFlush, OriginRead, OriginWrite};
ghost use Rattle.volume_laws.specs.Accepting.{IsTakenIn};
ghost use Rattle.volume_laws.specs.Published.{is_clear as is_clear_in};
ghost use Rattle.snapshot.specs.Kept.{books_of as snap_books};
ghost use Rattle.snapshot_list.specs.Numbers.{count_in};
ghost use Rattle.snapshot_list.specs.Starting.{starts};
ghost use Rattle.snapshot_list.specs.Routing.{is_merged_at as is_merged_in};
ghost use Rattle.volume.specs.Stopping.{StopsNow};
ghost use Rattle.volume.specs.Submitting.{IsAsked, IsEntered, entered_of, starting, submit_refusal};
ghost use Rattle.volume.specs.Volumed.{books_of, piece_with};
ghost use Rattle.volume.specs.Whole.{IsWhole};
ghost use Rattle.volume.specs.Calls.{Accepts, LacksMemory, LacksRoom, Refuses, Submits};

use crate::Volume;
use device::Block;
use in_flight::{Flight, Kind, Route, flush_route, read_route, request_kind};
use plain_machine::{ReqId, Request};
use sector::Refusal;
use snapshot_list::{is_clear, is_merged_at, merged_route, place_at, save_in_all, take_rooms};
use std::alloc::Global;

impl<B: Block> Volume<B> {
    /// Accepts a request, and tells its number. No device is asked for anything yet.
    ///
    /// A read goes to the origin disk, or to the place of a committed copy, of the snapshot or of the merge. A write of the
    /// origin is held until each live snapshot has published its chunk, and starts the copies that are lacking: snapshots
    /// whose stores are full are spoiled. Where a merge has the chunk it starts none: it goes to the place on the merging
    /// store, or is held while the chunk is in the present group. A write of a snapshot is held until that one has published
    /// its chunk, and starts its copy. A flush of a snapshot goes to its whole store. One of the origin goes to the merging
    /// store where a merge is begun, and from there to the origin disk, or else to the origin disk at once. Its range is not
    /// looked at: it is kept with the origin's first sector.
    ///
    /// Refused, in this order: there is no such snapshot (`NoSuchDevice`), it is being merged (`MergingSnapshot`), it is
    /// spoiled (`Invalid`), it is a write and the snapshot's store overflowed (`Overflow`), the range is empty or lies not
    /// inside the origin and one piece, or it is a flush and the origin has no sector (`OutOfRange`), it is the 65th request, starts the 257th copy, or is past the last
    /// number (`TooMany`), memory is refused (`NoMemory`), or a snapshot's write finds its store full. That last reason alone
    /// changes something: the snapshot is spoiled (`Invalid`), or, where it may overflow, is marked (`Overflow`), and what it
    /// shows stays, and so do its requests in flight.
    pub fn submit(&mut self, alloc: Global, request: Request) -> Result<ReqId, Refusal>
        requires bytes { (bytes : List ℕ) → request.op ≡ Write bytes → length bytes ≡ 512 * request.range.count }
        ensures does { Submits B.Block request result self.old self.new }
        ensures stops { StopsNow B.may_hold B.layers B.size self.old }
        ensures refused { Refuses B.Block request result self.old self.new }
    {
        // A look at a field: what the type keeps is known from here on.
        let _ = &self.flights;
        self.submit_kept(alloc, request.kept())
    }

    /// Accepts a request that is one that is kept.
    fn submit_kept(&mut self, alloc: Global, request: Request) -> Result<ReqId, Refusal>
        requires whole { kept_range request.op request.range ≡ request.range }
        requires bytes { (bytes : List ℕ) → request.op ≡ Write bytes → length bytes ≡ 512 * request.range.count }
        ensures ok { Accepts B.Block request result self.old self.new }
        ensures stops { StopsNow B.may_hold B.layers B.size self.old }
        ensures admitted { IfOk result (λ _. submit_refusal B.size request self.old ≡ None) }
        ensures refused { Refuses B.Block request result self.old self.new }
    {
        // A look at a field: what the type keeps is known from here on.
        let _ = &self.flights;
        self.look_at_stores();
        match self.submit_refused(&request) {
            Some(refusal) => return Err(refusal),
            None => {}
        }
        match request_kind(&request) {
            Kind::OriginRead => self.submit_origin_read(alloc, request),
            Kind::OriginWrite => self.submit_origin_write(alloc, request),
            Kind::OriginFlush => self.submit_origin_flush(alloc, request),
            Kind::SnapRead(id) => self.submit_snap_read(alloc, request, id),
            Kind::SnapWrite(id) => self.submit_snap_write(alloc, request, id),
            Kind::SnapFlush(id) => self.submit_snap_flush(alloc, request, id),
        }
    }

    /// Puts a request in flight by a route.
    pub(crate) fn enter(
        &mut self,
        alloc: Global,
        request: Request,
        route: Route,
    ) -> Result<ReqId, Refusal>
        requires room { length self.old.flights < 64 }
        requires numbers { self.old.requests + 1 < 2 ^ 64 }
        requires goes { (f : Flight) → IsWhole B.contents B.layers B.size self.old → f.number ≡ self.old.requests + 1 → f.request ≡ request → f.route ≡ route → length f.room.items ≡ room_of request → IsTakenIn [] f.number f.request (books_of B.contents B.layers B.size self.old) (books_of B.contents B.layers B.size (entered_of f self.old)) }
        ensures ok { IfOk result (λ number. IsEntered B.contents B.layers request route number self.old self.new) }
        ensures err { LacksMemory result self.old self.new }
    {
        let Ok(flight) = Flight::new(alloc, self.requests + 1, request, route) else {
            return Err(Refusal::NoMemory);
        };
        match self.flights.push(flight) {
            Ok(()) => {}
            Err(_) => return Err(Refusal::NoMemory),
        }
        self.requests += 1;
        Ok(self.requests)
    }

    /// Accepts a read of the origin: it goes to the place of its chunk on the merging store, or to the origin disk.
    fn submit_origin_read(&mut self, alloc: Global, request: Request) -> Result<ReqId, Refusal>
        requires kind { kind_of request ≡ OriginRead }
        requires asked { IsAsked (B.size self.old.origin) (piece_with self.old.merge self.old.snaps) request }
        requires room { length self.old.flights < 64 }
        requires numbers { self.old.requests + 1 < 2 ^ 64 }
        ensures ok { Accepts B.Block request result self.old self.new }
        ensures err { LacksMemory result self.old self.new }
    {
        let route = read_route(place_at(&self.merge, request.range.first));
        self.enter(alloc, request, route)
    }

    /// Accepts a flush of the origin: it goes to the merging store first where a merge is begun, or else to the origin disk.
    fn submit_origin_flush(&mut self, alloc: Global, request: Request) -> Result<ReqId, Refusal>
        requires kind { kind_of request ≡ OriginFlush }
        requires whole { kept_range request.op request.range ≡ request.range }
        requires asked { IsAsked (B.size self.old.origin) (piece_with self.old.merge self.old.snaps) request }
        requires room { length self.old.flights < 64 }
        requires numbers { self.old.requests + 1 < 2 ^ 64 }
        ensures ok { Accepts B.Block request result self.old self.new }
        ensures err { LacksMemory result self.old self.new }
    {
        let route = flush_route(self.merge.is_some());
        self.enter(alloc, request, route)
    }

    /// Accepts a write of the origin. Where a merge has its chunk it starts no copies.
    fn submit_origin_write(&mut self, alloc: Global, request: Request) -> Result<ReqId, Refusal>
        requires kind { kind_of request ≡ OriginWrite }
        requires asked { IsAsked (B.size self.old.origin) (piece_with self.old.merge self.old.snaps) request }
        requires room { length self.old.flights < 64 }
        requires numbers { self.old.requests + 1 < 2 ^ 64 }
        requires copies { self.old.copies + 8 < 2 ^ 64 }
        requires few { sum_by count_in self.old.snaps + starting OriginWrite request.range.first self.old.merge self.old.snaps ≤ 256 }
        ensures ok { Accepts B.Block request result self.old self.new }
        ensures err { LacksRoom result self.old self.new }
    {
        let first = request.range.first;
        if is_merged_at(&self.merge, first) {
            let route = merged_route(&self.merge, first);
            return self.enter(alloc, request, route);
        }
        self.submit_unmerged(alloc, request)
    }

    /// Accepts a write of the origin whose chunk no merge has. One that waits for nothing starts no copies, and asks for no room.
    fn submit_unmerged(&mut self, alloc: Global, request: Request) -> Result<ReqId, Refusal>
        requires kind { kind_of request ≡ OriginWrite }
        requires unmerged { is_merged_in request.range.first self.old.merge ≡ false }
        requires asked { IsAsked (B.size self.old.origin) (piece_with self.old.merge self.old.snaps) request }
        requires room { length self.old.flights < 64 }
        requires numbers { self.old.requests + 1 < 2 ^ 64 }
        requires copies { self.old.copies + 8 < 2 ^ 64 }
        requires few { sum_by count_in self.old.snaps + count_by (starts request.range.first) self.old.snaps ≤ 256 }
        ensures ok { Accepts B.Block request result self.old self.new }
        ensures err { LacksRoom result self.old self.new }
    {
        if is_clear(self.snaps.as_slice(), request.range.first) {
            return self.enter(alloc, request, Route::Origin);
        }
        self.save_and_enter(alloc, request)
    }

    /// Accepts a write of the origin that waits: each live snapshot that lacks its chunk there starts a copy of it, and the
    /// write is held until each has published its own. Snapshots whose stores are full are spoiled.
    pub(crate) fn save_and_enter(
        &mut self,
        alloc: Global,
        request: Request,
    ) -> Result<ReqId, Refusal>
        requires kind { kind_of request ≡ OriginWrite }
        requires unmerged { is_merged_in request.range.first self.old.merge ≡ false }
        requires waits { is_clear_in (map (snap_books B.contents B.layers) self.old.snaps) request.range.first ≡ false }
        requires asked { IsAsked (B.size self.old.origin) (piece_with self.old.merge self.old.snaps) request }
        requires room { length self.old.flights < 64 }
        requires numbers { self.old.requests + 1 < 2 ^ 64 }
        requires copies { self.old.copies + 8 < 2 ^ 64 }
        requires few { sum_by count_in self.old.snaps + count_by (starts request.range.first) self.old.snaps ≤ 256 }
        ensures ok { Accepts B.Block request result self.old self.new }
        ensures err { LacksRoom result self.old self.new }
    {
        let first = request.range.first;
        match take_rooms(alloc, self.snaps.as_mut_slice(), first, &mut self.rooms) {
            Ok(()) => {}
            Err(refusal) => return Err(refusal),
        }
        let Ok(flight) = Flight::new(alloc, self.requests + 1, request, Route::Held) else {
            self.rooms.clear();
            return Err(Refusal::NoMemory);
        };
        match self.flights.reserve(1) {
            Ok(()) => {}
            Err(_) => {
                self.rooms.clear();
                return Err(Refusal::NoMemory);
            }
        }
        self.copies = save_in_all(
            self.snaps.as_mut_slice(),
            self.flights.as_mut_slice(),
            self.copies,
            first,
            &mut self.rooms,
        );
        self.flights.push_reserved(flight);
        self.requests += 1;
        Ok(self.requests)
    }
}
