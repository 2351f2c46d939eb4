// Worked values: the short last chunk of a small origin, and the ways of two requests for one chunk.
use in_flight::*;
use plain_machine::{Dev, Op, ReqId, Request};
use sector::{Buf, Pair, Range};
use std::alloc::Global;
use std::test::Fail;

// An origin of 130 sectors in chunks of 4: its last chunk has 2.
#[test]
fn the_last_chunk_is_short(rt: HostRuntime) -> Result<(), Fail> {
    assert!(rt; sectors_of(4, 130, 0) == 4 && sectors_of(4, 130, 31) == 4);
    assert!(rt; sectors_of(4, 130, 32) == 2 && sectors_of(4, 130, 33) == 0);
    let copy = ChunkCopy::new(rt.alloc(), 1, Pair { old: 32, new: 2 }, 2)?;
    assert!(rt; copy.buffer.len() == 1024);
    Ok(())
}

// A request for sector 7, in flight.
fn in_flight(alloc: Global, number: ReqId, dev: Dev, op: Op, route: Route) -> Result<Flight, Fail> {
    let range = Range::new(7, 1, 128)?;
    Ok(Flight::new(alloc, number, Request { dev, op, range }, route)?)
}

// A read of snapshot 1 and a write of the origin, both of sector 7, in flight under 2 and 3.
fn read_and_write(alloc: Global, first: Route, second: Route) -> Result<Vec<Flight>, Fail> {
    let mut flights = Vec::new(alloc);
    flights.push(in_flight(alloc, 2, Dev::Snap(1), Op::Read, first)?)?;
    let zeros = Op::Write(Buf::zeroed(alloc, 512)?);
    flights.push(in_flight(alloc, 3, Dev::Origin, zeros, second)?)?;
    Ok(flights)
}

// A mark of chunk 7 under number 1, that may be published.
const MARKS: [Mark; 1] = [Mark {
    number: 1,
    chunk: 7,
    safe: true,
}];

// Whether they are the read and the write, on these ways.
fn are_on(flights: &[Flight], first: Route, second: Route) -> bool {
    let [read, write] = flights else {
        return false;
    };
    request_kind(&read.request) == Kind::SnapRead(1)
        && request_kind(&write.request) == Kind::OriginWrite
        && (read.room.len(), write.room.len()) == (512, 0)
        && (read.route, write.route) == (first, second)
}

// Whether the copy's pair can't be published, since the read is on its way.
fn is_delayed(flights: &[Flight]) -> bool {
    first_publishable(&MARKS, flights, 1, 1).is_none()
        && publishable_at(&MARKS, flights, 1, 1, 1).is_none()
        && first_routed(flights) == Some(2)
}

// Whether it can be, and no request is on its way.
fn is_free(flights: &[Flight]) -> bool {
    first_publishable(&MARKS, flights, 1, 1) == Some(1)
        && publishable_at(&MARKS, flights, 1, 1, 1) == Some(0)
        && first_routed(flights).is_none()
}

// Whether the write goes to the origin disk once its chunk is clear, also where snapshot 1 is refused what it holds.
fn goes_on(flights: &mut Vec<Flight>, held: Route) -> bool {
    if let Some(write) = flights.first_mut() {
        write.route = again_route(Kind::OriginWrite, held, write_route(false, None, true));
    }
    refuse(flights, 1);
    match flights.first() {
        Some(write) => write.route == Route::Origin,
        None => false,
    }
}

#[test]
fn a_mark_is_of_its_chunk(rt: HostRuntime) {
    assert!(rt; is_marked(&MARKS, 7) && !is_marked(&MARKS, 6));
}

// The read is routed to the origin disk, and the write held for the snapshot's copy 1: both of chunk 7.
#[test]
fn a_read_of_the_origin_disk_delays_the_publication(rt: HostRuntime) -> Result<(), Fail> {
    let held = write_route(false, None, false);
    let mut flights = read_and_write(rt.alloc(), read_route(None), held)?;
    assert!(rt; are_on(&flights, Route::Origin, Route::Held));
    assert!(rt; flight_at(&flights, 3) == Some(1) && flight_at(&flights, 1).is_none());
    assert!(rt; is_delayed(&flights));
    assert!(rt; !flights.is_empty());
    let _ = flights.remove(0);
    assert!(rt; is_free(&flights));
    assert!(rt; goes_on(&mut flights, held));
    Ok(())
}

// A committed pair is published once its store was flushed behind it.
#[test]
fn a_flush_lets_a_pair_be_published(rt: HostRuntime) {
    let mut marks = [
        Mark {
            number: 4,
            chunk: 7,
            safe: false,
        },
        Mark {
            number: 5,
            chunk: 9,
            safe: true,
        },
    ];
    let flights: Vec<Flight> = Vec::new(rt.alloc());
    assert!(rt; has_unsafe(&marks));
    assert!(rt; first_publishable(&marks, &flights, 1, 1) == Some(5));
    assert!(rt; publishable_at(&marks, &flights, 1, 1, 4).is_none());
    flush_marks(&mut marks);
    assert!(rt; !has_unsafe(&marks) && first_publishable(&marks, &flights, 1, 1) == Some(4));
}

// Whether the copy of chunk 9 waits.
fn is_waiting(copies: &[ChunkCopy]) -> bool {
    has_copy(copies, 9)
        && !has_copy(copies, 2)
        && first_copy(copies, Stage::Waiting) == Some(1)
        && first_copy(copies, Stage::Read).is_none()
        && !front_ready(copies)
        && !front_unflushed(copies)
}

// Whether it is written, and not flushed.
fn is_written(copies: &[ChunkCopy]) -> bool {
    !front_ready(copies)
        && front_unflushed(copies)
        && batch(copies, 32) == 0
        && copy_at(copies, Stage::Written, 1) == Some(0)
        && copy_at(copies, Stage::Waiting, 1).is_none()
        && least(first_copy(copies, Stage::Written), Some(7)) == Some(1)
}

// Whether it is flushed.
fn is_flushed(copies: &[ChunkCopy]) -> bool {
    front_ready(copies)
        && !front_unflushed(copies)
        && (batch(copies, 0), batch(copies, 32)) == (0, 1)
}

// A copy goes through its stages.
#[test]
fn a_copy_goes_through_its_stages(rt: HostRuntime) -> Result<(), Fail> {
    let copy = ChunkCopy::new(rt.alloc(), 1, Pair { old: 9, new: 2 }, 1)?;
    let mut copies = [copy];
    assert!(rt; is_waiting(&copies));
    copies[0].stage = Stage::Written;
    assert!(rt; is_written(&copies));
    flush_copies(&mut copies);
    assert!(rt; is_flushed(&copies) && flushed_stage(Stage::Read) == Stage::Read);
    Ok(())
}

// A snapshot's held write goes to its place, or is refused at a spoil.
#[test]
fn a_copy_frees_the_write_that_waits_for_it(rt: HostRuntime) {
    let (held, write) = (Route::Held, Kind::SnapWrite(1));
    assert!(rt; placed_route(1, write, held, Some(2)) == Route::Store(2));
    assert!(rt; placed_route(2, write, held, Some(2)) == Route::Held);
    assert!(rt; refused_route(1, write, held) == Route::Refused);
    assert!(rt; refused_route(1, Kind::SnapRead(2), Route::Origin) == Route::Origin);
}

// What is kept of a request with this operation.
fn kept(dev: Dev, op: Op) -> Result<Request, Fail> {
    let range = Range::new(7, 9, 128)?;
    Ok(Request { dev, op, range }.kept())
}

// A flush has no sectors of its own.
#[test]
fn a_flush_is_kept_with_the_first_sector(rt: HostRuntime) -> Result<(), Fail> {
    let read = kept(Dev::Origin, Op::Read)?.range;
    assert!(rt; (read.first, read.count, read.size) == (7, 9, 128));
    let flush = kept(Dev::Snap(1), Op::Flush)?;
    assert!(rt; (flush.range.first, flush.range.count, flush.range.size) == (0, 1, 1));
    assert!(rt; request_kind(&flush) == Kind::SnapFlush(1));
    let flight = Flight::new(rt.alloc(), 2, flush, Route::Whole)?;
    assert!(rt; flight.room.is_empty());
    Ok(())
}

// It goes to a whole store, or to the origin disk, and is never held.
#[test]
fn a_flush_keeps_its_way(rt: HostRuntime) {
    let (whole, flush) = (Route::Whole, Kind::SnapFlush(1));
    assert!(rt; flush_route(true) == whole && flush_route(false) == Route::Origin);
    assert!(rt; is_routed(whole) && !reads_origin(1, flush, whole));
    assert!(rt; again_route(Kind::OriginFlush, whole, Route::Origin) == whole);
    assert!(rt; placed_route(1, flush, whole, Some(2)) == whole);
    assert!(rt; refused_route(1, flush, whole) == Route::Refused);
    assert!(rt; refused_route(2, flush, whole) == whole);
    assert!(rt; refused_route(1, Kind::OriginFlush, whole) == whole);
}
