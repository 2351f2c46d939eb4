// A flush of the origin beside a merge is issued twice: to the store, and then to the origin disk. Between both a commit may be
// done and the origin be written; then the store has lost its commit, the written sector is not what the origin showed, though
// the flush was answered.
use device::MemDisk;
use plain_machine::{Dev, Event, Op, Outcome, Reply, ReqId, Request, SnapId};
use sector::{Range, SECTOR_BYTES};
use std::alloc::Global;
use std::test::Fail;
use volume::{Stopped, Volume};
use volume_test_driver::calls;

const SECTORS: u64 = 16;

/// The sector that is written.
const AT: u64 = 5;

/// A disk whose sectors are all of this byte, which counts as flushed.
fn disk_of(alloc: Global, byte: u8) -> Result<MemDisk, Fail> {
    let mut disk = MemDisk::new(alloc, SECTORS)?;
    let range = Range::new(0, SECTORS as u32, SECTORS)?;
    disk.load(range, &[byte; SECTORS as usize * SECTOR_BYTES]);
    Ok(disk)
}

/// A volume over an origin with a snapshot over a store.
fn volume_with(alloc: Global, origin: MemDisk, store: MemDisk) -> Result<Volume<MemDisk>, Fail> {
    let mut volume = calls::volume_over(alloc, origin)?;
    match calls::attach(alloc, &mut volume, store, 1) {
        Ok(1) => Ok(volume),
        Ok(_) => Err(Fail::from("another number")),
        Err((refusal, _)) => Err(Fail::from(refusal)),
    }
}

/// Does all that is due.
fn settle(volume: &mut Volume<MemDisk>) -> Result<(), Fail> {
    for _ in 0..10_000 {
        let Some(event) = volume.due() else {
            return Ok(());
        };
        if calls::step(volume, event).is_none() {
            return Err(Fail::from("not due"));
        }
    }
    Err(Fail::from("events without an end"))
}

/// Whether an event is done without a reply.
fn is_done(volume: &mut Volume<MemDisk>, event: Event) -> bool {
    matches!(calls::step(volume, event), Some(Outcome::Done))
}

/// Whether these events are done, one after the other, without a reply.
fn are_done(volume: &mut Volume<MemDisk>, events: &[Event]) -> bool {
    for event in events {
        if !is_done(volume, *event) {
            return false;
        }
    }
    true
}

/// Submits a flush, of which no sector is looked at.
fn submit_flush(alloc: Global, volume: &mut Volume<MemDisk>, dev: Dev) -> Result<ReqId, Fail> {
    let op = Op::Flush;
    let range = Range::new(7, 9, SECTORS)?;
    Ok(volume.submit(alloc, Request { dev, op, range })?)
}

/// Whether a request is answered as flushed, and not before.
fn is_flushed(volume: &mut Volume<MemDisk>, request: ReqId) -> bool {
    match calls::step(volume, Event::Issue(request)) {
        Some(Outcome::Reply(number, Reply::Flushed)) => number == request,
        _ => false,
    }
}

/// Writes the sector of the origin by one request, and does its Issue alone.
fn write(alloc: Global, volume: &mut Volume<MemDisk>, byte: u8) -> Result<bool, Fail> {
    let range = Range::new(AT, 1, SECTORS)?;
    let request = calls::submit_write(alloc, volume, Dev::Origin, range, byte)?;
    match calls::step(volume, Event::Issue(request)) {
        Some(Outcome::Reply(number, Reply::Written)) => Ok(number == request),
        _ => Ok(false),
    }
}

/// A volume that merges a snapshot which has one chunk, elevens, that the origin had when it was taken: the chunk is copied back and
/// flushed, and its pair not yet cleared.
fn before_the_commit(alloc: Global) -> Result<Volume<MemDisk>, Fail> {
    let mut volume = volume_with(alloc, disk_of(alloc, 0x11)?, disk_of(alloc, 0)?)?;
    let range = Range::new(AT, 1, SECTORS)?;
    calls::submit_write(alloc, &mut volume, Dev::Origin, range, 0xaa)?;
    settle(&mut volume)?;
    calls::begin_merge(alloc, &mut volume, 1)?;
    let events = [
        Event::MergeGroup,
        Event::MergeRead,
        Event::MergeWrite,
        Event::MergeFlush,
    ];
    if are_done(&mut volume, &events) {
        Ok(volume)
    } else {
        Err(Fail::from("a merge that does not go on"))
    }
}

/// A disk that is left of a volume, after its cache was lost.
fn lost(stopped: &mut Stopped<MemDisk>) -> Result<MemDisk, Fail> {
    let Some(mut disk) = stopped.take() else {
        return Err(Fail::from("a device is lost"));
    };
    disk.lose();
    Ok(disk)
}

/// The volume is stopped, its disks lose what was not flushed, and the snapshot is attached again.
fn again(alloc: Global, volume: Volume<MemDisk>) -> Result<Volume<MemDisk>, Fail> {
    let mut stopped = volume.stop();
    let origin = lost(&mut stopped)?;
    let store = lost(&mut stopped)?;
    volume_with(alloc, origin, store)
}

/// Whether the origin and the snapshot show these bytes at the sector.
fn show(volume: &Volume<MemDisk>, origin: u8, snapshot: u8) -> Result<bool, Fail> {
    Ok(
        calls::shows(volume, Dev::Origin, AT, origin)?
            && calls::shows(volume, Dev::Snap(1), AT, snapshot)?,
    )
}

const SNAPSHOT: SnapId = 1;

#[test]
fn a_write_between_both_issues_stays_open(rt: HostRuntime) -> Result<(), Fail> {
    let alloc = rt.alloc();
    let mut volume = before_the_commit(alloc)?;
    let flush = submit_flush(alloc, &mut volume, Dev::Origin)?;
    assert!(rt; is_done(&mut volume, Event::Issue(flush)));
    assert!(rt; are_done(&mut volume, &[Event::MergeCommit, Event::MergeRelease]));
    assert!(rt; write(alloc, &mut volume, 0xcc)?);
    assert!(rt; calls::shows(&volume, Dev::Origin, AT, 0xcc)?);
    assert!(rt; is_flushed(&mut volume, flush));
    let left = again(alloc, volume)?;
    // The origin disk has the write, and the store has its pair again, which a merge gives back.
    assert!(rt; show(&left, 0xcc, 0x11)?);
    Ok(())
}

#[test]
fn a_write_behind_the_commit_is_closed_by_both_issues(rt: HostRuntime) -> Result<(), Fail> {
    let alloc = rt.alloc();
    let mut volume = before_the_commit(alloc)?;
    assert!(rt; are_done(&mut volume, &[Event::MergeCommit, Event::MergeRelease]));
    assert!(rt; write(alloc, &mut volume, 0xcc)?);
    let flush = submit_flush(alloc, &mut volume, Dev::Origin)?;
    assert!(rt; is_done(&mut volume, Event::Issue(flush)));
    assert!(rt; is_flushed(&mut volume, flush));
    assert!(rt; !is_done(&mut volume, Event::Issue(flush)));
    let left = again(alloc, volume)?;
    assert!(rt; show(&left, 0xcc, 0xcc)?);
    Ok(())
}

#[test]
fn a_write_before_the_commit_is_in_the_store(rt: HostRuntime) -> Result<(), Fail> {
    let alloc = rt.alloc();
    let mut volume = before_the_commit(alloc)?;
    let flush = submit_flush(alloc, &mut volume, Dev::Origin)?;
    assert!(rt; is_done(&mut volume, Event::Issue(flush)));
    // What was flushed between both is the store alone.
    let left = again(alloc, volume)?;
    assert!(rt; show(&left, 0x11, 0x11)?);
    Ok(())
}

#[test]
fn a_flush_of_a_snapshot_is_one_event(rt: HostRuntime) -> Result<(), Fail> {
    let alloc = rt.alloc();
    let mut volume = volume_with(alloc, disk_of(alloc, 0x11)?, disk_of(alloc, 0)?)?;
    let range = Range::new(AT, 1, SECTORS)?;
    calls::submit_write(alloc, &mut volume, Dev::Snap(SNAPSHOT), range, 0x77)?;
    assert!(rt; are_done(&mut volume, &[Event::CopyRead(1), Event::CopyWrite(1)]));
    let flush = submit_flush(alloc, &mut volume, Dev::Snap(SNAPSHOT))?;
    assert!(rt; is_flushed(&mut volume, flush));
    // The copy that was written by then counts as flushed: no flush of the store is due, and its area is.
    assert!(rt; !is_done(&mut volume, Event::FlushStore(SNAPSHOT)));
    assert!(rt; are_done(&mut volume, &[Event::WriteArea(SNAPSHOT)]));
    let again_flush = submit_flush(alloc, &mut volume, Dev::Snap(SNAPSHOT))?;
    assert!(rt; is_flushed(&mut volume, again_flush));
    assert!(rt; are_done(&mut volume, &[Event::Publish(1)]));
    settle(&mut volume)?;
    let last = submit_flush(alloc, &mut volume, Dev::Snap(SNAPSHOT))?;
    assert!(rt; is_flushed(&mut volume, last));
    let left = again(alloc, volume)?;
    assert!(rt; show(&left, 0x11, 0x77)?);
    Ok(())
}
