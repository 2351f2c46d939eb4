// A volume of sixteen sectors with chunks of one sector: what was written since a snapshot was taken is undone by its merge. A flush
// of the origin is done by one Issue, and beside a merge by two.
ghost use Rattle.std.specs.Prelude.{◌≡◌, ◌<◌, []};
ghost use Rattle.volume_lifetime.specs.Lived.{IsFitDeed};

use device::{Block, MemDisk};
use layers::Layered;
use plain_machine::{Dev, Op, Outcome, Reply, Request};
use sector::{Buf, Range, Refusal, SECTOR_BYTES};
use snapshot::StoreDev;
use std::alloc::Global;
use std::process::Abort;
use std::test::Fail;
use volume::Volume;
use volume_lifetime::{Deed, Done, live};

/// The sectors of the origin and of the store.
pub const SECTORS: u64 = 16;

/// A volume whose origin is of zeros.
pub fn volume_of(alloc: Global) -> Result<Volume<MemDisk>, Refusal> {
    match Volume::new(alloc, MemDisk::new(alloc, SECTORS)?) {
        Ok(volume) => Ok(volume),
        Err((refusal, _)) => Err(refusal),
    }
}

/// Does one thing, and tells what came of it.
pub fn do_one(
    alloc: Global,
    volume: &mut Volume<MemDisk>,
    deed: Deed<MemDisk>,
) -> Result<Option<Done<MemDisk>>, Refusal>
    requires { IsFitDeed deed }
{
    let Ok(mut deeds) = Vec::with_capacity(alloc, 1) else {
        return Err(Refusal::NoMemory);
    };
    deeds.push_reserved(deed);
    match live(alloc, volume, deeds) {
        Ok(mut done) => Ok(done.pop()),
        Err((refusal, _)) => Err(refusal),
    }
}

/// A write of one sector of the origin, filled with a byte.
pub fn write(
    alloc: Global,
    volume: &mut Volume<MemDisk>,
    sector: u64,
    byte: u8,
) -> Result<(), Refusal> {
    let range = Range::new(sector, 1, SECTORS)?;
    let Ok(bytes) = vec![in alloc; byte; SECTOR_BYTES * range.count as usize] else {
        return Err(Refusal::NoMemory);
    };
    let op = Op::Write(Buf::from_vec(bytes));
    let dev = Dev::Origin;
    match do_one(alloc, volume, Deed::Submit(Request { dev, op, range }))? {
        Some(Done::Submitted(Ok(_))) => run(alloc, volume),
        _ => Err(Refusal::Invalid),
    }
}

/// Issues the only request.
fn issue(alloc: Global, volume: &mut Volume<MemDisk>) -> Result<Outcome, Refusal> {
    let Some(event) = volume.due() else {
        return Err(Refusal::NotDue);
    };
    match do_one(alloc, volume, Deed::Step(event))? {
        Some(Done::Stepped(Ok(outcome))) => Ok(outcome),
        _ => Err(Refusal::Invalid),
    }
}

/// A flush of the origin, whose sectors are not looked at.
fn flush(
    rt: &impl Abort,
    alloc: Global,
    volume: &mut Volume<MemDisk>,
    is_merging: bool,
) -> Result<(), Refusal> {
    let range = Range::new(SECTORS, 0, SECTORS)?;
    let (dev, op) = (Dev::Origin, Op::Flush);
    let asked = do_one(alloc, volume, Deed::Submit(Request { dev, op, range }))?;
    assert!(rt; matches!(asked, Some(Done::Submitted(Ok(_)))));
    if is_merging {
        let first = issue(alloc, volume)?;
        assert!(rt; matches!(first, Outcome::Done));
    }
    let last = issue(alloc, volume)?;
    assert!(rt; matches!(last, Outcome::Reply(_, Reply::Flushed)));
    Ok(())
}

/// Does what is due, until nothing is.
fn run(alloc: Global, volume: &mut Volume<MemDisk>) -> Result<(), Refusal> {
    for _ in 0..1000 {
        let Some(event) = volume.due() else {
            return Ok(());
        };
        match do_one(alloc, volume, Deed::Step(event))? {
            Some(Done::Stepped(Ok(Outcome::Done))) => {}
            Some(Done::Stepped(Ok(Outcome::Reply(_, Reply::Written)))) => {}
            _ => return Err(Refusal::Invalid),
        }
    }
    Err(Refusal::NotFinished)
}

/// Whether each byte of a sector of the origin's disk is this.
pub fn is_filled(volume: &Volume<MemDisk>, sector: u64, byte: u8) -> Result<bool, Refusal> {
    let range = Range::new(sector, 1, volume.origin().sectors())?;
    let mut out = [0u8; SECTOR_BYTES];
    volume.origin().peek(range, &mut out);
    Ok(out.iter().all(|b| *b == byte))
}

/// Takes a snapshot over a fresh store, writes two sectors of the origin, and merges the snapshot back.
fn undo(rt: &impl Abort, alloc: Global, volume: &mut Volume<MemDisk>) -> Result<(), Refusal> {
    write(alloc, volume, 4, 0x31)?;
    let device = MemDisk::new(alloc, SECTORS)?;
    let stale = false;
    let taken = do_one(
        alloc,
        volume,
        Deed::Attach(StoreDev { device, stale }, 1, false),
    )?;
    assert!(rt; matches!(taken, Some(Done::Attached(Ok(1)))));
    write(alloc, volume, 4, 0x32)?;
    write(alloc, volume, 5, 0x33)?;
    assert!(rt; is_filled(volume, 4, 0x32)? && is_filled(volume, 5, 0x33)?);
    flush(rt, alloc, volume, false)?;
    let begun = do_one(alloc, volume, Deed::BeginMerge(1))?;
    assert!(rt; matches!(begun, Some(Done::Begun(Ok(())))));
    flush(rt, alloc, volume, true)?;
    let early = do_one(alloc, volume, Deed::FinishMerge)?;
    assert!(rt; matches!(early, Some(Done::Finished(Err(Refusal::NotFinished)))));
    run(alloc, volume)?;
    let finished = do_one(alloc, volume, Deed::FinishMerge)?;
    assert!(rt; matches!(finished, Some(Done::Finished(Ok(_)))));
    assert!(rt; is_filled(volume, 4, 0x31)? && is_filled(volume, 5, 0)?);
    Ok(())
}

#[test]
fn a_merge_gives_the_disk_back(rt: HostRuntime) -> Result<(), Fail> {
    let mut volume = volume_of(rt.alloc())?;
    undo(&rt, rt.alloc(), &mut volume)?;
    Ok(())
}
