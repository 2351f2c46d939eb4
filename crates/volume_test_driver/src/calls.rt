// Calls of a volume, of which nothing but the answer is said.
use device::Block;
use layers::Layered;
use plain_machine::{Dev, Event, Op, Outcome, ReqId, Request, SnapId};
use sector::{Buf, Range, Refusal, SECTOR_BYTES};
use snapshot::StoreDev;
use std::alloc::Global;
use volume::Volume;

/// A volume over an origin.
pub fn volume_over<B: Block + Drop>(alloc: Global, origin: B) -> Result<Volume<B>, Refusal> {
    match Volume::new(alloc, origin) {
        Ok(volume) => Ok(volume),
        Err((refusal, _)) => Err(refusal),
    }
}

/// Attaches a store, which may overflow. A refused one is given back.
pub fn attach<B: Block>(
    alloc: Global,
    volume: &mut Volume<B>,
    device: B,
    chunk: u32,
) -> Result<SnapId, (Refusal, B)> {
    let stale = false;
    match volume.attach(alloc, StoreDev { device, stale }, chunk, true) {
        Ok(number) => Ok(number),
        Err((refusal, store)) => Err((refusal, store.device)),
    }
}

/// Submits a read.
pub fn submit_read<B: Block>(
    alloc: Global,
    volume: &mut Volume<B>,
    dev: Dev,
    range: Range,
) -> Result<ReqId, Refusal> {
    let op = Op::Read;
    volume.submit(alloc, Request { dev, op, range })
}

/// Submits a write, each sector of which is filled with a byte.
pub fn submit_write<B: Block>(
    alloc: Global,
    volume: &mut Volume<B>,
    dev: Dev,
    range: Range,
    byte: u8,
) -> Result<ReqId, Refusal> {
    let Ok(bytes) = vec![in alloc; byte; SECTOR_BYTES * range.count as usize] else {
        return Err(Refusal::NoMemory);
    };
    let op = Op::Write(Buf::from_vec(bytes));
    volume.submit(alloc, Request { dev, op, range })
}

/// Does an event, if it is due.
pub fn step<B: Block>(volume: &mut Volume<B>, event: Event) -> Option<Outcome> {
    match volume.step(event) {
        Ok(outcome) => Some(outcome),
        Err(_) => None,
    }
}

/// The event that is due first. A merge that stopped at a fault goes on.
pub fn due<B: Block>(volume: &mut Volume<B>) -> Option<Event> {
    if let Some(event) = volume.due() {
        return Some(event);
    }
    if !volume.is_merge_failed() {
        return None;
    }
    match volume.resume_merge() {
        Ok(()) => volume.due(),
        Err(_) => None,
    }
}

/// Begins to merge a snapshot.
pub fn begin_merge<B: Block>(
    alloc: Global,
    volume: &mut Volume<B>,
    number: SnapId,
) -> Result<(), Refusal> {
    volume.begin_merge(alloc, number)
}

/// Takes a merge out.
pub fn finish_merge<B: Block + Drop>(volume: &mut Volume<B>) -> Result<(), Refusal> {
    match volume.finish_merge() {
        Ok(_) => Ok(()),
        Err(refusal) => Err(refusal),
    }
}

/// Whether a snapshot is spoiled.
pub fn is_spoilt<B: Block>(volume: &Volume<B>, number: SnapId) -> bool {
    match volume.usage(number) {
        Ok(None) => true,
        _ => false,
    }
}

/// How many operations of a snapshot's store failed.
pub fn store_faults<B: Block>(volume: &Volume<B>, number: SnapId) -> u64 {
    match volume.store(number) {
        Ok(store) => store.faults(),
        Err(_) => 0,
    }
}

/// Whether a device shows one sector of this byte.
pub fn shows<B: Layered>(
    volume: &Volume<B>,
    dev: Dev,
    sector: u64,
    byte: u8,
) -> Result<bool, Refusal> {
    let range = Range::new(sector, 1, volume.origin().sectors())?;
    let mut out = [0; SECTOR_BYTES];
    volume.peek(dev, range, &mut out)?;
    Ok(out == [byte; SECTOR_BYTES])
}
