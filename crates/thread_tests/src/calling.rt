// An audit of a volume of sixteen sectors with chunks of one sector, and calls of it.
ghost use Rattle.std.specs.Prelude.{◌≡◌, ◌<◌, ◌≤◌, []};

use audited_volume::{Audit, Receipt};
use device::{Block, MemDisk};
use layers::Layered;
use plain_machine::{Dev, Event, NotDue, Op, ReqId, Request, SnapId};
use sector::{Buf, Range, Refusal, SECTOR_BYTES};
use snapshot::StoreDev;
use std::alloc::Global;
use volume_lifetime::LivedVolume;

/// The sectors of the origin.
pub const SECTORS: u64 = 16;

/// An audit of a volume with no request in flight.
pub fn audit_over<B: Layered + Drop>(
    alloc: Global,
    volume: LivedVolume<B>,
) -> Result<Audit<B>, Refusal>
    requires { volume.flights ≡ [] }
{
    match Audit::new(alloc, volume) {
        Ok(audit) => Ok(audit),
        Err((refusal, _)) => Err(refusal),
    }
}

/// An audit of a volume whose origin is of zeros.
pub fn audit_of(alloc: Global) -> Result<Audit<MemDisk>, Refusal> {
    match LivedVolume::new(alloc, MemDisk::new(alloc, SECTORS)?) {
        Ok(volume) => audit_over(alloc, volume),
        Err((refusal, _)) => Err(refusal),
    }
}

/// Takes a snapshot over a store, which may overflow or not.
fn attach_store<B: Layered + Drop>(
    audit: &mut Audit<B>,
    device: B,
    overflow: bool,
) -> Result<SnapId, Refusal> {
    let stale = false;
    match audit.attach(StoreDev { device, stale }, 1, overflow) {
        Ok(number) => Ok(number),
        Err((refusal, _)) => Err(refusal),
    }
}

/// Takes a snapshot over a store of so many zero sectors, which may overflow or not. `OutOfRange` for a store of none.
pub fn attach(
    alloc: Global,
    audit: &mut Audit<MemDisk>,
    sectors: u8,
    overflow: bool,
) -> Result<SnapId, Refusal> {
    if sectors == 0 {
        return Err(Refusal::OutOfRange);
    }
    let device = MemDisk::new(alloc, u64::from(sectors))?;
    attach_store(audit, device, overflow)
}

/// Takes a snapshot away.
pub fn detach<B: Layered + Drop>(audit: &mut Audit<B>, number: SnapId) -> Result<(), Refusal> {
    match audit.detach(number) {
        Ok(_) => Ok(()),
        Err(refusal) => Err(refusal),
    }
}

/// Submits a read of one sector for a seat.
pub fn submit_read<B: Layered>(
    audit: &mut Audit<B>,
    seat: u8,
    dev: Dev,
    sector: u64,
) -> Result<ReqId, Refusal>
    requires { seat < 9 }
{
    let range = Range::new(sector, 1, SECTORS)?;
    let op = Op::Read;
    audit.submit(seat, Request { dev, op, range })
}

/// Submits a write of sectors for a seat, each of which is filled with a byte.
pub fn submit_write<B: Layered>(
    alloc: Global,
    audit: &mut Audit<B>,
    seat: u8,
    dev: Dev,
    sectors: (u8, u8),
    byte: u8,
) -> Result<ReqId, Refusal>
    requires { seat < 9 }
{
    let (first, count) = sectors;
    let range = Range::new(u64::from(first), u32::from(count), SECTORS)?;
    let Ok(bytes) = vec![in alloc; byte; SECTOR_BYTES * range.count as usize] else {
        return Err(Refusal::NoMemory);
    };
    let op = Op::Write(Buf::from_vec(bytes));
    audit.submit(seat, Request { dev, op, range })
}

/// Submits a flush for a seat, of which no sector is looked at.
pub fn submit_flush<B: Layered>(audit: &mut Audit<B>, seat: u8, dev: Dev) -> Result<ReqId, Refusal>
    requires { seat < 9 }
{
    let range = Range::new(3, 9, SECTORS)?;
    let op = Op::Flush;
    audit.submit(seat, Request { dev, op, range })
}

/// Does an event for a seat, where it is due, and gives the receipt if it is a reply.
fn apply<B: Layered>(audit: &mut Audit<B>, seat: u8, event: Event) -> Option<Receipt> {
    match audit.apply(seat, event) {
        Ok((_, receipt)) => receipt,
        Err(NotDue) => None,
    }
}

/// Does for a seat what is due, until a request of it is answered.
pub fn answer<B: Layered>(audit: &mut Audit<B>, seat: u8) -> Option<Receipt> {
    for _ in 0..1000 {
        let event = audit.volume().due()?;
        if let Some(receipt) = apply(audit, seat, event) {
            return Some(receipt);
        }
    }
    None
}
