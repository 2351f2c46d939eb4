// What is asked of a rig, and in the same words of a volume beside it.
ghost use Rattle.std.specs.Prelude.{◌≡◌, ◌*◌, ◌<◌, ℕ, length, true, IfOk};

use device::Block;
use layers::Layered;
use plain_machine::{Dev, Op, Overflowing, Request, SnapId};
use sector::{Buf, Range, Refusal, SECTOR_BYTES};
use std::alloc::Global;
use std::sync::Wait;
use thread_channels::{Gate, PlaceState, PlaceUsage};
use volume::Volume;
use volume_threads::{Rig, Room, Seat};

/// The sectors of an origin.
pub const SECTORS: u64 = 64;

/// A call of a seat: a read or a write of some sectors from one on, or a merge.
#[derive(Clone, Copy, PartialEq, Eq)]
pub enum Asked {
    Read(Dev, u8, u8),
    Write(Dev, u8, u8),
    Merge(SnapId),
}

/// Sectors of one byte.
fn filled(alloc: Global, sectors: u32) -> Result<Buf, Refusal>
    ensures { IfOk result (λ bytes. length bytes ≡ 512 * sectors) }
{
    let Ok(bytes) = vec![in alloc; 0x41u8; sectors as usize * SECTOR_BYTES] else {
        return Err(Refusal::NoMemory);
    };
    Ok(Buf::from_vec(bytes))
}

/// Asks a seat.
pub fn ask_seat<B: Layered, G: Gate + Drop, J: Room, R: Wait>(
    rt: &R,
    alloc: Global,
    rig: &Rig<B, G, J>,
    seat: &mut Seat<J>,
    asked: Asked,
) -> Result<(), Refusal>
    requires some { 0 < J.volumes }
    requires merges { (snap : ℕ) → J.merges 0 snap ≡ true }
{
    match asked {
        Asked::Read(dev, first, count) => {
            let range = Range::new(u64::from(first), u32::from(count), SECTORS)?;
            let _ = seat.read(rt, rig, 0, dev, range)?;
            Ok(())
        }
        Asked::Write(dev, first, count) => {
            let range = Range::new(u64::from(first), u32::from(count), SECTORS)?;
            let bytes = filled(alloc, range.count)?;
            seat.write(rt, rig, 0, dev, range, bytes)
        }
        Asked::Merge(snap) => seat.merge(rt, rig, 0, snap),
    }
}

/// Does the events that are due, up to the last.
fn settle<B: Block>(volume: &mut Volume<B>) {
    for _ in 0..10_000 {
        let Some(event) = volume.due() else {
            return;
        };
        let _ = volume.step(event);
    }
}

/// Asks a volume for a sector, and settles it.
fn ask_sector<B: Block>(
    alloc: Global,
    volume: &mut Volume<B>,
    dev: Dev,
    writes: bool,
    range: Range,
) -> Result<(), Refusal> {
    let op = if writes {
        Op::Write(filled(alloc, range.count)?)
    } else {
        Op::Read
    };
    let _ = volume.submit(alloc, Request { dev, op, range })?;
    settle(volume);
    Ok(())
}

/// Asks a volume for sectors, one after the other.
fn ask_sectors<B: Block>(
    alloc: Global,
    volume: &mut Volume<B>,
    dev: Dev,
    writes: bool,
    first: u8,
    count: u8,
) -> Result<(), Refusal> {
    for k in 0..count {
        let range = Range::new(u64::from(first) + u64::from(k), 1, SECTORS)?;
        ask_sector(alloc, volume, dev, writes, range)?;
    }
    Ok(())
}

/// Asks a volume, as a seat is asked.
pub fn ask_volume<B: Block>(
    alloc: Global,
    volume: &mut Volume<B>,
    asked: Asked,
) -> Result<(), Refusal> {
    match asked {
        Asked::Read(dev, first, count) => ask_sectors(alloc, volume, dev, false, first, count),
        Asked::Write(dev, first, count) => ask_sectors(alloc, volume, dev, true, first, count),
        Asked::Merge(snap) => {
            volume.begin_merge(alloc, snap)?;
            settle(volume);
            Ok(())
        }
    }
}

/// Whether the store of a snapshot overflowed. One that is being merged has no mark.
fn has_overflowed<B: Block>(volume: &Volume<B>, number: SnapId) -> bool {
    for k in 0..volume.len() {
        let snap = volume.snap(k);
        if snap.number() == number {
            return snap.overflow() == Overflowing::Did;
        }
    }
    false
}

/// What the status of a snapshot says.
pub fn status_of<B: Block>(volume: &Volume<B>, snap: SnapId) -> PlaceUsage {
    if volume.merging() == Some(snap) && volume.is_merge_failed() {
        return PlaceUsage {
            state: PlaceState::MergeFailed,
            allocated: 0,
            metadata: 0,
        };
    }
    match volume.usage(snap) {
        Ok(Some(_)) if has_overflowed(volume, snap) => PlaceUsage {
            state: PlaceState::Overflow,
            allocated: 0,
            metadata: 0,
        },
        Ok(Some(sectors)) => PlaceUsage {
            state: PlaceState::Good,
            allocated: sectors.allocated,
            metadata: sectors.metadata,
        },
        Ok(None) => PlaceUsage {
            state: PlaceState::Invalid,
            allocated: 0,
            metadata: 0,
        },
        Err(_) => PlaceUsage::empty(),
    }
}
