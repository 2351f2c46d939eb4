// The disks that a run begins with.
use crate::arrays::SECTORS;
use crate::scenario::Scenario;
use device::{Block, MemDisk};
use layers::Layered;
use sector::{Range, SECTOR_BYTES};
use std::alloc::Global;
use std::test::Fail;

/// A disk of so many zero sectors.
fn zeros(alloc: Global, sectors: u64) -> Result<MemDisk, Fail> {
    if sectors < 1 || 1000 < sectors {
        return Err(Fail::from("no size"));
    }
    Ok(MemDisk::new(alloc, sectors)?)
}

/// Loads bytes from the beginning of a sector on, and leaves the rest of the sector zero.
fn load(disk: &mut MemDisk, sector: u64, bytes: &[u8]) -> Result<(), Fail> {
    let mut whole = [0; SECTOR_BYTES];
    let len = bytes.len().min(SECTOR_BYTES);
    whole[..len].copy_from_slice(&bytes[..len]);
    disk.load(Range::new(sector, 1, disk.sectors())?, &whole);
    Ok(())
}

/// The origin: all sectors of ones.
fn origin(alloc: Global) -> Result<MemDisk, Fail> {
    let mut disk = MemDisk::new(alloc, SECTORS)?;
    let range = Range::new(0, SECTORS as u32, SECTORS)?;
    disk.load(range, &[0x11; SECTORS as usize * SECTOR_BYTES]);
    Ok(disk)
}

/// A store with chunks of one sector that has chunk 5, as sevens, and behind an empty slot one that was left for chunk 9.
fn written(alloc: Global, sectors: u64) -> Result<MemDisk, Fail> {
    let mut disk = zeros(alloc, sectors)?;
    load(&mut disk, 0, b"SnAp\x01\0\0\0\x01\0\0\0\x01\0\0\0")?;
    let mut area = [0; 48];
    for (place, byte) in [(0, 5), (8, 2), (32, 9), (40, 3)] {
        area[place] = byte;
    }
    load(&mut disk, 1, &area)?;
    load(&mut disk, 2, &[0x77; SECTOR_BYTES])?;
    Ok(disk)
}

/// The disks of a scenario, the last store first, and the origin last.
pub fn disks_of(alloc: Global, scenario: &Scenario) -> Result<Vec<MemDisk>, Fail> {
    let mut disks = Vec::new(alloc);
    for chunks in scenario.stores.iter().rev() {
        let sectors = chunks.saturating_mul(u64::from(scenario.chunk));
        let store = if scenario.written {
            written(alloc, sectors)?
        } else {
            zeros(alloc, sectors)?
        };
        disks.push(store)?;
    }
    disks.push(origin(alloc)?)?;
    Ok(disks)
}

/// The bytes that a disk shows.
pub fn bytes_of(alloc: Global, disk: &MemDisk) -> Result<Vec<u8>, Fail> {
    let mut bytes = Vec::new(alloc);
    let mut sector_bytes = [0; SECTOR_BYTES];
    for sector in 0..disk.sectors() {
        disk.raw(Range::new(sector, 1, disk.sectors())?, &mut sector_bytes);
        bytes.extend_from_slice(&sector_bytes)?;
    }
    Ok(bytes)
}

/// A disk of these bytes, of which there are whole sectors.
pub fn disk_of_bytes(alloc: Global, bytes: &[u8]) -> Result<MemDisk, Fail> {
    let mut disk = zeros(alloc, (bytes.len() / SECTOR_BYTES) as u64)?;
    for (sector, sector_bytes) in bytes.chunks(SECTOR_BYTES).enumerate() {
        load(&mut disk, sector as u64, sector_bytes)?;
    }
    Ok(disk)
}

/// A disk with the bytes that a device shows.
pub fn copy_of<B: Layered>(alloc: Global, device: &B) -> Result<MemDisk, Fail> {
    let sectors = device.sectors();
    let mut disk = zeros(alloc, sectors)?;
    let mut bytes = [0; SECTOR_BYTES];
    for sector in 0..sectors {
        device.peek(Range::new(sector, 1, sectors)?, &mut bytes);
        load(&mut disk, sector, &bytes)?;
    }
    Ok(disk)
}
