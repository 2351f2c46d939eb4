// Disks in memory, what a flush keeps and a loss leaves, and a device that fails once.
ghost use Rattle.std.specs.Prelude.{◌≡◌};
ghost use Rattle.device.specs.Disk.{disk_size};

use crate::bytes::are_all;
use crate::device_calls::{fill, flush, read};
use device::{Block, FailAt, MemDisk};
use sector::{Range, Refusal};
use std::test::Fail;

#[test]
fn the_third_operation_fails_and_changes_nothing(rt: HostRuntime) -> Result<(), Fail> {
    let first = Range::new(0, 1, 2)?;
    let mut device = FailAt::new(MemDisk::new(rt.alloc(), 2)?, 2);
    let (written, flushed) = (fill(&mut device, first, 1), flush(&mut device));
    let third = fill(&mut device, first, 2);
    let read = read(&mut device, first, 1);
    let last = fill(&mut device, first, 3);
    assert!(rt; (written, flushed, third, last) == (true, true, false, true));
    assert!(rt; read == (true, true));
    assert!(rt; (device.sectors(), device.faults(), device.done()) == (2, 1, 5));
    assert!(rt;
        device.inner.done() == 4,
        "the third did not reach the disk"
    );
    Ok(())
}

#[test]
fn a_failed_read_leaves_the_buffer(rt: HostRuntime) -> Result<(), Fail> {
    let first = Range::new(0, 1, 2)?;
    let mut device = FailAt::new(MemDisk::new(rt.alloc(), 2)?, 0);
    assert!(rt; read(&mut device, first, 9) == (false, true));
    assert!(rt; read(&mut device, first, 0) == (true, true));
    Ok(())
}

// Whether four sectors are each of one byte.
fn are_sectors_of(bytes: &[u8; 2048], first: u8, second: u8, third: u8, fourth: u8) -> bool {
    are_all(&bytes[..512], first)
        && are_all(&bytes[512..1024], second)
        && are_all(&bytes[1024..1536], third)
        && are_all(&bytes[1536..], fourth)
}

// Whether a disk of four sectors shows these bytes, by `raw`, which does not count.
fn shows(disk: &MemDisk, first: u8, second: u8, third: u8, fourth: u8) -> Result<bool, Refusal>
    requires { disk_size disk.now ≡ 4 }
{
    let mut out = [9; 2048];
    disk.raw(Range::new(0, 4, 4)?, &mut out);
    Ok(are_sectors_of(&out, first, second, third, fourth))
}

#[test]
fn a_new_disk_is_zero_and_keeps_what_is_written(rt: HostRuntime) -> Result<(), Fail> {
    let (middle, third) = (Range::new(1, 2, 4)?, Range::new(2, 1, 4)?);
    let last = Range::new(3, 1, 4)?;
    let mut disk = MemDisk::new(rt.alloc(), 4)?;
    assert!(rt; shows(&disk, 0, 0, 0, 0)?);
    assert!(rt; fill(&mut disk, middle, 7));
    assert!(rt; read(&mut disk, third, 7) == (true, true));
    assert!(rt; read(&mut disk, last, 0) == (true, true));
    assert!(rt; (disk.sectors(), disk.faults(), disk.done()) == (4, 0, 3));
    Ok(())
}

#[test]
fn a_flush_keeps_each_write_since_the_last(rt: HostRuntime) -> Result<(), Fail> {
    let (first, third) = (Range::new(0, 1, 4)?, Range::new(2, 1, 4)?);
    let (last, all) = (Range::new(3, 1, 4)?, Range::new(0, 4, 4)?);
    let mut disk = MemDisk::new(rt.alloc(), 4)?;
    let (one, flushed) = (fill(&mut disk, last, 1), flush(&mut disk));
    let (two, three) = (fill(&mut disk, third, 2), fill(&mut disk, first, 3));
    let (again, lost) = (flush(&mut disk), fill(&mut disk, all, 9));
    disk.lose();
    assert!(rt; one && two && three && lost && flushed && again);
    assert!(rt; shows(&disk, 3, 0, 2, 1)?);
    Ok(())
}

// `load` and `lose` do not count.
#[test]
fn a_loss_leaves_what_was_flushed_or_loaded(rt: HostRuntime) -> Result<(), Fail> {
    let (first, two) = (Range::new(0, 1, 4)?, Range::new(0, 2, 4)?);
    let last = Range::new(3, 1, 4)?;
    let mut disk = MemDisk::new(rt.alloc(), 4)?;
    let (written, flushed) = (fill(&mut disk, first, 1), flush(&mut disk));
    let lost = fill(&mut disk, two, 2);
    disk.load(last, &[3; 512]);
    disk.lose();
    assert!(rt; written && flushed && lost);
    assert!(rt; shows(&disk, 1, 0, 0, 3)? && disk.done() == 3);
    Ok(())
}
