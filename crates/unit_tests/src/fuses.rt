// A disk that goes down within a write, or before a flush.
ghost use Rattle.std.specs.Prelude.{◌≡◌, IfOk};
ghost use Rattle.torn_disk.specs.TornDisk.{torn_disk_size};

use crate::bytes::are_all;
use crate::device_calls::{fill, flush, read};
use device::{Block, MemDisk};
use layers::Layered;
use sector::Range;
use std::alloc::Global;
use std::test::Fail;
use torn_disk::TornDisk;

// A disk of four sectors of ones, that passes so many writes and flushes.
fn torn_disk_of(alloc: Global, changes: u64, new: &[bool]) -> Result<TornDisk, Fail>
    ensures { IfOk result (λ f. torn_disk_size f ≡ 4) }
{
    let mut disk = MemDisk::new(alloc, 4)?;
    if !fill(&mut disk, Range::new(0, 4, 4)?, 1) {
        return Err(Fail::from("a write"));
    }
    match TornDisk::new(alloc, disk, changes, Vec::from_slice(alloc, new)?) {
        Ok(fuse) => Ok(fuse),
        Err((refusal, _)) => Err(Fail::from(refusal)),
    }
}

// Whether the disk that a fuse keeps aside has one byte in a sector.
fn keeps(fuse: &TornDisk, sector: Range, byte: u8) -> bool {
    match fuse.left() {
        Some(left) if left.sectors() == 4 && sector.count == 1 && sector.first < 4 => {
            let mut out = [9; 512];
            left.raw(sector, &mut out);
            are_all(&out, byte)
        }
        _ => false,
    }
}

#[test]
fn the_disk_kept_aside_has_the_new_sectors_alone(rt: HostRuntime) -> Result<(), Fail> {
    let (first, second) = (Range::new(0, 1, 4)?, Range::new(1, 1, 4)?);
    let (third, three) = (Range::new(2, 1, 4)?, Range::new(0, 3, 4)?);
    let mut fuse = torn_disk_of(rt.alloc(), 2, &[false, true])?;
    assert!(rt; fill(&mut fuse, first, 2) && flush(&mut fuse));
    assert!(rt; read(&mut fuse, first, 2) == (true, true));
    assert!(rt; fuse.left().is_none());
    assert!(rt; !fill(&mut fuse, three, 3));
    assert!(rt; keeps(&fuse, first, 2) && keeps(&fuse, second, 3) && keeps(&fuse, third, 1));
    Ok(())
}

// It shows what was there before.
#[test]
fn a_blown_fuse_fails_and_changes_nothing(rt: HostRuntime) -> Result<(), Fail> {
    let one = Range::new(1, 1, 4)?;
    let mut fuse = torn_disk_of(rt.alloc(), 1, &[true])?;
    assert!(rt; fill(&mut fuse, one, 2) && !fill(&mut fuse, one, 3));
    assert!(rt; read(&mut fuse, one, 9) == (false, true));
    assert!(rt; !flush(&mut fuse) && !fill(&mut fuse, one, 4));
    assert!(rt; (fuse.sectors(), fuse.faults(), fuse.done()) == (4, 4, 5));
    let mut out = [9; 512];
    fuse.peek(one, &mut out);
    assert!(rt; are_all(&out, 2));
    Ok(())
}

#[test]
fn a_fuse_blown_before_a_flush_keeps_the_disk_as_it_was(rt: HostRuntime) -> Result<(), Fail> {
    let one = Range::new(1, 1, 4)?;
    let mut fuse = torn_disk_of(rt.alloc(), 2, &[true])?;
    assert!(rt; flush(&mut fuse) && fill(&mut fuse, one, 2) && !flush(&mut fuse));
    assert!(rt; (fuse.faults(), fuse.done()) == (1, 3));
    let Some(mut left) = fuse.into_left() else {
        return Err(Fail::from("it is blown"));
    };
    let mut out = [9; 512];
    left.raw(one, &mut out);
    assert!(rt; are_all(&out, 2));
    left.lose();
    left.raw(one, &mut out);
    assert!(rt; are_all(&out, 1));
    Ok(())
}
