// A stop within each write and before each flush of each device in turn.
use device::MemDisk;
use plain_machine::Dev;
use std::alloc::Global;
use std::test::Fail;
use torn_disk::TornDisk;
use volume_test_driver::again::load_again;
use volume_test_driver::disks::disks_of;
use volume_test_driver::machine::Machine;
use volume_test_driver::scenario::{
    ATTACH, ATTACH_WRITTEN, FILLS_UP, FULL_STORE, LONG_MERGE, MERGE_BESIDE, ONE_COPY, OVERFLOWED,
    Scenario, Step, WHOLE_AREA, WIDE_MERGE, WRITTEN_MERGE,
};

/// More writes and flushes than a run has.
const MOST: u64 = 10_000;

/// Which sectors of a write are new: none, all, the first alone, the last alone, in chunks of one sector, of two and of four.
static ONE_SECTOR: [&[bool]; 2] = [&[], &[true]];

static TWO_SECTORS: [&[bool]; 4] = [&[], &[true, true], &[true], &[false, true]];

static FOUR_SECTORS: [&[bool]; 4] = [
    &[],
    &[true, true, true, true],
    &[true],
    &[false, false, false, true],
];

/// A fuse over a disk.
fn torn_disk_over(
    alloc: Global,
    disk: MemDisk,
    changes: u64,
    new: &[bool],
) -> Result<TornDisk, Fail> {
    match TornDisk::new(alloc, disk, changes, Vec::from_slice(alloc, new)?) {
        Ok(fuse) => Ok(fuse),
        Err((refusal, _)) => Err(Fail::from(refusal)),
    }
}

/// A machine, the device at a place of which (the origin's is 0) stops at its write or flush `k`.
pub fn fused(
    alloc: Global,
    scenario: &Scenario,
    place: usize,
    k: u64,
    new: &[bool],
) -> Result<Machine<TornDisk>, Fail> {
    let mut fuses = Vec::new(alloc);
    let mut at = scenario.stores.len();
    for disk in disks_of(alloc, scenario)? {
        let changes = if at == place { k } else { u64::MAX };
        fuses.push(torn_disk_over(alloc, disk, changes, new)?)?;
        at = at.saturating_sub(1);
    }
    Machine::new(alloc, fuses, scenario.chunk, true)
}

/// Stops a run at the write or flush `k` of a device, and tells whether it had so many.
fn stop_at(
    alloc: Global,
    scenario: &Scenario,
    place: usize,
    k: u64,
    new: &[bool],
) -> Result<bool, Fail> {
    let mut machine = fused(alloc, scenario, place, k, new)?;
    if machine.run(alloc, scenario.steps)? {
        load_again(alloc, machine)?;
        return Ok(true);
    }
    machine.hold_snaps()?;
    machine.hold(Dev::Origin)?;
    Ok(false)
}

/// Stops runs at each write and flush of a device, and tells how many there were.
pub fn stop_at_each(
    alloc: Global,
    scenario: &Scenario,
    place: usize,
    new: &[bool],
) -> Result<u64, Fail> {
    for k in 0..MOST {
        if !stop_at(alloc, scenario, place, k, new)? {
            return Ok(k);
        }
    }
    Err(Fail::from("operations without an end"))
}

/// Stops runs at each write and flush of each device, in each way that its chunks have, and tells how many there were.
fn stop_everywhere(alloc: Global, scenario: &Scenario) -> Result<u64, Fail> {
    let ways = if scenario.chunk == 1 {
        ONE_SECTOR.as_slice()
    } else {
        TWO_SECTORS.as_slice()
    };
    stop_in_ways(alloc, scenario, ways)
}

/// Stops runs at each write and flush of each device, in each of some ways, and tells how many there were.
fn stop_in_ways(
    alloc: Global,
    scenario: &Scenario,
    ways: &'static [&'static [bool]],
) -> Result<u64, Fail> {
    let mut count = 0u64;
    for place in 0..=scenario.stores.len() {
        for new in ways {
            count = count.saturating_add(stop_at_each(alloc, scenario, place, new)?);
        }
    }
    Ok(count)
}

/// Stops runs everywhere, in chunks of one sector and of two.
fn stop_in_both(
    alloc: Global,
    stores: &'static [u64],
    steps: &'static [Step],
) -> Result<u64, Fail> {
    let mut count = 0u64;
    for chunk in [1, 2] {
        let scenario = Scenario {
            chunk,
            stores,
            written: false,
            steps,
        };
        count = count.saturating_add(stop_everywhere(alloc, &scenario)?);
    }
    Ok(count)
}

#[test]
fn a_stop_within_a_first_attach(rt: HostRuntime) -> Result<(), Fail> {
    let count = stop_in_both(rt.alloc(), &[64], &ATTACH)?;
    // The origin is flushed, and then the store before and after its first area, and after its header.
    assert!(rt; count == 6 * 2 + 6 * 4);
    Ok(())
}

#[test]
fn a_stop_within_the_attach_of_a_written_store(rt: HostRuntime) -> Result<(), Fail> {
    let scenario = Scenario {
        chunk: 1,
        stores: &[64],
        written: true,
        steps: &ATTACH_WRITTEN,
    };
    let count = stop_everywhere(rt.alloc(), &scenario)?;
    // The area is written without what stood behind its last pair; the store is flushed before and after, and the origin first.
    assert!(rt; count == 4 * 2);
    Ok(())
}

#[test]
fn a_stop_within_one_copy(rt: HostRuntime) -> Result<(), Fail> {
    let count = stop_in_both(rt.alloc(), &[64], &ONE_COPY)?;
    // The attach takes six; the copy and its pair are written and flushed each, and one write reaches the origin.
    assert!(rt; count == 11 * 2 + 11 * 4);
    Ok(())
}

#[test]
fn a_stop_within_a_whole_area(rt: HostRuntime) -> Result<(), Fail> {
    let count = stop_in_both(rt.alloc(), &[64], &WHOLE_AREA)?;
    // At least each chunk is copied and written.
    assert!(rt; count > 33 * 2 * 6, "{count}");
    Ok(())
}

#[test]
fn a_stop_within_a_long_merge(rt: HostRuntime) -> Result<(), Fail> {
    let count = stop_in_both(rt.alloc(), &[64], &LONG_MERGE)?;
    // At least each chunk is copied, written and merged.
    assert!(rt; count > 40 * 3 * 6, "{count}");
    Ok(())
}

#[test]
fn a_stop_within_a_merge_beside_a_snapshot(rt: HostRuntime) -> Result<(), Fail> {
    let count = stop_in_both(rt.alloc(), &[64, 64], &MERGE_BESIDE)?;
    assert!(rt; count > 60, "{count}");
    Ok(())
}

#[test]
fn a_stop_within_a_merge_that_is_written(rt: HostRuntime) -> Result<(), Fail> {
    let count = stop_in_both(rt.alloc(), &[64], &WRITTEN_MERGE)?;
    assert!(rt; count > 60, "{count}");
    Ok(())
}

#[test]
fn a_stop_behind_an_overflow(rt: HostRuntime) -> Result<(), Fail> {
    let count = stop_in_both(rt.alloc(), &[4], &OVERFLOWED)?;
    // The attach takes six; each copy and its pair are written and flushed, each write of the snapshot reaches its store, and two
    // writes reach the origin.
    assert!(rt; count == 18 * 2 + 18 * 4);
    Ok(())
}

#[test]
fn a_stop_beside_a_spoil(rt: HostRuntime) -> Result<(), Fail> {
    let scenario = Scenario {
        chunk: 1,
        stores: &[35],
        written: false,
        steps: &FULL_STORE,
    };
    let count = stop_everywhere(rt.alloc(), &scenario)?;
    assert!(rt; count > 33 * 2 * 2, "{count}");
    Ok(())
}

#[test]
fn a_stop_within_a_merge_over_smaller_chunks(rt: HostRuntime) -> Result<(), Fail> {
    let mut count = 0u64;
    for chunk in [1, 2] {
        let scenario = Scenario {
            chunk,
            stores: &[64, 64],
            written: false,
            steps: &WIDE_MERGE,
        };
        let stops = stop_in_ways(rt.alloc(), &scenario, FOUR_SECTORS.as_slice())?;
        count = count.saturating_add(stops);
    }
    assert!(rt; count > 200, "{count}");
    Ok(())
}

#[test]
fn a_stop_beside_a_store_that_fills_up_within_a_merged_chunk(rt: HostRuntime) -> Result<(), Fail> {
    let scenario = Scenario {
        chunk: 1,
        stores: &[64, 4],
        written: false,
        steps: &FILLS_UP,
    };
    let count = stop_in_ways(rt.alloc(), &scenario, FOUR_SECTORS.as_slice())?;
    // Of 22 writes and flushes of stores before the mark, its two, and six of the origin each stops in four ways.
    assert!(rt; count == 30 * 4);
    Ok(())
}
