// One fault at each operation of each device in turn.
use device::{FailAt, MemDisk};
use plain_machine::Dev;
use std::alloc::Global;
use std::test::Fail;
use volume_test_driver::disks::disks_of;
use volume_test_driver::machine::Machine;
use volume_test_driver::scenario::{
    FILLS_UP, FULL_STORE, LONG_MERGE, MERGE_BESIDE, ONE_COPY, Scenario, Step, WHOLE_AREA,
    WIDE_MERGE, WRITTEN_MERGE,
};

/// More operations than a run has.
const MOST: u64 = 10_000;

/// A machine, the device at a place of which (the origin's is 0) fails its operation `k`.
fn failing(
    alloc: Global,
    scenario: &Scenario,
    place: usize,
    k: u64,
) -> Result<Machine<FailAt<MemDisk>>, Fail> {
    let mut devices = Vec::new(alloc);
    let mut at = scenario.stores.len();
    for disk in disks_of(alloc, scenario)? {
        let left = if at == place { k } else { u64::MAX };
        devices.push(FailAt::new(disk, left))?;
        at = at.saturating_sub(1);
    }
    Machine::new(alloc, devices, scenario.chunk, false)
}

/// Runs to the end with the operation `k` of a device failing, and tells whether it had so many.
fn fail_at(alloc: Global, scenario: &Scenario, place: usize, k: u64) -> Result<bool, Fail> {
    let mut machine = failing(alloc, scenario, place, k)?;
    machine.run(alloc, scenario.steps)?;
    machine.hold_snaps()?;
    machine.hold(Dev::Origin)?;
    Ok(machine.failures != 0)
}

/// Fails each operation of a device, and tells how many there were.
fn fail_at_each(alloc: Global, scenario: &Scenario, place: usize) -> Result<u64, Fail> {
    for k in 0..MOST {
        if !fail_at(alloc, scenario, place, k)? {
            return Ok(k);
        }
    }
    Err(Fail::from("operations without an end"))
}

/// Fails each operation of each device, in chunks of one sector, and tells how many there were.
fn fail_everywhere(
    alloc: Global,
    stores: &'static [u64],
    steps: &'static [Step],
) -> Result<u64, Fail> {
    let scenario = Scenario {
        chunk: 1,
        stores,
        written: false,
        steps,
    };
    let mut count = 0u64;
    for place in 0..=stores.len() {
        count = count.saturating_add(fail_at_each(alloc, &scenario, place)?);
    }
    Ok(count)
}

#[test]
fn a_fault_is_told_where_chunks_are_copied(rt: HostRuntime) -> Result<(), Fail> {
    let one = fail_everywhere(rt.alloc(), &[64], &ONE_COPY)?;
    let whole = fail_everywhere(rt.alloc(), &[64], &WHOLE_AREA)?;
    let full = fail_everywhere(rt.alloc(), &[35], &FULL_STORE)?;
    // Each chunk is read, written to the store and written over.
    assert!(rt;
        one > 5 && whole > 33 * 3 && full > 32 * 3,
        "{one} {whole} {full}"
    );
    Ok(())
}

#[test]
fn a_merge_goes_on_after_a_fault(rt: HostRuntime) -> Result<(), Fail> {
    let long = fail_everywhere(rt.alloc(), &[64], &LONG_MERGE)?;
    let beside = fail_everywhere(rt.alloc(), &[64, 64], &MERGE_BESIDE)?;
    let written = fail_everywhere(rt.alloc(), &[64], &WRITTEN_MERGE)?;
    // Each chunk is read, written to the store and written over, and merged by a read and a write.
    assert!(rt;
        long > 40 * 5 && beside > 20 && written > 20,
        "{long} {beside} {written}"
    );
    Ok(())
}

#[test]
fn a_merge_over_smaller_chunks_goes_on_after_a_fault(rt: HostRuntime) -> Result<(), Fail> {
    let wide = fail_everywhere(rt.alloc(), &[64, 64], &WIDE_MERGE)?;
    let full = fail_everywhere(rt.alloc(), &[64, 4], &FILLS_UP)?;
    // Each of eight sectors is read, written to the store, and its pair is written; and of four two are.
    assert!(rt; wide > 8 * 3 && full > 2 * 3, "{wide} {full}");
    Ok(())
}
