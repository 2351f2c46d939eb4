// Volumes over files in memory: each call of each file fails, is done by half, or is the last, in turn.
use device::{Block, MemDisk};
use file_calls::{Fault, MemFile};
use file_device::FileDevice;
use std::alloc::Global;
use std::test::Fail;
use volume_test_driver::again::{loads_again_met, snaps_again_met};
use volume_test_driver::disks::{bytes_of, disks_of};
use volume_test_driver::driven::Cut;
use volume_test_driver::filed::{Filed, MOST_SECTORS};
use volume_test_driver::machine::Machine;
use volume_test_driver::scenario::{
    ATTACH_WRITTEN, COPIED_BESIDE, FULL_STORE, LONG_MERGE, MERGE_BESIDE, ONE_COPY, OVERFLOWED,
    Scenario, Step, WHOLE_AREA, WIDE_MERGE, WRITTEN_COPY, WRITTEN_MERGE,
};

/// More calls than a run has.
const MOST: u64 = 1_000_000;

/// What a loss of power leaves: nothing that was not synced, all of it, or some sectors of it.
static CUTS: [Cut; 7] = [
    Cut::Unpowered,
    Cut::Killed,
    Cut::First,
    Cut::Last,
    Cut::Mixed(1),
    Cut::Mixed(2),
    Cut::Mixed(3),
];

/// A disk's bytes as the file of this number, a call of which has a fault.
fn file_of(alloc: Global, disk: &MemDisk, number: u64, fault: (u64, Fault)) -> Result<Filed, Fail> {
    let sectors = disk.sectors();
    if MOST_SECTORS < sectors {
        return Err(Fail::from("no size"));
    }
    let mut file = MemFile::new(alloc, bytes_of(alloc, disk)?)?;
    file.fault = Some(fault);
    Ok(FileDevice::new(alloc, file, number, sectors)?)
}

/// A machine over files. The call `k` of the file at a place (the origin's is 0) has a fault, and no other.
pub(crate) fn filed(
    alloc: Global,
    scenario: &Scenario,
    place: usize,
    k: u64,
    fault: Fault,
) -> Result<Machine<Filed>, Fail> {
    let mut files = Vec::new(alloc);
    let mut at = scenario.stores.len();
    for disk in disks_of(alloc, scenario)? {
        let calls = if at == place { k } else { MOST };
        files.push(file_of(alloc, &disk, at as u64, (calls, fault))?)?;
        at = at.saturating_sub(1);
    }
    Machine::new(alloc, files, scenario.chunk, true)
}

/// Runs with a fault at a call, and tells whether it was met and is over. What is left of the files is loaded again, whether the run
/// ended at the fault or behind its last step.
fn fault_at(
    alloc: Global,
    scenario: &Scenario,
    place: usize,
    k: u64,
    fault: Fault,
) -> Result<bool, Fail> {
    let mut machine = filed(alloc, scenario, place, k, fault)?;
    machine.run(alloc, scenario.steps)?;
    loads_again_met(alloc, machine)
}

/// Runs with each call of a file in turn one that fails, that is the last, and, where a chunk has two sectors, that is done by half
/// and fails. Tells how many calls there were.
fn fault_at_each(alloc: Global, scenario: &Scenario, place: usize) -> Result<u64, Fail> {
    for k in 0..MOST {
        if !fault_at(alloc, scenario, place, k, Fault::Fails)? {
            return Ok(k);
        }
        fault_at(alloc, scenario, place, k, Fault::Stops)?;
        if scenario.chunk == 2 {
            fault_at(alloc, scenario, place, k, Fault::Tears)?;
        }
    }
    Err(Fail::from("calls without an end"))
}

/// Runs with a fault at each call of each file, and tells how many there were.
fn fault_everywhere(alloc: Global, scenario: &Scenario) -> Result<u64, Fail> {
    let mut count = 0u64;
    for place in 0..=scenario.stores.len() {
        count = count.saturating_add(fault_at_each(alloc, scenario, place)?);
    }
    Ok(count)
}

/// Cuts the power at each call of a file in turn, in each way, and tells how many there were. The snapshots, which nobody writes, show
/// what they did.
fn cut_at_each(alloc: Global, scenario: &Scenario, place: usize) -> Result<u64, Fail> {
    for k in 0..MOST {
        let mut machine = filed(alloc, scenario, place, k, Fault::Fails)?;
        machine.run(alloc, scenario.steps)?;
        if !snaps_again_met(alloc, machine, &CUTS)? {
            return Ok(k);
        }
    }
    Err(Fail::from("calls without an end"))
}

/// A scenario in chunks of so many sectors.
pub(crate) fn in_chunks(chunk: u32, stores: &'static [u64], steps: &'static [Step]) -> Scenario {
    Scenario {
        chunk,
        stores,
        written: false,
        steps,
    }
}

/// A scenario over a written store.
pub(crate) fn over_written(steps: &'static [Step]) -> Scenario {
    Scenario {
        chunk: 1,
        stores: &[64],
        written: true,
        steps,
    }
}

#[test]
fn a_fault_of_a_file_where_chunks_are_copied(rt: HostRuntime) -> Result<(), Fail> {
    let one = fault_everywhere(rt.alloc(), &in_chunks(2, &[64], &ONE_COPY))?;
    let whole = fault_everywhere(rt.alloc(), &in_chunks(2, &[64], &WHOLE_AREA))?;
    let full = fault_everywhere(rt.alloc(), &in_chunks(1, &[35], &FULL_STORE))?;
    let over = fault_everywhere(rt.alloc(), &in_chunks(2, &[4], &OVERFLOWED))?;
    // Each chunk is read, written to the store and written over.
    assert!(rt;
        one > 8 && whole > 33 * 3 && full > 32 * 3 && over > 8,
        "{one} {whole} {full} {over}"
    );
    Ok(())
}

#[test]
fn a_fault_of_a_file_in_a_merge(rt: HostRuntime) -> Result<(), Fail> {
    let long = fault_everywhere(rt.alloc(), &in_chunks(2, &[64], &LONG_MERGE))?;
    let beside = fault_everywhere(rt.alloc(), &in_chunks(2, &[64, 64], &MERGE_BESIDE))?;
    let written = fault_everywhere(rt.alloc(), &in_chunks(2, &[64], &WRITTEN_MERGE))?;
    let wide = fault_everywhere(rt.alloc(), &in_chunks(2, &[64, 64], &WIDE_MERGE))?;
    // Each chunk is read, written to the store and written over, and merged by a read and a write.
    assert!(rt;
        long > 40 * 5 && beside > 20 && written > 20 && wide > 20,
        "{long} {beside} {written} {wide}"
    );
    Ok(())
}

#[test]
fn a_fault_of_a_file_under_a_written_store(rt: HostRuntime) -> Result<(), Fail> {
    let count = fault_everywhere(rt.alloc(), &over_written(&ATTACH_WRITTEN))?;
    let copied = fault_everywhere(rt.alloc(), &over_written(&WRITTEN_COPY))?;
    assert!(rt; count > 4 && copied > 8, "{count} {copied}");
    Ok(())
}

/// Cuts the power at each call of each file, in each way.
fn cut_everywhere(alloc: Global, scenario: &Scenario) -> Result<u64, Fail> {
    let mut count = 0u64;
    for place in 0..=scenario.stores.len() {
        count = count.saturating_add(cut_at_each(alloc, scenario, place)?);
    }
    Ok(count)
}

#[test]
fn the_power_is_cut_where_chunks_are_copied(rt: HostRuntime) -> Result<(), Fail> {
    let one = cut_everywhere(rt.alloc(), &in_chunks(2, &[64], &ONE_COPY))?;
    let whole = cut_everywhere(rt.alloc(), &in_chunks(1, &[64], &WHOLE_AREA))?;
    let full = cut_everywhere(rt.alloc(), &in_chunks(1, &[35], &FULL_STORE))?;
    let written = cut_everywhere(rt.alloc(), &over_written(&WRITTEN_COPY))?;
    assert!(rt;
        one > 8 && whole > 33 * 3 && full > 32 * 3 && written > 8,
        "{one} {whole} {full} {written}"
    );
    Ok(())
}

#[test]
fn the_power_is_cut_in_a_merge(rt: HostRuntime) -> Result<(), Fail> {
    let long = cut_everywhere(rt.alloc(), &in_chunks(2, &[64], &LONG_MERGE))?;
    let beside = cut_everywhere(rt.alloc(), &in_chunks(2, &[64, 64], &COPIED_BESIDE))?;
    assert!(rt; long > 40 * 5 && beside > 20, "{long} {beside}");
    Ok(())
}
