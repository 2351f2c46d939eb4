// Volumes over files in memory, a call of one of which lies, or with the wrong thing done ahead.
use crate::doubted::{Before, Doubted};
use crate::files::{filed, in_chunks, over_written};
use device::MemDisk;
use file_calls::Fault;
use std::alloc::Global;
use std::test::Fail;
use volume_test_driver::again::loads_again_met;
use volume_test_driver::arrays::{PlainSnapshot, State};
use volume_test_driver::calls;
use volume_test_driver::driven::{Cut, Stops};
use volume_test_driver::filed::Filed;
use volume_test_driver::machine::Machine;
use volume_test_driver::scenario::{
    COPIED_BESIDE, MERGE_BESIDE, ONE_COPY, Scenario, WIDE_MERGE, WRITTEN_COPY, WRITTEN_MERGE,
};

/// More calls than a run has.
const MOST: u64 = 1_000_000;

/// Loads a snapshot again from what its store's file holds.
fn load_snap(
    alloc: Global,
    again: &mut Machine<MemDisk>,
    store: &Filed,
    array: Vec<u8>,
) -> Result<(), Fail> {
    let disk = store.left(alloc, Cut::Killed)?;
    match calls::attach(alloc, &mut again.volume, disk, again.chunk) {
        Ok(number) => Ok(again.arrays.enter(number, array)?),
        Err((refusal, _)) => Err(Fail::from(refusal)),
    }
}

/// The array that a snapshot's store is to show, unless it is that of a merge.
fn array_of(snap: &PlainSnapshot) -> Result<Option<Vec<u8>>, Fail> {
    if snap.state == State::Merging {
        Ok(None)
    } else {
        Ok(Some(snap.array.clone()?))
    }
}

/// Loads again the snapshots whose files kept what they answered, and holds them against their arrays; and tells whether a file lied. Where
/// the origin's did, nothing is held.
fn kept_again(alloc: Global, machine: Machine<Filed>) -> Result<bool, Fail> {
    let Machine {
        volume,
        arrays,
        chunk,
        ..
    } = machine;
    let mut stopped = volume.stop();
    let Some(origin) = stopped.take() else {
        return Err(Fail::from("no origin"));
    };
    let mut met = origin.has_met();
    let mut disks = Vec::new(alloc);
    disks.push(origin.left(alloc, Cut::Killed)?)?;
    let mut again = Machine::new(alloc, disks, chunk, false)?;
    for snap in &arrays.snaps {
        let Some(store) = stopped.take() else {
            return Err(Fail::from("a store is lost"));
        };
        met = met || store.has_met();
        if let Some(array) = array_of(snap)?
            && !origin.has_met()
            && !store.has_met()
        {
            load_snap(alloc, &mut again, &store, array)?;
        }
    }
    again.hold_snaps()?;
    Ok(met)
}

/// Runs with a lie at each call of a file in turn, and tells how many there were. A store that was merged, or refused, is not there at the end: so
/// the count is given.
fn lie_at_each(alloc: Global, scenario: &Scenario, place: usize, count: u64) -> Result<u64, Fail> {
    let mut met = 0u64;
    for k in 0..count {
        let machine = filed(alloc, scenario, place, k, Fault::Lies)?;
        let mut doubted = Doubted::new(machine, Before::Itself);
        doubted.run(alloc, scenario.steps)?;
        met = met.saturating_add(u64::from(kept_again(alloc, doubted.machine)?));
    }
    Ok(met)
}

/// Runs with a lie at each of so many calls of each file.
fn lie_everywhere(alloc: Global, scenario: &Scenario, count: u64) -> Result<u64, Fail> {
    let mut met = 0u64;
    for place in 0..=scenario.stores.len() {
        met = met.saturating_add(lie_at_each(alloc, scenario, place, count)?);
    }
    Ok(met)
}

#[test]
fn a_file_lies(rt: HostRuntime) -> Result<(), Fail> {
    let one = lie_everywhere(rt.alloc(), &in_chunks(2, &[64], &ONE_COPY), 16)?;
    let written = lie_everywhere(rt.alloc(), &over_written(&WRITTEN_COPY), 24)?;
    let beside = lie_everywhere(rt.alloc(), &in_chunks(2, &[64, 64], &MERGE_BESIDE), 48)?;
    let copied = lie_everywhere(rt.alloc(), &in_chunks(2, &[64, 64], &COPIED_BESIDE), 48)?;
    let origin = lie_everywhere(rt.alloc(), &in_chunks(2, &[64], &WRITTEN_MERGE), 32)?;
    let wide = lie_everywhere(rt.alloc(), &in_chunks(2, &[64, 64], &WIDE_MERGE), 48)?;
    assert!(rt;
        one > 8 && written > 8 && beside > 20 && copied > 20 && origin > 8 && wide > 20,
        "{one} {written} {beside} {copied} {origin} {wide}"
    );
    Ok(())
}

/// Runs with something done ahead, and tells how many reads were answered. What is left is loaded again and shows its arrays.
fn run_before(alloc: Global, scenario: &Scenario, before: Before) -> Result<u64, Fail> {
    let machine = filed(alloc, scenario, 0, MOST, Fault::Fails)?;
    let mut doubted = Doubted::new(machine, before);
    doubted.run(alloc, scenario.steps)?;
    let reads = doubted.reads;
    loads_again_met(alloc, doubted.machine)?;
    Ok(reads)
}

#[test]
fn nothing_is_done_ahead_or_something_else(rt: HostRuntime) -> Result<(), Fail> {
    let scenarios = [
        in_chunks(2, &[64], &ONE_COPY),
        over_written(&WRITTEN_COPY),
        in_chunks(2, &[64, 64], &MERGE_BESIDE),
        in_chunks(2, &[64, 64], &COPIED_BESIDE),
        in_chunks(2, &[64], &WRITTEN_MERGE),
        in_chunks(2, &[64, 64], &WIDE_MERGE),
    ];
    let mut all = 0u64;
    for scenario in &scenarios {
        let none = run_before(rt.alloc(), scenario, Before::Nothing)?;
        assert!(rt; none == 0, "{none}");
        run_before(rt.alloc(), scenario, Before::Another)?;
        run_before(rt.alloc(), scenario, Before::Both)?;
        let right = run_before(rt.alloc(), scenario, Before::Itself)?;
        all = all.saturating_add(right);
    }
    assert!(rt; all > 12, "{all}");
    Ok(())
}
