// A write of an area that is torn: of the pairs that it adds the second alone reaches the store.
use crate::stops::{fused, stop_at_each};
use chunk_alloc::Usage;
use device::{Block, MemDisk};
use plain_machine::{Dev, Event};
use sector::{Range, SECTOR_BYTES};
use std::alloc::Global;
use std::test::Fail;
use volume_test_driver::again::load_again;
use volume_test_driver::machine::Machine;
use volume_test_driver::scenario::{Scenario, Step};

/// Of an area of two sectors 31 slots are filled; two more pairs, one in each sector, are written at once.
static TWO_PAIRS: [Step; 10] = [
    Step::Attach,
    Step::Fill(Dev::Origin, 0, 31, 0xaa),
    Step::Start(Dev::Origin, 31, 0xbb),
    Step::Start(Dev::Origin, 32, 0xbb),
    Step::Do(Event::CopyRead(32)),
    Step::Do(Event::CopyRead(33)),
    Step::Do(Event::CopyWrite(32)),
    Step::Do(Event::CopyWrite(33)),
    Step::Do(Event::FlushStore(1)),
    Step::Do(Event::WriteArea(1)),
];

/// What is loaded again where the last write of these steps is torn so.
fn last_torn(alloc: Global, new: &[bool]) -> Result<Machine<MemDisk>, Fail> {
    let scenario = Scenario {
        chunk: 2,
        stores: &[64],
        written: false,
        steps: &TWO_PAIRS,
    };
    let changes = stop_at_each(alloc, &scenario, 1, new)?;
    let mut torn = fused(alloc, &scenario, 1, changes.saturating_sub(1), new)?;
    torn.run(alloc, scenario.steps)?;
    load_again(alloc, torn)
}

/// Whether a sector of the first snapshot's store is all zero.
fn is_zero(again: &Machine<MemDisk>, sector: u64) -> Result<bool, Fail> {
    let store = again.volume.store(1)?;
    let mut out = [9; SECTOR_BYTES];
    store.raw(Range::new(sector, 1, store.sectors())?, &mut out);
    Ok(out == [0; SECTOR_BYTES])
}

#[test]
fn the_second_pair_alone_is_cleared(rt: HostRuntime) -> Result<(), Fail> {
    let again = last_torn(rt.alloc(), &[false, true])?;
    let usage = Usage {
        allocated: 66,
        total: 128,
        metadata: 4,
    };
    assert!(rt; again.volume.usage(1)? == Some(usage) && is_zero(&again, 3)?);
    Ok(())
}

#[test]
fn the_first_pair_alone_is_kept(rt: HostRuntime) -> Result<(), Fail> {
    let again = last_torn(rt.alloc(), &[true])?;
    let usage = Usage {
        allocated: 68,
        total: 128,
        metadata: 4,
    };
    assert!(rt; again.volume.usage(1)? == Some(usage) && is_zero(&again, 3)?);
    Ok(())
}
