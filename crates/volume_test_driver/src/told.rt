// What failed in an event, and whether its outcome tells that and nothing else.
use crate::arrays::Arrays;
use crate::calls::{is_spoilt, store_faults};
use device::Block;
use plain_machine::{Event, Failure, Outcome, Reply};
use volume::Volume;

/// How many operations of a volume's devices failed, and how many of its snapshots are spoiled or stopped merging.
#[derive(Clone, Copy)]
pub struct Failures {
    pub faults: u64,
    pub lost: u64,
}

/// What failed so far.
pub fn failed<B: Block>(volume: &Volume<B>, arrays: &Arrays) -> Failures {
    let mut faults = volume.origin().faults();
    let mut lost = u64::from(volume.is_merge_failed());
    for snap in &arrays.snaps {
        faults = faults.wrapping_add(store_faults(volume, snap.number));
        lost = lost.wrapping_add(u64::from(is_spoilt(volume, snap.number)));
    }
    Failures { faults, lost }
}

/// Whether an event is of the mark of a snapshot that is spoiled, and so loses none: the mark's write, or the flush behind it.
pub fn is_of_mark<B: Block>(volume: &Volume<B>, event: Event) -> bool {
    match event {
        Event::WriteInvalid(_) => true,
        Event::FlushStore(number) => is_spoilt(volume, number),
        _ => false,
    }
}

/// How many operations failed and how many snapshots were lost in an event with such an outcome.
fn wanted(of_mark: bool, outcome: &Outcome) -> (u64, u64) {
    match outcome {
        Outcome::Fault if of_mark => (1, 0),
        Outcome::Fault => (1, 1),
        Outcome::Reply(_, Reply::Refused(Failure::Io)) => (1, 0),
        _ => (0, 0),
    }
}

/// Whether an outcome tells what failed in an event, and nothing else. So many snapshots were lost since their stores are full.
pub fn is_told(
    of_mark: bool,
    outcome: &Outcome,
    before: Failures,
    after: Failures,
    full: u64,
) -> bool {
    let faults = after.faults.wrapping_sub(before.faults);
    let lost = after.lost.wrapping_sub(before.lost);
    wanted(of_mark, outcome) == (faults, lost.wrapping_sub(full))
}
