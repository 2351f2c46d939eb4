// Two workers are at work at once.
use crate::asked::Asked;
use crate::waiting::{Meeting, MeetingGate};
use crate::watched::{volume_of_two, watched};
use audited_volume::Audit;
use plain_machine::Dev;
use std::test::Fail;

/// A write of one chunk of the origin, of which two copies are made.
const WRITE: [(usize, Asked); 1] = [(0, Asked::Write(Dev::Origin, 3, 1))];

#[test]
fn the_two_copies_of_a_write_are_at_work_at_once(rt: HostRuntime) -> Result<(), Fail> {
    let alloc = rt.alloc();
    let Ok(audit) = Audit::new(alloc, volume_of_two(alloc)?) else {
        return Err(Fail::from("no audit"));
    };
    let mut beside = volume_of_two(alloc)?.into_volume();
    let meeting = Meeting::new();
    let gate = MeetingGate { meeting: &meeting };
    assert!(rt; watched(&rt, alloc, audit, 2, gate, &mut beside, &WRITE)?.is_none());
    assert!(rt; meeting.was_held());
    Ok(())
}
