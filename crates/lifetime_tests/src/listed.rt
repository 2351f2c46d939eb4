// A list of calls as one call: the first write of a chunk under a snapshot, event by event, leaves what its calls leave. A read is then
// answered at once.
ghost use Rattle.std.specs.Prelude.{IfOk};
ghost use Rattle.std.specs.List.{All};
ghost use Rattle.volume.specs.Running.{IsFitCall};

use crate::lives::{SECTORS, do_one, is_filled, volume_of, write};
use device::{Block, MemDisk};
use layers::Layered;
use plain_machine::{Dev, Event, Op, Outcome, Reply, Request};
use sector::{Buf, Range, Refusal, SECTOR_BYTES};
use snapshot::StoreDev;
use std::alloc::Global;
use std::process::Abort;
use std::test::Fail;
use volume::{Call, Returned, Served, Volume};
use volume_lifetime::{Deed, Done, run, serve};

/// A write of sector 5 of the origin, the events that it is done by, and its Issue once more.
fn first_write(alloc: Global) -> Result<Vec<Call>, Refusal>
    ensures { IfOk result (λ calls. All IsFitCall calls.items) }
{
    let range = Range::new(5, 1, SECTORS)?;
    let Ok(bytes) = vec![in alloc; 0x32u8; SECTOR_BYTES * range.count as usize] else {
        return Err(Refusal::NoMemory);
    };
    let op = Op::Write(Buf::from_vec(bytes));
    let dev = Dev::Origin;
    let Ok(calls) = Vec::from_array(
        alloc,
        [
            Call::Submit(Request { dev, op, range }),
            Call::Step(Event::CopyRead(1)),
            Call::Step(Event::CopyWrite(1)),
            Call::Step(Event::FlushStore(1)),
            Call::Step(Event::WriteArea(1)),
            Call::Step(Event::FlushStore(1)),
            Call::Step(Event::Publish(1)),
            Call::Step(Event::Issue(2)),
            Call::Step(Event::Issue(2)),
        ],
    ) else {
        return Err(Refusal::NoMemory);
    };
    Ok(calls)
}

/// Whether each byte of a sector of the first snapshot's store is this.
fn is_stored(volume: &Volume<MemDisk>, sector: u64, byte: u8) -> Result<bool, Refusal> {
    let store = volume.store(1)?;
    let range = Range::new(sector, 1, store.sectors())?;
    let mut out = [0u8; SECTOR_BYTES];
    store.peek(range, &mut out);
    Ok(out.iter().all(|b| *b == byte))
}

/// Takes a snapshot of a disk whose sector 5 is filled, and does the list.
fn do_list(rt: &impl Abort, alloc: Global, volume: &mut Volume<MemDisk>) -> Result<(), Refusal> {
    write(alloc, volume, 5, 0x31)?;
    let device = MemDisk::new(alloc, SECTORS)?;
    let stale = false;
    let taken = do_one(
        alloc,
        volume,
        Deed::Attach(StoreDev { device, stale }, 1, false),
    )?;
    assert!(rt; matches!(taken, Some(Done::Attached(Ok(1)))));
    let returned = run(alloc, volume, first_write(alloc)?)?;
    assert!(rt; returned.len() == 9);
    assert!(rt;
        matches!(
            returned.as_slice(),
            [
                Returned::Submitted(Ok(2)),
                ..,
                Returned::Stepped(Ok(Outcome::Reply(2, Reply::Written))),
                Returned::Stepped(Err(_)),
            ]
        )
    );
    assert!(rt; is_filled(volume, 5, 0x32)? && is_stored(volume, 2, 0x31)?);
    let range = Range::new(5, 1, SECTORS)?;
    let (dev, op) = (Dev::Origin, Op::Read);
    let served = serve(alloc, volume, Request { dev, op, range })?;
    assert!(rt; matches!(served, Served::Answered(3, Reply::Data(_))));
    Ok(())
}

#[test]
fn a_list_of_calls_leaves_what_its_calls_leave(rt: HostRuntime) -> Result<(), Fail> {
    let mut volume = volume_of(rt.alloc())?;
    do_list(&rt, rt.alloc(), &mut volume)?;
    Ok(())
}
