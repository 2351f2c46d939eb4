// A flush of the origin beside a merge: two Issues of its seat, of which the first leaves no entry and no receipt.
ghost use Rattle.std.specs.Prelude.{◌<◌};

use crate::calling::{answer, attach, audit_of, submit_flush, submit_write};
use audited_volume::{Audit, Receipt, Verdict};
use device::MemDisk;
use plain_machine::{Dev, Event, NotDue, Op, Outcome, Reply, ReqId};
use sector::Refusal;
use std::alloc::Global;
use std::process::Abort;
use std::test::Fail;

/// An audit in which a merge is begun, with one pair left.
fn merging(alloc: Global) -> Result<Audit<MemDisk>, Refusal> {
    let mut audit = audit_of(alloc)?;
    let number = attach(alloc, &mut audit, 16, false)?;
    submit_write(alloc, &mut audit, 1, Dev::Origin, (4, 1), 0x31)?;
    if answer(&mut audit, 1).is_none() {
        return Err(Refusal::NotDue);
    }
    audit.begin_merge(number)?;
    Ok(audit)
}

/// What came of an Issue of a seat: whether it was done without a reply, and the receipt.
fn issue(audit: &mut Audit<MemDisk>, seat: u8, request: ReqId) -> Option<(bool, Option<Receipt>)> {
    match audit.apply(seat, Event::Issue(request)) {
        Ok((Outcome::Done, receipt)) => Some((true, receipt)),
        Ok((_, receipt)) => Some((false, receipt)),
        Err(NotDue) => None,
    }
}

/// Whether a receipt is of a flush, whose range is that of the first sector, whatever was asked for.
fn is_of_flush(receipt: &Receipt) -> bool {
    let range = &receipt.request.range;
    receipt.request.op.is_same(&Op::Flush)
        && receipt.reply.is_same(&Reply::Flushed)
        && (range.first, range.count, range.size) == (0, 1, 1)
}

/// A flush of seat 1: it alone may issue it, and has a receipt of its second Issue.
fn run(rt: &impl Abort, audit: &mut Audit<MemDisk>) -> Result<(), Refusal> {
    let request = submit_flush(audit, 1, Dev::Origin)?;
    let before = audit.entries().len();
    assert!(rt; issue(audit, 2, request).is_none());
    let first = issue(audit, 1, request);
    assert!(rt; matches!(first, Some((true, None))));
    assert!(rt; audit.entries().len() == before && audit.count(1) == 1);
    assert!(rt; issue(audit, 2, request).is_none());
    match issue(audit, 1, request) {
        Some((false, Some(receipt))) => {
            assert!(rt; is_of_flush(&receipt) && receipt.count == 2);
            assert!(rt; audit.check(&receipt) == Verdict::Agrees);
        }
        _ => return Err(Refusal::NotDue),
    }
    assert!(rt; audit.entries().len() == before + 1 && audit.count(1) == 2);
    assert!(rt; issue(audit, 1, request).is_none());
    Ok(())
}

#[test]
fn a_flush_beside_a_merge_has_one_receipt(rt: HostRuntime) -> Result<(), Fail> {
    let mut audit = merging(rt.alloc())?;
    run(&rt, &mut audit)?;
    Ok(())
}
