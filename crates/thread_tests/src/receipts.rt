// What a journal says of receipts, across a checkpoint, and how many entries a seat has.
ghost use Rattle.std.specs.Prelude.{◌≡◌, ◌<◌};

use crate::calling::{answer, attach, audit_of, submit_write};
use audited_volume::{Audit, Receipt, Verdict};
use device::MemDisk;
use layers::Layered;
use plain_machine::{Dev, Op, Reply, Request};
use sector::{Buf, Range, Refusal, SECTOR_BYTES};
use std::alloc::Global;
use std::process::Abort;
use std::test::Fail;

/// A receipt that may be asked about: its seat, its count and the sector that it says was written, and what a journal says of
/// it before and after a checkpoint and one more write of seat 1.
type Row = (u8, u64, u8, Verdict, Verdict);

const ROWS: [Row; 9] = [
    (1, 1, 4, Verdict::Agrees, Verdict::Folded),
    (2, 1, 5, Verdict::Agrees, Verdict::Folded),
    (1, 2, 6, Verdict::Agrees, Verdict::Folded),
    (1, 2, 4, Verdict::Differs, Verdict::Folded),
    (1, 3, 7, Verdict::Differs, Verdict::Agrees),
    (1, 3, 4, Verdict::Differs, Verdict::Differs),
    (2, 2, 7, Verdict::Differs, Verdict::Differs),
    (1, 0, 4, Verdict::Differs, Verdict::Differs),
    (9, 1, 4, Verdict::Differs, Verdict::Differs),
];

/// A receipt of a write of one sector.
fn receipt_of(alloc: Global, seat: u8, count: u64, sector: u8) -> Result<Receipt, Refusal> {
    let range = Range::new(u64::from(sector), 1, 16)?;
    let Ok(bytes) = Buf::from_slice(alloc, &[0x31; SECTOR_BYTES]) else {
        return Err(Refusal::NoMemory);
    };
    Ok(Receipt {
        seat,
        count,
        request: Request {
            dev: Dev::Origin,
            op: Op::Write(bytes),
            range,
        },
        reply: Reply::Written,
    })
}

/// Asks about the receipts, before the checkpoint or after it.
fn ask<B: Layered>(
    rt: &impl Abort,
    alloc: Global,
    audit: &Audit<B>,
    is_after: bool,
) -> Result<(), Refusal> {
    for (seat, count, sector, before, after) in ROWS {
        let receipt = receipt_of(alloc, seat, count, sector)?;
        let verdict = if is_after { after } else { before };
        assert!(rt; audit.check(&receipt) == verdict, "{seat} {count} {sector}");
    }
    Ok(())
}

/// A write of a sector for a seat, whose receipt has this count and agrees.
fn write<B: Layered>(
    rt: &impl Abort,
    alloc: Global,
    audit: &mut Audit<B>,
    seat: u8,
    sector: u8,
    count: u64,
) -> Result<(), Refusal>
    requires { seat < 9 }
{
    submit_write(alloc, audit, seat, Dev::Origin, (sector, 1), 0x31)?;
    match answer(audit, seat) {
        Some(receipt) => {
            assert!(rt; receipt.count == count);
            assert!(rt; audit.check(&receipt) == Verdict::Agrees);
            Ok(())
        }
        None => Err(Refusal::Invalid),
    }
}

/// A snapshot is taken over a store that has room for no copy, and a write of it by seat 1 is refused: the entry of that is no
/// seat's.
fn overflow(rt: &impl Abort, alloc: Global, audit: &mut Audit<MemDisk>) -> Result<(), Refusal> {
    let number = attach(alloc, audit, 2, true)?;
    let before = audit.entries().len();
    let refused = submit_write(alloc, audit, 1, Dev::Snap(number), (9, 1), 0x31).err();
    assert!(rt; refused == Some(Refusal::Overflow));
    assert!(rt; audit.entries().len() == before + 1);
    assert!(rt; audit.count(0) == 0 && audit.count(1) == 1);
    Ok(())
}

/// A flush of the origin for a seat, whose sectors are not looked at: its entry is one of the seat's, and is kept with the first
/// sector.
fn flush<B: Layered>(
    rt: &impl Abort,
    audit: &mut Audit<B>,
    seat: u8,
    count: u64,
) -> Result<(), Refusal>
    requires { seat < 9 }
{
    let range = Range::new(9, 0, 16)?;
    let (dev, op) = (Dev::Origin, Op::Flush);
    audit.submit(seat, Request { dev, op, range })?;
    let Some(receipt) = answer(audit, seat) else {
        return Err(Refusal::Invalid);
    };
    assert!(rt; receipt.count == count);
    assert!(rt; matches!(receipt.reply, Reply::Flushed) && receipt.request.range.count == 1);
    assert!(rt; audit.check(&receipt) == Verdict::Agrees);
    Ok(())
}

/// Writes of two seats, between which a store overflows, a checkpoint, and one write more.
fn run(rt: &impl Abort, alloc: Global, audit: &mut Audit<MemDisk>) -> Result<(), Refusal> {
    write(rt, alloc, audit, 1, 4, 1)?;
    overflow(rt, alloc, audit)?;
    write(rt, alloc, audit, 2, 5, 1)?;
    write(rt, alloc, audit, 1, 6, 2)?;
    ask(rt, alloc, audit, false)?;
    audit.checkpoint()?;
    write(rt, alloc, audit, 1, 7, 3)?;
    ask(rt, alloc, audit, true)?;
    assert!(rt; audit.count(0) == 0 && audit.count(1) == 3 && audit.count(2) == 1);
    flush(rt, audit, 2, 2)?;
    Ok(())
}

#[test]
fn a_receipt_of_a_folded_entry_is_folded(rt: HostRuntime) -> Result<(), Fail> {
    let mut audit = audit_of(rt.alloc())?;
    run(&rt, rt.alloc(), &mut audit)?;
    Ok(())
}
