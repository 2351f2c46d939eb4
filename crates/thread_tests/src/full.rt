// A journal that is full refuses, and after each checkpoint takes as many entries again, in the same memory.
use crate::calling::{answer, attach, audit_of, detach, submit_read, submit_write};
use audited_volume::{Audit, MAX_ENTRIES};
use device::MemDisk;
use layers::Layered;
use plain_machine::Dev;
use sector::Refusal;
use std::alloc::Global;
use std::fs;
use std::process::Abort;
use std::rt::Files;
use std::test::Fail;

/// With one entry of a snapshot that was taken, and while it lives, a journal has room for so many reads.
const ROOM: u64 = 65_534;

/// The reads from one checkpoint to the next.
const READS: u64 = 65_000;

/// So many pages more than before, at most, are the same memory after ten rounds. What the reads of one round give are eight
/// thousand.
const MORE_PAGES: u64 = 4_096;

/// Reads a sector of the origin so often, and tells how many reads were answered.
fn read_often<B: Layered>(audit: &mut Audit<B>, times: u64) -> Result<u64, Refusal> {
    let mut answered = 0u64;
    for _ in 0..times {
        submit_read(audit, 1, Dev::Origin, 2)?;
        if answer(audit, 1).is_some() {
            answered = answered.saturating_add(1);
        }
    }
    Ok(answered)
}

/// How many pages of memory the process has.
fn pages<R: Files + AllocGlobal>(rt: &R) -> Result<u64, Fail> {
    let text = fs::read_to_string(rt, "/proc/self/statm")?;
    match text.as_str().split(' ').nth(1) {
        Some(word) => Ok(word.parse::<u64>()?),
        None => Err(Fail::from("no resident pages")),
    }
}

/// What may come to an entry is refused, and changes nothing.
fn refuse<B: Layered + Drop>(rt: &impl Abort, audit: &mut Audit<B>) {
    let full = Some(Refusal::JournalFull);
    assert!(rt; submit_read(audit, 1, Dev::Origin, 2).err() == full);
    assert!(rt; detach(audit, 1).err() == full);
    assert!(rt; audit.entries().len() == MAX_ENTRIES - 1);
    assert!(rt; audit.in_flight() == 0 && audit.volume().len() == 1);
}

/// Fills a journal up. Of its last two places a snapshot takes one for its entry and one for what may come to it; one whose
/// store may overflow would take three.
fn fill_up(rt: &impl Abort, alloc: Global, audit: &mut Audit<MemDisk>) -> Result<(), Refusal> {
    assert!(rt; read_often(audit, ROOM)? == ROOM);
    assert!(rt; attach(alloc, audit, 64, true).err() == Some(Refusal::JournalFull));
    assert!(rt; attach(alloc, audit, 64, false)? == 1);
    refuse(rt, audit);
    Ok(())
}

/// Reads a sector of the origin until the journal is full, and tells how many reads were answered.
fn read_until_full<B: Layered>(audit: &mut Audit<B>) -> Result<u64, Refusal> {
    let mut answered = 0u64;
    for _ in 0..MAX_ENTRIES {
        match submit_read(audit, 1, Dev::Origin, 2) {
            Ok(_) if answer(audit, 1).is_some() => answered = answered.saturating_add(1),
            Ok(_) => {}
            Err(Refusal::JournalFull) => return Ok(answered),
            Err(refusal) => return Err(refusal),
        }
    }
    Ok(answered)
}

/// Writes a sector of the first snapshot, and does what is due.
fn write_snap<B: Layered>(alloc: Global, audit: &mut Audit<B>, sector: u8) -> Result<(), Refusal> {
    submit_write(alloc, audit, 1, Dev::Snap(1), (sector, 1), 0x41)?;
    let _ = answer(audit, 1);
    Ok(())
}

/// Ten checkpoints, and after each of them many reads.
fn go_on<R: Abort + Files + AllocGlobal, B: Layered>(
    rt: &R,
    audit: &mut Audit<B>,
) -> Result<(), Fail> {
    let most = pages(rt)?.saturating_add(MORE_PAGES);
    for k in 1..=10u64 {
        audit.checkpoint()?;
        assert!(rt; read_often(audit, READS)? == READS);
        assert!(rt; audit.entries().len() as u64 == READS);
        assert!(rt; audit.count(1) == ROOM + READS * k);
        assert!(rt; pages(rt)? <= most, "round {k}");
    }
    Ok(())
}

#[test]
fn a_store_that_may_overflow_takes_a_place_more(rt: HostRuntime) -> Result<(), Fail> {
    let mut audit = audit_of(rt.alloc())?;
    attach(rt.alloc(), &mut audit, 3, true)?;
    write_snap(rt.alloc(), &mut audit, 5)?;
    // Two entries, and two that may come: the store overflows, and the snapshot is spoiled.
    assert!(rt; read_until_full(&mut audit)? == 65_532);
    audit.checkpoint()?;
    let refused = write_snap(rt.alloc(), &mut audit, 6).err();
    assert!(rt; refused == Some(Refusal::Overflow));
    audit.checkpoint()?;
    // It did, and the snapshot may still be spoiled.
    assert!(rt; read_until_full(&mut audit)? == 65_535);
    Ok(())
}

#[test]
fn a_full_journal_goes_on_after_a_checkpoint(rt: HostRuntime) -> Result<(), Fail> {
    let mut audit = audit_of(rt.alloc())?;
    fill_up(&rt, rt.alloc(), &mut audit)?;
    go_on(&rt, &mut audit)
}
