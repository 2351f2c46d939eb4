// What is told behind each line: what is in flight, how far merges are, which events are due, and what layers are at.

use script_runner::{TraceTo, Untraced, exit_status, run, run_numbered};
use std::io;
use std::io::{ErrorKind, Write};
use std::test::Fail;

/// A write that waits for a copy, a read that does not, the copy's events one by one, and a merge.
const TEXT: &str = "\
    disk base 64\n\
    disk cow 64\n\
    create vol 0 64 snapshot-origin base\n\
    create snap 0 64 snapshot base cow P 8\n\
    start vol write 9 512*aa\n\
    start snap read 16 2\n\
    step vol copy-read 1\n\
    step vol copy-write 1\n\
    step vol flush-store snap\n\
    step vol write-area snap\n\
    step vol flush-store snap\n\
    # a comment\n\
    step vol publish 1\n\
    step vol issue 2\n\
    step vol issue 1\n\
    merge snap\n\
    step vol merge-group\n\
    settle vol\n\
    finish vol\n";

/// What is told behind these lines.
const TRACE: &str = "\
    5 vol; request 1 write vol 9 1 held; copy 1 snap 1 waiting; due copy-read 1\n\
    6 vol; request 1 write vol 9 1 held; request 2 read snap 16 2 ready; copy 1 snap 1 waiting; due copy-read 1; due issue 2\n\
    7 vol; request 1 write vol 9 1 held; request 2 read snap 16 2 ready; copy 1 snap 1 read; due copy-write 1; due issue 2\n\
    8 vol; request 1 write vol 9 1 held; request 2 read snap 16 2 ready; copy 1 snap 1 written; due flush-store snap; due issue 2\n\
    9 vol; request 1 write vol 9 1 held; request 2 read snap 16 2 ready; copy 1 snap 1 flushed; due write-area snap; due issue 2\n\
    10 vol; request 1 write vol 9 1 held; request 2 read snap 16 2 ready; copy 1 snap 1 committed; due flush-store snap; due issue 2\n\
    11 vol; request 1 write vol 9 1 held; request 2 read snap 16 2 ready; copy 1 snap 1 committed; due publish 1; due issue 2\n\
    12 vol; request 1 write vol 9 1 held; request 2 read snap 16 2 ready; copy 1 snap 1 committed; due publish 1; due issue 2\n\
    13 vol; request 1 write vol 9 1 ready; request 2 read snap 16 2 ready; due issue 1; due issue 2\n\
    14 vol; request 1 write vol 9 1 ready; due issue 1\n\
    16 vol; merge snap 24/64 16; due merge-group\n\
    17 vol; merge snap 24/64 16; due merge-read\n\
    18 vol; merge snap 16/64 16\n";

#[test]
fn tells_what_is_in_flight_and_due_behind_each_line(rt: HostRuntime) -> Result<(), Fail> {
    let mut plain = Vec::new(rt.alloc());
    let mut out = Vec::new(rt.alloc());
    let mut trace = TraceTo::new(Vec::new(rt.alloc()));
    run(
        &rt,
        rt.alloc(),
        &mut TEXT.as_bytes(),
        &mut plain,
        &mut Untraced,
        1,
        false,
    )?;
    let summary = run(
        &rt,
        rt.alloc(),
        &mut TEXT.as_bytes(),
        &mut out,
        &mut trace,
        1,
        false,
    )?;
    assert_eq!(rt; trace.writer.as_slice(), TRACE.as_bytes());
    assert_eq!(rt; out.as_slice(), plain.as_slice());
    assert_eq!(rt; summary.refused, 0);
    Ok(())
}

#[test]
fn tells_the_same_beside_numbered_answers(rt: HostRuntime) -> Result<(), Fail> {
    let mut plain = Vec::new(rt.alloc());
    let mut out = Vec::new(rt.alloc());
    let mut trace = TraceTo::new(Vec::new(rt.alloc()));
    run_numbered(
        &rt,
        rt.alloc(),
        &mut TEXT.as_bytes(),
        &mut plain,
        &mut Untraced,
        1,
        false,
    )?;
    run_numbered(
        &rt,
        rt.alloc(),
        &mut TEXT.as_bytes(),
        &mut out,
        &mut trace,
        1,
        false,
    )?;
    assert_eq!(rt; trace.writer.as_slice(), TRACE.as_bytes());
    assert_eq!(rt; out.as_slice(), plain.as_slice());
    Ok(())
}

/// A store that fills up, and then one whose device fails.
const LOST: &str = "\
    disk base 8\n\
    disk cow 3\n\
    create vol 0 8 snapshot-origin base\n\
    create snap 0 8 snapshot base cow P 1\n\
    write vol 0 512*aa\n\
    write vol 1 512*bb\n\
    status vol\n\
    remove snap\n\
    disk more 64\n\
    create fl 0 64 flakey more 0 1 1 1 error_writes\n\
    create snap 0 8 snapshot base fl P 1\n\
    tick 1\n\
    write vol 2 512*cc\n";

/// What is told behind these lines: the first snapshot lacks room for the second chunk, the other has some.
const LOST_TRACE: &str = "\
    6 vol; lost snap full\n\
    7 vol; lost snap full\n\
    10 fl; flakey up 0 of 2\n\
    11 fl; flakey up 0 of 2\n\
    12 fl; flakey down 1 of 2\n\
    13 vol; lost snap\n\
    13 fl; flakey down 1 of 2\n";

#[test]
fn tells_which_snapshots_are_lost(rt: HostRuntime) -> Result<(), Fail> {
    let mut out = Vec::new(rt.alloc());
    let mut trace = TraceTo::new(Vec::new(rt.alloc()));
    run(
        &rt,
        rt.alloc(),
        &mut LOST.as_bytes(),
        &mut out,
        &mut trace,
        1,
        false,
    )?;
    assert_eq!(rt; trace.writer.as_slice(), LOST_TRACE.as_bytes());
    Ok(())
}

/// A merge of two pairs, which fails at the first and goes on.
const MERGED: &str = "\
    disk base 64\n\
    disk cow 64\n\
    create fl 0 64 flakey base 0 5 1 1 error_writes\n\
    create vol 0 64 snapshot-origin fl\n\
    create snap 0 64 snapshot fl cow P 8\n\
    write vol 0 512*aa\n\
    write vol 40 512*aa\n\
    merge snap\n\
    tick 5\n\
    settle vol\n\
    message fl 0 tick 1\n\
    resume vol\n\
    settle vol\n\
    finish vol\n";

/// What is told behind these lines.
const MERGED_TRACE: &str = "\
    3 fl; flakey up 0 of 6\n\
    4 fl; flakey up 0 of 6\n\
    5 fl; flakey up 0 of 6\n\
    6 fl; flakey up 0 of 6\n\
    7 fl; flakey up 0 of 6\n\
    8 vol; merge snap 32/64 16; due merge-group\n\
    8 fl; flakey up 0 of 6\n\
    9 vol; merge snap 32/64 16; due merge-group\n\
    9 fl; flakey down 5 of 6\n\
    10 vol; merge snap failed\n\
    10 fl; flakey down 5 of 6\n\
    11 vol; merge snap failed\n\
    11 fl; flakey up 0 of 6\n\
    12 vol; merge snap 32/64 16; due merge-group\n\
    12 fl; flakey up 0 of 6\n\
    13 vol; merge snap 16/64 16\n\
    13 fl; flakey up 0 of 6\n\
    14 fl; flakey up 0 of 6\n";

#[test]
fn tells_how_far_a_merge_is(rt: HostRuntime) -> Result<(), Fail> {
    let mut out = Vec::new(rt.alloc());
    let mut trace = TraceTo::new(Vec::new(rt.alloc()));
    run(
        &rt,
        rt.alloc(),
        &mut MERGED.as_bytes(),
        &mut out,
        &mut trace,
        1,
        false,
    )?;
    assert_eq!(rt; trace.writer.as_slice(), MERGED_TRACE.as_bytes());
    Ok(())
}

/// Layers that nothing uses, under an origin, under a store, and under another layer; one that is never down.
const LAYERS: &str = "\
    disk one 64\n\
    disk two 64\n\
    create always 0 64 flakey one 0 3 0\n\
    create du 0 64 dust always 0 512\n\
    create low 0 64 flakey two 0 3 3\n\
    message du 0 addbadblock 7\n\
    message du 0 enable\n\
    create vol 0 64 snapshot-origin du\n\
    create snap 0 64 snapshot du low P 8\n\
    message low 0 tick 3\n\
    disk three 8\n\
    create free 0 8 flakey three 0 2 1\n\
    message du 0 disable\n\
    message du 0 clearbadblocks\n\
    tick 4\n\
    remove snap\n";

/// What is told behind these lines: first of layers that nothing uses.
const LAYERS_TRACE: &str = "\
    5 low; flakey up 0 of 6\n\
    6 du; dust disabled 1 bad\n\
    6 low; flakey up 0 of 6\n\
    7 du; dust enabled 1 bad\n\
    7 low; flakey up 0 of 6\n\
    8 low; flakey up 0 of 6\n\
    8 du; dust enabled 1 bad\n\
    9 du; dust enabled 1 bad\n\
    9 low; flakey up 0 of 6\n\
    10 du; dust enabled 1 bad\n\
    10 low; flakey down 3 of 6\n\
    11 du; dust enabled 1 bad\n\
    11 low; flakey down 3 of 6\n\
    12 free; flakey up 0 of 3\n\
    12 du; dust enabled 1 bad\n\
    12 low; flakey down 3 of 6\n\
    13 free; flakey up 0 of 3\n\
    13 du; dust disabled 1 bad\n\
    13 low; flakey down 3 of 6\n\
    14 free; flakey up 0 of 3\n\
    14 low; flakey down 3 of 6\n\
    15 free; flakey up 1 of 3\n\
    15 low; flakey up 1 of 6\n\
    16 free; flakey up 1 of 3\n\
    16 low; flakey up 1 of 6\n";

#[test]
fn tells_what_layers_are_at_that_may_fail(rt: HostRuntime) -> Result<(), Fail> {
    let mut plain = Vec::new(rt.alloc());
    let mut out = Vec::new(rt.alloc());
    let mut trace = TraceTo::new(Vec::new(rt.alloc()));
    run(
        &rt,
        rt.alloc(),
        &mut LAYERS.as_bytes(),
        &mut plain,
        &mut Untraced,
        1,
        false,
    )?;
    let summary = run(
        &rt,
        rt.alloc(),
        &mut LAYERS.as_bytes(),
        &mut out,
        &mut trace,
        1,
        false,
    )?;
    assert_eq!(rt; trace.writer.as_slice(), LAYERS_TRACE.as_bytes());
    assert_eq!(rt; out.as_slice(), plain.as_slice());
    assert_eq!(rt; summary.refused, 0);
    Ok(())
}

/// A tracer that takes nothing.
#[derive(Drop)]
struct Deaf;

impl Write for Deaf {
    fn write(&mut self, _buf: &[u8]) -> io::Result<usize> {
        Err(io::Error::from(ErrorKind::BrokenPipe))
    }

    fn flush(&mut self) -> io::Result<()> {
        Err(io::Error::from(ErrorKind::BrokenPipe))
    }
}

#[test]
fn goes_on_where_nothing_can_be_told(rt: HostRuntime) -> Result<(), Fail> {
    let mut plain = Vec::new(rt.alloc());
    let mut out = Vec::new(rt.alloc());
    run(
        &rt,
        rt.alloc(),
        &mut TEXT.as_bytes(),
        &mut plain,
        &mut Untraced,
        1,
        false,
    )?;
    let ran = run(
        &rt,
        rt.alloc(),
        &mut TEXT.as_bytes(),
        &mut out,
        &mut TraceTo::new(Deaf),
        1,
        false,
    );
    assert_eq!(rt; exit_status(&ran), 0);
    assert_eq!(rt; out.as_slice(), plain.as_slice());
    Ok(())
}
