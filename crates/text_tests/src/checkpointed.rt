// Journals that are folded before each line.

use script_runner::{Untraced, run};
use std::alloc::Global;
use std::test::Fail;

/// More reads than a journal has room for, which is 65,536 entries: that of a volume without snapshots keeps none of them free.
const READS: u32 = 65_600;

/// An origin, and reads of it, each of which takes a place in its journal.
fn reads(alloc: Global) -> Result<Vec<u8>, Fail> {
    let mut text = Vec::new(alloc);
    text.extend_from_slice(b"disk base 1\ncreate vol 0 1 snapshot-origin base\n")?;
    for _ in 0..READS {
        text.extend_from_slice(b"read vol 0 1\n")?;
    }
    Ok(text)
}

#[test]
fn finds_room_in_a_journal_where_that_is_asked_for(rt: HostRuntime) -> Result<(), Fail> {
    let text = reads(rt.alloc())?;
    for (checkpoints, refused) in [(false, 64), (true, 0)] {
        let mut out = Vec::new(rt.alloc());
        let summary = run(
            &rt,
            rt.alloc(),
            &mut text.as_slice(),
            &mut out,
            &mut Untraced,
            1,
            checkpoints,
        )?;
        assert_eq!(rt; summary.lines, u64::from(READS) + 2);
        assert_eq!(rt; summary.journal_full, refused);
        assert_eq!(rt; summary.refused, refused);
    }
    Ok(())
}
