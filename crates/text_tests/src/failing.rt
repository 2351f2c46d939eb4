// Readers and writers that fail in mid-stream.

use script_runner::{RunError, Untraced, exit_status, run};
use std::alloc::Global;
use std::io;
use std::io::{ErrorKind, Read};
use std::process::Abort;
use std::sync::Wait;
use std::test::Fail;
use std::thread::Threads;

/// Gives so many bytes, one at a call, and fails then.
#[derive(Drop)]
struct FailingReader<'a> {
    text: &'a [u8],
    left: usize,
}

impl Read for FailingReader<'_> {
    fn read(&mut self, buf: &mut [u8]) -> io::Result<usize> {
        if self.left == 0 || self.text.is_empty() || buf.is_empty() {
            return Err(io::Error::from(ErrorKind::UnexpectedEof));
        }
        buf[0] = self.text[0];
        self.text = &self.text[1..];
        self.left -= 1;
        Ok(1)
    }
}

#[test]
fn ends_where_the_reader_fails_and_not_as_at_the_end(rt: HostRuntime) -> Result<(), Fail> {
    let text = b"disk d 8\nsave d 0 1";
    for left in 0..20usize {
        let mut reader = FailingReader {
            text: text.as_slice(),
            left,
        };
        let mut out = Vec::new(rt.alloc());
        let ran = run(
            &rt,
            rt.alloc(),
            &mut reader,
            &mut out,
            &mut Untraced,
            1,
            false,
        );
        assert!(rt;
            matches!(&ran, Err(RunError::Read(_))),
            "after {left} bytes"
        );
        assert_eq!(rt; exit_status(&ran), 2);
        let want = if left < 9 { b"".as_slice() } else { b"ok\n" };
        assert_eq!(rt; out.as_slice(), want, "after {left} bytes");
    }
    Ok(())
}

/// A text of which these bytes are printed, with room for each number of bytes below theirs.
fn ends_in_each_room(
    rt: &(impl Abort + Threads + Wait + Sync),
    alloc: Global,
    text: &[u8],
    want: &[u8],
) {
    assert!(rt; want.len() <= 64);
    for room in 0..want.len() {
        let mut reader = text;
        let mut out = [0u8; 64];
        let ran = {
            let mut writer = &mut out[..room];
            run(rt, alloc, &mut reader, &mut writer, &mut Untraced, 1, false)
        };
        assert!(rt; matches!(&ran, Err(RunError::Write(_))), "in {room} bytes");
        assert_eq!(rt; exit_status(&ran), 2);
        assert_eq!(rt; out[..room], want[..room], "in {room} bytes");
    }
}

#[test]
fn ends_where_the_writer_is_full(rt: HostRuntime) {
    let text = b"disk d 8\nsave d 0 1\n";
    let want = b"ok\nok 512*00\n";
    ends_in_each_room(&rt, rt.alloc(), text, want);
}

#[test]
fn ends_where_the_writer_is_full_among_replies(rt: HostRuntime) {
    let text =
        b"disk d 8\ncreate vol 0 8 snapshot-origin d\nstart vol read 0 1\nstart vol write 0 512*aa\nsettle vol\n";
    let want = b"ok\nok\nok 1\nok 2\nreply 1 512*00\nreply 2 written\nok\n";
    ends_in_each_room(&rt, rt.alloc(), text, want);
}

#[test]
fn ends_where_the_writer_is_full_within_a_block(rt: HostRuntime) {
    let text =
        b"disk d 8\ncreate vol 0 8 snapshot-origin d\npar\n1 write vol 0 512*aa\n1 read vol 0 1\nend\n";
    let want = b"ok\nok\n1 ok\n1 ok 512*aa\nok\n";
    ends_in_each_room(&rt, rt.alloc(), text, want);
}

/// A text that prints six lines: those of a block whose first line is refused, and the refusal of one that the text's end ends.
const BLOCKS: &str = "\
    disk d 8\n\
    create vol 0 8 snapshot-origin d\n\
    par\n\
    1 read vol 8 1\n\
    2 read vol 0 1\n\
    end\n\
    par\n\
    9 read vol 0 1\n\
    ";

/// A text that prints seven lines, one of them the reply of a request whose device failed.
const REPLIES: &str = "\
    disk d 8\n\
    create fl 0 8 flakey d 0 1 1\n\
    create vol 0 8 snapshot-origin fl\n\
    start vol read 0 1\n\
    tick 1\n\
    settle vol\n\
    ";

#[test]
fn counts_what_was_printed(rt: HostRuntime) -> Result<(), Fail> {
    for (text, lines, refused) in [
        ("", 0, 0),
        ("disk d 8\n", 1, 0),
        ("disk d 8\n\ndisk d 8\n# err\nstatus e\nsave d 0 1", 4, 2),
        (REPLIES, 7, 0),
        (BLOCKS, 6, 1),
    ] {
        let mut reader = text.as_bytes();
        let mut out = Vec::new(rt.alloc());
        let summary = run(
            &rt,
            rt.alloc(),
            &mut reader,
            &mut out,
            &mut Untraced,
            4,
            false,
        )?;
        assert_eq!(rt; (summary.lines, summary.refused), (lines, refused));
        assert_eq!(rt; (summary.no_memory, summary.journal_full), (0, 0));
    }
    Ok(())
}
