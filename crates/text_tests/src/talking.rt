// A program that hears the answer to each of its lines before it writes on, and the numbers of lines.

use script_runner::{RunError, Untraced, exit_status, run, run_numbered};
use std::cell::Cell;
use std::io;
use std::io::{ErrorKind, Read, Write};
use std::test::Fail;

/// Parts of a text, and what is to be written out by the time that each is read: a line, a line and the begin of another, the rest
/// of that in two parts, and the text's end.
const TALK: [(&str, &str); 6] = [
    ("disk d 8\n", ""),
    ("save d 0 1\n", "ok\n"),
    ("save d 8 1\nsa", "ok\nok 512*00\n"),
    ("ve d 0", "ok\nok 512*00\nerr 2 OutOfRange\n"),
    (" 1", "ok\nok 512*00\nerr 2 OutOfRange\n"),
    ("", "ok\nok 512*00\nerr 2 OutOfRange\n"),
];

/// Writes a part at each call, and notes where not so much was written out to it by then as it wants.
#[derive(Drop)]
struct Speaker<'a> {
    parts: &'a [(&'a str, &'a str)],
    heard: &'a Cell<usize>,
    missed: &'a Cell<usize>,
}

impl Read for Speaker<'_> {
    fn read(&mut self, buf: &mut [u8]) -> io::Result<usize> {
        if self.parts.is_empty() {
            return Ok(0);
        }
        let (part, wants) = self.parts[0];
        if buf.len() < part.len() {
            return Err(io::Error::from(ErrorKind::InvalidInput));
        }
        if self.heard.get() != wants.len() {
            self.missed.set(self.missed.get().saturating_add(1));
        }
        buf[..part.len()].copy_from_slice(part.as_bytes());
        self.parts = &self.parts[1..];
        Ok(part.len())
    }
}

/// Keeps what is printed, and writes it out at a flush alone.
#[derive(Drop)]
struct Listener<'a> {
    out: Vec<u8>,
    heard: &'a Cell<usize>,
}

impl Write for Listener<'_> {
    fn write(&mut self, buf: &[u8]) -> io::Result<usize> {
        self.out.extend_from_slice(buf)?;
        Ok(buf.len())
    }

    fn flush(&mut self) -> io::Result<()> {
        self.heard.set(self.out.len());
        Ok(())
    }
}

#[test]
fn writes_each_answer_out_before_it_asks_for_more(rt: HostRuntime) {
    let heard = Cell::new(0);
    let missed = Cell::new(0);
    let mut reader = Speaker {
        parts: TALK.as_slice(),
        heard: &heard,
        missed: &missed,
    };
    let mut writer = Listener {
        out: Vec::new(rt.alloc()),
        heard: &heard,
    };
    let ran = run(
        &rt,
        rt.alloc(),
        &mut reader,
        &mut writer,
        &mut Untraced,
        1,
        false,
    );
    assert_eq!(rt; exit_status(&ran), 1);
    assert_eq!(rt; missed.get(), 0);
    let want = b"ok\nok 512*00\nerr 2 OutOfRange\nok 512*00\n";
    assert_eq!(rt; writer.out.as_slice(), want.as_slice());
}

/// The same parts, with what a run that tells numbers is to have written out.
const NUMBERED: [(&str, &str); 4] = [
    ("disk d 8\n\n", ""),
    ("save d 8 1\nsave d", "1 ok\n"),
    (" 0 1", "1 ok\n3 err 2 OutOfRange\n"),
    ("", "1 ok\n3 err 2 OutOfRange\n"),
];

#[test]
fn writes_each_numbered_answer_out_before_it_asks_for_more(rt: HostRuntime) {
    let heard = Cell::new(0);
    let missed = Cell::new(0);
    let mut reader = Speaker {
        parts: NUMBERED.as_slice(),
        heard: &heard,
        missed: &missed,
    };
    let mut writer = Listener {
        out: Vec::new(rt.alloc()),
        heard: &heard,
    };
    let ran = run_numbered(
        &rt,
        rt.alloc(),
        &mut reader,
        &mut writer,
        &mut Untraced,
        1,
        false,
    );
    assert_eq!(rt; exit_status(&ran), 1);
    assert_eq!(rt; missed.get(), 0);
    let want = b"1 ok\n3 err 2 OutOfRange\n4 ok 512*00\n";
    assert_eq!(rt; writer.out.as_slice(), want.as_slice());
}

/// A text with a comment, an empty line, a request that ends in a later line, a block, and one that the text's end ends.
const TEXT: &str = "\
    # 1\n\
    disk d 8\n\
    \n\
    create vol 0 8 snapshot-origin d\n\
    start vol read 0 1\n\
    settle vol\n\
    par\n\
    1 write vol 0 512*aa\n\
    1 read vol 0 1\n\
    end\n\
    par\n\
    9 read vol 0 1";

#[test]
fn numbers_lines_from_one_comments_and_empty_lines_too(rt: HostRuntime) -> Result<(), Fail> {
    let mut reader = TEXT.as_bytes();
    let mut out = Vec::new(rt.alloc());
    let summary = run_numbered(
        &rt,
        rt.alloc(),
        &mut reader,
        &mut out,
        &mut Untraced,
        2,
        false,
    )?;
    let want =
        b"2 ok\n4 ok\n5 ok 1\n6 reply 1 512*00\n6 ok\n10 1 ok\n10 1 ok 512*aa\n10 ok\n13 err 10 BadTable\n";
    assert_eq!(rt; out.as_slice(), want.as_slice());
    assert_eq!(rt; (summary.lines, summary.refused), (9, 1));
    Ok(())
}

/// A writer that fails at its flush.
#[derive(Drop)]
struct Torn;

impl Write for Torn {
    fn write(&mut self, buf: &[u8]) -> io::Result<usize> {
        Ok(buf.len())
    }

    fn flush(&mut self) -> io::Result<()> {
        Err(io::Error::from(ErrorKind::BrokenPipe))
    }
}

#[test]
fn ends_where_an_answer_cannot_be_written_out(rt: HostRuntime) {
    let mut reader = TEXT.as_bytes();
    let ran = run(
        &rt,
        rt.alloc(),
        &mut reader,
        &mut Torn,
        &mut Untraced,
        1,
        false,
    );
    assert!(rt; matches!(&ran, Err(RunError::Write(_))));
    let ran = run_numbered(
        &rt,
        rt.alloc(),
        &mut reader,
        &mut Torn,
        &mut Untraced,
        1,
        false,
    );
    assert!(rt; matches!(&ran, Err(RunError::Write(_))));
    assert_eq!(rt; exit_status(&ran), 2);
}
