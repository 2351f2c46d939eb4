// A text that is cut at any byte: its whole lines print what they print, and what is left of the next prints one line at most.

use script_runner::{Untraced, run};
use std::test::Fail;

/// Lines, and what each prints: a snapshot of a written origin, and what both show after a write.
const ROW: [(&str, &str); 9] = [
    ("disk base 8\n", "ok\n"),
    ("disk cow 8\n", "ok\n"),
    ("create vol 0 8 snapshot-origin base\n", "ok\n"),
    ("write vol 5 512*11\n", "ok\n"),
    ("create snap 0 8 snapshot base cow P 1\n", "ok\n"),
    ("write vol 5 512*aa\n", "ok\n"),
    ("read vol 5 1\n", "ok 512*aa\n"),
    ("read snap 5 1\n", "ok 512*11\n"),
    ("status snap\n", "ok 0 8 snapshot 3/8 2\n"),
];

/// Whether what is printed begins with this, and has at most one line more.
fn is_front(out: &[u8], want: &[u8]) -> bool {
    match out.strip_prefix(want) {
        None => false,
        Some([]) => true,
        Some(rest) => {
            rest.ends_with(b"\n") && rest.iter().filter(|byte| **byte == b'\n').count() == 1
        }
    }
}

#[test]
fn a_text_cut_at_any_byte_does_its_whole_lines(rt: HostRuntime) -> Result<(), Fail> {
    let mut text = Vec::new(rt.alloc());
    let mut want = Vec::new(rt.alloc());
    for (line, answer) in ROW {
        for byte in line.bytes() {
            let mut reader = text.as_slice();
            let mut out = Vec::new(rt.alloc());
            run(
                &rt,
                rt.alloc(),
                &mut reader,
                &mut out,
                &mut Untraced,
                1,
                false,
            )?;
            assert!(rt;
                is_front(out.as_slice(), want.as_slice()),
                "cut at {} bytes",
                text.len()
            );
            text.push(byte)?;
        }
        want.extend_from_slice(answer.as_bytes())?;
    }
    Ok(())
}
