// Lines that are refused for their form, and what is said of each.

use crate::tell_line;
use std::test::Fail;

/// Lines, and what is said of each.
const TOLD: [(&str, &str); 14] = [
    ("stats", "stats is no command; the nearest is status"),
    ("Read vol 0 1", "Read is no command; the nearest is read"),
    (
        "frobnicate",
        "frobnicate is no command: dmrig --help lists them",
    ),
    (
        "read vg-snap 0 1",
        "vg-snap is no name: 1 to 16 of a-z 0-9 _, a letter first",
    ),
    (
        "tick\t1",
        "a tab stands in the line: words have spaces between them",
    ),
    (
        "stop vol lost",
        "lost stands where lose should: stop VOL lose",
    ),
    ("stop vol lose it", "it is a word too many: stop VOL lose"),
    (
        "create fl 0 8 flakey d 0 0 0",
        "UP and DOWN are both 0: one of them lasts a second at least",
    ),
    (
        "create fl 0 8 flakey d 0 1 1 2 error_reads",
        "2 stands for the number of features, and behind it stand 1",
    ),
    (
        "create fl 0 8 flakey d 0 1 1 5 corrupt_bio_byte 32 r 1 0",
        "corrupt_bio_byte is no feature here: error_reads, error_writes, drop_writes",
    ),
    (
        "create s 0 8 snapshot-merge d c P 8",
        "a snapshot-merge line makes no device: merge SNAP begins a merge",
    ),
    (
        "message fl 0 tick 3s",
        "3s is no number: 1 to 10 digits, below 4294967296",
    ),
    (
        "message fl 0 tick",
        "SECONDS is missing: message DEV 0 tick SECONDS",
    ),
    ("par held 1", "held stands where hold should: par hold K"),
];

#[test]
fn tells_the_first_word_that_breaks_the_form(rt: HostRuntime) -> Result<(), Fail> {
    for (line, said) in TOLD {
        let mut out = Vec::new(rt.alloc());
        let told = tell_line(&mut out, rt.alloc(), line.as_bytes())?;
        assert!(rt; told, "{line}");
        assert!(rt; out.as_slice() == said.as_bytes(), "{line}");
    }
    Ok(())
}
