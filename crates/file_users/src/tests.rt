// Lines that a Linux kernel wrote (6.1) of one file with locks of an open file description, as qemu takes them, of one with a lock
// of a process, and of one with flock.

use crate::locks::{is_lock_on, is_of_writer};
use crate::numbers::{major, minor};
use std::alloc::AllocError;
use words::words_in;

const LINES: [&[u8]; 5] = [
    b"1: FLOCK  ADVISORY  WRITE 4416 fe:00:11002041 0 EOF",
    b"2: POSIX  ADVISORY  WRITE 4416 fe:00:11002035 0 EOF",
    b"3: OFDLCK ADVISORY  READ -1 fe:00:11002018 201 201",
    b"4: OFDLCK ADVISORY  READ -1 fe:00:11002018 100 101",
    b"2: -> POSIX  ADVISORY  WRITE 4417 fe:00:11002035 0 EOF",
];

#[test]
fn tells_locks_of_files(rt: HostRuntime) -> Result<(), AllocError> {
    let files: [&[u8]; 5] = [
        b"fe:00:11002041",
        b"fe:00:11002035",
        b"fe:00:11002018",
        b"fe:00:11002018",
        b"fe:00:11002035",
    ];
    let locked = [false, true, true, true, false];
    let written = [true, true, false, true, false];
    for place in 0..5 {
        let words = words_in(rt.alloc(), LINES[place])?;
        assert!(rt; is_lock_on(&words, files[place]) == locked[place]);
        assert!(rt; is_of_writer(&words) == written[place]);
        assert!(rt; !is_lock_on(&words, b"fe:01:11002018"));
    }
    Ok(())
}

#[test]
fn parts_the_numbers_of_devices(rt: HostRuntime) {
    assert!(rt; major(0xfe00) == 254 && minor(0xfe00) == 0);
    assert!(rt;
        major(0x0123_4567_89ab_cdef) == 0x0123_4bcd && minor(0x0123_4567_89ab_cdef) == 0x5678_9aef
    );
}
