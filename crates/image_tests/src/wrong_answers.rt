// Answers that are wrong, reads that fail, and room that ends.

use crate::spoken::image_of;
use image::{FailingImage, MemSink};
use image_to_dmrig::{MOST_SECTORS, Stopped, Untold, put_words, read_told};
use std::alloc::Global;
use std::io;
use words::Name;

/// Whether wrong answers tell nothing but their line, and a read or a write that fails is told.
pub fn is_refused(alloc: Global, image: &[u8], answers: Vec<u8>) -> io::Result<bool> {
    let mut lines = 0u64;
    for byte in answers.as_slice() {
        if *byte == b'\n' {
            lines = lines.saturating_add(1);
        }
    }
    let mut cut = answers.as_slice();
    if !cut.is_empty() {
        cut = &cut[..cut.len() - 1];
    }
    if !is_line(alloc, cut, lines) {
        return Ok(false);
    }
    let mut more = answers;
    for line in [
        b"err 8 Io\n".as_slice(),
        b"\n".as_slice(),
        b"ok 512*0g\n".as_slice(),
        b"ok 0 128 snapshot-origin\n".as_slice(),
        b"reply 1 512*00\n".as_slice(),
        b"ok 512*00".as_slice(),
    ] {
        let len = more.len();
        more.extend_from_slice(line)?;
        if !is_line(alloc, more.as_slice(), lines.saturating_add(1)) {
            return Ok(false);
        }
        more.truncate(len);
    }
    fails(alloc, image)
}

/// Whether answers tell nothing but that this line is wrong.
fn is_line(alloc: Global, answers: &[u8], number: u64) -> bool {
    let mut reader = answers;
    match read_told(alloc, &mut reader) {
        Err(Untold::Line(line)) => line == number,
        _ => false,
    }
}

/// Whether a read that fails is told, and so is room that ends.
fn fails(alloc: Global, image: &[u8]) -> io::Result<bool> {
    let sectors = image.len() as u64 / 512;
    let Ok(name) = Name::new(b"disk") else {
        return Ok(false);
    };
    if sectors > MOST_SECTORS {
        return Ok(false);
    }
    let below = image_of(alloc, image)?;
    let mut image = FailingImage { below, left: 2 };
    let mut sink = MemSink {
        bytes: Vec::new(alloc),
        room: usize::MAX,
    };
    let unread = put_words(alloc, &name, &mut image, sectors, &mut sink);
    let mut narrow = MemSink {
        bytes: Vec::new(alloc),
        room: 20,
    };
    let unput = put_words(alloc, &name, &mut image, sectors, &mut narrow);
    Ok(
        matches!(unread, Err(Stopped::Unreadable(_)))
            && matches!(unput, Err(Stopped::Unwritable(_))),
    )
}
