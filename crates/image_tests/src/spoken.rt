// An image's words, and what answers tell of it.

use image::{MemImage, MemSink};
use image_to_dmrig::{put_words, read_told};
use std::alloc::Global;
use std::io;
use words::Name;

/// What becomes of an image.
#[derive(Clone, Copy, PartialEq, Eq)]
pub enum Verdict {
    /// All is as it is wanted.
    Well,
    /// Its lines are others.
    Spoken,
    /// The answers tell another one.
    Heard,
    /// Answers that are wrong tell something.
    Taken,
}

impl Verdict {
    pub fn text(self) -> &'static str {
        match self {
            Verdict::Well => "ok",
            Verdict::Spoken => "has other lines",
            Verdict::Heard => "is told otherwise",
            Verdict::Taken => "is told by wrong answers",
        }
    }
}

/// An image of these bytes in memory.
pub fn image_of(alloc: Global, bytes: &[u8]) -> io::Result<MemImage> {
    let bytes = Vec::from_slice(alloc, bytes)?;
    Ok(MemImage { bytes })
}

/// Judges the lines that give a disk an image's bytes: a text begins with them.
pub fn spoken(alloc: Global, image: &[u8], commands: &[u8]) -> io::Result<Verdict> {
    let sectors = image.len() as u64 / 512;
    let Ok(name) = Name::new(b"disk") else {
        return Ok(Verdict::Spoken);
    };
    let mut image = image_of(alloc, image)?;
    let mut sink = MemSink {
        bytes: Vec::new(alloc),
        room: usize::MAX,
    };
    if sectors > image_to_dmrig::MOST_SECTORS {
        return Ok(Verdict::Spoken);
    }
    match put_words(alloc, &name, &mut image, sectors, &mut sink) {
        Ok(()) if commands.starts_with(sink.bytes.as_slice()) => Ok(Verdict::Well),
        _ => Ok(Verdict::Spoken),
    }
}

/// Judges what answers tell: an image.
pub fn heard(alloc: Global, image: &[u8], answers: &[u8]) -> io::Result<Verdict> {
    let mut reader = answers;
    match read_told(alloc, &mut reader) {
        Ok(told) if told.as_slice() == image => Ok(Verdict::Well),
        _ => Ok(Verdict::Heard),
    }
}
