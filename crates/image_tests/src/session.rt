// A client is served, and what it is answered is judged.

use cow_image::{Told, read_store};
use cow_nbd::{Still, serve_written};
use image::MemImage;
use std::alloc::Global;
use std::io;

/// Sectors of the origin.
pub const SECTORS: u64 = 128;

/// The bytes of both images.
#[derive(Drop)]
pub struct Pictured {
    pub origin: Vec<u8>,
    pub store: Vec<u8>,
}

/// What becomes of a recording.
#[derive(Clone, Copy, PartialEq, Eq)]
pub enum Verdict {
    /// All that is answered is what is wanted.
    Well,
    /// Something else is answered.
    Differs,
    /// Something else is answered where the client leaves before its end.
    DiffersInFront,
}

impl Verdict {
    /// Its words.
    pub fn text(&self) -> &'static str {
        match self {
            Verdict::Well => "ok",
            Verdict::Differs => "differs",
            Verdict::DiffersInFront => "differs where it is cut",
        }
    }

    /// Whether all is well.
    pub fn is_well(&self) -> bool {
        *self == Verdict::Well
    }
}

/// An image in memory.
pub fn image_of(alloc: Global, bytes: &[u8]) -> io::Result<MemImage> {
    let bytes = Vec::from_slice(alloc, bytes)?;
    Ok(MemImage { bytes })
}

/// What is said to a client of which this is heard.
fn said(alloc: Global, images: &Pictured, heard: &[u8]) -> io::Result<Vec<u8>> {
    let origin = image_of(alloc, images.origin.as_slice())?;
    let mut cow = image_of(alloc, images.store.as_slice())?;
    let Ok(Told::Written(map)) = read_store(alloc, &mut cow, SECTORS) else {
        return Err(io::ErrorKind::InvalidData.into());
    };
    let mut reader = heard;
    let mut writer = Vec::new(alloc);
    match serve_written(
        alloc,
        origin,
        cow,
        map,
        SECTORS,
        &mut Still,
        &mut reader,
        &mut writer,
    ) {
        Ok(()) => Ok(writer),
        Err(_) => Err(io::ErrorKind::Other.into()),
    }
}

/// Whether a client that leaves after any byte is told a front of what is wanted, and after more bytes no less.
fn is_front_everywhere(
    alloc: Global,
    images: &Pictured,
    heard: &[u8],
    wanted: &[u8],
) -> io::Result<bool> {
    let mut most = 0;
    for end in 0..heard.len() {
        let answer = said(alloc, images, &heard[..end])?;
        if !wanted.starts_with(answer.as_slice()) || answer.len() < most {
            return Ok(false);
        }
        most = answer.len();
    }
    Ok(true)
}

/// What becomes of a client of which this is heard, and to which that is to be said.
pub fn judge(alloc: Global, images: &Pictured, heard: &[u8], wanted: &[u8]) -> io::Result<Verdict> {
    let answer = said(alloc, images, heard)?;
    if answer.as_slice() != wanted {
        return Ok(Verdict::Differs);
    }
    if !is_front_everywhere(alloc, images, heard, wanted)? {
        return Ok(Verdict::DiffersInFront);
    }
    Ok(Verdict::Well)
}
