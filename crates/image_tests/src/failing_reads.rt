// A read fails, and the next is served; an image changes, and none is served any more.
ghost use Rattle.std.specs.Prelude.{nat_lt};

use crate::session::{Pictured, SECTORS, image_of};
use cow_nbd::{Still, Watch, serve_fresh};
use image::FailingImage;
use std::alloc::Global;
use std::io;

// Three reads of the snapshot's byte 0 by simple replies, under cookies 1, 2 and 3.
const THREE: &[u8] = &[
    0, 0, 0, 3, 0x49, 0x48, 0x41, 0x56, 0x45, 0x4f, 0x50, 0x54, 0, 0, 0, 7, 0, 0, 0, 6, 0, 0, 0, 0,
    0, 0, 0x25, 0x60, 0x95, 0x13, 0, 0, 0, 0, 0, 0, 0, 0, 0, 0, 0, 1, 0, 0, 0, 0, 0, 0, 0, 0, 0, 0,
    0, 1, 0x25, 0x60, 0x95, 0x13, 0, 0, 0, 0, 0, 0, 0, 0, 0, 0, 0, 2, 0, 0, 0, 0, 0, 0, 0, 0, 0, 0,
    0, 1, 0x25, 0x60, 0x95, 0x13, 0, 0, 0, 0, 0, 0, 0, 0, 0, 0, 0, 3, 0, 0, 0, 0, 0, 0, 0, 0, 0, 0,
    0, 1,
];

// The three answers where the second read fails: a byte, EIO, a byte.
const SECOND_FAILED: &[u8] = &[
    0x67, 0x44, 0x66, 0x98, 0, 0, 0, 0, 0, 0, 0, 0, 0, 0, 0, 1, 0x11, 0x67, 0x44, 0x66, 0x98, 0, 0,
    0, 5, 0, 0, 0, 0, 0, 0, 0, 2, 0x67, 0x44, 0x66, 0x98, 0, 0, 0, 0, 0, 0, 0, 0, 0, 0, 0, 3, 0x11,
];

/// Whether a read that fails is answered so, and the next is served.
pub fn is_told(alloc: Global, images: &Pictured) -> io::Result<bool> {
    let below = image_of(alloc, images.origin.as_slice())?;
    let origin = FailingImage { below, left: 2 };
    let mut reader = THREE;
    let mut writer: Vec<u8> = Vec::new(alloc);
    match serve_fresh(alloc, origin, SECTORS, &mut Still, &mut reader, &mut writer) {
        Ok(()) => Ok(writer.as_slice().ends_with(SECOND_FAILED)),
        Err(_) => Err(io::ErrorKind::Other.into()),
    }
}

// The three answers where the images have changed behind the first read: a byte, EIO, EIO.
const CHANGED_BEHIND_ONE: &[u8] = &[
    0x67, 0x44, 0x66, 0x98, 0, 0, 0, 0, 0, 0, 0, 0, 0, 0, 0, 1, 0x11, 0x67, 0x44, 0x66, 0x98, 0, 0,
    0, 5, 0, 0, 0, 0, 0, 0, 0, 2, 0x67, 0x44, 0x66, 0x98, 0, 0, 0, 5, 0, 0, 0, 0, 0, 0, 0, 3,
];

// Images that have changed when they are looked at for the second time.
#[derive(Clone, Copy, Drop)]
struct Changing {
    looks: u32,
}

impl Watch for Changing {
    ghost may_change = { λ _. Unit {0} };

    ghost has_told = { λ changing. nat_lt 1 changing.looks };

    fn has_changed(&mut self) -> bool {
        self.looks = self.looks.saturating_add(1);
        1 < self.looks
    }
}

/// Whether no read is answered with bytes once the images have changed.
pub fn is_changed(alloc: Global, images: &Pictured) -> io::Result<bool> {
    let origin = image_of(alloc, images.origin.as_slice())?;
    let mut watch = Changing { looks: 0 };
    let mut reader = THREE;
    let mut writer: Vec<u8> = Vec::new(alloc);
    match serve_fresh(alloc, origin, SECTORS, &mut watch, &mut reader, &mut writer) {
        Ok(()) => Ok(writer.as_slice().ends_with(CHANGED_BEHIND_ONE)),
        Err(_) => Err(io::ErrorKind::Other.into()),
    }
}
