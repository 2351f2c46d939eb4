// Images as a Linux 6.x kernel wrote them, in runs of equal bytes.

use image::MemImage;
use std::alloc::{AllocError, Global};

/// So many bytes of one value.
pub type Run = (usize, u8);

/// A store of 200 sectors with chunks of 8, in which the kernel copied chunk 3.
pub const FIRST_STORE: &[Run] = &[
    (1, 0x53),
    (1, 0x6e),
    (1, 0x41),
    (1, 0x70),
    (1, 1),
    (3, 0),
    (1, 1),
    (3, 0),
    (1, 8),
    (4083, 0),
    (1, 3),
    (7, 0),
    (1, 2),
    (4087, 0),
    (4096, 0x11),
    (90112, 0),
];

/// A store of 128 sectors after five writes of its snapshot.
pub const WRITTEN_STORE: &[Run] = &[
    (1, 0x53),
    (1, 0x6e),
    (1, 0x41),
    (1, 0x70),
    (1, 1),
    (3, 0),
    (1, 1),
    (3, 0),
    (1, 8),
    (4083, 0),
    (1, 1),
    (7, 0),
    (1, 2),
    (7, 0),
    (1, 3),
    (7, 0),
    (1, 3),
    (7, 0),
    (1, 4),
    (7, 0),
    (1, 4),
    (7, 0),
    (1, 5),
    (7, 0),
    (1, 5),
    (7, 0),
    (1, 6),
    (7, 0),
    (1, 6),
    (4023, 0),
    (1024, 0x11),
    (512, 0x77),
    (512, 0x11),
    (512, 0x78),
    (1536, 0x11),
    (4096, 0x79),
    (1024, 0x11),
    (8192, 0x7a),
    (3072, 0x11),
    (36864, 0),
];

/// The origin of that store.
pub const WRITTEN_ORIGIN: &[Run] = &[(12288, 0x11), (512, 0xaa), (52736, 0x11)];

/// What the kernel's snapshot device showed of both.
pub const WRITTEN_SHOWN: &[Run] = &[
    (5120, 0x11),
    (512, 0x77),
    (512, 0x11),
    (512, 0x78),
    (5632, 0x11),
    (4096, 0x79),
    (1024, 0x11),
    (8192, 0x7a),
    (39936, 0x11),
];

/// The bytes of runs.
pub fn bytes_of(alloc: Global, runs: &[Run]) -> Result<Vec<u8>, AllocError> {
    let mut bytes = Vec::new(alloc);
    for (count, byte) in runs {
        for _ in 0..*count {
            bytes.push(*byte)?;
        }
    }
    Ok(bytes)
}

/// The image of these bytes.
pub fn image_of(alloc: Global, runs: &[Run]) -> Result<MemImage, AllocError> {
    let bytes = bytes_of(alloc, runs)?;
    Ok(MemImage { bytes })
}
