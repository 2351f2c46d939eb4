// Images as a Linux 6.x kernel wrote them, in runs of equal bytes; and one that is made here.

use std::alloc::{AllocError, Global};

/// So many bytes of one value.
pub type Run = (usize, u8);

/// A store of 128 sectors after five writes of its snapshot.
pub const WRITTEN_STORE: &[Run] = &[
    (1, 0x53),
    (1, 0x6e),
    (1, 0x41),
    (1, 0x70),
    (1, 1),
    (3, 0),
    (1, 1),
    (3, 0),
    (1, 8),
    (4083, 0),
    (1, 1),
    (7, 0),
    (1, 2),
    (7, 0),
    (1, 3),
    (7, 0),
    (1, 3),
    (7, 0),
    (1, 4),
    (7, 0),
    (1, 4),
    (7, 0),
    (1, 5),
    (7, 0),
    (1, 5),
    (7, 0),
    (1, 6),
    (7, 0),
    (1, 6),
    (4023, 0),
    (1024, 0x11),
    (512, 0x77),
    (512, 0x11),
    (512, 0x78),
    (1536, 0x11),
    (4096, 0x79),
    (1024, 0x11),
    (8192, 0x7a),
    (3072, 0x11),
    (36864, 0),
];

/// The origin of that store.
pub const WRITTEN_ORIGIN: &[Run] = &[(12288, 0x11), (512, 0xaa), (52736, 0x11)];

/// What the kernel's snapshot device showed of both.
pub const WRITTEN_SHOWN: &[Run] = &[
    (5120, 0x11),
    (512, 0x77),
    (512, 0x11),
    (512, 0x78),
    (5632, 0x11),
    (4096, 0x79),
    (1024, 0x11),
    (8192, 0x7a),
    (39936, 0x11),
];

/// The bytes of runs.
pub fn bytes_of(alloc: Global, runs: &[Run]) -> Result<Vec<u8>, AllocError> {
    let mut bytes = Vec::new(alloc);
    for (count, byte) in runs {
        let run = vec![in alloc; *byte; *count]?;
        bytes.extend_from_slice(run.as_slice())?;
    }
    Ok(bytes)
}

// Puts a byte into its place.
fn put(bytes: &mut [u8], at: usize, byte: u8) {
    if at < bytes.len() {
        bytes[at] = byte;
    }
}

/// A store with chunks of one sector and 40 pairs, in two areas: old chunk 60 - k has its copy in the k-th free chunk, which
/// is full of the byte 100 + k.
pub fn two_areas(alloc: Global) -> Result<Vec<u8>, AllocError> {
    let mut bytes = vec![in alloc; 0u8; 512 * 80]?;
    for (at, byte) in [0x53, 0x6e, 0x41, 0x70, 1, 0, 0, 0, 1, 0, 0, 0, 1]
        .iter()
        .enumerate()
    {
        put(&mut bytes, at, *byte);
    }
    for k in 0..40usize {
        let area = if k < 32 { 1 } else { 34 };
        let place = if k < 32 { 2 + k } else { 35 + (k - 32) };
        put(&mut bytes, 512 * area + 16 * (k % 32), 60 - k as u8);
        put(&mut bytes, 512 * area + 16 * (k % 32) + 8, place as u8);
        for at in 0..512 {
            put(&mut bytes, 512 * place + at, 100 + k as u8);
        }
    }
    Ok(bytes)
}

/// Its origin: 64 sectors of the byte 7.
pub fn two_areas_origin(alloc: Global) -> Result<Vec<u8>, AllocError> {
    vec![in alloc; 7u8; 512 * 64]
}

/// What it shows.
pub fn two_areas_shown(alloc: Global) -> Result<Vec<u8>, AllocError> {
    let mut bytes = two_areas_origin(alloc)?;
    for k in 0..40usize {
        for at in 0..512 {
            put(&mut bytes, 512 * (60 - k) + at, 100 + k as u8);
        }
    }
    Ok(bytes)
}
