// A store with one bit flipped, beside a load of the same bytes from a disk.

use crate::images::{WRITTEN_STORE, image_of};
use cow_image::{Reason, Told, read_store};
use device::MemDisk;
use sector::{Range, Refusal};
use std::alloc::Global;
use std::test::Fail;
use store::{Loaded, open};

/// The bits of a byte.
const BITS: [u8; 8] = [1, 2, 4, 8, 16, 32, 64, 128];

/// The sectors of the origin and of the store.
const SECTORS: u64 = 128;

// What a load of these bytes answers: the chunk size of a table line is for stores that are fresh.
fn loaded(alloc: Global, bytes: &[u8]) -> Result<Result<Loaded, Refusal>, Fail> {
    let mut disk = MemDisk::new(alloc, SECTORS)?;
    if bytes.len() != 65_536 {
        return Ok(Err(Refusal::OutOfRange));
    }
    disk.load(Range::new(0, 128, SECTORS)?, bytes);
    match open(alloc, disk, 1, SECTORS) {
        Ok((_, loaded)) => Ok(Ok(loaded)),
        Err((refusal, _)) => Ok(Err(refusal)),
    }
}

// The same by what is told of an image.
fn answer_of(told: &Told) -> Result<Loaded, Refusal> {
    match told {
        Told::Fresh => Ok(Loaded::Fresh),
        Told::Written(_) => Ok(Loaded::Written),
        Told::Refused(Reason::Header(refusal)) => Err(*refusal),
        Told::Refused(Reason::NoArea(_)) | Told::Refused(Reason::Pairs(_)) => {
            Err(Refusal::Damaged)
        }
        Told::Refused(_) => Err(Refusal::StoreTooSmall),
    }
}

#[test]
fn a_flipped_bit_of_each_byte_is_judged_as_by_a_load(rt: HostRuntime) -> Result<(), Fail> {
    let mut cow = image_of(rt.alloc(), WRITTEN_STORE)?;
    let mut good = 0u32;
    // The header's sector and the area's first two, in which the listed pairs stand and the end of the list.
    for k in 0..1536 {
        let at = if k < 512 { k } else { k + 3584 };
        let bit = BITS[at % 8];
        assert!(rt; at < cow.bytes.len());
        cow.bytes[at] ^= bit;
        let told = read_store(rt.alloc(), &mut cow, SECTORS)?;
        let wanted = loaded(rt.alloc(), cow.bytes.as_slice())?;
        assert!(rt; answer_of(&told) == wanted, "byte {at} bit {bit}");
        if wanted.is_ok() {
            good = good.saturating_add(1);
        }
        assert!(rt; at < cow.bytes.len());
        cow.bytes[at] ^= bit;
    }
    assert!(rt; 1300 < good && good < 1536);
    Ok(())
}
