// What is kept of damaged stores, and what is written of them.
ghost use Rattle.std.specs.Prelude.{None};

use crate::images::{WRITTEN_ORIGIN, WRITTEN_SHOWN, WRITTEN_STORE, bytes_of, image_of};
use cow_image::Fault;
use cow_salvage::{Blanked, Span, export_kept, front_of, read_used, sift, unreadable};
use image::{Image, MemImage, MemSink};
use sector::Pair;
use std::alloc::Global;
use std::io;
use std::test::Fail;

/// The bits of a byte.
const BITS: [u8; 8] = [1, 2, 4, 8, 16, 32, 64, 128];

/// An image of which these sectors can't be read.
#[derive(Drop)]
struct Scratched {
    below: MemImage,
    first: u64,
    count: u64,
}

impl Image for Scratched {
    ghost bytes = { λ _. None };

    ghost may_fail = { λ _ _ _. Unit {0} };

    ghost may_give = { λ _ _ _. Unit {0} };

    fn len(&mut self) -> io::Result<u64> {
        self.below.len()
    }

    fn read_at(&mut self, at: u64, out: &mut [u8]) -> io::Result<()> {
        let end = at.saturating_add(out.len() as u64);
        let from = self.first.saturating_mul(512);
        let to = self.first.saturating_add(self.count).saturating_mul(512);
        if at < to && from < end {
            return Err(io::ErrorKind::Other.into());
        }
        self.below.read_at(at, out)
    }
}

// The number in eight bytes from one on, the lowest first.
fn number(bytes: &[u8], at: usize) -> u64 {
    let mut number: u64 = 0;
    for index in 0..8 {
        let byte = bytes
            .get(at.saturating_add(7 - index))
            .copied()
            .unwrap_or(0);
        number = number.wrapping_mul(256).wrapping_add(u64::from(byte));
    }
    number
}

// What the store's pairs show over the origin, as it is said in words: each pair in its turn that lies inside and is apart
// from those before is laid over the origin. The second is how many pairs are not kept.
fn plain(alloc: Global, origin: &[u8], cow: &[u8]) -> Result<(Vec<u8>, usize), Fail> {
    let mut shown = Vec::new(alloc);
    shown.extend_from_slice(origin)?;
    let mut kept: Vec<(u64, u64)> = Vec::new(alloc);
    let mut skipped: usize = 0;
    for slot in 0..256 {
        let old = number(cow, 4096 + 16 * slot);
        let new = number(cow, 4104 + 16 * slot);
        if new == 0 {
            break;
        }
        let inside = old < 16 && 1 < new && new < 16;
        if !inside || kept.iter().any(|pair| pair.0 == old || pair.1 == new) {
            skipped = skipped.saturating_add(1);
            continue;
        }
        kept.push((old, new))?;
        for index in 0..4096 {
            let from = (new as usize).saturating_mul(4096).saturating_add(index);
            let to = (old as usize).saturating_mul(4096).saturating_add(index);
            if let Some(byte) = shown.as_mut_slice().get_mut(to) {
                *byte = cow.get(from).copied().unwrap_or(0);
            }
        }
    }
    Ok((shown, skipped))
}

#[test]
fn each_flipped_bit_of_a_slot_gives_a_whole_file_and_a_list(rt: HostRuntime) -> Result<(), Fail> {
    let wanted_origin = bytes_of(rt.alloc(), WRITTEN_ORIGIN)?;
    let mut cow = image_of(rt.alloc(), WRITTEN_STORE)?;
    let mut lost = 0u32;
    for at in 4096..4180 {
        let bit = BITS[at % 8];
        assert!(rt; at < cow.bytes.len());
        cow.bytes[at] ^= bit;
        let mut origin = image_of(rt.alloc(), WRITTEN_ORIGIN)?;
        let used = read_used(rt.alloc(), &mut cow, 8, 128)?;
        let slots = used.slots.as_slice();
        let slots = &slots[..front_of(slots)];
        let mut sink = MemSink {
            bytes: Vec::new(rt.alloc()),
            room: 65536,
        };
        let saved = export_kept(
            rt.alloc(),
            &mut origin,
            &mut cow,
            8,
            128,
            128,
            slots,
            slots.len(),
            &mut sink,
        )?;
        let (shown, skipped) = plain(rt.alloc(), wanted_origin.as_slice(), cow.bytes.as_slice())?;
        assert!(rt;
            sink.bytes.as_slice() == shown.as_slice(),
            "byte {at} bit {bit}"
        );
        assert!(rt; saved.skipped.len() == skipped, "byte {at} bit {bit}");
        if 0 < skipped {
            lost = lost.saturating_add(1);
        }
        assert!(rt; at < cow.bytes.len());
        cow.bytes[at] ^= bit;
    }
    assert!(rt; 0 < lost);
    Ok(())
}

#[test]
fn an_overlapping_pair_is_skipped_with_its_reason(rt: HostRuntime) -> Result<(), Fail> {
    let mut cow = image_of(rt.alloc(), WRITTEN_STORE)?;
    assert!(rt; 4112 < cow.bytes.len());
    cow.bytes[4112] = 1;
    let used = read_used(rt.alloc(), &mut cow, 8, 128)?;
    assert!(rt; used.areas == 1);
    let sifted = sift(rt.alloc(), 8, 128, 128, used.slots.as_slice())?;
    let pair = Pair { old: 1, new: 3 };
    assert!(rt; sifted.kept.len() == 4);
    assert!(rt; sifted.skipped.as_slice() == [Fault::OldTwice { slot: 1, pair }].as_slice());
    Ok(())
}

#[test]
fn slots_behind_an_empty_one_are_found(rt: HostRuntime) -> Result<(), Fail> {
    let mut cow = image_of(rt.alloc(), WRITTEN_STORE)?;
    assert!(rt; 4120 < cow.bytes.len());
    cow.bytes[4120] = 0;
    let used = read_used(rt.alloc(), &mut cow, 8, 128)?;
    assert!(rt; used.slots.len() == 4);
    assert!(rt; front_of(used.slots.as_slice()) == 1);
    Ok(())
}

#[test]
fn sectors_that_can_t_be_read_are_told_and_give_zeros(rt: HostRuntime) -> Result<(), Fail> {
    let below = image_of(rt.alloc(), WRITTEN_SHOWN)?;
    let mut scratched = Scratched {
        below,
        first: 10,
        count: 3,
    };
    let spans = unreadable(rt.alloc(), &mut scratched, 128)?;
    let wanted = Span {
        first: 10,
        count: 3,
    };
    assert!(rt; spans.as_slice() == [wanted].as_slice());
    let mut blanked = Blanked {
        below: scratched,
        spans,
    };
    let mut room = [0xee; 4096];
    blanked.read_at(4096, room.as_mut_slice())?;
    let mut shown = bytes_of(rt.alloc(), WRITTEN_SHOWN)?;
    assert!(rt; shown.len() == 65536);
    shown.as_mut_slice()[5120..6656].fill(0);
    assert!(rt; room.as_slice() == &shown.as_slice()[4096..8192]);
    Ok(())
}
