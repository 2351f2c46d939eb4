// Tests by the kernel's bytes, and each call once.
ghost use Rattle.std.specs.Prelude.{◌≡◌, ◌≤◌, length, IfOk};

use crate::bytes::are_all;
use metadata_area::Area;
use sector::{Pair, Refusal};
use std::alloc::Global;
use std::test::Fail;

#[test]
fn puts_the_bytes_of_the_kernel(rt: HostRuntime) -> Result<(), Fail> {
    let mut area = Area::new(rt.alloc(), 1)?;
    let mut kernel = [0; 512];
    area.put(0, Pair { old: 3, new: 2 });
    kernel[0] = 3;
    kernel[8] = 2;
    assert!(rt; area.chunk == 1 && area.encode() == kernel.as_slice());
    area.put(1, Pair { old: 0, new: 3 });
    kernel[24] = 3;
    assert!(rt; area.chunk == 1 && area.encode() == kernel.as_slice());
    assert!(rt; area.pair(1) == Pair { old: 0, new: 3 });
    assert!(rt; area.slots() == 32 && area.first_empty() == 2);
    Ok(())
}

// The area of one sector that begins with these bytes.
fn area_of(alloc: Global, front: &[u8]) -> Result<Area, Refusal>
    requires { length front.now ≤ 512 }
    ensures { IfOk result (λ area. area.chunk ≡ 1) }
{
    let mut area = Area::new(alloc, 1)?;
    area.bytes[..front.len()].copy_from_slice(front);
    Ok(area)
}

// Slot 1 is empty whatever its old number is.
#[test]
fn a_tail_goes_and_the_slot_before_it_stays(rt: HostRuntime) -> Result<(), Fail> {
    let old =
        b"\x05\0\0\0\0\0\0\0\x02\0\0\0\0\0\0\0\x07\0\0\0\0\0\0\0\0\0\0\0\0\0\0\0\x09\0\0\0\0\0\0\0\x03";
    let mut area = area_of(rt.alloc(), old)?;
    assert!(rt; area.first_empty() == 1 && area.has_tail(1));
    area.clear_tail(1);
    assert!(rt; !area.has_tail(1));
    let mut kept = [0; 512];
    kept[0] = 5;
    kept[8] = 2;
    kept[16] = 7;
    assert!(rt; area.encode() == kept.as_slice());
    Ok(())
}

#[test]
fn clears_some_slots_or_all_that_follow(rt: HostRuntime) -> Result<(), Fail> {
    let mut area = area_of(rt.alloc(), &[1; 512])?;
    assert!(rt; area.first_empty() == 32);
    area.clear(1, 2);
    let bytes = area.encode();
    assert!(rt; are_all(&bytes[..16], 1) && are_all(&bytes[16..48], 0) && are_all(&bytes[48..], 1));
    area.clear_from(4);
    let bytes = area.encode();
    assert!(rt; are_all(&bytes[48..64], 1) && are_all(&bytes[64..], 0));
    let area = Area::decode(area.bytes, 1);
    assert!(rt; area.first_empty() == 1);
    Ok(())
}
