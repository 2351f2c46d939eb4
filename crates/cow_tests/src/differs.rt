// Where a kernel's snapshot and its origin differ.

use crate::images::{WRITTEN_ORIGIN, WRITTEN_STORE, image_of};
use cow_image::{Told, read_store};
use cow_salvage::differences;
use std::process::Abort;
use std::test::Fail;

#[test]
fn a_kernel_s_snapshot_differs_where_its_device_showed_other_bytes(
    rt: HostRuntime,
) -> Result<(), Fail> {
    let mut origin = image_of(rt.alloc(), WRITTEN_ORIGIN)?;
    let mut cow = image_of(rt.alloc(), WRITTEN_STORE)?;
    let Told::Written(map) = read_store(rt.alloc(), &mut cow, 128)? else {
        rt.abort()
    };
    let spans = differences(rt.alloc(), &mut origin, &mut cow, &map, 128)?;
    let mut told: Vec<(u64, u64)> = Vec::new(rt.alloc());
    for span in spans.as_slice() {
        told.push((span.first, span.count))?;
    }
    let wanted: [(u64, u64); 4] = [(10, 1), (12, 1), (24, 8), (34, 16)];
    assert!(rt; told.as_slice() == wanted.as_slice());
    Ok(())
}
