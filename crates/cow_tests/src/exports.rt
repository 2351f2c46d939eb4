// What a snapshot shows is written out.

use crate::images::{WRITTEN_ORIGIN, WRITTEN_SHOWN, WRITTEN_STORE, bytes_of, image_of};
use cow_image::{CowMap, Stopped, Told, export, export_fresh, read_store};
use image::{FailingImage, MemSink};
use std::alloc::Global;
use std::process::Abort;
use std::test::Fail;

// The map of the kernel's store.
fn map_of(rt: &(impl Abort + AllocGlobal)) -> Result<CowMap, Fail> {
    let mut cow = image_of(rt.alloc(), WRITTEN_STORE)?;
    match read_store(rt.alloc(), &mut cow, 128)? {
        Told::Written(map) => Ok(map),
        _ => rt.abort(),
    }
}

fn empty(alloc: Global, room: usize) -> MemSink {
    MemSink {
        bytes: Vec::new(alloc),
        room,
    }
}

#[test]
fn a_kernel_s_snapshot_is_exported_as_it_showed_it(rt: HostRuntime) -> Result<(), Fail> {
    let map = map_of(&rt)?;
    let mut origin = image_of(rt.alloc(), WRITTEN_ORIGIN)?;
    let mut cow = image_of(rt.alloc(), WRITTEN_STORE)?;
    let mut sink = empty(rt.alloc(), 65536);
    export(rt.alloc(), &mut origin, &mut cow, &map, 128, &mut sink)?;
    let wanted = bytes_of(rt.alloc(), WRITTEN_SHOWN)?;
    assert!(rt; sink.bytes.as_slice() == wanted.as_slice());
    Ok(())
}

#[test]
fn a_fresh_store_shows_its_origin(rt: HostRuntime) -> Result<(), Fail> {
    let mut origin = image_of(rt.alloc(), WRITTEN_ORIGIN)?;
    let mut sink = empty(rt.alloc(), 65536);
    export_fresh(rt.alloc(), &mut origin, 128, &mut sink)?;
    let wanted = bytes_of(rt.alloc(), WRITTEN_ORIGIN)?;
    assert!(rt; sink.bytes.as_slice() == wanted.as_slice());
    Ok(())
}

// Whether these bytes are the front of what the snapshot shows.
fn is_front(alloc: Global, bytes: &[u8]) -> Result<bool, Fail> {
    let wanted = bytes_of(alloc, WRITTEN_SHOWN)?;
    Ok(wanted.as_slice().starts_with(bytes))
}

#[test]
fn a_read_that_fails_leaves_a_front(rt: HostRuntime) -> Result<(), Fail> {
    let map = map_of(&rt)?;
    // The first call asks for the store's length; its copies lie in two runs, each of which is read at once.
    for (call, stops) in [(1, false), (2, true), (3, true)] {
        let mut origin = image_of(rt.alloc(), WRITTEN_ORIGIN)?;
        let below = image_of(rt.alloc(), WRITTEN_STORE)?;
        let mut cow = FailingImage { below, left: call };
        let mut sink = empty(rt.alloc(), 65536);
        let ended = export(rt.alloc(), &mut origin, &mut cow, &map, 128, &mut sink);
        assert!(rt;
            matches!(ended, Err(Stopped::Unreadable(_))) == stops,
            "call {call}"
        );
        assert!(rt; (sink.bytes.len() == 65536) != stops, "call {call}");
        assert!(rt; is_front(rt.alloc(), sink.bytes.as_slice())?, "call {call}");
    }
    Ok(())
}

#[test]
fn a_write_that_fails_leaves_a_front(rt: HostRuntime) -> Result<(), Fail> {
    let map = map_of(&rt)?;
    for room in [0, 511, 4096, 40_000, 65_535] {
        let mut origin = image_of(rt.alloc(), WRITTEN_ORIGIN)?;
        let mut cow = image_of(rt.alloc(), WRITTEN_STORE)?;
        let mut sink = empty(rt.alloc(), room);
        let ended = export(rt.alloc(), &mut origin, &mut cow, &map, 128, &mut sink);
        assert!(rt; matches!(ended, Err(Stopped::Unwritable(_))), "room {room}");
        assert!(rt; sink.bytes.len() == room);
        assert!(rt; is_front(rt.alloc(), sink.bytes.as_slice())?, "room {room}");
    }
    Ok(())
}
