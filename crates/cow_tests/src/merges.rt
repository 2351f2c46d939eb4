// Stores are merged, and merges are stopped.

use crate::merge_images::{
    Run, WRITTEN_ORIGIN, WRITTEN_SHOWN, WRITTEN_STORE, bytes_of, two_areas, two_areas_origin,
    two_areas_shown,
};
use crate::torn::{Torn, TornFile, TornFiles};
use cow_image::{CowMap, Told, export, read_store};
use cow_merge::{Room, Stopped, merge};
use image::{FilePair, MemFile, MemFiles, MemImage, MemSink};
use std::alloc::Global;
use std::process::Abort;
use std::test::Fail;

// An origin, its store, and what they show.
#[derive(Drop)]
struct Case {
    origin: Vec<u8>,
    store: Vec<u8>,
    shown: Vec<u8>,
}

// The kernel's.
fn kernel(alloc: Global) -> Result<Case, Fail> {
    let of = |runs: &[Run]| bytes_of(alloc, runs);
    Ok(Case {
        origin: of(WRITTEN_ORIGIN)?,
        store: of(WRITTEN_STORE)?,
        shown: of(WRITTEN_SHOWN)?,
    })
}

// Over two areas.
fn two(alloc: Global) -> Result<Case, Fail> {
    Ok(Case {
        origin: two_areas_origin(alloc)?,
        store: two_areas(alloc)?,
        shown: two_areas_shown(alloc)?,
    })
}

// The map of a store, for an origin of so many bytes.
fn map_of(rt: &(impl Abort + AllocGlobal), store: &[u8], bytes: usize) -> Result<CowMap, Fail> {
    let mut cow = MemImage {
        bytes: store.to_vec(rt.alloc())?,
    };
    match read_store(rt.alloc(), &mut cow, bytes as u64 / 512)? {
        Told::Written(map) => Ok(map),
        _ => rt.abort(),
    }
}

// What an origin and a store show.
fn shown_by(rt: &(impl Abort + AllocGlobal), origin: &[u8], store: &[u8]) -> Result<Vec<u8>, Fail> {
    let map = map_of(rt, store, origin.len())?;
    let mut cow = MemImage {
        bytes: store.to_vec(rt.alloc())?,
    };
    let sectors = origin.len() as u64 / 512;
    let mut origin = MemImage {
        bytes: origin.to_vec(rt.alloc())?,
    };
    let mut sink = MemSink {
        bytes: Vec::new(rt.alloc()),
        room: 1_000_000,
    };
    if 1_000_000 < sectors {
        return rt.abort();
    }
    export(rt.alloc(), &mut origin, &mut cow, &map, sectors, &mut sink)?;
    Ok(sink.bytes)
}

// Merges files that fail once, and tells how that ended.
fn merged(
    rt: &(impl Abort + AllocGlobal),
    files: &mut TornFiles,
) -> Result<Result<(), Stopped>, Fail> {
    let bytes = files.origin.now.len();
    let map = map_of(rt, files.store.now.as_slice(), bytes)?;
    let room = Room::new(rt.alloc(), map.chunk)?;
    Ok(merge(files, &map, bytes as u64 / 512, room))
}

// The files of a case, of which the operation after so many others fails.
fn files_of(
    alloc: Global,
    origin: Vec<u8>,
    store: Vec<u8>,
    left: u64,
    torn: Torn,
) -> Result<TornFiles, Fail> {
    Ok(TornFiles {
        origin: TornFile::of(alloc, origin)?,
        store: TornFile::of(alloc, store)?,
        left,
        torn,
    })
}

// Merges to the end, and sees that all is there and no pair is left.
fn merge_to_the_end(
    rt: &(impl Abort + AllocGlobal),
    origin: Vec<u8>,
    store: Vec<u8>,
    shown: &[u8],
) -> Result<(), Fail> {
    let mut files = files_of(rt.alloc(), origin, store, 0, Torn::Old)?;
    merge_again(rt, &mut files, shown)
}

// Merges files as they are, to the end.
fn merge_again(
    rt: &(impl Abort + AllocGlobal),
    files: &mut TornFiles,
    shown: &[u8],
) -> Result<(), Fail> {
    assert!(rt; merged(rt, files)?.is_ok());
    assert!(rt; files.origin.synced.as_slice() == shown);
    let map = map_of(rt, files.store.synced.as_slice(), shown.len())?;
    assert!(rt; map.pairs.len() == 0);
    assert!(rt; map.current == 0);
    Ok(())
}

// A merge that is stopped at an operation, and done again: whether there was such an operation.
fn stop_at(
    rt: &(impl Abort + AllocGlobal),
    case: &Case,
    left: u64,
    torn: Torn,
) -> Result<bool, Fail> {
    let alloc = rt.alloc();
    let origin = case.origin.to_vec(alloc)?;
    let store = case.store.to_vec(alloc)?;
    let shown = case.shown.as_slice();
    let mut files = files_of(alloc, origin, store, left, torn)?;
    if merged(rt, &mut files)?.is_ok() {
        return Ok(false);
    }
    let (origin, store) = files.stopped(alloc)?;
    let again = shown_by(rt, origin.as_slice(), store.as_slice())?;
    assert!(rt; again.as_slice() == shown, "stop {left} {torn:?}");
    merge_to_the_end(rt, origin, store, shown)?;
    Ok(true)
}

// A merge of which an operation fails, and then one over the same files, of which another fails or none: whether there
// were such operations. What is read between is what was written, also where a sync failed and lost it.
fn fail_at(
    rt: &(impl Abort + AllocGlobal),
    case: &Case,
    first: u64,
    second: u64,
) -> Result<bool, Fail> {
    let alloc = rt.alloc();
    let origin = case.origin.to_vec(alloc)?;
    let store = case.store.to_vec(alloc)?;
    let shown = case.shown.as_slice();
    let mut files = files_of(alloc, origin, store, first, Torn::Old)?;
    if merged(rt, &mut files)?.is_ok() {
        return Ok(false);
    }
    files.left = second;
    if second == 0 {
        merge_again(rt, &mut files, shown)?;
        return Ok(true);
    }
    if merged(rt, &mut files)?.is_ok() {
        return Ok(false);
    }
    let (origin, store) = files.stopped(alloc)?;
    let again = shown_by(rt, origin.as_slice(), store.as_slice())?;
    assert!(rt;
        again.as_slice() == shown,
        "failed at {first} and at {second}"
    );
    Ok(true)
}

/// The ways in which a stop tears.
const WAYS: [Torn; 4] = [Torn::Old, Torn::New, Torn::First, Torn::Last];

#[test]
fn a_kernel_s_snapshot_is_merged_to_what_it_showed(rt: HostRuntime) -> Result<(), Fail> {
    let Case {
        origin,
        store,
        shown,
    } = kernel(rt.alloc())?;
    merge_to_the_end(&rt, origin, store, shown.as_slice())
}

#[test]
fn two_areas_are_merged(rt: HostRuntime) -> Result<(), Fail> {
    let Case {
        origin,
        store,
        shown,
    } = two(rt.alloc())?;
    merge_to_the_end(&rt, origin, store, shown.as_slice())
}

#[test]
fn files_in_memory_are_merged(rt: HostRuntime) -> Result<(), Fail> {
    let Case {
        origin,
        store,
        shown,
    } = two(rt.alloc())?;
    let map = map_of(&rt, store.as_slice(), origin.len())?;
    let room = Room::new(rt.alloc(), map.chunk)?;
    let sectors = origin.len() as u64 / 512;
    let first = MemFile::new(rt.alloc(), origin)?;
    let second = MemFile::new(rt.alloc(), store)?;
    let mut files = MemFiles::new(rt.alloc(), FilePair { first, second });
    assert!(rt; merge(&mut files, &map, sectors, room).is_ok());
    assert!(rt; files.files.first.synced.as_slice() == shown.as_slice());
    let map = map_of(&rt, files.files.second.synced.as_slice(), shown.len())?;
    assert!(rt; map.pairs.len() == 0);
    Ok(())
}

#[test]
fn a_kernel_s_snapshot_is_stopped_anywhere(rt: HostRuntime) -> Result<(), Fail> {
    let case = kernel(rt.alloc())?;
    let mut stops: u64 = 0;
    for left in 1..40 {
        for torn in WAYS {
            if stop_at(&rt, &case, left, torn)? {
                stops = stops.saturating_add(1);
            }
        }
    }
    assert!(rt; stops == 40);
    Ok(())
}

#[test]
fn two_areas_are_stopped_anywhere(rt: HostRuntime) -> Result<(), Fail> {
    let case = two(rt.alloc())?;
    let mut stops: u64 = 0;
    for left in 1..120 {
        for torn in WAYS {
            if stop_at(&rt, &case, left, torn)? {
                stops = stops.saturating_add(1);
            }
        }
    }
    assert!(rt; stops == 352);
    Ok(())
}

#[test]
fn a_merge_goes_on_where_an_operation_failed(rt: HostRuntime) -> Result<(), Fail> {
    let case = kernel(rt.alloc())?;
    let mut fails: u64 = 0;
    for first in 1..17 {
        for second in 0..17 {
            if fail_at(&rt, &case, first, second)? {
                fails = fails.saturating_add(1);
            }
        }
    }
    assert!(rt; fails == 106);
    Ok(())
}
