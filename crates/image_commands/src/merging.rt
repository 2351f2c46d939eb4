// A snapshot's copies are taken back into its origin, in place.

use crate::commands::seen_both;
use crate::ended::Ended;
use crate::printing::printed;
use cow_image::{CowMap, Told, read_store};
use cow_merge::{ORIGIN, Room, Stopped};
use cow_reports::{Seen, is_good, push_bytes, push_left, push_runs, shown};
use file_calls::DiskFile;
use image_options::{Form, Telling};
use images_on_files::{Asked, DiskFiles, OriginFile, StoreFile};
use opened_files::{InPlace, Input, Teller, Trouble, WatchedFile, Why, held, name_lasts, of_input};
use std::alloc::{AllocError, Global};
use std::io;
use std::io::Write;

/// The words of a merge.
#[derive(Clone, Copy, PartialEq, Eq)]
pub struct Words<'a> {
    pub origin: &'a str,
    pub cow: &'a str,
    /// Whether nothing is to be written.
    pub dry: bool,
    pub form: Form,
    pub telling: Telling,
}

/// Merges a snapshot into its origin, or prints why its store is refused.
pub fn merge<'a, W: Write>(
    rt: &'a HostRuntime,
    words: Words<'a>,
    output: &mut W,
) -> Result<Ended<'a>, Trouble<'a>> {
    let InPlace {
        origin,
        store,
        mut inputs,
    } = InPlace::open(rt, words.origin, words.cow, words.dry, words.telling)?;
    let (size, seen) = seen_both(rt, &mut inputs)?;
    inputs.are_unchanged()?;
    let text = told_before(rt, words, &seen, size);
    let text = held(words.cow, text)?;
    printed(output, text.as_slice())?;
    let Told::Written(map) = &seen.told else {
        return Ok(Ended::of(is_good(&seen.told)));
    };
    if words.dry {
        return Ok(Ended::Good);
    }
    let bytes = bytes_of(map, size);
    let teller = Teller::new(rt, words.telling);
    let origin = WatchedFile::new(DiskFile::new(origin), teller, bytes);
    let quiet = Teller::new(rt, Telling::Never);
    let store = WatchedFile::new(DiskFile::new(store), quiet, 0);
    let files = DiskFiles::new(OriginFile(origin), StoreFile(store));
    merge_files(rt, words, files, &mut inputs.cow, map, size, output)
}

/// What is printed before anything is written: what the store holds, or why it is refused, how many bytes of an origin of so many
/// sectors will be written, and where nothing is to be written also the pairs.
fn told_before(
    rt: &HostRuntime,
    words: Words<'_>,
    seen: &Seen,
    size: u64,
) -> Result<Vec<u8>, AllocError> {
    let mut text = shown(rt.alloc(), seen, words.form)?;
    if let Told::Written(map) = &seen.told {
        push_bytes(&mut text, bytes_of(map, size), words.form)?;
        if words.dry {
            push_runs(&mut text, map.pairs.as_slice(), words.form)?;
        }
    }
    Ok(text)
}

/// Merges, and prints how many pairs are gone and how many are left.
fn merge_files<'a, W: Write>(
    rt: &'a HostRuntime,
    words: Words<'a>,
    mut files: DiskFiles<WatchedFile<'a, DiskFile>>,
    cow: &mut Input<'a>,
    map: &CowMap,
    size: u64,
    output: &mut W,
) -> Result<Ended<'a>, Trouble<'a>> {
    let text = held(words.cow, done_text(rt.alloc(), map, words.form))?;
    let Ok(room) = Room::new(rt.alloc(), map.chunk) else {
        return Err(Trouble::new(words.cow, Why::NoMemory));
    };
    name_lasts(rt, words.origin)?;
    name_lasts(rt, words.cow)?;
    let merged = cow_merge::merge(&mut files, map, size, room);
    files.origin.hush();
    if let Err(stopped) = merged {
        let _ = put_left(rt, words, cow, map, size, output);
        return Err(why_stopped(words, &files, stopped));
    }
    match printed(output, text.as_slice()) {
        Ok(()) => Ok(Ended::Good),
        Err(trouble) => Ok(Ended::Untold(trouble)),
    }
}

/// What is printed once a merge is done: all pairs of a map are gone.
fn done_text(alloc: Global, map: &CowMap, form: Form) -> Result<Vec<u8>, AllocError> {
    let gone = map.pairs.len() as u64;
    let none = CowMap {
        chunk: map.chunk,
        size: map.size,
        current: 0,
        pairs: Vec::new(alloc),
    };
    let mut text = Vec::new(alloc);
    push_left(&mut text, gone, 0, &none, form)?;
    Ok(text)
}

/// Prints how many of a map's pairs are gone, how many are left, and the store's status.
fn put_left<'a, W: Write>(
    rt: &HostRuntime,
    words: Words<'a>,
    cow: &mut Input<'a>,
    map: &CowMap,
    size: u64,
    output: &mut W,
) -> Result<(), Trouble<'a>> {
    let again = read_store(rt.alloc(), cow, size);
    let again = of_input(cow, again)?;
    let Told::Written(again) = &again else {
        return Err(Trouble::new(words.cow, Why::Changed));
    };
    let left = again.pairs.len();
    let gone = map.pairs.len().saturating_sub(left);
    let mut text = Vec::new(rt.alloc());
    held(
        words.cow,
        push_left(&mut text, gone as u64, left as u64, again, words.form),
    )?;
    printed(output, text.as_slice())
}

/// With which file a merge stopped.
fn why_stopped<'a>(
    words: Words<'a>,
    files: &DiskFiles<WatchedFile<'a, DiskFile>>,
    stopped: Stopped,
) -> Trouble<'a> {
    let Some(failed) = files.failed else {
        return Trouble::new(words.cow, Why::Changed);
    };
    let name = if failed.file == ORIGIN {
        words.origin
    } else {
        words.cow
    };
    let why = match stopped {
        Stopped::Failed(error) => why_failed(has_begun(files), failed.asked, error),
        Stopped::Changed => Why::Changed,
    };
    Trouble::new(name, why)
}

/// Whether a write of either file was asked for.
fn has_begun(files: &DiskFiles<WatchedFile<'_, DiskFile>>) -> bool {
    files.origin.has_begun() || files.store.has_begun()
}

/// What is to be said where a file failed, by whether a write was asked for. A sync that fails before all writes may have lost what
/// was copied there.
fn why_failed(begun: bool, asked: Asked, error: io::Error) -> Why {
    if asked == Asked::Sync && !begun {
        return Why::Unsynced(error);
    }
    Why::Unmerged(asked, error)
}

/// How many bytes of an origin of so many sectors a merge writes.
fn bytes_of(map: &CowMap, size: u64) -> u64 {
    let chunk = map.chunk as u64;
    let mut sectors: u64 = 0;
    for pair in map.pairs.as_slice() {
        let first = pair.old.saturating_mul(chunk);
        sectors = sectors.saturating_add(size.saturating_sub(first).min(chunk));
    }
    sectors.saturating_mul(512)
}
