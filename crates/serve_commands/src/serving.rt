// An origin and its snapshots are served to a client, on standard input and output.
ghost use Rattle.std.specs.Prelude.{◌≡◌, ℕ, List, [], IfOk, OnOk, None, drop, false, map, true};
ghost use Rattle.serve_files.specs.Listing.{IsBehindHead, left_out, listed_as};
ghost use Rattle.serve_files.specs.Names.{text_in, text_of};
ghost use Rattle.volume.specs.Asking.{is_finished_in};
ghost use Rattle.serve_commands.specs.Merging.{merging_name};

use crate::ending::{end, tell_lost};
use crate::exports::exports_of;
use crate::loading::{Opened, opened_volume, tell_opened};
use crate::merging::tell_merge;
use nbd_options::Export;
use nbd_write_session::{Ended, Finish};
use serve_files::{
    AllSynced, Device, Exports, Given, Listed, OriginList, SessionFiles, Trouble, Why, has_streams,
    list_beside, session_files,
};
use served_session::ReadyArray;
use std::io::{Read, Write};
use volume::Volume;
use volume_nbd::VolumeArray;

/// The words of a session.
#[derive(Clone, Copy)]
pub struct Serving<'w, 'a> {
    pub origin: &'a str,
    pub cows: &'w [&'a str],
    /// The one of these that is merged.
    pub merge: Option<&'a str>,
    /// The sectors of a chunk, of a store that is empty.
    pub chunk: u32,
    /// Whether a write of a snapshot that finds its store full is refused.
    pub refuse: bool,
    /// Whether snapshots of the origin that are left out are given up.
    pub anyway: bool,
}

/// The list beside an origin, which names nothing that is left out, unless that is given up.
fn looked_at<'a>(rt: &HostRuntime, words: Serving<'_, 'a>) -> Result<OriginList<'a>, Trouble<'a>>
    ensures { words.entry.anyway ≡ false → IfOk result (λ list. (lines : List ℕ) × IsBehindHead lines list.text.items × (left_out (record { merge = text_in words.entry.merge; cows = map text_of words.entry.cows.now; others = false }) [] lines ≡ None)) }
{
    let list = list_beside(rt, words.origin)?;
    if !words.anyway {
        let given = Given {
            merge: words.merge,
            cows: words.cows,
            others: false,
        };
        list.is_served(rt, given)?;
    }
    Ok(list)
}

/// An origin's volume as the array of a session, its exports, and what is to be told of its snapshots.
#[derive(Drop)]
struct Prepared<'a> {
    array: ReadyArray<Device<'a>>,
    named: Vec<Export<'a>>,
    all: Vec<Opened<'a>>,
}

/// The volume of an origin and of stores, as an array with its exports.
fn prepared_array<'a>(
    rt: &'a HostRuntime,
    words: Serving<'_, 'a>,
    origin: Device<'a>,
    stores: Vec<Device<'a>>,
) -> Result<Prepared<'a>, Trouble<'a>>
    ensures { IfOk result (λ prepared. merging_name (λ device. device.file.name.now) prepared.array.volume.merge ≡ text_in words.entry.merge) }
{
    let (volume, all) = opened_volume(rt, words, origin, stores)?;
    let Exports { named, devices, .. } = exports_of(rt.alloc(), volume.volume())?;
    match ReadyArray::new(rt.alloc(), volume, devices) {
        Ok(array) => Ok(Prepared { array, named, all }),
        Err(_) => {
            let name = words.origin;
            let why = Why::NoMemory;
            Err(Trouble { name, why })
        }
    }
}

/// How a client's session ended, and what it left.
#[derive(Drop)]
struct Session<'a> {
    array: VolumeArray<Device<'a>>,
    ended: Result<Finish, Ended>,
}

/// A client is served, once the list beside the origin names what it may write.
fn served<'a, R: Read, W: Write>(
    rt: &HostRuntime,
    _listed: Listed,
    array: ReadyArray<Device<'a>>,
    named: &[Export<'a>],
    reader: &mut R,
    writer: &mut W,
) -> Session<'a> {
    let (array, ended) = array.serve(rt.alloc(), named, reader, writer);
    Session { array, ended }
}

/// Takes a store whose merge is done out of the list, and nothing where none is.
#[tactic(auto, using(crate::proofs::Merged::behind_first))]
fn unlisted<'a>(
    rt: &HostRuntime,
    cows: &[&str],
    volume: &Volume<Device<'_>>,
    list: &mut OriginList<'a>,
) -> Result<(), Trouble<'a>>
    ensures done { OnOk result (is_finished_in volume.now.merge ≡ true → list.new.text.items ≡ listed_as None (map text_of (drop 1 cows.now)) list.old.text.items) }
    ensures other { is_finished_in volume.now.merge ≡ false → list.new ≡ list.old }
{
    if !volume.is_merge_finished() {
        return Ok(());
    }
    let first = cows.len().min(1);
    list.hold(rt, None, &cows[first..])?;
    Ok(())
}

/// Serves an origin and its snapshots to the client on these streams, until it goes.
pub fn serve<'a, R: Read, W: Write, E: Write>(
    rt: &'a HostRuntime,
    words: Serving<'_, 'a>,
    reader: &mut R,
    writer: &mut W,
    errors: &mut E,
) -> Result<AllSynced, Trouble<'a>> {
    has_streams(rt)?;
    let SessionFiles {
        origin,
        stores,
        mut held,
    } = session_files(rt, words.origin, words.cows)?;
    let mut list = looked_at(rt, words)?;
    let Prepared { array, named, all } = prepared_array(rt, words, origin, stores)?;
    let listed = list.hold(rt, words.merge, words.cows)?;
    tell_opened(all.as_slice(), words.merge, errors);
    let Session { array, ended } = served(rt, listed, array, named.as_slice(), reader, writer);
    tell_lost(array.volume(), errors);
    tell_merge(array.volume(), words.merge, all.as_slice(), errors);
    let synced = end(&array, ended, held.as_mut_slice())?;
    unlisted(rt, words.cows, array.volume(), &mut list)?;
    Ok(synced)
}
