// The snapshots of a session are loaded, and one of them is merged.
ghost use Rattle.std.specs.Prelude.{◌≡◌, ℕ, None, Some, IfOk, IfSome, slice_index_or};
ghost use Rattle.snapshot.specs.Kept.{Kept};
ghost use Rattle.snapshot_list.specs.Finding.{place_of_snap};
ghost use Rattle.serve_files.specs.Names.{text_in};
ghost use Rattle.serve_commands.specs.Merging.{merging_name};

use crate::serving::Serving;
use crate::taking::{Taking, trouble_of};
use cow_header::Found;
use plain_machine::SnapId;
use sector::Refusal;
use serve_files::{Device, StoreFault, Trouble, Why, device_name, pushed};
use served_session::OpenedVolume;
use std::io::Write;
use volume::Volume;
use volume_opening::NotOpened;

/// A store whose snapshot is there: its file, whether the snapshot was taken just now, and how many pairs it has.
#[derive(Clone, Copy)]
pub struct Opened<'a> {
    cow: &'a str,
    is_new: bool,
    pairs: usize,
}

/// Tells of each snapshot that it is taken, merged or loaded, with its pairs.
pub fn tell_opened<E: Write>(all: &[Opened<'_>], merge: Option<&str>, errors: &mut E) {
    for one in all {
        let Opened { cow, is_new, pairs } = *one;
        let _ = if is_new {
            writeln!(errors, "taken {cow}")
        } else if merge == Some(cow) {
            writeln!(errors, "merging {cow} {pairs}")
        } else {
            writeln!(errors, "loaded {cow} {pairs}")
        };
    }
}

/// Attaches the snapshot of a store, and gives the volume and whether it was taken just now. Beside a merge none is taken: it would show what is
/// neither the origin nor the snapshot that is merged.
#[tactic(auto, using(crate::proofs::Merged::loaded_keeps, crate::proofs::Merged::written_keeps))]
fn attached<'a>(
    rt: &'a HostRuntime,
    words: Serving<'_, 'a>,
    volume: OpenedVolume<Device<'a>>,
    store: Device<'a>,
) -> Result<(OpenedVolume<Device<'a>>, bool), NotOpened>
    ensures { IfOk result (λ both. both.0.merge ≡ volume.entry.merge) }
{
    let Serving { chunk, refuse, .. } = words;
    if words.merge.is_some() {
        let volume = volume.load_written(rt.alloc(), store, chunk, refuse)?;
        return Ok((volume, false));
    }
    let (volume, found) = volume.load(rt.alloc(), store, chunk, refuse)?;
    Ok((volume, found == Found::Fresh))
}

/// Attaches the snapshots of stores to a volume, in their order.
fn attached_all<'a>(
    rt: &'a HostRuntime,
    words: Serving<'_, 'a>,
    mut volume: OpenedVolume<Device<'a>>,
    stores: Vec<Device<'a>>,
) -> Result<(OpenedVolume<Device<'a>>, Vec<Opened<'a>>), Trouble<'a>>
    ensures { IfOk result (λ both. both.0.merge ≡ volume.entry.merge) }
{
    let Serving { origin, chunk, .. } = words;
    let mut all = Vec::new(rt.alloc());
    for store in stores {
        let cow = device_name(&store);
        match attached(rt, words, volume, store) {
            Ok((next, is_new)) => {
                volume = next;
                let pairs = last_pairs(volume.volume());
                pushed(cow, &mut all, Opened { cow, is_new, pairs })?;
            }
            Err(why) => return Err(trouble_of(why, Taking { origin, cow, chunk })),
        }
    }
    Ok((volume, all))
}

/// How many pairs the last snapshot has.
fn last_pairs(volume: &Volume<Device<'_>>) -> usize {
    match volume.snaps().last() {
        Some(snap) => snap.len(),
        None => 0,
    }
}

/// How many pairs the snapshot of the store of this name had.
pub fn pairs_of(cow: &str, all: &[Opened<'_>]) -> u64 {
    for one in all {
        if one.cow == cow {
            return one.pairs as u64;
        }
    }
    0
}

/// The number of the snapshot whose store is the file of this name.
fn number_of<'a>(volume: &Volume<Device<'a>>, cow: &str) -> Option<SnapId>
    ensures { IfSome result (λ number. (k : ℕ) × (place_of_snap number volume.now.snaps ≡ Some k) × ((s : Kept _) → s ≡ slice_index_or volume.now.snaps k s → s.device.file.name.now ≡ cow.now)) }
{
    for k in 0..volume.len() {
        let snap = volume.snap(k);
        if device_name(snap.device()) == cow {
            return Some(snap.number());
        }
    }
    None
}

/// Begins to merge the snapshot of the file of this name.
#[tactic(auto, using(crate::proofs::Merged::merged_name))]
fn begun<'a>(
    rt: &'a HostRuntime,
    words: Serving<'_, 'a>,
    volume: OpenedVolume<Device<'a>>,
    cow: &'a str,
) -> Result<OpenedVolume<Device<'a>>, Trouble<'a>>
    ensures { IfOk result (λ opened. merging_name (λ device. device.file.name.now) opened.merge ≡ Some cow.now) }
{
    let Serving { origin, chunk, .. } = words;
    let Some(number) = number_of(volume.volume(), cow) else {
        let why = Why::Store(StoreFault::Refused(Refusal::NoSuchDevice));
        return Err(Trouble { name: cow, why });
    };
    match volume.merge(rt.alloc(), number) {
        Ok(volume) => Ok(volume),
        Err(why) => Err(trouble_of(why, Taking { origin, cow, chunk })),
    }
}

/// The volume of an origin with the snapshots of these stores, in their order, of which one is merged if that is asked for; and what
/// is to be told of each.
pub fn opened_volume<'a>(
    rt: &'a HostRuntime,
    words: Serving<'_, 'a>,
    origin: Device<'a>,
    stores: Vec<Device<'a>>,
) -> Result<(OpenedVolume<Device<'a>>, Vec<Opened<'a>>), Trouble<'a>>
    ensures { IfOk result (λ both. merging_name (λ device. device.file.name.now) both.0.merge ≡ text_in words.entry.merge) }
{
    let Ok(volume) = OpenedVolume::new(rt.alloc(), origin) else {
        let name = words.origin;
        let why = Why::NoMemory;
        return Err(Trouble { name, why });
    };
    let (volume, all) = attached_all(rt, words, volume, stores)?;
    match words.merge {
        Some(cow) => Ok((begun(rt, words, volume, cow)?, all)),
        None => Ok((volume, all)),
    }
}
