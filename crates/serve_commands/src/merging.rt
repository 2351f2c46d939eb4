// The store that is merged, and what is told of its merge at the end of a session.
ghost use Rattle.std.specs.Prelude.{◌≡◌, IfNone, IfSome, None, Some};
ghost use Rattle.merge.specs.Merging.{Merging};
ghost use Rattle.volume.specs.Asking.{merging_usage};
ghost use Rattle.serve_commands.specs.Merging.{left_by};

use crate::loading::{Opened, pairs_of};
use chunk_alloc::Usage;
use serve_files::Device;
use std::io::Write;
use volume::Volume;

/// The device of the store that is merged.
#[tactic(auto, using(crate::proofs::Merged::store_of_merge, crate::proofs::Merged::no_merge, crate::proofs::Merged::not_none))]
pub fn merging_store<'v, 'a>(volume: &'v Volume<Device<'a>>) -> Option<&'v Device<'a>>
    ensures some { IfSome result (λ device. (m : Merging _) → volume.now.merge ≡ Some m → device.now ≡ m.device) }
    ensures none { IfNone result (volume.now.merge ≡ None) }
{
    let number = volume.merging()?;
    match volume.store(number) {
        Ok(device) => Some(device),
        Err(_) => None,
    }
}

/// The numbers of the status line of the snapshot that is merged.
#[tactic(auto, using(crate::proofs::Merged::usage_of_merge, crate::proofs::Merged::no_usage, crate::proofs::Merged::not_none))]
fn usage_of(volume: &Volume<Device<'_>>) -> Option<Usage>
    ensures { (m : Merging _) → volume.now.merge ≡ Some m → result ≡ Some (merging_usage m) }
{
    let number = volume.merging()?;
    match volume.usage(number) {
        Ok(usage) => usage,
        Err(_) => None,
    }
}

/// How many chunks of a merge are left, of so many when it began.
fn left_of(volume: &Volume<Device<'_>>, pairs: u64) -> u64
    ensures { (m : Merging _) → volume.now.merge ≡ Some m → result ≡ left_by pairs m.state.chunk (merging_usage m) }
{
    let (Some(usage), Some(chunk)) = (usage_of(volume), volume.merging_chunk()) else {
        return pairs;
    };
    let copies = usage.allocated.saturating_sub(usage.metadata);
    pairs.min(copies / u64::from(chunk))
}

/// Tells how far the merge of the store of this name came, if there is one.
pub fn tell_merge<E: Write>(
    volume: &Volume<Device<'_>>,
    merge: Option<&str>,
    all: &[Opened<'_>],
    errors: &mut E,
) {
    let Some(cow) = merge else {
        return;
    };
    let _ = if volume.is_merge_finished() {
        writeln!(
            errors,
            "the merge of {cow} is done: {cow} is empty, and may be removed"
        )
    } else {
        let left = left_of(volume, pairs_of(cow, all));
        writeln!(
            errors,
            "the merge of {cow} is not done: {left} chunks are left: serve with --merge {cow} again"
        )
    };
}
