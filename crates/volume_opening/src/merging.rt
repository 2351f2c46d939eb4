// A snapshot that was loaded is merged.
ghost use Rattle.std.specs.Prelude.{OnOk};
ghost use Rattle.volume_opening.specs.Merged.{IsMerged};

use crate::NotOpened;
use crate::answering::are_answered;
use device::Ahead;
use plain_machine::SnapId;
use sector::Refusal;
use std::alloc::Global;
use volume::Volume;

/// Begins to merge a snapshot into its origin, which shows from then on what the snapshot showed. No device is asked for anything.
/// Refused: where a file failed already, as `load` has it, and as the volume refuses it.
pub fn merge<B: Ahead>(
    alloc: Global,
    volume: &mut Volume<B>,
    number: SnapId,
) -> Result<(), NotOpened>
    ensures { OnOk result (IsMerged B.may_hold B.contents B.layers B.size B.failed number volume.old volume.new) }
{
    are_answered(volume)?;
    match volume.begin_merge(alloc, number) {
        Ok(()) => Ok(()),
        Err(Refusal::NoMemory) => Err(NotOpened::NoMemory),
        Err(refusal) => Err(NotOpened::Refused(refusal)),
    }
}
