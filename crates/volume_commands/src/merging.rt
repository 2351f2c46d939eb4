// A merge of one snapshot into the origin: it begins, goes on after a fault, and is taken out at its end.
ghost use Rattle.std.specs.Prelude.{◌≡◌, ◌⊎◌, IfErr, IfSome, None, Some};
ghost use Rattle.sector.specs.declared.refusal.Refusal.TheVariants.{JournalFull};
ghost use Rattle.merge.specs.Merging.{Merging};
ghost use Rattle.volume.specs.Asking.{merging_number, merging_usage};
ghost use Rattle.volume.specs.DoesBeginMerge.{DoesBeginMerge};
ghost use Rattle.volume.specs.DoesFinishMerge.{DoesFinishMerge};
ghost use Rattle.volume.specs.DoesResumeMerge.{DoesResumeMerge};
ghost use Rattle.volume.specs.Finishing.{finish_refusal};
ghost use Rattle.volume.specs.Stepping.{has_failed};
ghost use Rattle.volume_commands.specs.SeesBeginMerge.{SeesBeginMerge};
ghost use Rattle.volume_commands.specs.SeesFinishMerge.{SeesFinishMerge};
ghost use Rattle.volume_commands.specs.SeesResumeMerge.{SeesResumeMerge};
ghost use Rattle.volume_commands.specs.Recording.{AreWhole, TakesForSnaps, TellsNoMerge};

use crate::Resting;
use chunk_alloc::Usage;
use layers::Layered;
use plain_machine::SnapId;
use sector::Refusal;
use snapshot::StoreDev;
use std::alloc::Global;

impl<B: Layered> Resting<B> {
    /// Begins to merge a live snapshot of a quiet volume into the origin, which from then on shows what the snapshot showed;
    /// the snapshot is none of the others any more. No device is asked for anything yet: `settle` does the merge.
    ///
    /// Refused, in this order: there is no such snapshot, also not as the one that is being merged (`NoSuchDevice`), a merge
    /// is begun (`MergeInProgress`), the snapshot is spoiled (`Invalid`), the volume is not quiet (`NotQuiet`), or memory is
    /// refused (`NoMemory`): all that the merge will need is taken here.
    pub fn begin_merge(&mut self, alloc: Global, number: SnapId) -> Result<(), Refusal>
        ensures does { DoesBeginMerge B.may_hold B.contents B.layers B.size number result self.old.rested.events self.new.rested.events }
        ensures seen { SeesBeginMerge B.contents B.layers number result self.old.rested self.new.rested }
        ensures whole { AreWhole self.old.rested self.new.rested }
        ensures places { TakesForSnaps result self.old self.new }
    {
        // What a quiet volume is.
        let _ = self.volume.is_quiet();
        self.volume.begin_merge(number)
    }

    /// Lets a merge that failed go on, and changes nothing of one that did not. `NotMerging` where none is begun.
    pub fn resume_merge(&mut self) -> Result<(), Refusal>
        ensures does { DoesResumeMerge B.contents B.layers result self.old.rested.events self.new.rested.events }
        ensures seen { SeesResumeMerge B.contents B.layers B.size result self.old.rested self.new.rested }
        ensures taken { self.new.taken ≡ self.old.taken }
    {
        self.volume.resume_merge()
    }

    /// Takes a merge out of a quiet volume that has no pair left, and gives the device of its store back. Of a settled volume
    /// the origin disk's own bytes are then what the origin showed: nothing is lost.
    ///
    /// Refused, in this order: no merge is begun, or a pair or a group is left (`NotFinished`), or the volume is not quiet
    /// (`NotQuiet`); then nothing changed.
    pub fn finish_merge(&mut self) -> Result<StoreDev<B>, Refusal>
        ensures does { DoesFinishMerge B.may_hold B.contents B.layers B.size result self.old.rested.events self.new.rested.events }
        ensures seen { SeesFinishMerge B.contents B.layers result self.old.rested self.new.rested }
        ensures refused { IfErr result (λ refusal. (finish_refusal self.old.rested.events ≡ Some refusal) ⊎ (refusal ≡ JournalFull)) }
        ensures whole { AreWhole self.old.rested self.new.rested }
        ensures places { TakesForSnaps result self.old self.new }
    {
        // What a quiet volume is.
        let _ = self.volume.is_quiet();
        self.volume.finish_merge()
    }

    /// The number of the snapshot that is being merged, if one is.
    pub fn merging(&self) -> Option<SnapId>
        ensures { result ≡ merging_number self.now.rested.events.merge }
    {
        self.volume.merging()
    }

    /// Whether a merge is begun that stopped at a fault, and was not resumed.
    pub fn is_merge_failed(&self) -> bool
        ensures { result ≡ has_failed self.now.rested.events.merge }
    {
        self.volume.is_merge_failed()
    }

    /// The device of the store of the snapshot that is being merged.
    pub fn merging_store(&self) -> Option<&B>
        ensures some { IfSome result (λ device. (m : Merging B) × (self.now.rested.events.merge ≡ Some m) × (device.now ≡ m.device)) }
        ensures none { TellsNoMerge result self.now.rested }
    {
        let Some(number) = self.volume.merging() else {
            return None;
        };
        match self.volume.store(number) {
            Ok(device) => Some(device),
            Err(_) => unreachable!(),
        }
    }

    /// The sectors of its own chunks, of which a piece may be a part.
    pub fn merging_chunk(&self) -> Option<u32>
        ensures some { IfSome result (λ chunk. (m : Merging B) × (self.now.rested.events.merge ≡ Some m) × (chunk ≡ m.state.chunk)) }
        ensures none { TellsNoMerge result self.now.rested }
    {
        self.volume.merging_chunk()
    }

    /// The sectors in use on its store, by the numbers that are kept in memory.
    pub fn merging_usage(&self) -> Option<Usage>
        ensures some { IfSome result (λ usage. (m : Merging B) × (self.now.rested.events.merge ≡ Some m) × (usage ≡ merging_usage m)) }
        ensures none { TellsNoMerge result self.now.rested }
    {
        let Some(number) = self.volume.merging() else {
            return None;
        };
        match self.volume.usage(number) {
            Ok(usage) => usage,
            Err(_) => unreachable!(),
        }
    }
}
