// A snapshot leaves a volume, or begins to be merged, and what that comes to in the journal.
ghost use Rattle.std.specs.Prelude.{◌≡◌, IfErr, OnOk, false};
ghost use Rattle.snapshot_list.specs.Finding.{place_of_snap};
ghost use Rattle.volume.specs.DoesBeginMerge.{DoesBeginMerge};
ghost use Rattle.volume.specs.DoesDetach.{DoesDetach};
ghost use Rattle.volume.specs.Leaving.{detach_refusal};
ghost use Rattle.audited_volume.specs.declared.entry.Entry.TheVariants.{Begun, Detached};
ghost use Rattle.audited_volume.specs.PlacesTaken.{HasLeft, IsNotMerged, IsUnchanged, is_full_by};

use crate::Audit;
use crate::entry::Entry;
use crate::holding::is_full;
use layers::Layered;
use plain_machine::SnapId;
use sector::Refusal;
use snapshot::StoreDev;
use volume_lifetime::LivedVolume;

/// The place of the snapshot with a number.
pub(crate) fn place_in<B: Layered>(volume: &LivedVolume<B>, number: SnapId) -> Option<usize>
    ensures { result ≡ place_of_snap number volume.now.snaps }
{
    for k in 0..volume.len() {
        if volume.snap(k).number() == number {
            return Some(k);
        }
    }
    None
}

impl<B: Layered> Audit<B> {
    /// Takes a snapshot away, and gives the device of its store back. `JournalFull` comes first; then the volume's own
    /// refusals.
    #[tactic(auto, using(volume::proofs::Between::not_detached))]
    pub fn detach(&mut self, number: SnapId) -> Result<StoreDev<B>, Refusal>
        ensures noted { OnOk result (HasLeft number (Detached number) self.old self.new) }
        ensures room { OnOk result (is_full_by 1 self.old ≡ false) }
        ensures does { DoesDetach B.may_hold B.contents B.layers B.size number result self.old.volume self.new.volume }
        ensures err { IfErr result (λ refusal. IsUnchanged (is_full_by 1 self.old) (detach_refusal number self.old.volume) refusal × (self.new ≡ self.old)) }
    {
        if is_full(
            self.taken,
            self.entries.len(),
            self.held.len(),
            self.lives.as_slice(),
            self.may.as_slice(),
            1,
        ) {
            return Err(Refusal::JournalFull);
        }
        let place = place_in(&self.volume, number);
        match self.volume.detach(number) {
            Ok(store) => {
                let Some(place) = place else { unreachable!() };
                self.lives.remove(place);
                self.may.remove(place);
                self.entries.push_reserved(Entry::Detached(number));
                Ok(store)
            }
            Err(refusal) => Err(refusal),
        }
    }

    /// Begins to merge a live snapshot: the origin shows from then on what the snapshot showed. `JournalFull` comes first;
    /// then the volume's own refusals, want of memory at last.
    #[tactic(auto, using(volume::proofs::Between::not_begun))]
    pub fn begin_merge(&mut self, number: SnapId) -> Result<(), Refusal>
        ensures noted { OnOk result (HasLeft number (Begun number) self.old self.new) }
        ensures room { OnOk result (is_full_by 1 self.old ≡ false) }
        ensures does { DoesBeginMerge B.may_hold B.contents B.layers B.size number result self.old.volume self.new.volume }
        ensures refused { IfErr result (λ refusal. IsNotMerged number refusal self.old self.new) }
    {
        if is_full(
            self.taken,
            self.entries.len(),
            self.held.len(),
            self.lives.as_slice(),
            self.may.as_slice(),
            1,
        ) {
            return Err(Refusal::JournalFull);
        }
        let place = place_in(&self.volume, number);
        match self.volume.begin_merge(self.alloc, number) {
            Ok(()) => {
                let Some(place) = place else { unreachable!() };
                self.lives.remove(place);
                self.may.remove(place);
                self.entries.push_reserved(Entry::Begun(number));
                Ok(())
            }
            Err(refusal) => Err(refusal),
        }
    }
}
