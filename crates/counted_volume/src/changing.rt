// What changes a volume between requests.
ghost use Rattle.std.specs.Prelude.{◌≡◌, ◌⊎◌, [], ◌∷◌, IfErr, IfOk, OnOk, Some, true};
ghost use Rattle.sector.specs.declared.refusal.Refusal.TheVariants.{JournalFull};
ghost use Rattle.device.specs.Layers.{is_loud};
ghost use Rattle.plain_machine.specs.Plain.{overflow_of};
ghost use Rattle.snapshot.specs.Opening.{shown_array};
ghost use Rattle.volume.specs.DoesAttach.{DoesAttach};
ghost use Rattle.volume.specs.DoesBeginMerge.{DoesBeginMerge};
ghost use Rattle.volume.specs.DoesDetach.{DoesDetach};
ghost use Rattle.volume.specs.DoesFinishMerge.{DoesFinishMerge};
ghost use Rattle.volume.specs.DoesMessage.{DoesMessage};
ghost use Rattle.volume.specs.DoesResumeMerge.{DoesResumeMerge};
ghost use Rattle.volume.specs.DoesTick.{DoesTick};
ghost use Rattle.volume.specs.Beginning.{IsNotBegun};
ghost use Rattle.volume.specs.Fresh.{is_fresh};
ghost use Rattle.volume.specs.Finishing.{finish_refusal};
ghost use Rattle.volume.specs.Leaving.{detach_refusal};
ghost use Rattle.volume.specs.Volumed.{is_loud_in_all, plain_of};
ghost use Rattle.audited_volume.specs.declared.entry.Entry.TheVariants.{Attached, Begun, Detached, Finished};
ghost use Rattle.audited_volume.specs.PlacesTaken.{places_for};
ghost use Rattle.counted_volume.specs.Declined.{IsUnattached};
ghost use Rattle.counted_volume.specs.GoingOn.{GoesOn};
ghost use Rattle.counted_volume.specs.Places.{kept_for_snaps};
ghost use Rattle.counted_volume.specs.TakesPlaces.{TakesPlaces, reason_of};

use crate::CountedVolume;
use crate::counted_volume::{count_live, count_may};
use audited_volume::{MAX_ENTRIES, places_needed};
use layers::{Answer, Layered, Message};
use plain_machine::{Dev, SnapId};
use sector::Refusal;
use snapshot::StoreDev;

impl<B: Layered> CountedVolume<B> {
    /// Takes a snapshot over a store, by a table line with this chunk size, and tells its number. Where `overflow` says so, a
    /// write that finds the store full is refused, and spoils nothing. It takes two places of the journal: one for its entry, and
    /// one that is kept free while it is live; and one more while it may overflow. Refused first of all where the journal is
    /// full (`JournalFull`), and the store is given back as it was; then as the volume refuses it, which after `Io` may have
    /// flushed the origin.
    #[tactic(auto, using(volume::proofs::Between::not_tried))]
    pub fn attach(
        &mut self,
        store: StoreDev<B>,
        chunk: u32,
        overflow: bool,
    ) -> Result<SnapId, (Refusal, StoreDev<B>)>
        ensures does { DoesAttach B.may_hold (record { contents = B.contents; durable = B.durable; size = B.size; faults = B.fault_count; done = B.done_count }) B.layers store chunk overflow result self.old.volume self.new.volume }
        ensures refused { IfErr result (λ e. IsUnattached B.contents B.size store chunk self.old.volume.origin self.old.volume e) }
        ensures places { TakesPlaces (places_for overflow) kept_for_snaps (reason_of result) self.old self.new }
        ensures goes_on { IfOk result (λ number. is_loud_in_all B.layers self.old.volume ≡ true → is_loud (B.layers store.device) ≡ true → GoesOn (plain_of B.contents B.layers self.old.volume) (Attached number (shown_array (B.contents self.old.volume.origin) (B.contents store.device)) (overflow_of overflow) (is_fresh (B.contents store.device)) ∷ []) (plain_of B.contents B.layers self.new.volume)) }
    {
        if self.places + count_may(&self.volume) + places_needed(overflow) > MAX_ENTRIES {
            return Err((Refusal::JournalFull, store));
        }
        match self.volume.attach(self.alloc, store, chunk, overflow) {
            Ok(number) => {
                self.places += 2;
                Ok(number)
            }
            Err(refused) => Err(refused),
        }
    }

    /// Takes a snapshot away, and gives the device of its store back. Refused first of all where the journal is full
    /// (`JournalFull`), and then as the volume refuses it; nothing changed.
    #[tactic(auto, using(volume::proofs::Between::not_detached))]
    pub fn detach(&mut self, number: SnapId) -> Result<StoreDev<B>, Refusal>
        ensures does { DoesDetach B.may_hold B.contents B.layers B.size number result self.old.volume self.new.volume }
        ensures places { TakesPlaces 1 kept_for_snaps result self.old self.new }
        ensures goes_on { OnOk result (is_loud_in_all B.layers self.old.volume ≡ true → GoesOn (plain_of B.contents B.layers self.old.volume) (Detached number ∷ []) (plain_of B.contents B.layers self.new.volume)) }
        ensures err { IfErr result (λ refusal. ((detach_refusal number self.old.volume ≡ Some refusal) ⊎ (refusal ≡ JournalFull)) × (self.new.volume ≡ self.old.volume)) }
    {
        if self.places + count_may(&self.volume) + 1 > MAX_ENTRIES {
            return Err(Refusal::JournalFull);
        }
        let live = count_live(&self.volume);
        match self.volume.detach(number) {
            Ok(store) => {
                // Its entry has the place that was kept free, if it was live.
                self.places = self.places + 1 - (live - count_live(&self.volume));
                Ok(store)
            }
            Err(refusal) => Err(refusal),
        }
    }

    /// Begins to merge a live snapshot. Refused first of all where the journal is full (`JournalFull`), and nothing changed;
    /// then as the volume refuses it.
    #[tactic(auto, using(volume::proofs::Between::not_begun))]
    pub fn begin_merge(&mut self, number: SnapId) -> Result<(), Refusal>
        ensures does { DoesBeginMerge B.may_hold B.contents B.layers B.size number result self.old.volume self.new.volume }
        ensures places { TakesPlaces 1 kept_for_snaps result self.old self.new }
        ensures goes_on { OnOk result (is_loud_in_all B.layers self.old.volume ≡ true → GoesOn (plain_of B.contents B.layers self.old.volume) (Begun number ∷ []) (plain_of B.contents B.layers self.new.volume)) }
        ensures refused { IfErr result (λ refusal. ((refusal ≡ JournalFull) × (self.new.volume ≡ self.old.volume)) ⊎ IsNotBegun number refusal self.old.volume self.new.volume) }
    {
        if self.places + count_may(&self.volume) + 1 > MAX_ENTRIES {
            return Err(Refusal::JournalFull);
        }
        // Its entry has the place that was kept free, for it was live.
        self.volume.begin_merge(self.alloc, number)
    }

    /// Lets a merge that failed go on. `NotMerging` where none is begun.
    pub fn resume_merge(&mut self) -> Result<(), Refusal>
        ensures does { DoesResumeMerge B.contents B.layers result self.old.volume self.new.volume }
        ensures taken { self.new.taken ≡ self.old.taken }
    {
        self.volume.resume_merge()
    }

    /// Takes a merge out that came to its end, and gives the device of its store back. Refused first of all where the journal is
    /// full (`JournalFull`), and then as the volume refuses it; nothing changed.
    #[tactic(auto, using(volume::proofs::Between::not_finished))]
    pub fn finish_merge(&mut self) -> Result<StoreDev<B>, Refusal>
        ensures does { DoesFinishMerge B.may_hold B.contents B.layers B.size result self.old.volume self.new.volume }
        ensures places { TakesPlaces 1 kept_for_snaps result self.old self.new }
        ensures goes_on { OnOk result (is_loud_in_all B.layers self.old.volume ≡ true → GoesOn (plain_of B.contents B.layers self.old.volume) (Finished ∷ []) (plain_of B.contents B.layers self.new.volume)) }
        ensures err { IfErr result (λ refusal. ((finish_refusal self.old.volume ≡ Some refusal) ⊎ (refusal ≡ JournalFull)) × (self.new.volume ≡ self.old.volume)) }
    {
        if self.places + count_may(&self.volume) + 1 > MAX_ENTRIES {
            return Err(Refusal::JournalFull);
        }
        match self.volume.finish_merge() {
            Ok(store) => {
                self.places += 1;
                Ok(store)
            }
            Err(refusal) => Err(refusal),
        }
    }

    /// Lets so many seconds pass for the layers of every device.
    pub fn tick(&mut self, seconds: u32)
        ensures does { DoesTick B.may_hold (record { contents = B.contents; durable = B.durable; size = B.size; faults = B.fault_count; done = B.done_count }) B.layers seconds self.old.volume self.new.volume }
        ensures taken { self.new.taken ≡ self.old.taken }
    {
        self.volume.tick(seconds)
    }

    /// Tells a layer of one of the devices a message.
    pub fn message(&mut self, dev: Dev, depth: usize, message: &Message) -> Result<Answer, Refusal>
        ensures does { DoesMessage B.may_hold (record { contents = B.contents; durable = B.durable; size = B.size; faults = B.fault_count; done = B.done_count }) B.layers dev depth message.now result self.old.volume self.new.volume }
        ensures taken { self.new.taken ≡ self.old.taken }
    {
        self.volume.message(dev, depth, message)
    }
}
