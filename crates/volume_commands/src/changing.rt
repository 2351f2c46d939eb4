// A snapshot is taken or leaves, and the volume is closed.
ghost use Rattle.std.specs.Prelude.{◌≡◌, ◌≢◌, ◌⊎◌, [], None, Some, IfErr, IfOk, is_some, true, false};
ghost use Rattle.sector.specs.declared.refusal.Refusal.TheVariants.{Busy, NoSuchDevice, NotQuiet};
ghost use Rattle.plain_machine.specs.declared.request.Dev.TheVariants.{Snap};
ghost use Rattle.merge.specs.Merging.{Merging};
ghost use Rattle.volume.specs.DoesAttach.{DoesAttach};
ghost use Rattle.volume.specs.DoesDetach.{DoesDetach};
ghost use Rattle.volume.specs.Leaving.{is_quiet_of};
ghost use Rattle.volume.specs.Submitting.{is_merging};
ghost use Rattle.counted_volume.specs.Declined.{IsUnattached};
ghost use Rattle.volume_commands.specs.Rested.{Attached, has_dev, snap_at};
ghost use Rattle.volume_commands.specs.SeesAttach.{SeesAttach};
ghost use Rattle.volume_commands.specs.SeesDetach.{SeesDetach};
ghost use Rattle.counted_volume.specs.Places.{kept_for_snaps};
ghost use Rattle.volume_commands.specs.Recorded.{counted_in};
ghost use Rattle.counted_volume.specs.TakesPlaces.{TakesPlaces, reason_of};
ghost use Rattle.audited_volume.specs.PlacesTaken.{places_for};
ghost use Rattle.volume_commands.specs.Recording.{AreWhole, TakesForSnaps};

use crate::Resting;
use layers::Layered;
use plain_machine::SnapId;
use sector::Refusal;
use snapshot::StoreDev;
use std::alloc::Global;

impl<B: Layered> Resting<B> {
    /// Takes a snapshot of a quiet volume over a store, by a table line with this chunk size that says whether the store may
    /// overflow, and tells its number: over a settled volume, and a store that drops no writes, it is the settled machine's
    /// attach. Where it is refused the store is
    /// given back, and nothing else changed but that after `Io` the origin may have been flushed; after `NoMemory` some of the store's sectors may have been read. A volume with a
    /// merge begun refuses with `MergeInProgress`, after `Stale`, and one that is not quiet with `NotQuiet`, after both.
    pub fn attach(
        &mut self,
        alloc: Global,
        store: StoreDev<B>,
        chunk: u32,
        overflow: bool,
    ) -> Result<SnapId, (Refusal, StoreDev<B>)>
        ensures does { DoesAttach B.may_hold (record { contents = B.contents; durable = B.durable; size = B.size; faults = B.fault_count; done = B.done_count }) B.layers store chunk overflow result self.old.rested.events self.new.rested.events }
        ensures seen { SeesAttach B.contents B.layers B.size store chunk overflow result self.old.rested self.new.rested }
        ensures refused { IfErr result (λ e. IsUnattached B.contents B.size store chunk self.old.rested.origin self.old.rested.events e) }
        ensures whole { AreWhole self.old.rested self.new.rested }
        ensures places { TakesPlaces (places_for overflow) kept_for_snaps (reason_of result) (counted_in self.old) (counted_in self.new) }
    {
        self.volume.attach(store, chunk, overflow)
    }

    /// Takes a snapshot of a quiet volume away, and gives its store back, stale where its invalid mark failed. `MergeInProgress`
    /// where it is being merged, `NoSuchDevice` where there is no such snapshot, `NotQuiet` where the volume is not quiet, and then nothing changed.
    pub fn detach(&mut self, number: SnapId) -> Result<StoreDev<B>, Refusal>
        ensures does { DoesDetach B.may_hold B.contents B.layers B.size number result self.old.rested.events self.new.rested.events }
        ensures seen { SeesDetach B.contents B.layers number result self.old.rested self.new.rested }
        ensures places { TakesForSnaps result self.old self.new }
    {
        self.volume.detach(number)
    }

    /// The device of a snapshot's store, also of the one that is being merged. `NoSuchDevice` where there is no such snapshot.
    pub fn store(&self, number: SnapId) -> Result<&B, Refusal>
        ensures ok { IfOk result (λ device. ((snap : Attached B) × (snap_at number self.now.rested.snaps ≡ Some snap) × (device.now ≡ snap.store)) ⊎ ((m : Merging B) × (self.now.rested.events.merge ≡ Some m) × (m.number ≡ number) × (device.now ≡ m.device))) }
        ensures err { IfErr result (λ refusal. (refusal ≡ NoSuchDevice) × (has_dev (Snap number) self.now.rested ≡ false) × (is_merging number self.now.rested.events.merge ≡ false)) }
    {
        match self.volume.store(number) {
            Ok(device) => Ok(device),
            Err(refusal) => Err(refusal),
        }
    }
}

impl<B: Layered + Drop> Resting<B> {
    /// Gives the origin disk back. `Busy` where a snapshot is attached or a merge is begun, and else `NotQuiet` where the volume is not quiet.
    pub fn close(self) -> Result<B, (Refusal, Resting<B>)>
        ensures ok { IfOk result (λ origin. (origin ≡ self.rested.origin) × (self.rested.snaps ≡ []) × (self.rested.events.merge ≡ None) × (is_quiet_of self.rested.events ≡ true)) }
        ensures err { IfErr result (λ e. (((e.0 ≡ Busy) × ((self.rested.snaps ≢ []) ⊎ (is_some self.rested.events.merge ≡ true))) ⊎ ((e.0 ≡ NotQuiet) × (self.rested.snaps ≡ []) × (self.rested.events.merge ≡ None) × (is_quiet_of self.rested.events ≡ false))) × (e.1 ≡ self)) }
    {
        let Resting { volume } = self;
        match volume.close() {
            Ok(origin) => Ok(origin),
            Err((refusal, volume)) => Err((refusal, Resting { volume })),
        }
    }
}
