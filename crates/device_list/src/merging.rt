// The merge of a snapshot into the origin: it begins, goes on after a fault, and is finished. No device is touched.
ghost use Rattle.std.specs.Prelude.{◌≡◌, ◌≢◌, ◌<◌, length, true, false, Ok, Err, IfErr, IfOk, OnErr, OnOk};
ghost use Rattle.sector.specs.declared.refusal.Refusal.TheVariants.{JournalFull};
ghost use Rattle.device.specs.Layers.{is_loud};
ghost use Rattle.whole_commands.specs.Refusals.{is_starved};
ghost use Rattle.command_semantics.specs.Changes.{Changes, Enters};
ghost use Rattle.command_semantics.specs.Merging.{begun, finished, resumed};
ghost use Rattle.device_list.specs.Asked.{IsFullIn};
ghost use Rattle.device_list.specs.Flights.{IsUnfinished};
ghost use Rattle.device_list.specs.Names.{IsNamedBegun, IsNamedLess, KeepsQuiet, KeepsSound};

use crate::origin::NamedVolume;
use crate::stored::{look, look_at_places};
use device_stacks::{NamedStack, SnapNames};
use sector::Refusal;
use std::alloc::Global;

impl NamedVolume {
    /// Begins to merge the snapshot at a place, which is none of the others any more. In this order: `MergeInProgress` where a
    /// merge is begun, `Invalid` for a spoiled snapshot, `NotQuiet`, `NoMemory`; then nothing that is seen changed. `JournalFull`
    /// may come before all but the first.
    pub fn begin_merge(&mut self, alloc: Global, k: usize) -> Result<(), Refusal>
        requires { k < length self.old.shown.snaps }
        ensures done { self.old.shown.sound ≡ true → Enters result self.old.shown self.new.shown (begun k self.old.shown) }
        ensures err { IfErr result (λ e. (self.new.shown ≡ self.old.shown) × (is_starved e ≡ false → begun k self.old.shown ≡ Err e)) }
        ensures named { OnOk result (IsNamedBegun k self.old.shown self.new.shown) }
        ensures sound { KeepsSound self.old.shown self.new.shown }
        ensures quiet { KeepsQuiet self.old.shown self.new.shown }
        ensures full { IsFullIn result self.new.shown }
    {
        if self.merging.is_some() {
            return Err(Refusal::MergeInProgress);
        }
        look(&self.volume);
        look_at_places(&self.volume);
        let number = self.volume.number(k);
        match self.volume.begin_merge(alloc, number) {
            Ok(()) => {
                self.merging = Some(self.snaps.remove(k));
                Ok(())
            }
            Err(refusal) => Err(refusal),
        }
    }

    /// Lets a merge that failed go on. `NotMerging` where none is begun.
    pub fn resume_merge(&mut self) -> Result<(), Refusal>
        ensures done { Changes result self.old.shown self.new.shown (resumed self.old.shown) }
    {
        self.volume.resume_merge()
    }

    /// Takes a merge that has no pair left out, and gives the stack of its store back, under its names. In this order:
    /// `JournalFull` where the journal has no room, `NotFinished` where none is begun, or a pair or a group is left, `NotQuiet`; then
    /// nothing changed.
    pub fn finish_merge(&mut self) -> Result<NamedStack, Refusal>
        ensures parted { self.old.shown.sound ≡ true → IfOk result (λ stack. finished self.old.shown ≡ Ok (stack, self.new.shown)) }
        ensures refused { self.old.shown.sound ≡ true → self.old.shown.quiet ≡ true → IfErr result (λ e. e ≢ JournalFull → finished self.old.shown ≡ Err e) }
        ensures unfinished { IfErr result (λ e. e ≢ JournalFull → IsUnfinished e self.old.shown) }
        ensures named { IfOk result (λ stack. IsNamedLess stack self.old.shown self.new.shown) }
        ensures same { OnErr result (self.new ≡ self.old) }
        ensures loud { IfOk result (λ stack. self.old.shown.sound ≡ true → is_loud stack.device.layers ≡ true) }
        ensures sound { KeepsSound self.old.shown self.new.shown }
        ensures quiet { OnOk result ((self.old.shown.quiet ≡ true) × (self.new.shown.quiet ≡ true)) }
        ensures full { IsFullIn result self.new.shown }
    {
        look(&self.volume);
        look_at_places(&self.volume);
        let given = match self.volume.finish_merge() {
            Ok(given) => given,
            Err(refusal) => return Err(refusal),
        };
        match self.merging.take() {
            Some(SnapNames { store, .. }) => {
                Ok(NamedStack::of_parts(store, given.device, given.stale))
            }
            None => unreachable!(),
        }
    }
}
