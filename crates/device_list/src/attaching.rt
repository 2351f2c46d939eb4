// Snapshots are taken and leave.
ghost use Rattle.std.specs.Prelude.{◌≡◌, ◌≢◌, ◌⊎◌, ◌&&◌, ◌<◌, true, false, length, Some, None, is_some, Ok, Err, IfOk, IfErr, OnOk, OnErr, if◌then◌else◌};
ghost use Rattle.sector.specs.declared.refusal.Refusal.TheVariants.{JournalFull, Stale, MergeInProgress, NotQuiet};
ghost use Rattle.device.specs.Layers.{is_loud};
ghost use Rattle.whole_commands.specs.Refusals.{is_starved};
ghost use Rattle.command_semantics.specs.Snapshots.{meet, parted};
ghost use Rattle.device_list.specs.Asked.{IsFullIn, has_asked_much};
ghost use Rattle.device_list.specs.Names.{IsNamedMore, KeepsQuiet, KeepsSound};
ghost use Rattle.device_list.specs.Taking.{IsNotMet};

use crate::origin::NamedVolume;
use crate::stored::{look, look_at_places};
use device_stacks::{NamedStack, SnapNames};
use sector::Refusal;
use snapshot::StoreDev;
use std::alloc::Global;
use words::Name;

impl NamedVolume {
    /// Takes a snapshot of the origin, with a stack as its store, by a table line with this chunk size that says
    /// whether the store may overflow. Where a request is in flight or anything is left to do, `Stale` for a stack with a
    /// mark, `MergeInProgress` beside a merge, and else `NotQuiet`, but for `NoMemory` and `JournalFull`; then the stack is
    /// given back as it was.
    pub fn attach(
        &mut self,
        alloc: Global,
        name: Name,
        stack: NamedStack,
        chunk: u32,
        overflow: bool,
    ) -> Result<(), (Refusal, NamedStack)>
        ensures ok { OnOk result (self.old.shown.sound ≡ true → self.old.shown.quiet ≡ true → is_loud stack.device.layers ≡ true → ((meet name chunk overflow stack self.old.shown).refused ≡ None) × ((meet name chunk overflow stack self.old.shown).volume ≡ self.new.shown)) }
        ensures err { IfErr result (λ e. is_starved e.0 ≡ false → self.old.shown.sound ≡ true → self.old.shown.quiet ≡ true → is_loud stack.device.layers ≡ true → ((meet name chunk overflow stack self.old.shown).refused ≡ Some e.0) × ((meet name chunk overflow stack self.old.shown).stacked ≡ e.1)) }
        ensures busy { IfErr result (λ e. self.old.shown.quiet ≡ false → ((is_starved e.0 ≡ true) ⊎ (e.0 ≡ (if stack.stale then Stale else (if is_some self.old.shown.merging then MergeInProgress else NotQuiet)))) × (e.1 ≡ stack)) }
        ensures refused { IfErr result (λ e. IsNotMet chunk stack e.0 self.old.shown) }
        ensures starved { IfErr result (λ e. is_starved e.0 ≡ true → e.1 ≡ stack) }
        ensures named { OnOk result (IsNamedMore name overflow stack self.old.shown self.new.shown) }
        ensures names { IfErr result (λ e. e.1.names ≡ stack.names) }
        ensures same { OnErr result (self.new.shown ≡ self.old.shown) }
        ensures sound { OnOk result (self.new.shown.sound ≡ self.old.shown.sound && is_loud stack.device.layers) }
        ensures loud { IfErr result (λ e. is_loud e.1.device.layers ≡ is_loud stack.device.layers) }
        ensures quiet { KeepsQuiet self.old.shown self.new.shown }
        ensures still { OnOk result (self.old.shown.quiet ≡ true) }
        ensures full { IfErr result (λ e. e.0 ≡ JournalFull → has_asked_much self.new.shown ≡ true) }
    {
        match self.snaps.reserve(1) {
            Ok(()) => {}
            Err(_) => return Err((Refusal::NoMemory, stack)),
        }
        look(&self.volume);
        look_at_places(&self.volume);
        let loud = stack.is_loud();
        let (names, device, stale) = stack.into_parts();
        match self
            .volume
            .attach(alloc, StoreDev { device, stale }, chunk, overflow)
        {
            Ok(_) => {
                self.snaps.push_reserved(SnapNames {
                    snapshot: name,
                    store: names,
                    overflow,
                });
                self.sound = self.sound && loud;
                Ok(())
            }
            Err((refusal, store)) => Err((
                refusal,
                NamedStack::of_parts(names, store.device, store.stale),
            )),
        }
    }

    /// Takes the snapshot at a place away, and gives its store back, with a mark where the invalid mark failed. `NotQuiet`
    /// where a request is in flight or anything is left to do, `JournalFull` where the journal has no room; then nothing changed.
    pub fn detach(&mut self, k: usize) -> Result<NamedStack, Refusal>
        requires { k < length self.old.shown.snaps }
        ensures parted { IfOk result (λ stack. parted k self.old.shown ≡ Ok (stack, self.new.shown)) }
        ensures busy { IfErr result (λ e. e ≢ JournalFull → parted k self.old.shown ≡ Err e) }
        ensures same { OnErr result (self.new ≡ self.old) }
        ensures loud { IfOk result (λ stack. self.old.shown.sound ≡ true → is_loud stack.device.layers ≡ true) }
        ensures sound { KeepsSound self.old.shown self.new.shown }
        ensures full { IsFullIn result self.new.shown }
    {
        look(&self.volume);
        look_at_places(&self.volume);
        let number = self.volume.number(k);
        let given = match self.volume.detach(number) {
            Ok(given) => given,
            Err(refusal) => return Err(refusal),
        };
        let SnapNames { store, .. } = self.snaps.remove(k);
        Ok(NamedStack::of_parts(store, given.device, given.stale))
    }
}
