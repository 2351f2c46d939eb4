// What changes a volume between requests, and what it comes to in the journal.
ghost use Rattle.std.specs.Prelude.{◌≡◌, ◌++◌, ◌∷◌, [], IfErr, IfOk, OnErr, OnOk, false};
ghost use Rattle.volume.specs.DoesFinishMerge.{DoesFinishMerge};
ghost use Rattle.volume.specs.DoesMessage.{DoesMessage};
ghost use Rattle.volume.specs.DoesResumeMerge.{DoesResumeMerge};
ghost use Rattle.volume.specs.DoesTick.{DoesTick};
ghost use Rattle.volume.specs.Finishing.{finish_refusal};
ghost use Rattle.audited_volume.specs.declared.entry.Entry.TheVariants.{Finished};
ghost use Rattle.audited_volume.specs.PlacesTaken.{IsUnchanged, KeepsJournal, is_full_by};

use crate::Audit;
use crate::entry::Entry;
use crate::holding::is_full;
use layers::{Answer, Layered, Message};
use plain_machine::Dev;
use sector::Refusal;
use snapshot::StoreDev;

impl<B: Layered> Audit<B> {
    /// Lets so many seconds pass for the layers of every device.
    pub fn tick(&mut self, seconds: u32)
        ensures same { KeepsJournal self.old self.new }
        ensures does { DoesTick B.may_hold (record { contents = B.contents; durable = B.durable; size = B.size; faults = B.fault_count; done = B.done_count }) B.layers seconds self.old.volume self.new.volume }
    {
        self.volume.tick(seconds)
    }

    /// Tells a layer of one of the devices a message.
    pub fn message(&mut self, dev: Dev, depth: usize, message: &Message) -> Result<Answer, Refusal>
        ensures same { KeepsJournal self.old self.new }
        ensures does { DoesMessage B.may_hold (record { contents = B.contents; durable = B.durable; size = B.size; faults = B.fault_count; done = B.done_count }) B.layers dev depth message.now result self.old.volume self.new.volume }
    {
        self.volume.message(dev, depth, message)
    }

    /// Lets a merge that failed go on. `NotMerging` where none is begun.
    pub fn resume_merge(&mut self) -> Result<(), Refusal>
        ensures same { KeepsJournal self.old self.new }
        ensures does { DoesResumeMerge B.contents B.layers result self.old.volume self.new.volume }
        ensures err { OnErr result (self.new ≡ self.old) }
    {
        self.volume.resume_merge()
    }

    /// Takes a merge out that came to its end, and gives the device of its store back. `JournalFull` comes first; then the
    /// volume's own refusals.
    #[tactic(auto, using(volume::proofs::Between::not_finished))]
    pub fn finish_merge(&mut self) -> Result<StoreDev<B>, Refusal>
        ensures noted { IfOk result (λ _. self.new ≡ record self.old { volume = self.new.volume; entries = self.old.entries ++ Finished ∷ [] }) }
        ensures room { OnOk result (is_full_by 1 self.old ≡ false) }
        ensures does { DoesFinishMerge B.may_hold B.contents B.layers B.size result self.old.volume self.new.volume }
        ensures err { IfErr result (λ refusal. IsUnchanged (is_full_by 1 self.old) (finish_refusal self.old.volume) refusal × (self.new ≡ self.old)) }
    {
        if is_full(
            self.taken,
            self.entries.len(),
            self.held.len(),
            self.lives.as_slice(),
            self.may.as_slice(),
            1,
        ) {
            return Err(Refusal::JournalFull);
        }
        match self.volume.finish_merge() {
            Ok(store) => {
                self.entries.push_reserved(Entry::Finished);
                Ok(store)
            }
            Err(refusal) => Err(refusal),
        }
    }
}
