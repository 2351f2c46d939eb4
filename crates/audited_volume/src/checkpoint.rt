// The journal is cut: what its entries did stands in the base from then on.
ghost use Rattle.std.specs.Prelude.{◌≡◌, IfErr, OnOk};
ghost use Rattle.sector.specs.declared.refusal.Refusal.TheVariants.{NoMemory};
ghost use Rattle.audited_volume.specs.PlacesTaken.{IsCheckpoint};

use crate::Audit;
use crate::fold::{count_attached, fold_all};
use layers::Layered;
use sector::Refusal;

impl<B: Layered> Audit<B> {
    /// Folds the entries into the base arrays, in place, and keeps each seat's count. A receipt of an entry that was folded
    /// can no longer be compared: `check` answers `Folded`. A full journal takes 65,536 entries again, in the same memory: what
    /// was taken before it began counts no more. `NoMemory` where the room for the snapshots that were taken is refused, and then nothing changed.
    pub fn checkpoint(&mut self) -> Result<(), Refusal>
        ensures ok { OnOk result (IsCheckpoint self.old self.new) }
        ensures err { IfErr result (λ refusal. (refusal ≡ NoMemory) × (self.new ≡ self.old)) }
    {
        let more = count_attached(self.entries.as_slice());
        let Ok(()) = self.base.saved.reserve(more) else {
            return Err(Refusal::NoMemory);
        };
        fold_all(&mut self.base, &mut self.entries);
        self.taken = 0;
        self.folded.copy_from_slice(self.counts.as_slice());
        Ok(())
    }
}
