// The journal of a volume.
ghost use Rattle.std.specs.Prelude.{◌≡◌, IfErr};
ghost use Rattle.sector.specs.declared.refusal.Refusal.TheVariants.{NoMemory};

use crate::origin::NamedVolume;
use sector::Refusal;

impl NamedVolume {
    /// Folds the journal, so that it has room again, whatever is in flight; no device is touched. `NoMemory` where the allocator
    /// refuses what is needed for that, and then nothing changed.
    pub fn checkpoint(&mut self) -> Result<(), Refusal>
        ensures same { self.new ≡ self.old }
        ensures err { IfErr result (λ e. e ≡ NoMemory) }
    {
        self.volume.checkpoint()
    }
}
