// The layers of a volume's devices, which know of time.
ghost use Rattle.std.specs.Prelude.{◌≡◌};
ghost use Rattle.layers.specs.Ticks.{layers_ticked};
ghost use Rattle.whole_commands.specs.MergedMoments.{merged_relayered};
ghost use Rattle.volume_commands.specs.ChangesLayers.{ChangesLayers};
ghost use Rattle.volume_commands.specs.Rested.{merged_of};

use crate::Resting;
use layers::Layered;

impl<B: Layered> Resting<B> {
    /// Lets so many seconds pass for the layers of every device, the merging store among them. Nothing else that callers see changes.
    pub fn tick(&mut self, seconds: u32)
        ensures moved { merged_of B.contents B.layers self.new.rested ≡ merged_relayered (layers_ticked seconds) (merged_of B.contents B.layers self.old.rested) }
        ensures rest { ChangesLayers B.contents B.layers B.size self.old.rested self.new.rested }
        ensures taken { self.new.taken ≡ self.old.taken }
    {
        self.volume.tick(seconds)
    }
}
