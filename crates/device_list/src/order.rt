// In what order the snapshots of a volume stand, and its stores.
ghost use Rattle.std.specs.Prelude.{◌≡◌, ◌<◌, true, length, map, AllPairs};
ghost use Rattle.volume_commands.specs.Ordered.{IsOrdered};
ghost use Rattle.command_semantics.specs.State.{merged_in};

use crate::origin::NamedVolume;

impl NamedVolume {
    /// A look at the snapshots. Whatever is in flight, each has its name, and a number above those before it. Where no device
    /// drops writes and nothing is left to do, the stores of those that are live, and that of a merge, are in order.
    pub fn look_at_snapshots(&self)
        ensures named { length self.now.shown.snaps ≡ length self.now.shown.state.snaps }
        ensures numbers { AllPairs (λ m n. m < n) (map (λ s. s.number) self.now.shown.state.snaps) }
        ensures ordered { self.now.shown.sound ≡ true → self.now.shown.quiet ≡ true → IsOrdered (merged_in self.now.shown) }
    {
        let _ = self.volume.is_quiet();
    }
}
