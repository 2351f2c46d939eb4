// All chunks of a merge's group, copied back at once.
ghost use Rattle.std.specs.Prelude.{◌≡◌, Some, true, false};
ghost use Rattle.merge.specs.declared.group.Group.{Group};
ghost use Rattle.merge.specs.Merging.{Merging};
ghost use Rattle.volume.specs.Copied.{AreCopied, can_copy_group};

use crate::Volume;
use device::Block;

impl<B: Block> Volume<B> {
    /// Copies all chunks of the merge's group that wait back to the origin, as `step` reads and writes each, one after another.
    /// It does so where no other snapshot is attached, nothing is in flight, devices of this kind copy runs, no layer stands above
    /// the origin's or the merging store's, so that none of them can fail, and two chunks wait at least, each whole on the origin;
    /// else nothing changes, and it answers `false`.
    pub fn copy_group(&mut self) -> bool
        ensures answer { result ≡ can_copy_group B.copies_runs B.layers self.old }
        ensures copied { result ≡ true → (m : Merging B) → self.old.merge ≡ Some m → (g : Group) → m.group ≡ Some g → AreCopied B.may_hold B.contents B.layers B.size B.fault_count B.done_count g.waiting self.old self.new }
        ensures beside { self.new ≡ record self.old { origin = self.new.origin; merge = self.new.merge } }
        ensures same { result ≡ false → self.new ≡ self.old }
    {
        if !self.snaps.is_empty() {
            return false;
        }
        if !self.flights.is_empty() {
            return false;
        }
        match &mut self.merge {
            Some(merge) => merge.copy_chunks(&mut self.origin),
            None => false,
        }
    }
}
