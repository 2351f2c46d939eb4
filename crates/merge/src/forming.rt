// A group is formed, and ends: by its release, or by a fault.
ghost use Rattle.std.specs.Prelude.{◌<◌, length, ◌≡◌, ℕ, Bool, List, Some, None, true, false};
ghost use Rattle.sector.specs.declared.pair.Pair.{Pair};
ghost use Rattle.store.specs.Grouping.{IsGroup};
ghost use Rattle.merge.specs.Due.{can_group_of, can_release_of};
ghost use Rattle.merge.specs.Lists.{formed, waiting_of};
ghost use Rattle.volume_laws.specs.MergeSteps.{FormsGroup, ReleasesGroup, FailsMerge, Resumes};
ghost use Rattle.merge.specs.Merging.{due_of};

use crate::{Group, Merge, Progress};
use device::Block;

impl<B: Block> Merge<B> {
    /// Forms the next group: the last pair of the current area, and those before it in that area while both chunks fall by
    /// one. All of them wait.
    pub fn form_group(&mut self)
        requires due { can_group_of self.old ≡ true }
        ensures fields { (first : Pair) × (count : ℕ) × IsGroup self.old.state.filled self.old.pairs first count × (self.new ≡ record self.old { group = Some (formed first count) }) }
        ensures step { (loud : Bool) → (kept : List Pair) × FormsGroup kept (waiting_of self.new.group) (due_of B.contents loud self.old) (due_of B.contents loud self.new) }
    {
        if let Some(run) = self.store.merge_group() {
            self.group = Some(Group {
                first: run.first,
                waiting: run.count,
                copied: 0,
                progress: Progress::Open,
            });
        }
    }

    /// Ends the group, whose slots are cleared.
    pub fn release(&mut self)
        requires due { can_release_of self.old.group ≡ true }
        ensures fields { self.new ≡ record self.old { group = None } }
        ensures step { (loud : Bool) → ReleasesGroup (due_of B.contents loud self.old) (due_of B.contents loud self.new) }
    {
        self.group = None;
    }

    /// Lets the merge fail, after one of its operations was answered by a fault, which comes before the group's area is
    /// written: the group ends, and all pairs stay.
    pub fn fail(&mut self)
        requires running { self.old.failed ≡ false }
        requires early { can_release_of self.old.group ≡ false }
        requires unfinished { 0 < length self.old.pairs }
        ensures fields { self.new ≡ record self.old { group = None; failed = true } }
        ensures step { (loud : Bool) → FailsMerge (due_of B.contents loud self.old) (due_of B.contents loud self.new) }
    {
        self.group.take();
        self.failed = true;
    }

    /// Lets a failed merge run again.
    pub fn resume(&mut self)
        requires failed { self.old.failed ≡ true }
        ensures fields { self.new ≡ record self.old { failed = false } }
        ensures step { (loud : Bool) → Resumes (due_of B.contents loud self.old) (due_of B.contents loud self.new) }
    {
        self.failed = false;
    }
}
