// The line of a trace of a volume.
ghost use Rattle.std.specs.Prelude.{◌≡◌, Some, IfOk};
ghost use Rattle.command_semantics.specs.State.{Merging as Begun};
ghost use Rattle.command_semantics.specs.Status.{merge_state};
ghost use Rattle.device_list.specs.Trace.{IsTraced, merge_text};

use crate::origin::NamedVolume;
use crate::stored::merging_state;
use std::alloc::{AllocError, Global};
use table::StatusState;
use volume_trace::{merge_item, trace_line};
use words::Text;

impl NamedVolume {
    /// The item of a merge that is so far.
    fn merge_at(&self, alloc: Global, state: StatusState) -> Result<Text, AllocError>
        requires { (g : Begun) × (self.now.shown.merging ≡ Some g) × (state ≡ merge_state g.merge) }
        ensures { IfOk result (λ text. text ≡ merge_text self.now.shown.merging) }
    {
        match &self.merging {
            None => unreachable!(),
            Some(names) => merge_item(alloc, &names.snapshot, state),
        }
    }

    /// The item of its merge; no bytes where none is begun.
    fn trace_merge(&self, alloc: Global) -> Result<Text, AllocError>
        ensures { IfOk result (λ text. text ≡ merge_text self.now.shown.merging) }
    {
        match merging_state(&self.volume) {
            Some(state) => self.merge_at(alloc, state),
            None => Ok(Text::from_vec(Vec::new(alloc))),
        }
    }

    /// The line of a trace: the origin's name, the requests in flight, the snapshots that are lost, the copies that are not
    /// published, how far the merge is, and all events that are due, under the words that `step` takes. No bytes where there is none
    /// of them. An error says that the allocator refused room.
    pub fn trace(&self, alloc: Global) -> Result<Text, AllocError>
        ensures { IfOk result (λ text. IsTraced text self.now.shown) }
    {
        let names = self.snaps.as_slice();
        let snaps = self.volume.snaps();
        let merge = self.trace_merge(alloc)?;
        let due = self.volume.due_events(alloc)?;
        trace_line(
            alloc,
            &self.origin,
            names,
            snaps,
            self.volume.flights(),
            merge.as_slice(),
            &due,
        )
    }
}
