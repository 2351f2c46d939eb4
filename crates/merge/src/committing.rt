// An area is written without the group's slots, or the area before an empty one is read.
ghost use Rattle.std.specs.Prelude.{◌≡◌, ◌+◌, ◌-◌, ◌*◌, ◌<◌, Bool, length, take, replicate, is_ok, OnOk, IsTrue, true, false};
ghost use Rattle.sector.specs.Bytes.{with_part};
ghost use Rattle.device.specs.declared.operation.Operation.TheVariants.{Reads, Writes};
ghost use Rattle.device.specs.Layers.{is_loud};
ghost use Rattle.cow_format.specs.Places.{area_place};
ghost use Rattle.store.specs.Operations.{IsOneOperation};
ghost use Rattle.store.specs.Slots.{slot_start};
ghost use Rattle.merge.specs.Due.{can_read_area_of, can_commit_of};
ghost use Rattle.merge.specs.Lists.{changed, committed_in, copied_count};
ghost use Rattle.volume_laws.specs.MergeSteps.{CommitsGroup, ReadsArea};
ghost use Rattle.merge.specs.Merging.{books_of, due_of};
ghost use Rattle.merge.specs.Steps.{WritesArea};
ghost use Rattle.merge.specs.Devices.{KeepsBytes, KeepsDurable, KeepsSize, KeptOnErr, MayHoldNowIfLoud, SameOnErr, StaysAsLoud};

use crate::{Group, Merge, Progress};
use device::{Block, Io};

impl<B: Block> Merge<B> {
    /// Writes the current area without the slots of the group, all of whose chunks are copied, and the origin disk flushed:
    /// its pairs go. At `Io` nothing changed but the device's counts and layers.
    pub fn commit(&mut self) -> Result<(), Io>
        requires due { can_commit_of self.old.group ≡ true }

        ensures operation { IsOneOperation (Writes (self.old.state.chunk * area_place self.old.state.chunk self.old.state.current) self.old.state.chunk) (is_ok result) (B.layers self.old.device) (B.layers self.new.device) (B.fault_count self.old.device) (B.fault_count self.new.device) (B.done_count self.old.device) (B.done_count self.new.device) }
        ensures loud { StaysAsLoud B.Block self.old self.new }
        ensures written { OnOk result (IsTrue (is_loud (B.layers self.old.device)) → B.contents self.new.device ≡ with_part (B.contents self.old.device) (slot_start self.old.state.chunk self.old.state.current (self.old.state.filled - copied_count self.old.group)) (replicate (16 * copied_count self.old.group) 0)) }
        ensures same { SameOnErr B.Block result self.old self.new }
        ensures durable { KeepsDurable B.Block self.old self.new }
        ensures adds { MayHoldNowIfLoud B.Block self.old self.new }
        ensures size { KeepsSize B.Block self.old self.new }

        ensures fields { OnOk result (self.new ≡ record self.old { device = self.new.device; state = record self.old.state { filled = self.old.state.filled - copied_count self.old.group; sure = length (take (length self.old.pairs - copied_count self.old.group) self.old.pairs); copying = false }; next = area_place self.old.state.chunk self.old.state.current + (self.old.state.filled - copied_count self.old.group) + 1; pairs = take (length self.old.pairs - copied_count self.old.group) self.old.pairs; group = changed committed_in self.old.group }) }
        ensures step { OnOk result ((loud : Bool) → (loud ≡ true → is_loud (B.layers self.old.device) ≡ true) → CommitsGroup self.new.pairs (B.contents self.new.device) (due_of B.contents loud self.old) (due_of B.contents loud self.new) × WritesArea self.old.state.current (books_of B.contents loud self.old) (books_of B.contents loud self.new)) }
        ensures kept { KeptOnErr result self.old self.new }
    {
        let Some(group) = self.group else {
            unreachable!()
        };
        let last = group.first.old + (group.copied - 1) as u64;
        match self.store.merge_commit(last, group.copied) {
            Ok(()) => {
                mark_committed(&mut self.group);
                Ok(())
            }
            Err(io) => Err(io),
        }
    }

    /// Reads the area before the current one, which is empty, in its place. At `Io` nothing changed but the device's counts
    /// and layers.
    pub fn read_area(&mut self) -> Result<(), Io>
        requires due { can_read_area_of self.old ≡ true }

        ensures operation { IsOneOperation (Reads (self.old.state.chunk * area_place self.old.state.chunk (self.old.state.current - 1)) self.old.state.chunk) (is_ok result) (B.layers self.old.device) (B.layers self.new.device) (B.fault_count self.old.device) (B.fault_count self.new.device) (B.done_count self.old.device) (B.done_count self.new.device) }
        ensures loud { StaysAsLoud B.Block self.old self.new }
        ensures same { KeepsBytes B.Block self.old self.new }
        ensures durable { KeepsDurable B.Block self.old self.new }
        ensures adds { MayHoldNowIfLoud B.Block self.old self.new }
        ensures size { KeepsSize B.Block self.old self.new }

        ensures fields { OnOk result (self.new ≡ record self.old { device = self.new.device; state = record self.old.state { current = self.old.state.current - 1; filled = 32 * self.old.state.chunk; zeroed = false; firm = false; copying = false } }) }
        ensures step { OnOk result ((loud : Bool) → ReadsArea (due_of B.contents loud self.old) (due_of B.contents loud self.new)) }
        ensures kept { KeptOnErr result self.old self.new }
    {
        match self.store.merge_area_read() {
            Ok(()) => {}
            Err(io) => return Err(io),
        }
        Ok(())
    }
}

/// Counts the group's area as written without its slots.
fn mark_committed(group: &mut Option<Group>)
    ensures { group.new ≡ changed committed_in group.old }
{
    if let Some(present) = group {
        present.progress = Progress::Committed;
    }
}
