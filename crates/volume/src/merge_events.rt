// The events of a merge that start no copies, each a call of its own.
ghost use Rattle.std.specs.Prelude.{◌≡◌, IfOk, OnErr, is_ok, true};
ghost use Rattle.plain_machine.specs.declared.event.Event.TheVariants.{MergeAreaRead, MergeCommit, MergeFlush, MergeRead, MergeRelease};
ghost use Rattle.volume.specs.Volumed.{is_due_of, is_loud_in_all};
ghost use Rattle.volume.specs.Stepping.{IsStepped};
ghost use Rattle.volume.specs.Stored.{RemovesPairs};
ghost use Rattle.volume.specs.Exact.{IsExact};
ghost use Rattle.volume.specs.Calls.{OriginLasts, SnapsLast};

use crate::Volume;
use device::{Block, Io};
use plain_machine::{NotDue, Outcome};
use snapshot_list::{is_read_due, is_release_due, route_again};

// Each of them looks first: what the merge's looks say of its books is known from there on.
impl<B: Block> Volume<B> {
    /// Reads the area of the merging store before the current one, which is empty, in its place. Where that fails, the merge
    /// stops.
    pub(crate) fn merge_area_read(&mut self) -> Result<Outcome, NotDue>
        ensures step { IfOk result (λ outcome. IsStepped B.contents B.layers B.size B.fault_count B.done_count MergeAreaRead outcome self.old self.new) }
        ensures exact { IfOk result (λ outcome. IsExact B.contents B.layers MergeAreaRead outcome self.old self.new) }
        ensures stops_snaps { SnapsLast B.Block result self.old self.new }
        ensures stops_origin { OriginLasts B.Block result self.old self.new }
        ensures due { is_ok result ≡ is_due_of B.contents B.layers self.old MergeAreaRead }
        ensures same { OnErr result (self.new ≡ self.old) }
    {
        match &mut self.merge {
            Some(merge) => {
                let _ = merge.has_group();
                if !merge.can_read_area() {
                    return Err(NotDue);
                }
                match merge.read_area() {
                    Ok(()) => Ok(Outcome::Done),
                    Err(Io) => {
                        merge.fail();
                        route_again(&self.snaps, &self.merge, &mut self.flights);
                        Ok(Outcome::Fault)
                    }
                }
            }
            None => Err(NotDue),
        }
    }

    /// Reads the chunk of the last pair that waits from its place on the merging store into the buffer, where no write in
    /// flight goes to that place. Where that fails, the merge stops.
    #[inline(always)]
    pub(crate) fn merge_read(&mut self) -> Result<Outcome, NotDue>
        ensures step { IfOk result (λ outcome. IsStepped B.contents B.layers B.size B.fault_count B.done_count MergeRead outcome self.old self.new) }
        ensures exact { IfOk result (λ outcome. IsExact B.contents B.layers MergeRead outcome self.old self.new) }
        ensures stops_snaps { SnapsLast B.Block result self.old self.new }
        ensures stops_origin { OriginLasts B.Block result self.old self.new }
        ensures due { is_ok result ≡ is_due_of B.contents B.layers self.old MergeRead }
        ensures same { OnErr result (self.new ≡ self.old) }
    {
        match &mut self.merge {
            Some(merge) => {
                let _ = merge.has_group();
                if !is_read_due(merge, &self.flights) {
                    return Err(NotDue);
                }
                match merge.read_chunk() {
                    Ok(()) => Ok(Outcome::Done),
                    Err(Io) => {
                        merge.fail();
                        route_again(&self.snaps, &self.merge, &mut self.flights);
                        Ok(Outcome::Fault)
                    }
                }
            }
            None => Err(NotDue),
        }
    }

    /// Flushes the origin disk, to which all chunks of the merge's group are copied. Where that fails, the merge stops.
    #[inline(always)]
    pub(crate) fn merge_flush(&mut self) -> Result<Outcome, NotDue>
        ensures step { IfOk result (λ outcome. IsStepped B.contents B.layers B.size B.fault_count B.done_count MergeFlush outcome self.old self.new) }
        ensures exact { IfOk result (λ outcome. IsExact B.contents B.layers MergeFlush outcome self.old self.new) }
        ensures stops_snaps { SnapsLast B.Block result self.old self.new }
        ensures stops_origin { OriginLasts B.Block result self.old self.new }
        ensures due { is_ok result ≡ is_due_of B.contents B.layers self.old MergeFlush }
        ensures same { OnErr result (self.new ≡ self.old) }
    {
        match &mut self.merge {
            Some(merge) => {
                let _ = merge.has_group();
                if !merge.can_flush() {
                    return Err(NotDue);
                }
                match merge.flush(&mut self.origin) {
                    Ok(()) => Ok(Outcome::Done),
                    Err(Io) => {
                        merge.fail();
                        route_again(&self.snaps, &self.merge, &mut self.flights);
                        Ok(Outcome::Fault)
                    }
                }
            }
            None => Err(NotDue),
        }
    }

    /// Writes the area of the merging store without the slots of the group, all of whose chunks are copied, and the origin
    /// disk flushed. Where that fails, the merge stops.
    #[inline(always)]
    pub(crate) fn merge_commit(&mut self) -> Result<Outcome, NotDue>
        ensures step { IfOk result (λ outcome. IsStepped B.contents B.layers B.size B.fault_count B.done_count MergeCommit outcome self.old self.new) }
        ensures exact { IfOk result (λ outcome. IsExact B.contents B.layers MergeCommit outcome self.old self.new) }
        ensures stops_snaps { SnapsLast B.Block result self.old self.new }
        ensures stops_origin { OriginLasts B.Block result self.old self.new }
        ensures due { is_ok result ≡ is_due_of B.contents B.layers self.old MergeCommit }
        ensures removes { IfOk result (λ outcome. RemovesPairs B.contents B.layers MergeCommit outcome self.old self.new) }
        ensures same { OnErr result (self.new ≡ self.old) }
    {
        match &mut self.merge {
            Some(merge) => {
                let _ = merge.has_group();
                if !merge.can_commit() {
                    return Err(NotDue);
                }
                merge.look_at_store();
                match merge.commit() {
                    Ok(()) => Ok(Outcome::Done),
                    Err(Io) => {
                        merge.fail();
                        route_again(&self.snaps, &self.merge, &mut self.flights);
                        Ok(Outcome::Fault)
                    }
                }
            }
            None => Err(NotDue),
        }
    }

    /// Ends the group, whose slots are cleared, where no origin request in flight goes to a place of it, and routes held
    /// origin writes again.
    #[inline(always)]
    pub(crate) fn merge_release(&mut self) -> Result<Outcome, NotDue>
        ensures step { IfOk result (λ outcome. IsStepped B.contents B.layers B.size B.fault_count B.done_count MergeRelease outcome self.old self.new) }
        ensures exact { IfOk result (λ outcome. IsExact B.contents B.layers MergeRelease outcome self.old self.new) }
        ensures stops_snaps { SnapsLast B.Block result self.old self.new }
        ensures stops_origin { OriginLasts B.Block result self.old self.new }
        ensures due { is_ok result ≡ is_due_of B.contents B.layers self.old MergeRelease }
        ensures same { OnErr result (self.new ≡ self.old) }
    {
        match &mut self.merge {
            Some(merge) => {
                let _ = merge.has_group();
                if !is_release_due(merge, &self.flights) {
                    return Err(NotDue);
                }
                merge.release();
                route_again(&self.snaps, &self.merge, &mut self.flights);
                Ok(Outcome::Done)
            }
            None => Err(NotDue),
        }
    }
}
