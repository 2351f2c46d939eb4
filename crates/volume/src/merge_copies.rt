// The events of a merge that start the copies that its next chunk waits for, each a call of its own.
ghost use Rattle.std.specs.Prelude.{◌≡◌, IfOk, OnErr, is_ok};
ghost use Rattle.plain_machine.specs.declared.event.Event.TheVariants.{MergeGroup, MergeWrite};
ghost use Rattle.volume.specs.Volumed.{is_due_of};
ghost use Rattle.volume.specs.Stepping.{IsStepped};
ghost use Rattle.volume.specs.Exact.{IsExact};
ghost use Rattle.volume.specs.Calls.{OriginLasts, SnapsLast};

use crate::Volume;
use device::{Block, Io};
use in_flight::sectors_of;
use plain_machine::{NotDue, Outcome};
use snapshot_list::{is_clear_over, route_again, save_waiting};

impl<B: Block> Volume<B> {
    /// Forms the next group of the merge, and starts in each other snapshot the copy that the group's first chunk waits for.
    /// Those whose stores are full are spoiled, and their requests refused.
    pub(crate) fn merge_group(&mut self) -> Result<Outcome, NotDue>
        ensures step { IfOk result (λ outcome. IsStepped B.contents B.layers B.size B.fault_count B.done_count MergeGroup outcome self.old self.new) }
        ensures exact { IfOk result (λ outcome. IsExact B.contents B.layers MergeGroup outcome self.old self.new) }
        ensures stops_snaps { SnapsLast B.Block result self.old self.new }
        ensures stops_origin { OriginLasts B.Block result self.old self.new }
        ensures due { is_ok result ≡ is_due_of B.contents B.layers self.old MergeGroup }
        ensures same { OnErr result (self.new ≡ self.old) }
    {
        match &mut self.merge {
            Some(merge) => {
                // A look: what the merge's looks say of its books is known from here on.
                let _ = merge.has_group();
                if !merge.can_group() {
                    return Err(NotDue);
                }
                merge.form_group();
                self.copies = save_waiting(merge, &mut self.snaps, &mut self.flights, self.copies);
                Ok(Outcome::Done)
            }
            None => Err(NotDue),
        }
    }

    /// Writes the chunk in the merge's buffer to the origin disk, where each other snapshot has published all of its chunks
    /// that this one touches, and starts the copies that the next chunk waits for, if one waits. Where the write fails, the
    /// merge stops, and held origin writes are routed again.
    #[inline(always)]
    pub(crate) fn merge_write(&mut self) -> Result<Outcome, NotDue>
        ensures step { IfOk result (λ outcome. IsStepped B.contents B.layers B.size B.fault_count B.done_count MergeWrite outcome self.old self.new) }
        ensures exact { IfOk result (λ outcome. IsExact B.contents B.layers MergeWrite outcome self.old self.new) }
        ensures stops_snaps { SnapsLast B.Block result self.old self.new }
        ensures stops_origin { OriginLasts B.Block result self.old self.new }
        ensures due { is_ok result ≡ is_due_of B.contents B.layers self.old MergeWrite }
        ensures same { OnErr result (self.new ≡ self.old) }
    {
        match &mut self.merge {
            Some(merge) => {
                let _ = merge.has_group();
                let Some(pair) = merge.full() else {
                    return Err(NotDue);
                };
                let count = sectors_of(merge.chunk(), merge.sectors(), pair.old);
                if !is_clear_over(&self.snaps, merge.chunk() as u64 * pair.old, count) {
                    return Err(NotDue);
                }
                match merge.write_chunk(&mut self.origin) {
                    Ok(()) => {
                        self.copies = save_waiting(
                            merge,
                            &mut self.snaps,
                            &mut self.flights,
                            self.copies,
                        );
                        Ok(Outcome::Done)
                    }
                    Err(Io) => {
                        merge.fail();
                        route_again(&self.snaps, &self.merge, &mut self.flights);
                        Ok(Outcome::Fault)
                    }
                }
            }
            None => Err(NotDue),
        }
    }
}
