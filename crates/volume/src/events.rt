// One event of a volume.
ghost use Rattle.std.specs.Prelude.{◌≡◌, IfOk, OnErr, OnOk, is_ok, map, true};
ghost use Rattle.in_flight.specs.Kinds.{in_flight};
ghost use Rattle.volume.specs.Asking.{is_finished_in};
ghost use Rattle.volume.specs.Volumed.{is_due_of, is_loud_in_all};
ghost use Rattle.volume.specs.Stepping.{IsStepped};
ghost use Rattle.volume.specs.Stopping.{given_by};
ghost use Rattle.volume.specs.Stored.{RemovesPairs, is_finished_on};
ghost use Rattle.volume.specs.DoesStep.{DoesStep};
ghost use Rattle.volume.specs.Exact.{IsExact};
ghost use Rattle.volume.specs.Whole.{IsWhole};
ghost use Rattle.volume.specs.Closing.{ClosesBy};
ghost use Rattle.volume.specs.Lasting.{IsKept, StopsSnaps};
ghost use Rattle.volume.specs.MergeLasting.{StopsOriginOn};

use crate::Volume;
use device::Block;
use plain_machine::{Event, NotDue, Outcome};

impl<B: Block> Volume<B> {
    /// Does an event by its kind.
    #[inline(always)]
    fn step_by_kind(&mut self, event: Event) -> Result<Outcome, NotDue>
        ensures step { IfOk result (λ outcome. IsStepped B.contents B.layers B.size B.fault_count B.done_count event outcome self.old self.new) }
        ensures exact { IfOk result (λ outcome. IsExact B.contents B.layers event outcome self.old self.new) }
        ensures due { is_ok result ≡ is_due_of B.contents B.layers self.old event }
        ensures removes { IfOk result (λ outcome. RemovesPairs B.contents B.layers event outcome self.old self.new) }
        ensures stops_snaps { OnOk result (StopsSnaps B.may_hold B.layers B.size (given_by event (map in_flight self.old.flights)) self.old self.new) }
        ensures stops_origin { OnOk result (StopsOriginOn B.may_hold B.layers B.size (given_by event (map in_flight self.old.flights)) self.old.origin self.new.origin self.old.merge self.new.merge) }
        ensures closes { IfOk result (λ outcome. ClosesBy B.may_hold B.contents B.layers B.size event outcome (map in_flight self.old.flights) self.new) }
        ensures same { OnErr result (self.new ≡ self.old) }
    {
        match event {
            Event::Issue(number) => self.issue(number),
            Event::CopyRead(number) => self.copy_read(number),
            Event::CopyWrite(number) => self.copy_write(number),
            Event::ZeroNext(number) => self.zero_next(number),
            Event::WriteArea(number) => self.write_area(number),
            Event::Publish(number) => self.publish(number),
            Event::WriteInvalid(number) => self.write_invalid(number),
            Event::FlushStore(number) => self.flush_store(number),
            Event::MergeGroup => self.merge_group(),
            Event::MergeAreaRead => self.merge_area_read(),
            Event::MergeRead => self.merge_read(),
            Event::MergeWrite => self.merge_write(),
            Event::MergeFlush => self.merge_flush(),
            Event::MergeCommit => self.merge_commit(),
            Event::MergeRelease => self.merge_release(),
        }
    }

    /// Does one event, where it is due. It does at most one operation of one device, and where no device drops writes it
    /// is a step of the plain machine: only Issue replies, and every other event is not seen, or spoils the snapshot whose
    /// device failed, or snapshots whose stores are full. An Issue that does not reply is the first of a flush of the origin
    /// beside a merge, and is not seen. Whatever the devices do, a request leaves only where it is
    /// answered, and a read that is not refused is answered with as many bytes as were asked for; no snapshot is marked
    /// for a full store, and no mark is taken away; and a merge stops just where one of its own operations fails. A commit of a merge takes pairs away, and it is finished where its store's
    /// bytes have none. Where no device drops writes, and whatever of what was written since a device's last flush is lost by
    /// a stop before, within or after the event, each store is loaded again, and each sector of its array holds a value that
    /// was open for it before (one that some content which a stop may have left would show there), or that the event's own
    /// write gives; a spoiled snapshot's store whose mark is untried may be refused instead, and one whose mark was tried is.
    /// An Issue that answers a flush closes, in the sectors that every such content takes from the flushed device, all values
    /// but the present one. Where an event is not due, nothing changes at all.
    #[inline(always)]
    pub fn step(&mut self, event: Event) -> Result<Outcome, NotDue>
        ensures does { DoesStep B.may_hold B.contents B.layers B.size B.fault_count B.done_count true event result self.old self.new }
    {
        // Looks: what the type keeps, and what the stores say, is known from here on.
        let _ = &self.flights;
        self.look_at_stores();
        let result = self.step_by_kind(event);
        self.look_at_merge();
        self.look_at_stores();
        self.look_inside();
        result
    }

    /// A look at all of it, which does nothing: what its type keeps.
    fn look_inside(&self)
        ensures whole { IsWhole B.contents B.layers B.size self.now }
    {
        let _ = &self.flights;
    }

    /// A look at all of it, which does nothing, for callers: what its type keeps, of its books and of what its devices may
    /// hold after a stop.
    #[inline(always)]
    pub fn look(&self)
        ensures kept { IsKept B.may_hold B.contents B.layers B.size self.now }
    {
        let _ = &self.flights;
    }

    /// A look at its merge, which does nothing: where no device drops writes, it is finished where its store's bytes have no
    /// pair, and no group is formed.
    fn look_at_merge(&self)
        ensures finished { is_loud_in_all B.layers self.now ≡ true → is_finished_in self.now.merge ≡ is_finished_on B.contents self.now.merge }
    {
        let _ = &self.flights;
    }
}
