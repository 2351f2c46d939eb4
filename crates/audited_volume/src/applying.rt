// The events of a volume, each with what it comes to in the journal.
ghost use Rattle.std.specs.Prelude.{◌≢◌, ℕ, IfOk, true};
ghost use Rattle.plain_machine.specs.declared.event.Event.TheVariants.{Issue};
ghost use Rattle.volume.specs.DoesStep.{DoesStep};
ghost use Rattle.audited_volume.specs.PlacesTaken.{IsApplied, outcome_in};
ghost use Rattle.audited_volume.specs.Seats.{IsUnanswered, may_do};

use crate::Audit;
use crate::entry::{Answered, Entry, Receipt};
use crate::holding::{count_one, place_of};
use crate::noting::note_spoils;
use layers::Layered;
use plain_machine::{Event, NotDue, Outcome, ReqId};

impl<B: Layered> Audit<B> {
    /// Does one event for a seat, where it is due, and notes what came of it. A request is issued by the seat that submitted
    /// it; for another it is not due. A reply has a receipt for its entry. A flush that is issued and not answered yet has none, and
    /// stays its seat's.
    pub fn apply(&mut self, seat: u8, event: Event) -> Result<(Outcome, Option<Receipt>), NotDue>
        ensures applied { IsApplied seat result self.old self.new }
        ensures unanswered { IfOk result (λ r. IsUnanswered event r.0 self.old.held) }
        ensures does { DoesStep B.may_hold B.contents B.layers B.size B.fault_count B.done_count (may_do seat event self.old.held) event (outcome_in result) self.old.volume self.new.volume }
    {
        match event {
            Event::Issue(number) => self.issue(seat, number),
            _ => self.other(event),
        }
    }

    /// Does one event that replies to nobody, whose seat does not matter.
    fn other(&mut self, event: Event) -> Result<(Outcome, Option<Receipt>), NotDue>
        requires { (n : ℕ) → event ≢ Issue n }
        ensures applied { (seat : ℕ) → IsApplied seat result self.old self.new }
        ensures does { DoesStep B.may_hold B.contents B.layers B.size B.fault_count B.done_count true event (outcome_in result) self.old.volume self.new.volume }
    {
        match self.volume.step(event) {
            Ok(outcome) => {
                note_spoils(&self.volume, &mut self.lives, &mut self.entries);
                Ok((outcome, None))
            }
            Err(NotDue) => Err(NotDue),
        }
    }

    /// Issues a request, where this seat submitted it.
    fn issue(&mut self, seat: u8, number: ReqId) -> Result<(Outcome, Option<Receipt>), NotDue>
        ensures applied { IsApplied seat result self.old self.new }
        ensures unanswered { IfOk result (λ r. IsUnanswered (Issue number) r.0 self.old.held) }
        ensures does { DoesStep B.may_hold B.contents B.layers B.size B.fault_count B.done_count (may_do seat (Issue number) self.old.held) (Issue number) (outcome_in result) self.old.volume self.new.volume }
    {
        let Some(place) = place_of(self.held.as_slice(), number) else {
            return Err(NotDue);
        };
        if self.held[place].seat != seat {
            return Err(NotDue);
        }
        match self.volume.step(Event::Issue(number)) {
            Ok(Outcome::Reply(which, reply)) => {
                let held = self.held.remove(place);
                let for_entry = reply.copy_into(held.entry_room);
                let for_receipt = reply.copy_into(held.receipt_room);
                // A look: no seat has more entries than requests were given numbers.
                let _ = self.volume.last_request();
                let count = count_one(&mut self.counts, seat);
                self.entries.push_reserved(Entry::Answered(Answered {
                    seat,
                    request: held.for_entry,
                    reply: for_entry,
                }));
                let receipt = Receipt {
                    seat,
                    count,
                    request: held.for_receipt,
                    reply: for_receipt,
                };
                Ok((Outcome::Reply(which, reply), Some(receipt)))
            }
            Ok(Outcome::Done) => Ok((Outcome::Done, None)),
            Ok(Outcome::Fault) => unreachable!(),
            Err(NotDue) => Err(NotDue),
        }
    }
}
