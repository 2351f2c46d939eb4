// All that is due is done while requests of several commands are in flight.
ghost use Rattle.std.specs.Prelude.{◌≡◌, ◌+◌, ◌≤◌, length, vec_capacity, vec_len, is_ok, IfErr, OnOk, true, None};
ghost use Rattle.sector.specs.declared.refusal.Refusal.TheVariants.{NoMemory};
ghost use Rattle.volume.specs.Leaving.{is_quiet_of};
ghost use Rattle.whole_commands.specs.Merges.{merged};
ghost use Rattle.volume_commands.specs.Rested.{rested_of, merged_of, IsSettled};
ghost use Rattle.volume_commands.specs.Showing.{arrays_in, IsGoneOn};
ghost use Rattle.volume_commands.specs.Draining.{IsDrained, IsDrainedApart, IsAnsweredAmong};
ghost use Rattle.counted_volume.specs.TakesPlaces.{TakesByRequests};
ghost use Rattle.volume_commands.specs.Counting.{AsksNothing, IsIdle, Keeps};
ghost use Rattle.volume_commands.specs.Recording.{AreWhole, SameSetup, TakesAsAsked};

use crate::{Replied, Resting};
use counted_volume::{CountedVolume, follow_merge};
use layers::Layered;
use plain_machine::{Failure, NotDue, Outcome, Reply, ReqId};
use sector::Refusal;
use volume::is_of_merge;

/// Takes room for so many replies more. For none, no memory is asked for.
pub(crate) fn make_room(ended: &mut Vec<Replied>, replies: usize) -> Result<(), Refusal>
    ensures ok { OnOk result (vec_len ended.new + replies ≤ vec_capacity ended.new) }
    ensures none { replies ≡ 0 → is_ok result ≡ true }
    ensures items { ended.new.items ≡ ended.old.items }
    ensures err { IfErr result (λ refusal. refusal ≡ NoMemory) }
{
    if replies == 0 {
        return Ok(());
    }
    match ended.reserve(replies) {
        Ok(()) => Ok(()),
        Err(_) => Err(Refusal::NoMemory),
    }
}

/// Does the events that are due, each time the one that is due first, until none is. Each reply is put at the end of `ended`,
/// where room for one of each request in flight is taken first: where that is refused, nothing is done.
fn drain<B: Layered>(volume: &mut CountedVolume<B>, ended: &mut Vec<Replied>) -> Result<(), Refusal>
    ensures drained { OnOk result (IsDrained B.may_hold B.contents B.layers B.fault_count B.size volume.old.volume volume.new.volume ended.old.items ended.new.items) }
    ensures quiet { OnOk result (is_quiet_of volume.new.volume ≡ true) }
    ensures merged { OnOk result (IsSettled B.layers (rested_of volume.old.volume) → merged (merged_of B.contents B.layers (rested_of volume.old.volume)) ≡ merged_of B.contents B.layers (rested_of volume.new.volume)) }
    ensures shows { IsSettled B.layers (rested_of volume.old.volume) → IsGoneOn (arrays_in B.contents B.layers (rested_of volume.old.volume)) (arrays_in B.contents B.layers (rested_of volume.new.volume)) }
    ensures idle { is_quiet_of volume.old.volume ≡ true → is_ok result ≡ true }
    ensures still { is_quiet_of volume.old.volume ≡ true → ended.new.items ≡ ended.old.items }
    ensures alone { is_quiet_of volume.old.volume ≡ true → volume.old.volume.merge ≡ None → volume.new.volume ≡ volume.old.volume }
    ensures err { IfErr result (λ refusal. (refusal ≡ NoMemory) × (volume.new.volume ≡ volume.old.volume) × (ended.new.items ≡ ended.old.items)) }
    ensures kept { Keeps B.layers B.size volume.old volume.new }
    ensures requests { AsksNothing volume.old volume.new }
    ensures taken { TakesByRequests volume.old volume.new }
{
    let _ = volume.is_quiet();
    make_room(ended, volume.flying())?;
    while let Some(event) = volume.due() {
        match volume.step(event) {
            Ok(Outcome::Reply(number, reply)) => ended.push_reserved(Replied { number, reply }),
            Ok(Outcome::Done) => follow_merge(volume, event),
            Ok(Outcome::Fault) => {}
            Err(NotDue) => unreachable!(),
        }
    }
    Ok(())
}

/// Does the events that are due likewise, until none is but one of a merge. There is room in `ended` for a reply to each
/// request in flight.
pub(crate) fn drain_apart<B: Layered>(volume: &mut CountedVolume<B>, ended: &mut Vec<Replied>)
    requires room { vec_len ended.old + length volume.old.volume.flights ≤ vec_capacity ended.old }
    ensures drained { IsDrainedApart B.may_hold B.contents B.layers B.fault_count B.size volume.old.volume volume.new.volume ended.old.items ended.new.items }
    ensures idle { IsIdle B.contents B.layers volume.new }
    ensures kept { Keeps B.layers B.size volume.old volume.new }
    ensures requests { AsksNothing volume.old volume.new }
    ensures taken { TakesByRequests volume.old volume.new }
{
    while let Some(event) = volume.due() {
        if is_of_merge(event) {
            break;
        }
        match volume.step(event) {
            Ok(Outcome::Reply(number, reply)) => ended.push_reserved(Replied { number, reply }),
            Ok(Outcome::Done) => {}
            Ok(Outcome::Fault) => {}
            Err(NotDue) => unreachable!(),
        }
    }
}

/// Does the events that are due likewise, those of a merge only until the reply to one request, and tells that reply; those
/// to others are put at the end of `ended`, which has room for one of each request in flight.
pub(crate) fn drain_for<B: Layered>(
    volume: &mut CountedVolume<B>,
    own: ReqId,
    ended: &mut Vec<Replied>,
) -> Reply
    requires room { vec_len ended.old + length volume.old.volume.flights ≤ vec_capacity ended.old }
    ensures answered { IsAnsweredAmong B.may_hold B.contents B.layers B.fault_count B.size own result volume.old.volume volume.new.volume ended.old.items ended.new.items }
    ensures idle { IsIdle B.contents B.layers volume.new }
    ensures kept { Keeps B.layers B.size volume.old volume.new }
    ensures requests { AsksNothing volume.old volume.new }
    ensures taken { TakesByRequests volume.old volume.new }
{
    let mut answer = Reply::Refused(Failure::Invalid);
    let mut told = false;
    while let Some(event) = volume.due() {
        if told && is_of_merge(event) {
            break;
        }
        match volume.step(event) {
            Ok(Outcome::Reply(number, reply)) if number == own => {
                answer = reply;
                told = true;
            }
            Ok(Outcome::Reply(other, reply)) => ended.push_reserved(Replied {
                number: other,
                reply,
            }),
            Ok(Outcome::Done) => {}
            Ok(Outcome::Fault) => {}
            Err(NotDue) => unreachable!(),
        }
    }
    answer
}

impl<B: Layered> Resting<B> {
    /// Does the events that are due, those of a merge among them, each time the one that is due first, until none is. Each
    /// reply is put at the end of `ended`. Room for one of each request in flight is taken once, before the first event:
    /// where that is refused (`NoMemory`), nothing is done. Where the volume is quiet no memory is asked for. A settled volume is
    /// left as the settled machine's whole merge leaves it, and as it was where no merge is begun: whatever fails, its origin
    /// shows what it showed, and so does each snapshot that is not spoiled.
    pub fn settle(&mut self, ended: &mut Vec<Replied>) -> Result<(), Refusal>
        ensures drained { OnOk result (IsDrained B.may_hold B.contents B.layers B.fault_count B.size self.old.rested.events self.new.rested.events ended.old.items ended.new.items) }
        ensures quiet { OnOk result (is_quiet_of self.new.rested.events ≡ true) }
        ensures merged { OnOk result (IsSettled B.layers self.old.rested → merged (merged_of B.contents B.layers self.old.rested) ≡ merged_of B.contents B.layers self.new.rested) }
        ensures shows { IsSettled B.layers self.old.rested → IsGoneOn (arrays_in B.contents B.layers self.old.rested) (arrays_in B.contents B.layers self.new.rested) }
        ensures idle { is_quiet_of self.old.rested.events ≡ true → is_ok result ≡ true }
        ensures still { is_quiet_of self.old.rested.events ≡ true → ended.new.items ≡ ended.old.items }
        ensures alone { is_quiet_of self.old.rested.events ≡ true → self.old.rested.events.merge ≡ None → self.new.rested ≡ self.old.rested }
        ensures err { IfErr result (λ refusal. (refusal ≡ NoMemory) × (self.new.rested ≡ self.old.rested) × (ended.new.items ≡ ended.old.items)) }
        ensures whole { AreWhole self.old.rested self.new.rested }
        ensures kept { SameSetup B.layers B.size self.old self.new }
        ensures requests { self.new.rested.requests ≡ self.old.rested.requests }
        ensures taken { TakesAsAsked self.old self.new }
    {
        drain(&mut self.volume, ended)
    }
}
