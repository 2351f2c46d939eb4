// One piece of a command: it is served, and the events that are due are done until none is.
ghost use Rattle.std.specs.Prelude.{◌≡◌, ℕ, ◌≤◌, length, Option, None, Some, IfOk, IfErr, true, false};
ghost use Rattle.plain_machine.specs.declared.request.Dev.TheVariants.{Origin};
ghost use Rattle.plain_machine.specs.declared.request.Op.TheVariants.{Write};
ghost use Rattle.plain_machine.specs.declared.request.Reply.{Reply};
ghost use Rattle.whole_commands.specs.Refusals.{is_starved};
ghost use Rattle.event_machine.specs.Due.{due};
ghost use Rattle.volume.specs.Volumed.{next_of};
ghost use Rattle.volume.specs.Moved.{moving_of};
ghost use Rattle.volume.specs.Reaching.{IsRun};
ghost use Rattle.volume.specs.Leaving.{has_group_in, is_quiet_of};
ghost use Rattle.volume.specs.Lent.{is_bare, origin_write};
ghost use Rattle.volume.specs.Submitting.{SameButRoom};
ghost use Rattle.counted_volume.specs.Declined.{IsUnsent};
ghost use Rattle.volume_commands.specs.Rested.{rested_of, merged_of, has_dev};
ghost use Rattle.volume_commands.specs.Between.{IsBetween};
ghost use Rattle.counted_volume.specs.DoneDue.{AreDone};
ghost use Rattle.volume_commands.specs.AtRest.{IsAnswered, IsBegun, IsLed};
ghost use Rattle.volume_commands.specs.Commands.{IsDoneBy};
ghost use Rattle.counted_volume.specs.Following.{IsDoneHere};
ghost use Rattle.volume_commands.specs.Serving.{CanServe, part_done};
ghost use Rattle.volume.specs.Stepping.{KeepsAll};
ghost use Rattle.counted_volume.specs.TakesPlaces.{TakesByRequests};
ghost use Rattle.volume_commands.specs.Counting.{Asks, AsksNothing, IsFullIfTold, Keeps, KeepsLoud, KeepsPiece, KeepsRest};

use counted_volume::{CountedVolume, follow, follow_reads};
use layers::Layered;
use plain_machine::{Dev, Event, Failure, NotDue, Outcome, Reply, Request};
use sector::{Range, Refusal};
use volume::Served;

/// Does the event that is due first, in the caller's own code, and tells whether to go on: nothing failed, and nothing was answered.
/// `reply` is the last reply then.
#[inline(always)]
fn do_first<B: Layered>(volume: &mut CountedVolume<B>, event: Event, reply: &mut Reply) -> bool
    requires first { next_of B.contents B.layers volume.old.volume ≡ Some event }
    ensures { IsDoneHere B.may_hold B.contents B.layers B.fault_count B.size event result reply.old reply.new volume.old volume.new }
{
    match volume.step_here(event) {
        Ok(Outcome::Reply(_, given)) => {
            *reply = given;
            false
        }
        Ok(Outcome::Done) => true,
        Ok(Outcome::Fault) => false,
        Err(NotDue) => unreachable!(),
    }
}

/// Does the events that are due, each time the one that is due first, until the volume is quiet: none is then due but one of a
/// merge. Tells the last reply, and the one that was given before where there is none. What is known to follow an event is
/// done without a search for what is due.
#[inline(always)]
fn settle<B: Layered>(volume: &mut CountedVolume<B>, mut reply: Reply) -> Reply
    requires free { has_group_in volume.old.volume.merge ≡ false }
    ensures run { IsRun B.contents B.layers (Some reply) (Some result) volume.old.volume volume.new.volume }
    ensures did { AreDone B.may_hold B.contents B.layers B.fault_count B.size reply result volume.old.volume volume.new.volume }
    ensures led { IsLed B.may_hold B.contents B.layers B.fault_count B.size reply result volume.old.volume volume.new.volume }
    ensures still { is_quiet_of volume.old.volume ≡ true → volume.new.volume ≡ volume.old.volume }
    ensures none { (replied : Option Reply) → due (moving_of B.contents B.layers replied volume.new.volume) ≡ None }
    ensures quiet { is_quiet_of volume.new.volume ≡ true }
    ensures kept { KeepsAll B.size volume.old.volume volume.new.volume }
    ensures requests { AsksNothing volume.old volume.new }
    ensures taken { TakesByRequests volume.old volume.new }
{
    while !volume.is_quiet() {
        let Some(event) = volume.due() else {
            unreachable!()
        };
        // Those that most requests come to are done here: what a call out of line answers is moved as a whole.
        match event {
            Event::CopyRead(number) => {
                if do_first(volume, Event::CopyRead(number), &mut reply) {
                    follow_reads(volume, number, &mut reply);
                }
            }
            Event::Issue(number) => {
                let _ = do_first(volume, Event::Issue(number), &mut reply);
            }
            _ => match volume.step(event) {
                Ok(Outcome::Reply(_, given)) => reply = given,
                Ok(Outcome::Done) => reply = follow(volume, event, reply),
                Ok(Outcome::Fault) => {}
                Err(NotDue) => unreachable!(),
            },
        }
    }
    reply
}

/// Begins with the request of a piece, and tells its reply where it is answered at once: one that waits for nothing, and one that
/// its snapshot refuses, with `Invalid` or `Overflow`, which may have spoiled or marked that snapshot. Any other will be answered,
/// and `Invalid` stands for its reply until then. Where memory is refused nothing changed.
#[inline(never)]
fn begin<B: Layered>(volume: &mut CountedVolume<B>, request: Request) -> Result<Reply, Refusal>
    requires quiet { is_quiet_of volume.old.volume ≡ true }
    requires few { length volume.old.volume.snaps ≤ 8 }
    requires can { CanServe B.size request.dev request.op request.range volume.old.volume }
    ensures begun { IfOk result (λ reply. IsBegun B.may_hold B.contents B.layers B.fault_count B.size request reply volume.old.volume volume.new.volume) }
    ensures starved { IfErr result (λ refusal. (is_starved refusal ≡ true) × SameButRoom volume.old.volume volume.new.volume × (moving_of B.contents B.layers None volume.new.volume ≡ moving_of B.contents B.layers None volume.old.volume)) }
    ensures untaken { IfErr result (λ refusal. IsUnsent B.contents B.layers B.size request refusal volume.old.volume volume.new.volume) }
    ensures free { has_group_in volume.new.volume.merge ≡ false }
    ensures loud { KeepsLoud B.layers volume.old volume.new }
    ensures kept { KeepsAll B.size volume.old.volume volume.new.volume }
    ensures requests { Asks 1 volume.old volume.new }
    ensures taken { TakesByRequests volume.old volume.new }
    ensures full { IsFullIfTold result volume.new.taken }
{
    // Of the snapshots that a request may go to, none is the one that is being merged.
    let _ = volume.merging();
    match volume.serve(request) {
        Ok(Served::Answered(_, reply)) => Ok(reply),
        Ok(Served::InFlight(_)) => Ok(Reply::Refused(Failure::Invalid)),
        Err(refusal) => match refusal {
            Refusal::Invalid => Ok(Reply::Refused(Failure::Invalid)),
            Refusal::Overflow => Ok(Reply::Refused(Failure::Overflow)),
            _ => Err(refusal),
        },
    }
}

/// Serves the request of a piece, and does all that is due then. Tells its reply; where memory is refused nothing changed.
#[inline(always)]
pub(crate) fn serve<B: Layered>(
    volume: &mut CountedVolume<B>,
    request: Request,
) -> Result<Reply, Refusal>
    requires between { IsBetween volume.old.volume }
    requires can { CanServe B.size request.dev request.op request.range volume.old.volume }
    ensures between { IsBetween volume.new.volume }
    ensures settled { KeepsRest B.layers volume.old volume.new }
    ensures answer { IfOk result (λ reply. IsDoneBy B.contents B.layers (part_done request) reply (rested_of volume.old.volume) (rested_of volume.new.volume)) }
    ensures answered { IfOk result (λ reply. IsAnswered B.may_hold B.contents B.layers B.fault_count B.size request reply volume.old.volume volume.new.volume) }
    ensures starved { IfErr result (λ refusal. (is_starved refusal ≡ true) × (merged_of B.contents B.layers (rested_of volume.new.volume) ≡ merged_of B.contents B.layers (rested_of volume.old.volume))) }
    ensures untaken { IfErr result (λ refusal. IsUnsent B.contents B.layers B.size request refusal volume.old.volume volume.new.volume) }
    ensures kept { Keeps B.layers B.size volume.old volume.new }
    ensures piece { KeepsPiece volume.old volume.new }
    ensures requests { Asks 1 volume.old volume.new }
    ensures taken { TakesByRequests volume.old volume.new }
    ensures full { IsFullIfTold result volume.new.taken }
{
    // A quiet volume, no device of which drops writes, is at rest.
    let _ = volume.is_quiet();
    match begin(volume, request) {
        Ok(reply) => Ok(settle(volume, reply)),
        Err(refusal) => Err(refusal),
    }
}

/// Serves a write of a bare volume's origin by bytes that are lent, as `serve` does of such a request. Nothing is due then.
pub(crate) fn serve_lent<B: Layered>(
    volume: &mut CountedVolume<B>,
    piece: Range,
    bytes: &[u8],
) -> Result<Reply, Refusal>
    requires between { IsBetween volume.old.volume }
    requires bare { is_bare volume.old.volume ≡ true }
    requires can { CanServe B.size Origin (Write bytes.now) piece volume.old.volume }
    ensures between { IsBetween volume.new.volume }
    ensures settled { KeepsRest B.layers volume.old volume.new }
    ensures answer { IfOk result (λ reply. IsDoneBy B.contents B.layers (part_done (origin_write piece bytes.now)) reply (rested_of volume.old.volume) (rested_of volume.new.volume)) }
    ensures answered { IfOk result (λ reply. IsAnswered B.may_hold B.contents B.layers B.fault_count B.size (origin_write piece bytes.now) reply volume.old.volume volume.new.volume) }
    ensures starved { IfErr result (λ refusal. (is_starved refusal ≡ true) × (merged_of B.contents B.layers (rested_of volume.new.volume) ≡ merged_of B.contents B.layers (rested_of volume.old.volume))) }
    ensures untaken { IfErr result (λ refusal. IsUnsent B.contents B.layers B.size (origin_write piece bytes.now) refusal volume.old.volume volume.new.volume) }
    ensures kept { Keeps B.layers B.size volume.old volume.new }
    ensures piece { KeepsPiece volume.old volume.new }
    ensures requests { Asks 1 volume.old volume.new }
    ensures taken { TakesByRequests volume.old volume.new }
    ensures full { IsFullIfTold result volume.new.taken }
{
    // A quiet volume, no device of which drops writes, is at rest.
    let _ = volume.is_quiet();
    match volume.write_lent(piece, bytes) {
        Ok(reply) => {
            // None of its events is due.
            let _ = volume.is_quiet();
            Ok(reply)
        }
        Err(refusal) => Err(refusal),
    }
}

/// A look at how many snapshots there are: eight at most.
pub(crate) fn look<B: Layered>(volume: &CountedVolume<B>)
    ensures { length volume.now.volume.snaps ≤ 8 }
{
    let _ = volume.len();
}

/// Whether a request's device is there.
pub(crate) fn is_there<B: Layered>(volume: &CountedVolume<B>, dev: Dev) -> bool
    ensures { result ≡ has_dev dev (rested_of volume.now.volume) }
{
    match dev {
        Dev::Origin => true,
        Dev::Snap(number) => {
            if volume.merging() == Some(number) {
                return false;
            }
            match volume.store(number) {
                Ok(_) => true,
                Err(_) => false,
            }
        }
    }
}
