// Which events are due after one that was done, one after the other, where that is known without a search.
ghost use Rattle.std.specs.Prelude.{◌≡◌, ◌==◌, ◌&&◌, ◌≤◌, IfNone, IfSome, Some, false, length, map, true};
ghost use Rattle.std.specs.List.{list_all, list_any};
ghost use Rattle.in_flight.specs.declared.copies.Stage.TheVariants.{Read};
ghost use Rattle.plain_machine.specs.declared.event.Event.TheVariants.{CopyRead};
ghost use Rattle.snapshot.specs.Kept.{Kept, due_of_kept};
ghost use Rattle.snapshot_list.specs.Busy.{is_busy as is_busy_in, waiting_due as due_of_waiting};
ghost use Rattle.snapshot_list.specs.Finding.{has_copy_at};
ghost use Rattle.volume.specs.Stepping.{KeepsAll};
ghost use Rattle.volume.specs.Volumed.{is_loud_in_all, left_in_all};
ghost use Rattle.counted_volume.specs.DoneDue.{AreDone};
ghost use Rattle.counted_volume.specs.Following.{AreDoneSo, GoesOn, IsAlone, IsCarried, IsFollowed, IsNextDue, IsReadFirst, StandsAt, is_of_origin};
ghost use Rattle.counted_volume.specs.TakesPlaces.{TakesByRequests};

use crate::CountedVolume;
use in_flight::{ChunkCopy, Flight};
use layers::Layered;
use plain_machine::{CopyId, Dev, Event, NotDue, Outcome, Reply, SnapId};
use snapshot_list::{is_busy, waiting_due};

/// Whether a request is the origin's.
fn is_origins(flight: &Flight) -> bool
    ensures { result ≡ is_of_origin flight.now }
{
    match flight.request.dev {
        Dev::Origin => true,
        Dev::Snap(_) => false,
    }
}

/// Whether all of these requests are.
fn are_origins(flights: &[Flight]) -> bool
    ensures { result ≡ list_all is_of_origin flights.now }
{
    flights.iter().all(|f| is_origins(f))
}

/// Whether there is one copy, and all requests are the origin's.
fn is_only(copies: &[ChunkCopy], flights: &[Flight]) -> bool
    ensures { result ≡ ((length copies.now == 1) && list_all is_of_origin flights.now) }
{
    copies.len() == 1 && are_origins(flights)
}

/// The number and the place of a snapshot that has a copy of this number whose chunk was read, if one has, and whether that is
/// alone there and no request reads its chunk.
#[inline(always)]
fn holder<B: Layered>(volume: &CountedVolume<B>, number: CopyId) -> Option<(SnapId, usize, bool)>
    ensures none { IfNone result (list_any (has_copy_at Read number) volume.now.volume.snaps ≡ false) }
    ensures here { IfSome result (λ p. (s : Kept B) × StandsAt p.1 volume.now.volume.snaps s × (has_copy_at Read number s ≡ true)) }
    ensures alone { IfSome result (λ p. p.2 ≡ true → IsAlone number volume.now.volume) }
{
    let snaps = volume.volume.snaps();
    match volume.volume.find_read(number) {
        Some((place, _)) => {
            let snap = &snaps[place];
            let alone = is_only(snap.copies(), volume.volume.flights());
            Some((snap.number(), place, alone))
        }
        None => None,
    }
}

/// What is due first where no more is due of any snapshot than reads of chunks, if that is so of the one at a place.
#[inline(always)]
fn next_due<B: Layered>(volume: &CountedVolume<B>, place: usize) -> Option<Event>
    ensures there { IfSome result (λ _. (s : Kept B) × StandsAt place volume.now.volume.snaps s × (is_busy_in (due_of_kept B.contents B.layers s) ≡ false)) }
    ensures waiting { IfSome result (λ next. due_of_waiting (map (due_of_kept B.contents B.layers) volume.now.volume.snaps) volume.now.volume.flights ≡ Some next) }
{
    let snaps = volume.volume.snaps();
    if place < snaps.len() && !is_busy(&snaps[place]) {
        waiting_due(snaps, volume.volume.flights())
    } else {
        None
    }
}

/// Does one event where it is due, and tells whether to go on: nothing failed, and nothing was answered. `reply` is the last reply
/// then.
#[inline(always)]
fn carry_one<B: Layered>(volume: &mut CountedVolume<B>, event: Event, reply: &mut Reply) -> bool
    ensures { IsCarried B.may_hold B.contents B.layers B.fault_count B.size event result reply.old reply.new volume.old volume.new }
{
    match volume.step_here(event) {
        Ok(Outcome::Reply(_, given)) => {
            *reply = given;
            false
        }
        Ok(Outcome::Done) => true,
        Ok(Outcome::Fault) => false,
        Err(NotDue) => false,
    }
}

/// Does the events that follow the read of a copy's chunk: the chunk is written, and its pair with it, the store being flushed
/// after each; and where the copy is alone in its snapshot, and nothing reads the chunk, it is published. The copy's snapshot is
/// told by the copy: where it has another number, its events are not due. One after the other, so that the kind of each is known
/// where it is done. Tells what is due next, where all was done and that is known: the read of a chunk, or a request.
#[inline(always)]
fn follow_read<B: Layered>(
    volume: &mut CountedVolume<B>,
    number: CopyId,
    reply: &mut Reply,
) -> Option<Event>
    ensures did { AreDoneSo B.may_hold B.contents B.layers B.fault_count B.size (IsFollowed B.contents B.layers (CopyRead number) reply.old reply.new volume.old.volume volume.new.volume) reply.old reply.new volume.old volume.new }
    ensures next { IfSome result (λ next. IsNextDue B.contents B.layers number next volume.old.volume volume.new.volume) }
{
    let Some((snap, place, alone)) = holder(volume, number) else {
        return None;
    };
    if !carry_one(volume, Event::CopyWrite(number), reply) {
        return None;
    }
    if !carry_one(volume, Event::FlushStore(snap), reply) {
        return None;
    }
    if !carry_one(volume, Event::WriteArea(snap), reply) {
        return None;
    }
    if !carry_one(volume, Event::FlushStore(snap), reply) {
        return None;
    }
    if !alone {
        return None;
    }
    if !carry_one(volume, Event::Publish(number), reply) {
        return None;
    }
    next_due(volume, place)
}

/// Does the events that follow the read of a copy's chunk, which was due first, and then the reads that are known to be due
/// next, each with what follows it, as long as nothing fails; and where no copy waits any more, the request that is due then.
/// The copies of one write come so one after the other, and the write itself, with no search for what is due between them.
#[inline(always)]
pub fn follow_reads<B: Layered>(volume: &mut CountedVolume<B>, number: CopyId, reply: &mut Reply)
    requires first { IsReadFirst B.contents B.layers number volume.old.volume }
    ensures { AreDoneSo B.may_hold B.contents B.layers B.fault_count B.size (GoesOn B.contents B.layers reply.old reply.new volume.old.volume volume.new.volume) reply.old reply.new volume.old volume.new }
{
    let mut number = number;
    while let Some(next) = follow_read(volume, number, reply) {
        match next {
            Event::CopyRead(read) => {
                if !carry_one(volume, Event::CopyRead(read), reply) {
                    return;
                }
                number = read;
            }
            Event::Issue(request) => {
                let _ = carry_one(volume, Event::Issue(request), reply);
                return;
            }
            _ => return,
        }
    }
}

/// Does the events that are known to follow one that was due first and was done, as long as each is due and nothing fails: each
/// is then due first. Those that follow the read of a chunk are done by `follow_reads`. Tells the last reply, and the one that was
/// given before where there is none.
#[inline(always)]
pub fn follow<B: Layered>(volume: &mut CountedVolume<B>, done: Event, reply: Reply) -> Reply
    ensures follows { IsFollowed B.contents B.layers done reply result volume.old.volume volume.new.volume }
    ensures did { AreDone B.may_hold B.contents B.layers B.fault_count B.size reply result volume.old.volume volume.new.volume }
    ensures loud { is_loud_in_all B.layers volume.new.volume ≡ is_loud_in_all B.layers volume.old.volume }
    ensures kept { KeepsAll B.size volume.old.volume volume.new.volume }
    ensures requests { volume.new.volume.requests ≡ volume.old.volume.requests }
    ensures left { left_in_all B.contents B.layers volume.new.volume ≤ left_in_all B.contents B.layers volume.old.volume }
    ensures taken { TakesByRequests volume.old volume.new }
{
    match done {
        Event::WriteArea(snap) => {
            let mut reply = reply;
            let _ = carry_one(volume, Event::FlushStore(snap), &mut reply);
            reply
        }
        _ => reply,
    }
}
