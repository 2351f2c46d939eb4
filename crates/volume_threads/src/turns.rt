// What a seat or a worker does while it holds a volume's lock once.
ghost use Rattle.std.specs.Prelude.{◌≡◌, ◌≢◌, ◌*◌, ◌<◌, ◌∷◌, ℕ, true, List, [], length, IfErr, IfSome, IfNone, MatchOption, MatchResult, OnOk};
ghost use Rattle.std.specs.Sync.Mutex.{mutex_guard_value};
ghost use Rattle.plain_machine.specs.declared.event.Event.TheVariants.{Issue};
ghost use Rattle.plain_machine.specs.declared.request.Op.TheVariants.{Flush, Write};
ghost use Rattle.audited_volume.specs.Seats.{Seated};
ghost use Rattle.audited_volume.specs.declared.entry.Receipt.{Receipt};
ghost use Rattle.locked_volume.specs.Denying.{Begin, Serve, WasBegun, WasDenied};
ghost use Rattle.volume_threads.specs.Sittings.{IsAnswered, IsPerformed, IsSameSitting, IsTurnedAway, IsWaiting};
ghost use Rattle.sector.specs.declared.refusal.Refusal.TheVariants.{NotQuiet};

use crate::place::VolumePlace;
use crate::queueing::Started;
use crate::sitting::Sitting;
use layers::Layered;
use locked_volume::{Post, Room};
use plain_machine::{Event, Reply, ReqId, Request, SnapId};
use sector::Refusal;
use std::sync::{MutexGuard, Wait};
use thread_channels::never;

/// Takes a volume's lock. What lies under it is of this volume, which no type says.
pub(crate) fn locked<'a, B: Layered, J: Room, R: Wait>(
    rt: &R,
    place: &'a VolumePlace<B, J>,
) -> MutexGuard<'a, Post<B, J>>
    ensures { (mutex_guard_value result).volume ≡ place.now.volume }
{
    let post = place.lock.lock(rt);
    if post.volume() != place.volume {
        never(rt);
    }
    post
}

/// What a seat that makes a read or a write does under the lock: it submits it, and issues it where that is due at once. Tells the
/// request's number, and the reply where there is one.
fn make<B: Layered, J: Room>(
    place: &VolumePlace<B, J>,
    post: &mut Post<B, J>,
    sitting: &mut Sitting<J>,
    request: Request,
) -> Result<(ReqId, Option<Reply>), Refusal>
    requires post { post.old.volume ≡ place.now.volume }
    requires volume { sitting.old.volume ≡ place.now.volume }
    requires few { (0 < sitting.old.seat) × (sitting.old.seat < 9) }
    requires idle { sitting.old.waits ≡ [] }
    requires room { length sitting.old.receipts < sitting.old.room }
    requires plain { request.op ≢ Flush }
    requires bytes { (bytes : List ℕ) → request.op ≡ Write bytes → length bytes ≡ 512 * request.range.count }
    ensures { MatchResult result (λ made. MatchOption made.1 (IsWaiting made.0 request sitting.old sitting.new) (λ reply. (r : Receipt) × IsPerformed request reply r sitting.old sitting.new)) (λ refusal. IsTurnedAway (J.start sitting.old.volume) (J.fixed sitting.old.volume) (Serve request) refusal sitting.old sitting.new) }
{
    match sitting.submit(post, &place.beside, request) {
        Ok(number) => match sitting.issue(post, &place.beside, number) {
            Some(reply) => Ok((number, Some(reply))),
            None => Ok((number, None)),
        },
        Err(refusal) => Err(refusal),
    }
}

/// Makes a read or a write of a seat. Tells its number, and the reply where it was answered at once.
pub(crate) fn submit<B: Layered, J: Room, R: Wait>(
    rt: &R,
    place: &VolumePlace<B, J>,
    sitting: &mut Sitting<J>,
    request: Request,
) -> (Result<(ReqId, Option<Reply>), Refusal>, Started)
    requires volume { sitting.old.volume ≡ place.now.volume }
    requires few { (0 < sitting.old.seat) × (sitting.old.seat < 9) }
    requires idle { sitting.old.waits ≡ [] }
    requires room { length sitting.old.receipts < sitting.old.room }
    requires plain { request.op ≢ Flush }
    requires bytes { (bytes : List ℕ) → request.op ≡ Write bytes → length bytes ≡ 512 * request.range.count }
    ensures { MatchResult result.0 (λ made. MatchOption made.1 (IsWaiting made.0 request sitting.old sitting.new) (λ reply. (r : Receipt) × IsPerformed request reply r sitting.old sitting.new)) (λ refusal. IsTurnedAway (J.start sitting.old.volume) (J.fixed sitting.old.volume) (Serve request) refusal sitting.old sitting.new) }
{
    let mut post = locked(rt, place);
    let after = post.last_copy();
    let made = make(place, &mut post, sitting, request);
    let last = post.last_copy();
    place.moved.notify_all();
    (made, Started { after, last })
}

/// What a seat that waits for its request does under the lock: its own Issue, or another event that is due and that any thread
/// may do. Tells the reply, and whether it did anything.
fn act<B: Layered, J: Room>(
    place: &VolumePlace<B, J>,
    post: &mut Post<B, J>,
    sitting: &mut Sitting<J>,
    number: ReqId,
) -> (Option<Reply>, bool)
    requires post { post.old.volume ≡ place.now.volume }
    requires volume { sitting.old.volume ≡ place.now.volume }
    requires few { (0 < sitting.old.seat) × (sitting.old.seat < 9) }
    requires room { length sitting.old.receipts < sitting.old.room }
    requires one { (x : Seated) × (sitting.old.waits ≡ x ∷ []) }
    ensures some { IfSome result.0 (λ reply. (r : Receipt) × IsAnswered reply r sitting.old sitting.new) }
    ensures none { IfNone result.0 (IsSameSitting sitting.old sitting.new × (sitting.new.room ≡ sitting.old.room)) }
{
    match sitting.issue(post, &place.beside, number) {
        Some(reply) => (Some(reply), true),
        None => (None, post.advance(&place.beside)),
    }
}

/// One turn of a seat that waits for its request: its own Issue, or another event that is due and that any thread may do, or
/// a wait until something happened.
pub(crate) fn turn<B: Layered, J: Room, R: Wait>(
    rt: &R,
    place: &VolumePlace<B, J>,
    sitting: &mut Sitting<J>,
    number: ReqId,
) -> (Option<Reply>, Started)
    requires volume { sitting.old.volume ≡ place.now.volume }
    requires few { (0 < sitting.old.seat) × (sitting.old.seat < 9) }
    requires room { length sitting.old.receipts < sitting.old.room }
    requires one { (x : Seated) × (sitting.old.waits ≡ x ∷ []) }
    ensures some { IfSome result.0 (λ reply. (r : Receipt) × IsAnswered reply r sitting.old sitting.new) }
    ensures none { IfNone result.0 (IsSameSitting sitting.old sitting.new × (sitting.new.room ≡ sitting.old.room)) }
{
    let mut post = locked(rt, place);
    let after = post.last_copy();
    let (reply, has_moved) = act(place, &mut post, sitting, number);
    if !has_moved {
        let _post = place.moved.wait(rt, post);
        return (reply, Started { after, last: after });
    }
    let last = post.last_copy();
    place.moved.notify_all();
    (reply, Started { after, last })
}

/// Does one event of a copy, where it is due.
pub(crate) fn copy<B: Layered, J: Room, R: Wait>(rt: &R, place: &VolumePlace<B, J>, event: Event)
    requires { (n : ℕ) → event ≢ Issue n }
{
    let mut post = locked(rt, place);
    post.work(&place.beside, event);
    place.moved.notify_all();
}

/// Tries to begin a merge that a seat may ask for. Where the volume is not quiet, does another event that is due, or waits until something
/// happened.
pub(crate) fn begin<B: Layered, J: Room, R: Wait>(
    rt: &R,
    place: &VolumePlace<B, J>,
    sitting: &mut Sitting<J>,
    number: SnapId,
) -> (Result<(), Refusal>, Started)
    requires volume { sitting.old.volume ≡ place.now.volume }
    requires asked { J.merges sitting.old.volume number ≡ true }
    ensures seat { IsSameSitting sitting.old sitting.new }
    ensures begun { OnOk result.0 (WasBegun number sitting.old.seen sitting.new.seen) }
    ensures denied { IfErr result.0 (λ refusal. refusal ≢ NotQuiet → WasDenied (J.start sitting.old.volume) (J.fixed sitting.old.volume) sitting.new.seen (Begin number) refusal) }
{
    let mut post = locked(rt, place);
    let after = post.last_copy();
    let got = sitting.begin_merge(&mut post, &place.beside, number);
    if got == Err(Refusal::NotQuiet) && !post.advance(&place.beside) {
        let _post = place.moved.wait(rt, post);
        return (got, Started { after, last: after });
    }
    let last = post.last_copy();
    place.moved.notify_all();
    (got, Started { after, last })
}

/// One turn of a seat that works for a merge. Tells whether the merge is over.
pub(crate) fn merge_turn<B: Layered, J: Room, R: Wait>(
    rt: &R,
    place: &VolumePlace<B, J>,
) -> (bool, Started) {
    let mut post = locked(rt, place);
    let after = post.last_copy();
    if post.is_merge_over() {
        return (true, Started { after, last: after });
    }
    if !post.advance(&place.beside) {
        let _post = place.moved.wait(rt, post);
        return (false, Started { after, last: after });
    }
    let last = post.last_copy();
    place.moved.notify_all();
    (false, Started { after, last })
}
