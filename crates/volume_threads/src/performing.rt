// One request of a seat, from its submission to its reply.
ghost use Rattle.std.specs.Prelude.{◌≡◌, ◌≢◌, ◌*◌, ◌<◌, ℕ, List, [], length, IfErr, IfOk};
ghost use Rattle.plain_machine.specs.declared.request.Op.TheVariants.{Flush, Write};
ghost use Rattle.audited_volume.specs.declared.entry.Receipt.{Receipt};
ghost use Rattle.locked_volume.specs.Denying.{Serve};
ghost use Rattle.volume_threads.specs.Sittings.{IsPerformed, IsTurnedAway};

use crate::place::VolumePlace;
use crate::queue::{QueuePass, TicketQueue};
use crate::sitting::Sitting;
use crate::turns::{submit, turn};
use layers::Layered;
use locked_volume::Room;
use plain_machine::{Reply, Request};
use sector::Refusal;
use std::sync::Wait;

/// Submits a read or a write, and works until it is answered. The answer is the reply of the receipt that came with it; where there is
/// none, what the seat has then seen says why.
pub(crate) fn perform<B: Layered, J: Room, R: Wait>(
    rt: &R,
    queue: &TicketQueue<J>,
    place: &VolumePlace<B, J>,
    pass: &mut QueuePass<J>,
    sitting: &mut Sitting<J>,
    request: Request,
) -> Result<Reply, Refusal>
    requires volume { sitting.old.volume ≡ place.now.volume }
    requires few { (0 < sitting.old.seat) × (sitting.old.seat < 9) }
    requires idle { sitting.old.waits ≡ [] }
    requires plain { request.op ≢ Flush }
    requires bytes { (bytes : List ℕ) → request.op ≡ Write bytes → length bytes ≡ 512 * request.range.count }
    ensures ok { IfOk result (λ reply. (r : Receipt) × IsPerformed request reply r sitting.old sitting.new) }
    ensures err { IfErr result (λ refusal. IsTurnedAway (J.start sitting.old.volume) (J.fixed sitting.old.volume) (Serve request) refusal sitting.old sitting.new) }
{
    if sitting.reserve().is_err() {
        return Err(Refusal::NoMemory);
    }
    let (got, started) = submit(rt, place, sitting, request);
    queue.put(rt, pass, place.volume, started);
    let number = match got {
        Ok((_, Some(reply))) => return Ok(reply),
        Ok((number, None)) => number,
        Err(refusal) => return Err(refusal),
    };
    for _ in rt.forever() {
        let (reply, started) = turn(rt, place, sitting, number);
        queue.put(rt, pass, place.volume, started);
        if let Some(reply) = reply {
            return Ok(reply);
        }
    }
    unreachable!()
}
