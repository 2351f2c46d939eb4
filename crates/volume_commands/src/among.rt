// One request of a command, among requests in flight: it is submitted, and then all that is due is done.
ghost use Rattle.std.specs.Prelude.{◌≡◌, ◌⊎◌, ◌+◌, ◌*◌, ◌≤◌, ℕ, List, length, vec_capacity, vec_len, IfOk, IfErr, true, false, None};
ghost use Rattle.sector.specs.declared.refusal.Refusal.TheVariants.{Invalid, NoMemory};
ghost use Rattle.plain_machine.specs.declared.request.Op.TheVariants.{Write};
ghost use Rattle.volume_commands.specs.Rested.{rested_of};
ghost use Rattle.volume_commands.specs.Draining.{IsDrainedApart};
ghost use Rattle.volume_commands.specs.Among.{is_live_dev, IsServedAmong, IsRefusedAmong};
ghost use Rattle.counted_volume.specs.TakesPlaces.{TakesByRequests};
ghost use Rattle.volume_commands.specs.Counting.{Asks, AsksNothing, IsFullIfTold, IsIdle, Keeps};

use crate::Replied;
use crate::draining::{drain_apart, drain_for};
use crate::serving::look;
use counted_volume::CountedVolume;
use in_flight::MAX_REQUESTS;
use layers::Layered;
use plain_machine::{Dev, Reply, Request};
use sector::Refusal;

/// Whether a request's device is a snapshot that is live.
fn is_live<B: Layered>(volume: &CountedVolume<B>, dev: Dev) -> bool
    ensures { result ≡ is_live_dev dev (rested_of volume.now.volume) }
{
    match dev {
        Dev::Origin => false,
        Dev::Snap(number) => {
            if volume.merging() == Some(number) {
                return false;
            }
            match volume.usage(number) {
                Ok(Some(_)) => true,
                Ok(None) => false,
                Err(_) => false,
            }
        }
    }
}

/// What follows a request that is answered `Invalid` at once: where its snapshot was live it is spoiled by that, and all that
/// is due then is done, but for events of a merge. There is room in `ended` for a reply to each request in flight.
fn follow<B: Layered>(volume: &mut CountedVolume<B>, live: bool, ended: &mut Vec<Replied>)
    requires room { vec_len ended.old + length volume.old.volume.flights ≤ vec_capacity ended.old }
    ensures drained { IsDrainedApart B.may_hold B.contents B.layers B.fault_count B.size volume.old.volume volume.new.volume ended.old.items ended.new.items }
    ensures dead { live ≡ false → (volume.new.volume ≡ volume.old.volume) × (ended.new.items ≡ ended.old.items) }
    ensures idle { live ≡ true → IsIdle B.contents B.layers volume.new }
    ensures kept { Keeps B.layers B.size volume.old volume.new }
    ensures requests { AsksNothing volume.old volume.new }
    ensures taken { TakesByRequests volume.old volume.new }
{
    if live {
        drain_apart(volume, ended);
    }
}

/// Submits the request of a piece, and does all that is due then, of a merge only until its reply. Tells that; those to other
/// requests are put at the end of `ended`, which has room for one of each request that can be in flight. What is refused is
/// followed by nothing, but for a write that spoiled its snapshot.
pub(crate) fn serve_among<B: Layered>(
    volume: &mut CountedVolume<B>,
    request: Request,
    ended: &mut Vec<Replied>,
) -> Result<Reply, Refusal>
    requires bytes { (bytes : List ℕ) → request.op ≡ Write bytes → length bytes ≡ 512 * request.range.count }
    ensures served { IfOk result (λ reply. IsServedAmong B.may_hold B.contents B.layers B.fault_count B.size request reply volume.old.volume volume.new.volume ended.old.items ended.new.items) }
    ensures refused { IfErr result (λ refusal. IsRefusedAmong B.may_hold B.contents B.layers B.fault_count B.size request refusal volume.old.volume volume.new.volume ended.old.items ended.new.items) }
    ensures kept { Keeps B.layers B.size volume.old volume.new }
    ensures requests { Asks 1 volume.old volume.new }
    ensures taken { TakesByRequests volume.old volume.new }
    ensures full { IsFullIfTold result volume.new.taken }
{
    let Ok(()) = ended.reserve(MAX_REQUESTS) else {
        return Err(Refusal::NoMemory);
    };
    let live = is_live(volume, request.dev);
    look(volume);
    let submitted = volume.submit(request);
    // No more requests are in flight than there is room for.
    let _ = volume.flying();
    match submitted {
        Ok(number) => Ok(drain_for(volume, number, ended)),
        Err(refusal) => match refusal {
            Refusal::Invalid => {
                follow(volume, live, ended);
                Err(Refusal::Invalid)
            }
            _ => Err(refusal),
        },
    }
}
