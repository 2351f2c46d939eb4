// Deeds are done one after another.
ghost use Rattle.std.specs.Prelude.{◌≡◌, [], IfErr, IfOk, true};
ghost use Rattle.std.specs.List.{All};
ghost use Rattle.sector.specs.declared.refusal.Refusal.TheVariants.{NoMemory};
ghost use Rattle.volume.specs.Layering.{Measures};
ghost use Rattle.volume.specs.Volumed.{is_loud_in_all};
ghost use Rattle.volume_lifetime.specs.Answered.{AreAnswered, IsDone};
ghost use Rattle.volume_lifetime.specs.Doing.{IsDoneBy};
ghost use Rattle.volume_lifetime.specs.Flushed.{LoseNothing};
ghost use Rattle.volume_lifetime.specs.Lasted.{IsLasting, OpensByDeed};
ghost use Rattle.volume_lifetime.specs.Lived.{IsFitDeed, IsLived, IsLoudDeed};

use crate::{Deed, Done};
use layers::Layered;
use sector::Refusal;
use std::alloc::Global;
use volume::Volume;

/// Does one thing. What a stop may leave of a snapshot then might be left before, or a write that is in flight gives it, or it is what
/// a snapshot that was taken shows.
fn one<B: Layered>(alloc: Global, volume: &mut Volume<B>, deed: Deed<B>) -> Done<B>
    requires fits { IsFitDeed deed }
    ensures done { IsDone B.may_hold (record { contents = B.contents; durable = B.durable; size = B.size; faults = B.fault_count; done = B.done_count }) B.layers deed result volume.old volume.new }
    ensures by { IsDoneBy B.may_hold (record { contents = B.contents; durable = B.durable; size = B.size; faults = B.fault_count; done = B.done_count }) B.layers deed result volume.old volume.new }
    ensures opens { is_loud_in_all B.layers volume.old ≡ true → IsLoudDeed B.layers deed → OpensByDeed B.may_hold (record { contents = B.contents; durable = B.durable; size = B.size; faults = B.fault_count; done = B.done_count }) B.layers deed result volume.old volume.new }
{
    match deed {
        Deed::Submit(request) => Done::Submitted(volume.submit(alloc, request)),
        Deed::Step(event) => Done::Stepped(volume.step(event)),
        Deed::Tick(seconds) => {
            volume.tick(seconds);
            Done::Ticked
        }
        Deed::Tell(dev, depth, message) => Done::Told(volume.message(dev, depth, &message)),
        Deed::Attach(store, chunk, overflow) => {
            Done::Attached(volume.attach(alloc, store, chunk, overflow))
        }
        Deed::Detach(number) => Done::Detached(volume.detach(number)),
        Deed::BeginMerge(number) => Done::Begun(volume.begin_merge(alloc, number)),
        Deed::ResumeMerge => Done::Resumed(volume.resume_merge()),
        Deed::FinishMerge => Done::Finished(volume.finish_merge()),
    }
}

/// Does these things one after another, whatever they are, and tells what came of each. Where no device drops writes, neither
/// one that the volume has nor one that a deed brings: every read answers what saved arrays answer at that event; every reply,
/// fault and spoiled snapshot has its cause; a merge begins by the one assignment of the snapshot's array to the origin; so the
/// merge of a snapshot over a fresh store that nobody wrote undoes all that was written to the origin since it was taken, and
/// once it is taken out that stands on the disk itself. On disks with caches, whatever a stop behind a deed leaves, the store of each live
/// snapshot that was taken over a fresh one and not written since is loaded again, and shows in each sector what the origin showed
/// when that was taken. And a stop before, within or after each deed loses only what no flush acknowledged: each live snapshot's store
/// is loaded again, and each sector of its picture, and of the origin, is what it was when a flush, or the attach, made it last, or
/// what a write of that array gives which was in flight when the flush was submitted, or was accepted since. Whatever devices do, each deed begins with the volume that the one before it left, and each answer is that
/// volume's own. The room for the answers is taken first: where it is refused (`NoMemory`), nothing is done, and the deeds are given
/// back.
pub fn live<B: Layered + Drop>(
    alloc: Global,
    volume: &mut Volume<B>,
    deeds: Vec<Deed<B>>,
) -> Result<Vec<Done<B>>, (Refusal, Vec<Deed<B>>)>
    requires fits { All IsFitDeed deeds.items }
    ensures lived { IfOk result (λ done. is_loud_in_all B.layers volume.old ≡ true → All (IsLoudDeed B.layers) deeds.items → IsLived (record { contents = B.contents; durable = B.durable; size = B.size; faults = B.fault_count; done = B.done_count }) B.layers [] deeds.items done.items volume.old volume.new) }
    ensures lasts { IfOk result (λ done. is_loud_in_all B.layers volume.old ≡ true → All (IsLoudDeed B.layers) deeds.items → IsLasting B.may_hold (record { contents = B.contents; durable = B.durable; size = B.size; faults = B.fault_count; done = B.done_count }) B.layers [] deeds.items done.items volume.old volume.new) }
    ensures flushed { IfOk result (λ done. is_loud_in_all B.layers volume.old ≡ true → All (IsLoudDeed B.layers) deeds.items → LoseNothing B.may_hold (record { contents = B.contents; durable = B.durable; size = B.size; faults = B.fault_count; done = B.done_count }) B.layers (record { made = []; asked = [] }) deeds.items done.items volume.old volume.new) }
    ensures answered { IfOk result (λ done. AreAnswered B.may_hold (record { contents = B.contents; durable = B.durable; size = B.size; faults = B.fault_count; done = B.done_count }) B.layers deeds.items done.items volume.old volume.new) }
    ensures err { IfErr result (λ e. (e.0 ≡ NoMemory) × (e.1 ≡ deeds) × (volume.new ≡ volume.old)) }
{
    let Ok(mut answers) = Vec::with_capacity(alloc, deeds.len()) else {
        return Err((Refusal::NoMemory, deeds));
    };
    volume.look_at_stores();
    for deed in deeds {
        let answer = one(alloc, volume, deed);
        volume.look_at_stores();
        volume.look_at_numbers();
        answers.push_reserved(answer);
    }
    Ok(answers)
}
