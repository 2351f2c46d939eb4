// The volume's other calls are lists of deeds: what `live` says of deeds by `lived` and `answered` holds of these calls too.
ghost use Rattle.std.specs.Prelude.{◌≡◌, ◌+◌, ◌*◌, [], IfErr, IfOk, List, length, map, true, ℕ};
ghost use Rattle.std.specs.List.{All};
ghost use Rattle.plain_machine.specs.declared.request.Op.TheVariants.{Write};
ghost use Rattle.sector.specs.declared.refusal.Refusal.TheVariants.{NoMemory};
ghost use Rattle.volume.specs.Layering.{Measures};
ghost use Rattle.volume.specs.Lent.{is_bare, origin_write};
ghost use Rattle.volume.specs.Running.{IsFitCall};
ghost use Rattle.volume.specs.Volumed.{is_loud_in_all};
ghost use Rattle.volume_lifetime.specs.Answered.{AreAnswered};
ghost use Rattle.volume_lifetime.specs.AtOnce.{copied_chunks, copy_answers, copy_deeds, deed_of, done_of, lent_as, served_answers, served_deeds};
ghost use Rattle.volume_lifetime.specs.Lived.{IsLived, Taken};

use layers::Layered;
use plain_machine::{Reply, Request};
use sector::{Range, Refusal};
use std::alloc::Global;
use volume::{Call, Returned, Served, Volume};

/// `Volume::serve`, which is a list of deeds: the request was submitted; and where it was answered at once, its Issue was done.
pub fn serve<B: Layered>(
    alloc: Global,
    volume: &mut Volume<B>,
    request: Request,
) -> Result<Served, Refusal>
    requires bytes { (bytes : List ℕ) → request.op ≡ Write bytes → length bytes ≡ 512 * request.range.count }
    ensures lived { (taken : List Taken) → is_loud_in_all B.layers volume.old ≡ true → IsLived (record { contents = B.contents; durable = B.durable; size = B.size; faults = B.fault_count; done = B.done_count }) B.layers taken (served_deeds request result) (served_answers result) volume.old volume.new }
    ensures answered { AreAnswered B.may_hold (record { contents = B.contents; durable = B.durable; size = B.size; faults = B.fault_count; done = B.done_count }) B.layers (served_deeds request result) (served_answers result) volume.old volume.new }
{
    volume.serve(alloc, request)
}

/// `Volume::write_lent`, which is the same list of deeds, of a write of the origin.
pub fn write_lent<B: Layered>(
    alloc: Global,
    volume: &mut Volume<B>,
    range: Range,
    bytes: &[u8],
) -> Result<Reply, Refusal>
    requires bare { is_bare volume.old ≡ true }
    requires bytes { length bytes.now ≡ 512 * range.count }
    ensures lived { (taken : List Taken) → is_loud_in_all B.layers volume.old ≡ true → IsLived (record { contents = B.contents; durable = B.durable; size = B.size; faults = B.fault_count; done = B.done_count }) B.layers taken (served_deeds (origin_write range bytes.now) (lent_as (volume.old.requests + 1) result)) (served_answers (lent_as (volume.old.requests + 1) result)) volume.old volume.new }
    ensures answered { AreAnswered B.may_hold (record { contents = B.contents; durable = B.durable; size = B.size; faults = B.fault_count; done = B.done_count }) B.layers (served_deeds (origin_write range bytes.now) (lent_as (volume.old.requests + 1) result)) (served_answers (lent_as (volume.old.requests + 1) result)) volume.old volume.new }
{
    volume.write_lent(alloc, range, bytes)
}

/// `Volume::copy_group`, which is a list of deeds: each chunk is read and written by a step of its own, and none fails.
pub fn copy_group<B: Layered>(volume: &mut Volume<B>) -> bool
    ensures lived { (taken : List Taken) → is_loud_in_all B.layers volume.old ≡ true → IsLived (record { contents = B.contents; durable = B.durable; size = B.size; faults = B.fault_count; done = B.done_count }) B.layers taken (copy_deeds (copied_chunks result volume.old.merge)) (copy_answers (copied_chunks result volume.old.merge)) volume.old volume.new }
    ensures answered { AreAnswered B.may_hold (record { contents = B.contents; durable = B.durable; size = B.size; faults = B.fault_count; done = B.done_count }) B.layers (copy_deeds (copied_chunks result volume.old.merge)) (copy_answers (copied_chunks result volume.old.merge)) volume.old volume.new }
{
    volume.copy_group()
}

/// `Volume::run`, whose calls are deeds. Where memory is refused nothing is done.
pub fn run<B: Layered>(
    alloc: Global,
    volume: &mut Volume<B>,
    calls: Vec<Call>,
) -> Result<Vec<Returned>, Refusal>
    requires fits { All IsFitCall calls.items }
    ensures lived { IfOk result (λ returned. is_loud_in_all B.layers volume.old ≡ true → IsLived (record { contents = B.contents; durable = B.durable; size = B.size; faults = B.fault_count; done = B.done_count }) B.layers [] (map deed_of calls.items) (map done_of returned.items) volume.old volume.new) }
    ensures answered { IfOk result (λ returned. AreAnswered B.may_hold (record { contents = B.contents; durable = B.durable; size = B.size; faults = B.fault_count; done = B.done_count }) B.layers (map deed_of calls.items) (map done_of returned.items) volume.old volume.new) }
    ensures err { IfErr result (λ refusal. (refusal ≡ NoMemory) × (volume.new ≡ volume.old)) }
{
    volume.run(alloc, calls)
}
