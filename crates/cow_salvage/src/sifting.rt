// Pairs of a damaged store are kept or skipped, slot by slot.
ghost use Rattle.std.specs.Prelude.{◌≡◌, ℕ, ◌*◌, ◌<◌, ◌≤◌, ◌==◌, ◌∷◌, ◌++◌, List, [], IfOk, OnOk, true, if◌then◌else◌};
ghost use Rattle.std.specs.HashSet as bag;
ghost use Rattle.std.specs.Bool.{nat_eq};
ghost use Rattle.sector.specs.declared.pair.Pair.{Pair as PairOf};
ghost use Rattle.cow_image.specs.Judged.{stands_in};
ghost use Rattle.cow_image.specs.Sorted.{old_of, new_of};
ghost use Rattle.cow_salvage.specs.Kept.{sifted, sifted_as, sifted_by, why_skipped};

use crate::Slot;
use cow_format::is_area_place;
use cow_image::{Fault, begins_before, lies_within};
use sector::Pair;
use std::alloc::{AllocError, Global};
use std::collections::HashSet;

/// The pairs that are kept, in slot order, and why the others are not.
#[derive(Drop)]
pub struct Sifted {
    pub kept: Vec<Pair>,
    pub skipped: Vec<Fault>,
}

/// The chunks that stand in pairs that are kept.
#[derive(Drop)]
struct Taken {
    olds: HashSet<u64>,
    news: HashSet<u64>,
}

/// Keeps of these slots the pairs that lie inside, for an origin and a store of so many sectors, and are apart from all that
/// were kept before.
pub fn sift(
    alloc: Global,
    chunk: u32,
    origin: u64,
    size: u64,
    slots: &[Slot],
) -> Result<Sifted, AllocError>
    requires some { 0 < chunk }
    requires allowed { chunk ≤ 1024 }
    ensures kept { IfOk result (λ s. s.kept.items ≡ (sifted chunk origin size slots.now).kept) }
    ensures skipped { IfOk result (λ s. s.skipped.items ≡ (sifted chunk origin size slots.now).skipped) }
{
    let mut sifted = Sifted {
        kept: Vec::new(alloc),
        skipped: Vec::new(alloc),
    };
    let mut taken = Taken {
        olds: HashSet::new(alloc),
        news: HashSet::new(alloc),
    };
    for slot in slots {
        let slot = *slot;
        let again = again_in(&taken, slot.pair);
        let why = why_not(chunk, origin, size, slot, again);
        take_slot(&mut sifted, &mut taken, why, slot.pair)?;
    }
    Ok(sifted)
}

/// Which chunks of a slot's pair stand in one that is kept.
#[derive(Clone, Copy)]
struct Again {
    old: bool,
    new: bool,
}

/// Which chunks of a pair are taken.
fn again_in(taken: &Taken, pair: Pair) -> Again
    ensures old { result.old ≡ bag.contains nat_eq taken.now.olds pair.old }
    ensures new { result.new ≡ bag.contains nat_eq taken.now.news pair.new }
{
    Again {
        old: taken.olds.contains(&pair.old),
        new: taken.news.contains(&pair.new),
    }
}

/// Why a slot's pair is not kept, if it is not.
fn why_not(chunk: u32, origin: u64, size: u64, slot: Slot, again: Again) -> Option<Fault>
    requires some { 0 < chunk }
    requires allowed { chunk ≤ 1024 }
    ensures { (kept : List PairOf) → again.old ≡ stands_in old_of kept slot.pair.old → again.new ≡ stands_in new_of kept slot.pair.new → result ≡ why_skipped chunk origin size kept slot }
{
    let pair = slot.pair;
    let slot = slot.number;
    if !begins_before(chunk, pair.old, origin) {
        return Some(Fault::PastOrigin { slot, pair });
    }
    if !lies_within(chunk, size, pair.new) {
        return Some(Fault::OutsideStore { slot, pair });
    }
    if is_area_place(chunk, pair.new) {
        return Some(Fault::AtArea { slot, pair });
    }
    if again.old {
        return Some(Fault::OldTwice { slot, pair });
    }
    if again.new {
        return Some(Fault::NewTwice { slot, pair });
    }
    None
}

/// Keeps a pair, or skips it where there is a reason.
fn take_slot(
    sifted: &mut Sifted,
    taken: &mut Taken,
    why: Option<Fault>,
    pair: Pair,
) -> Result<(), AllocError>
    ensures kept { OnOk result (sifted.new.kept.items ≡ (sifted_by why (sifted_as sifted.old.kept.items sifted.old.skipped.items) pair).kept) }
    ensures skipped { OnOk result (sifted.new.skipped.items ≡ (sifted_by why (sifted_as sifted.old.kept.items sifted.old.skipped.items) pair).skipped) }
    ensures olds { OnOk result (((q : ℕ) → bag.contains nat_eq taken.old.olds q ≡ stands_in old_of sifted.old.kept.items q) → (q : ℕ) → bag.contains nat_eq taken.new.olds q ≡ stands_in old_of sifted.new.kept.items q) }
    ensures news { OnOk result (((q : ℕ) → bag.contains nat_eq taken.old.news q ≡ stands_in new_of sifted.old.kept.items q) → (q : ℕ) → bag.contains nat_eq taken.new.news q ≡ stands_in new_of sifted.new.kept.items q) }
{
    match why {
        Some(fault) => {
            sifted.skipped.push(fault)?;
            Ok(())
        }
        None => keep(sifted, taken, pair),
    }
}

/// Keeps a pair.
fn keep(sifted: &mut Sifted, taken: &mut Taken, pair: Pair) -> Result<(), AllocError>
    ensures kept { OnOk result (sifted.new.kept.items ≡ sifted.old.kept.items ++ pair ∷ []) }
    ensures skipped { sifted.new.skipped ≡ sifted.old.skipped }
    ensures olds { OnOk result ((q : ℕ) → bag.contains nat_eq taken.new.olds q ≡ (if pair.old == q then true else bag.contains nat_eq taken.old.olds q)) }
    ensures news { OnOk result ((q : ℕ) → bag.contains nat_eq taken.new.news q ≡ (if pair.new == q then true else bag.contains nat_eq taken.old.news q)) }
{
    taken.olds.insert(pair.old)?;
    taken.news.insert(pair.new)?;
    sifted.kept.push(pair)?;
    Ok(())
}
