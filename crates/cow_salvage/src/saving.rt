// What is known of a damaged store's snapshot is written out.
ghost use Rattle.std.specs.Prelude.{◌≡◌, ℕ, ◌*◌, ◌<◌, ◌≤◌, List, length, drop, IfOk, OnErr, Some};
ghost use Rattle.std.specs.List.Sorted.{IsPermutation};
ghost use Rattle.std.specs.Io.KnownBytes.{Appends};
ghost use Rattle.cow_image.specs.Sorted.{IsRisingBy, old_of};
ghost use Rattle.cow_image.specs.Shown.{shown, IsFrontOf};
ghost use Rattle.cow_salvage.specs.Kept.{sifted, certain as certain_of, doubtful as doubtful_of};
ghost use Rattle.cow_salvage.specs.Order.{StandOnce};

use crate::{Slot, sift};
use cow_image::{Fault, Stopped, export_pairs, sort_by_old};
use image::{Image, Sink};
use sector::Pair;
use std::alloc::{AllocError, Global};

/// What is saved of a store: the pairs that are kept, in the order of their old chunks, and why the others are not.
#[derive(Drop)]
pub struct Saved {
    pub pairs: Vec<Pair>,
    /// Those that stand before the first empty slot, in the same order.
    pub certain: Vec<Pair>,
    /// Those behind it, which may be of an earlier list, in the same order.
    pub doubtful: Vec<Pair>,
    pub skipped: Vec<Fault>,
    pub ghost rising: { IsRisingBy old_of pairs.items },
    pub ghost certain_rises: { IsRisingBy old_of certain.items },
    pub ghost doubtful_rises: { IsRisingBy old_of doubtful.items },
}

/// The pairs behind so many.
fn pairs_after(alloc: Global, pairs: &[Pair], count: usize) -> Result<Vec<Pair>, AllocError>
    ensures { IfOk result (λ rest. rest.items ≡ drop count pairs.now) }
{
    if pairs.len() <= count {
        return Ok(Vec::new(alloc));
    }
    Vec::from_slice(alloc, &pairs[count..])
}

/// Pairs in the order of their old chunks, of which no two have the same one.
fn in_order(pairs: Vec<Pair>) -> Vec<Pair>
    requires { StandOnce old_of pairs.items }
    ensures moved { IsPermutation pairs.items result.items }
    ensures rising { IsRisingBy old_of result.items }
{
    let mut pairs = pairs;
    match sort_by_old(&mut pairs) {
        None => pairs,
        Some(_) => unreachable!(),
    }
}

/// Sifts these slots of a store of so many sectors, so many of which come before the first empty one, for an origin of so many,
/// and puts what is kept in order.
pub fn save(
    alloc: Global,
    chunk: u32,
    origin: u64,
    size: u64,
    slots: &[Slot],
    front: usize,
) -> Result<Saved, Stopped>
    requires some { 0 < chunk }
    requires allowed { chunk ≤ 1024 }
    requires front { front ≤ length slots.now }
    ensures kept { IfOk result (λ saved. IsPermutation (sifted chunk origin size slots.now).kept saved.pairs.items) }
    ensures certain { IfOk result (λ saved. IsPermutation (certain_of chunk origin size slots.now front) saved.certain.items) }
    ensures doubtful { IfOk result (λ saved. IsPermutation (doubtful_of chunk origin size slots.now front) saved.doubtful.items) }
    ensures skipped { IfOk result (λ saved. saved.skipped.items ≡ (sifted chunk origin size slots.now).skipped) }
{
    let Ok(sifted) = sift(alloc, chunk, origin, size, slots) else {
        return Err(Stopped::NoMemory);
    };
    let Ok(first) = sift(alloc, chunk, origin, size, &slots[..front]) else {
        return Err(Stopped::NoMemory);
    };
    let Ok(rest) = pairs_after(alloc, sifted.kept.as_slice(), first.kept.len()) else {
        return Err(Stopped::NoMemory);
    };
    let pairs = in_order(sifted.kept);
    let certain = in_order(first.kept);
    let doubtful = in_order(rest);
    let skipped = sifted.skipped;
    Ok(Saved {
        pairs,
        certain,
        doubtful,
        skipped,
    })
}

/// Writes what the pairs show that are kept of these slots, so many of which come before the first empty one, over an origin of
/// so many sectors and a store of so many, and tells which are kept, and why the others are not.
pub fn export_kept<O: Image, C: Image, S: Sink>(
    alloc: Global,
    origin: &mut O,
    cow: &mut C,
    chunk: u32,
    size: u64,
    sectors: u64,
    slots: &[Slot],
    front: usize,
    sink: &mut S,
) -> Result<Saved, Stopped>
    requires some { 0 < chunk }
    requires allowed { chunk ≤ 1024 }
    requires front { front ≤ length slots.now }
    requires small { size ≤ 68_719_476_736 }
    ensures all { IfOk result (λ saved. (o : List ℕ) → (b : List ℕ) → O.bytes origin.old ≡ Some o → C.bytes cow.old ≡ Some b → Appends (S.contents sink.old) (S.contents sink.new) (shown chunk o b (sifted chunk size sectors slots.now).kept 0 (512 * size))) }
    ensures part { OnErr result ((o : List ℕ) → (b : List ℕ) → O.bytes origin.old ≡ Some o → C.bytes cow.old ≡ Some b → (front : List ℕ) × IsFrontOf front (shown chunk o b (sifted chunk size sectors slots.now).kept 0 (512 * size)) × Appends (S.contents sink.old) (S.contents sink.new) front) }
    ensures kept { IfOk result (λ saved. IsPermutation (sifted chunk size sectors slots.now).kept saved.pairs.items) }
    ensures certain { IfOk result (λ saved. IsPermutation (certain_of chunk size sectors slots.now front) saved.certain.items) }
    ensures doubtful { IfOk result (λ saved. IsPermutation (doubtful_of chunk size sectors slots.now front) saved.doubtful.items) }
    ensures skipped { IfOk result (λ saved. saved.skipped.items ≡ (sifted chunk size sectors slots.now).skipped) }
{
    let saved = match save(alloc, chunk, size, sectors, slots, front) {
        Ok(saved) => saved,
        Err(stopped) => return Err(stopped),
    };
    match export_pairs(
        alloc,
        origin,
        cow,
        chunk,
        saved.pairs.as_slice(),
        size,
        sink,
    ) {
        Ok(()) => Ok(saved),
        Err(stopped) => Err(stopped),
    }
}
