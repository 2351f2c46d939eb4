// The store of the pairs that are kept of a damaged one.
ghost use Rattle.std.specs.Prelude.{◌≡◌, ℕ, ◌≤◌, List, length, true, IfOk, Some};
ghost use Rattle.std.specs.List.Sorted.{IsPermutation};
ghost use Rattle.std.specs.Io.KnownBytes.{Appends};
ghost use Rattle.chunk.specs.Sizes.{is_chunk};
ghost use Rattle.cow_salvage.specs.Kept.{sifted, certain as certain_of, doubtful as doubtful_of};
ghost use Rattle.new_store_files.specs.Written.{IsRepairOf};

use crate::write_store;
use cow_image::Stopped;
use cow_salvage::{Saved, Slot, save, sift};
use image::{Image, Sink};
use std::alloc::Global;

/// Writes the store of the pairs that are kept of these slots, in their order, so many of which come before the first empty one, for
/// an origin of so many sectors and a store of so many; and tells which are kept, and why the others are not.
pub fn repair<C: Image, S: Sink>(
    alloc: Global,
    cow: &mut C,
    chunk: u32,
    origin: u64,
    size: u64,
    slots: &[Slot],
    front: usize,
    sink: &mut S,
) -> Result<Saved, Stopped>
    requires allowed { is_chunk chunk ≡ true }
    requires front { front ≤ length slots.now }
    ensures all { IfOk result (λ saved. (b : List ℕ) → C.bytes cow.old ≡ Some b → (s : List ℕ) × IsRepairOf chunk b (sifted chunk origin size slots.now).kept s × Appends (S.contents sink.old) (S.contents sink.new) s) }
    ensures kept { IfOk result (λ saved. IsPermutation (sifted chunk origin size slots.now).kept saved.pairs.items) }
    ensures certain { IfOk result (λ saved. IsPermutation (certain_of chunk origin size slots.now front) saved.certain.items) }
    ensures doubtful { IfOk result (λ saved. IsPermutation (doubtful_of chunk origin size slots.now front) saved.doubtful.items) }
    ensures skipped { IfOk result (λ saved. saved.skipped.items ≡ (sifted chunk origin size slots.now).skipped) }
{
    let saved = match save(alloc, chunk, origin, size, slots, front) {
        Ok(saved) => saved,
        Err(stopped) => return Err(stopped),
    };
    let Ok(sifted) = sift(alloc, chunk, origin, size, slots) else {
        return Err(Stopped::NoMemory);
    };
    match write_store(alloc, cow, chunk, sifted.kept.as_slice(), sink) {
        Ok(()) => Ok(saved),
        Err(stopped) => Err(stopped),
    }
}
