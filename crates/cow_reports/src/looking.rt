// A store is looked at.
ghost use Rattle.std.specs.Prelude.{◌≡◌, ◌↔◌, ℕ, ◌*◌, ◌<◌, ◌≤◌, List, length, IfOk, IfSome, IsTrue, Some};
ghost use Rattle.cow_format.specs.Pairs.{pairs_of};
ghost use Rattle.cow_image.specs.Judged.{faults_of};
ghost use Rattle.cow_image.specs.declared.reading.Listed.TheVariants.{Ends};
ghost use Rattle.cow_reports.specs.Seen.{AreNumbersIn, IsSeenOf};
ghost use Rattle.cow_reports.specs.Answers.{is_good as is_good_by};

use crate::showing::Numbers;
use cow_image::{
    Failure, Fault, Listed, Reason, Told, faults, read_first, read_slots, read_store, sectors_of,
};
use image::Image;
use sector::Refusal;
use std::alloc::Global;

/// What is known of a store's image: its sectors, its header's numbers, and what is told of it.
#[derive(Drop)]
pub struct Seen {
    pub sectors: u64,
    pub numbers: Option<Numbers>,
    pub told: Told,
}

/// Reads a store, for an origin of so many sectors.
pub fn look<I: Image>(alloc: Global, cow: &mut I, origin: u64) -> Result<Seen, Failure>
    ensures seen { IfOk result (λ seen. (b : List ℕ) → I.bytes cow.old ≡ Some b → IsSeenOf origin b seen) }
    ensures bytes { I.bytes cow.new ≡ I.bytes cow.old }
{
    let sectors = sectors_of(cow)?;
    let numbers = numbers_of(cow, sectors)?;
    let told = read_store(alloc, cow, origin)?;
    Ok(Seen {
        sectors,
        numbers,
        told,
    })
}

/// The four numbers in the first sector of an image of so many sectors, where it has one.
pub fn numbers_of<I: Image>(cow: &mut I, size: u64) -> Result<Option<Numbers>, Failure>
    ensures numbers { IfOk result (λ numbers. (b : List ℕ) → I.bytes cow.old ≡ Some b → length b ≡ 512 * size → AreNumbersIn b numbers) }
    ensures bytes { I.bytes cow.new ≡ I.bytes cow.old }
{
    if size == 0 {
        return Ok(None);
    }
    let mut first = [0u8; 512];
    read_first(cow, &mut first)?;
    Ok(Some(Numbers::of(&first)))
}

/// Whether a store is good.
pub fn is_good(told: &Told) -> bool
    ensures { result ≡ is_good_by told.now }
{
    match told {
        Told::Refused(_) => false,
        Told::Fresh => true,
        Told::Written(_) => true,
    }
}

/// The chunk size that a header says, where it is one that a store may have.
pub fn chunk_of(numbers: Option<Numbers>) -> Option<u32>
    ensures { IfSome result (λ chunk. (0 < chunk) × (chunk ≤ 1024)) }
{
    let numbers = numbers?;
    if numbers.chunk == 0 || 1024 < numbers.chunk {
        return None;
    }
    Some(numbers.chunk)
}

/// The chunk size of a store whose header says it, whatever else is wrong.
pub fn chunk_listed(seen: &Seen) -> Option<u32>
    ensures { IfSome result (λ chunk. (0 < chunk) × (chunk ≤ 1024)) }
{
    match &seen.told {
        Told::Written(_) => chunk_of(seen.numbers),
        Told::Refused(Reason::Header(Refusal::Invalid)) => chunk_of(seen.numbers),
        Told::Refused(Reason::Pairs(_)) => chunk_of(seen.numbers),
        Told::Refused(Reason::NoArea(_)) => chunk_of(seen.numbers),
        _ => None,
    }
}

/// All faults of the pairs of a store of so many sectors, for an origin of so many, and how its areas end.
pub fn all_faults<I: Image>(
    alloc: Global,
    cow: &mut I,
    chunk: u32,
    origin: u64,
    sectors: u64,
) -> Result<(Vec<Fault>, Listed), Failure>
    requires some { 0 < chunk }
    requires allowed { chunk ≤ 1024 }
    ensures all { IfOk result (λ found. (b : List ℕ) → I.bytes cow.old ≡ Some b → (a : ℕ) → found.1 ≡ Ends a → found.0.items ≡ faults_of chunk origin sectors (pairs_of chunk b)) }
{
    let (pairs, listed) = read_slots(alloc, cow, chunk)?;
    match faults(alloc, chunk, origin, sectors, pairs.as_slice(), usize::MAX) {
        Ok(found) => Ok((found, listed)),
        Err(_) => Err(Failure::NoMemory),
    }
}
