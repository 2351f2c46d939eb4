// The pairs of a store that is written meanwhile are read, slot by slot.
ghost use Rattle.std.specs.Prelude.{◌≡◌, ℕ, ◌+◌, ◌*◌, ◌/◌, ◌%◌, ◌<◌, ◌≤◌, length, ◌++◌, ◌∷◌, [], IfOk, IfSome, OnErr, OnOk, Some};
ghost use Rattle.std.specs.Ordering.{nat_cmp};
ghost use Rattle.std.specs.BTreeMap.{get as place_in};
ghost use Rattle.cow_format.specs.Places.{slot};
ghost use Rattle.cow_format.specs.Picture.{place_of};
ghost use Rattle.cow_format.specs.Slots.{pair_in};
ghost use Rattle.read_beside_writer.specs.Moments.{Files, IsSaving, SamePast};
ghost use Rattle.read_beside_writer.specs.Known.{AreKnown, WereAll};

use crate::files::MovingFiles;
use crate::lost::Lost;
use sector::{Pair, u64_at};
use std::collections::BTreeMap;

/// The most pairs of a store.
const MOST_PAIRS: u64 = 68_719_476_736;

/// The pairs of a store that are known, in the order of its slots, and where the copy of each old chunk is.
#[derive(Drop)]
pub struct Pairs {
    pub(crate) listed: Vec<Pair>,
    pub(crate) places: BTreeMap<u64, u64>,
    pub ghost placed: { (c : ℕ) → place_in nat_cmp places c ≡ place_of listed.items c },
}

impl Pairs {
    /// Adds a pair. `Pairs` where its old chunk has a copy already.
    fn add(&mut self, pair: Pair) -> Result<(), Lost>
        ensures added { OnOk result (self.new.listed.items ≡ self.old.listed.items ++ pair ∷ []) }
        ensures err { OnErr result (self.new.listed.items ≡ self.old.listed.items) }
    {
        if self.places.get(&pair.old).is_some() {
            return Err(Lost::Pairs);
        }
        let Ok(()) = self.listed.push(pair) else {
            return Err(Lost::NoMemory);
        };
        match self.places.insert(pair.old, pair.new) {
            Ok(_) => Ok(()),
            Err(_) => {
                let _ = self.listed.pop();
                Err(Lost::NoMemory)
            }
        }
    }
}

/// The pair in a slot of a sector of slots.
fn pair_of(sector: &[u8; 512], slot: usize) -> Pair
    requires { slot < 32 }
    ensures { result ≡ pair_in sector.now slot }
{
    let bytes = sector.as_slice();
    Pair {
        old: u64_at(bytes, 16 * slot),
        new: u64_at(bytes, 16 * slot + 8),
    }
}

/// Reads a slot, where the slots of all areas are counted on.
fn read_slot<F: MovingFiles>(files: &mut F, chunk: u32, number: u64) -> Result<Pair, Lost>
    requires some { 0 < chunk }
    requires allowed { chunk ≤ 1024 }
    ensures data { IfOk result (λ pair. IfSome (F.history files.old) (λ h. (m : ℕ) × (F.now files.old ≤ m) × (m ≤ F.now files.new) × (pair ≡ slot chunk (h m).store number))) }
    ensures history { SamePast F.history files.old files.new }
    ensures later { F.now files.old ≤ F.now files.new }
{
    if MOST_PAIRS <= number {
        return Err(Lost::Pairs);
    }
    let slots = 32 * chunk as u64;
    let area = number / slots;
    let inside = number % slots;
    let sector = chunk as u64 * (area * (slots + 1) + 1) + inside / 32;
    let mut bytes = [0u8; 512];
    match files.read_sector(sector, &mut bytes) {
        Ok(()) => Ok(pair_of(&bytes, (inside % 32) as usize)),
        Err(error) => Err(Lost::Store(error)),
    }
}

/// Sees that the last pair that is known still stands in its slot: a merge takes pairs away from the end.
fn last_stands<F: MovingFiles>(files: &mut F, chunk: u32, pairs: &Pairs) -> Result<(), Lost>
    requires some { 0 < chunk }
    requires allowed { chunk ≤ 1024 }
    ensures history { SamePast F.history files.old files.new }
    ensures later { F.now files.old ≤ F.now files.new }
{
    let Some(last) = pairs.listed.last() else {
        return Ok(());
    };
    let last = *last;
    let pair = read_slot(files, chunk, pairs.listed.len() as u64 - 1)?;
    if pair.old != last.old || pair.new != last.new {
        return Err(Lost::Pairs);
    }
    Ok(())
}

/// Reads the slots from the first that was empty on, up to the first that is, and adds their pairs.
pub(crate) fn look<F: MovingFiles>(files: &mut F, chunk: u32, pairs: &mut Pairs) -> Result<(), Lost>
    requires some { 0 < chunk }
    requires allowed { chunk ≤ 1024 }
    ensures known { (h : ℕ → Files) → F.history files.old ≡ Some h → IsSaving chunk h → AreKnown chunk h (F.now files.old) pairs.old.listed.items → AreKnown chunk h (F.now files.new) pairs.new.listed.items }
    ensures all { OnOk result ((h : ℕ → Files) → F.history files.old ≡ Some h → IsSaving chunk h → AreKnown chunk h (F.now files.old) pairs.old.listed.items → WereAll chunk h (F.now files.old) (F.now files.new) pairs.new.listed.items) }
    ensures history { SamePast F.history files.old files.new }
    ensures later { F.now files.old ≤ F.now files.new }
{
    last_stands(files, chunk, pairs)?;
    for _ in 0..MOST_PAIRS {
        let pair = read_slot(files, chunk, pairs.listed.len() as u64)?;
        if pair.new == 0 {
            return Ok(());
        }
        pairs.add(pair)?;
    }
    Err(Lost::Pairs)
}
