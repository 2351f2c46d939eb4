// What is wrong with pairs, slot by slot.
ghost use Rattle.std.specs.Prelude.{◌≡◌, ℕ, ◌<◌, ◌≤◌, ◌++◌, Bool, not, nat_le, nat_lt, ◌==◌, ◌||◌, ◌+◌, ◌*◌, List, length, IfOk, OnOk};
ghost use Rattle.cow_image.specs.Judged.{faults_of, slot_faults, told_if, stands_in};
ghost use Rattle.cow_image.specs.Sorted.{old_of, new_of};
ghost use Rattle.cow_image.specs.declared.fault.Fault.{Fault as FaultOf};

use crate::Fault;
use crate::judging::{begins_before, lies_within};
use cow_format::is_area_place;
use sector::Pair;
use std::alloc::{AllocError, Global};
use std::collections::HashSet;

/// The faults of a store's pairs, slot by slot: all of them, or a front of them that has at least so many.
pub fn faults(
    alloc: Global,
    chunk: u32,
    origin: u64,
    size: u64,
    pairs: &[Pair],
    most: usize,
) -> Result<Vec<Fault>, AllocError>
    requires some { 0 < chunk }
    requires allowed { chunk ≤ 1024 }
    ensures front { IfOk result (λ faults. (rest : List FaultOf) × (faults.items ++ rest ≡ faults_of chunk origin size pairs.now)) }
    ensures all { IfOk result (λ faults. length faults.items < most → faults.items ≡ faults_of chunk origin size pairs.now) }
{
    let mut faults: Vec<Fault> = Vec::new(alloc);
    let mut olds: HashSet<u64> = HashSet::new(alloc);
    let mut news: HashSet<u64> = HashSet::new(alloc);
    for (slot, pair) in pairs.iter().enumerate() {
        if most <= faults.len() {
            return Ok(faults);
        }
        let pair = *pair;
        let again = Again {
            old: !olds.insert(pair.old)?,
            new: !news.insert(pair.new)?,
        };
        push_faults(&mut faults, chunk, origin, size, slot as u64, pair, again)?;
    }
    Ok(faults)
}

/// Which chunks of a slot's pair stand in an earlier slot.
#[derive(Clone, Copy)]
struct Again {
    old: bool,
    new: bool,
}

/// Adds the faults of a slot's pair.
fn push_faults(
    faults: &mut Vec<Fault>,
    chunk: u32,
    origin: u64,
    size: u64,
    slot: u64,
    pair: Pair,
    again: Again,
) -> Result<(), AllocError>
    requires some { 0 < chunk }
    requires allowed { chunk ≤ 1024 }
    ensures { OnOk result ((before : List Pair) → slot ≡ length before → again.old ≡ stands_in old_of before pair.old → again.new ≡ stands_in new_of before pair.new → faults.new.items ≡ faults.old.items ++ slot_faults chunk origin size before pair) }
{
    let past = !begins_before(chunk, pair.old, origin);
    let outside = !lies_within(chunk, size, pair.new);
    let taken = is_area_place(chunk, pair.new);
    push_if(faults, past, Fault::PastOrigin { slot, pair })?;
    push_if(faults, outside, Fault::OutsideStore { slot, pair })?;
    push_if(faults, taken, Fault::AtArea { slot, pair })?;
    push_if(faults, again.old, Fault::OldTwice { slot, pair })?;
    push_if(faults, again.new, Fault::NewTwice { slot, pair })
}

/// Adds a fault, where a test says so.
fn push_if(faults: &mut Vec<Fault>, told: bool, fault: Fault) -> Result<(), AllocError>
    ensures { OnOk result (faults.new.items ≡ faults.old.items ++ told_if told fault) }
{
    if told {
        faults.push(fault)?;
    }
    Ok(())
}
