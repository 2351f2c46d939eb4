// The dust layer: a list of bad blocks that fail reads. Source: the kernel's page on dm-dust. That a write takes blocks off the
// list only where it succeeded is this project's own choice.
ghost use Rattle.std.specs.Prelude.{◌≡◌, ℕ, ◌+◌, ◌*◌, ◌<◌, ◌≤◌, nat_le, ◌&&◌, not, filter};
ghost use Rattle.std.specs.List.{list_any};
ghost use Rattle.device.specs.Layers.{touches};
ghost use Rattle.device.specs.declared.operation.Operation.TheVariants.{Reads, Writes};
ghost use Rattle.device.specs.declared.operation.Fate.TheVariants.{Pass, Fail};

use crate::{Answer, Message};
use device::MAX_SECTORS;
use sector::{Range, Refusal, SECTOR_BYTES};
use std::alloc::Global;
use std::collections::BTreeSet;

/// A dust layer over a device: while it is enabled, reads of a bad block fail, and a write that succeeds takes the
/// blocks that it touches off the list.
#[derive(Drop)]
pub struct Dust {
    /// How many sectors it has: those of the device below from its first on.
    pub sectors: u64,
    /// The bytes of a block. Block k has the bytes from `k * block_size` on.
    pub block_size: u32,
    /// Whether reads of bad blocks fail.
    pub enabled: bool,
    /// The numbers of the bad blocks.
    pub bad: BTreeSet<u64>,
    /// How many operations it answered with a fault, modulo 2^64.
    pub faults: u64,
    /// How many operations it was asked for, modulo 2^64.
    pub done: u64,
    pub ghost nonzero: { 0 < block_size },
    pub ghost small: { sectors ≤ 16_777_216 },
}

impl Dust {
    ghost use Rattle.std.specs.Prelude.{◌⊎◌, false, [], if◌then◌else◌, true, IfOk, IfErr};
    ghost use Rattle.device.specs.Layers.{Dusty, layer_fate, layer_after};
    ghost use Rattle.layers.specs.Layer.{dust_layer};
    ghost use Rattle.layers.specs.Messages.{layer_told, is_past, Answered, Refused, NeedsRoom};
    ghost use Rattle.layers.specs.declared.message.Message.TheVariants.{AddBadBlock, RemoveBadBlock, QueryBlock};
    ghost use Rattle.sector.specs.declared.refusal.Refusal.TheVariants.{NoMemory};
    ghost use Rattle.layers.specs.Calls.{DustKeepsCounts, LeavesDust};

    /// A layer over the first sectors of a device, with blocks of so many bytes, none of them bad. It is not enabled.
    pub fn new(alloc: Global, sectors: u64, block_size: u32) -> Dust
        requires small { sectors ≤ MAX_SECTORS }
        requires nonzero { 0 < block_size }
        ensures layer { dust_layer result ≡ Dusty sectors block_size false [] }
        ensures sectors { result.sectors ≡ sectors }
        ensures counts { (result.faults ≡ 0) × (result.done ≡ 0) }
    {
        Dust {
            sectors,
            block_size,
            enabled: false,
            bad: BTreeSet::new(alloc),
            faults: 0,
            done: 0,
        }
    }

    // Whether a read is passed on; else it fails.
    pub(crate) fn passes_read(&self, range: Range) -> bool
        requires some { 0 < range.count }
        requires small { range.first + range.count ≤ 16_777_216 }
        ensures { layer_fate (dust_layer self.now) (Reads range.first range.count) ≡ (if result then Pass else Fail) }
    {
        !(self.enabled && touches_any(&self.bad, self.block_size, range.first, range.count))
    }

    // Takes the blocks that a write has touched off the list, if the layer is enabled.
    pub(crate) fn written(&mut self, range: Range)
        requires some { 0 < range.count }
        requires small { range.first + range.count ≤ 16_777_216 }
        ensures layer { dust_layer self.new ≡ layer_after (dust_layer self.old) (Writes range.first range.count) true }
        ensures rest { DustKeepsCounts self.old self.new }
    {
        if self.enabled {
            take_touched_off(&mut self.bad, self.block_size, range.first, range.count);
        }
    }

    // Answers a message. In this order: `OutOfRange` where it names a block past the layer's end, `NoMemory` where it
    // adds a block and the allocator refuses room. What is refused changes nothing.
    pub(crate) fn message(&mut self, message: &Message) -> Result<Answer, Refusal>
        ensures ok { IfOk result (λ a. layer_told (dust_layer self.old) message.now ≡ Answered a (dust_layer self.new)) }
        ensures err { IfErr result (λ r. (layer_told (dust_layer self.old) message.now ≡ Refused r) ⊎ ((r ≡ NoMemory) × NeedsRoom message.now (layer_told (dust_layer self.old) message.now))) }
        ensures unchanged { LeavesDust result self.old self.new }
        ensures rest { DustKeepsCounts self.old self.new }
    {
        match message {
            Message::AddBadBlock(block) => self.add(*block),
            Message::RemoveBadBlock(block) => self.remove(*block),
            Message::QueryBlock(block) => self.query(*block),
            Message::CountBadBlocks => Ok(Answer::Count(self.bad.len() as u64)),
            Message::ClearBadBlocks => {
                self.bad.clear();
                Ok(Answer::Done)
            }
            Message::Enable => {
                self.enabled = true;
                Ok(Answer::Done)
            }
            Message::Disable => {
                self.enabled = false;
                Ok(Answer::Done)
            }
            Message::Tick(_) => Err(Refusal::BadTable),
        }
    }

    // Puts a block on the list.
    fn add(&mut self, block: u64) -> Result<Answer, Refusal>
        ensures ok { IfOk result (λ a. layer_told (dust_layer self.old) (AddBadBlock block) ≡ Answered a (dust_layer self.new)) }
        ensures err { IfErr result (λ r. (layer_told (dust_layer self.old) (AddBadBlock block) ≡ Refused r) ⊎ ((r ≡ NoMemory) × NeedsRoom (AddBadBlock block) (layer_told (dust_layer self.old) (AddBadBlock block)))) }
        ensures unchanged { LeavesDust result self.old self.new }
        ensures rest { DustKeepsCounts self.old self.new }
    {
        if self.is_past(block) {
            return Err(Refusal::OutOfRange);
        }
        match self.bad.insert(block) {
            Ok(true) => Ok(Answer::Done),
            Ok(false) => Ok(Answer::Already),
            Err(_) => Err(Refusal::NoMemory),
        }
    }

    // Takes a block off the list.
    fn remove(&mut self, block: u64) -> Result<Answer, Refusal>
        ensures ok { IfOk result (λ a. layer_told (dust_layer self.old) (RemoveBadBlock block) ≡ Answered a (dust_layer self.new)) }
        ensures err { IfErr result (λ r. layer_told (dust_layer self.old) (RemoveBadBlock block) ≡ Refused r) }
        ensures unchanged { LeavesDust result self.old self.new }
        ensures rest { DustKeepsCounts self.old self.new }
    {
        if self.is_past(block) {
            return Err(Refusal::OutOfRange);
        }
        if self.bad.remove(&block) {
            Ok(Answer::Done)
        } else {
            Ok(Answer::Absent)
        }
    }

    // Whether a block is on the list.
    fn query(&self, block: u64) -> Result<Answer, Refusal>
        ensures ok { IfOk result (λ a. layer_told (dust_layer self.now) (QueryBlock block) ≡ Answered a (dust_layer self.now)) }
        ensures err { IfErr result (λ r. layer_told (dust_layer self.now) (QueryBlock block) ≡ Refused r) }
    {
        if self.is_past(block) {
            return Err(Refusal::OutOfRange);
        }
        if self.bad.contains(&block) {
            Ok(Answer::Bad)
        } else {
            Ok(Answer::Good)
        }
    }

    // Whether a block begins at or after the layer's end.
    fn is_past(&self, block: u64) -> bool
        ensures { result ≡ is_past self.now.sectors self.now.block_size block }
    {
        match block.checked_mul(self.block_size as u64) {
            Some(first_byte) => self.sectors * SECTOR_BYTES as u64 <= first_byte,
            None => true,
        }
    }
}

// Whether some block of the list has a byte of these sectors.
fn touches_any(bad: &BTreeSet<u64>, block_size: u32, first: u64, count: u32) -> bool
    requires nonzero { 0 < block_size }
    requires some { 0 < count }
    requires small { first + count ≤ 16_777_216 }
    ensures { result ≡ list_any (touches block_size first count) bad.now.keys }
{
    let low = 512 * first / block_size as u64;
    let high = (512 * (first + count as u64) - 1) / block_size as u64;
    any_between(bad, low, high)
}

// Takes the blocks that have a byte of these sectors off the list.
fn take_touched_off(bad: &mut BTreeSet<u64>, block_size: u32, first: u64, count: u32)
    requires nonzero { 0 < block_size }
    requires some { 0 < count }
    requires small { first + count ≤ 16_777_216 }
    ensures { bad.new.keys ≡ filter (λ b. not (touches block_size first count b)) bad.old.keys }
{
    let low = 512 * first / block_size as u64;
    let high = (512 * (first + count as u64) - 1) / block_size as u64;
    if any_between(bad, low, high) {
        keep_outside(bad, low, high);
    }
}

// Whether some block of the list lies between these, both included.
fn any_between(bad: &BTreeSet<u64>, low: u64, high: u64) -> bool
    requires { low ≤ high }
    ensures { result ≡ list_any (λ b. nat_le low b && nat_le b high) bad.now.keys }
{
    bad.range(low..=high).next().is_some()
}

// Takes the blocks between these, both included, off the list.
fn keep_outside(bad: &mut BTreeSet<u64>, low: u64, high: u64)
    ensures { bad.new.keys ≡ filter (λ b. not (nat_le low b && nat_le b high)) bad.old.keys }
{
    bad.retain(move |b: &u64| lies_outside(low, high, *b));
}

// Whether a block lies below the one or above the other.
fn lies_outside(low: u64, high: u64, block: u64) -> bool
    ensures { result ≡ not (nat_le low block && nat_le block high) }
{
    block < low || high < block
}
