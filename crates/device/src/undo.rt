// What brings a disk back to its last flush: a mark for each sector, and the values that were written over.
ghost use Rattle.std.specs.Prelude.{◌≡◌, ◌≢◌, ◌⊎◌, ℕ, List, ◌+◌, ◌*◌, ◌<◌, ◌≤◌, ◌++◌, [], length, replicate, vec_capacity, IfOk, IfErr};
ghost use Rattle.std.specs.List.{range_with_len};
ghost use Rattle.sector.specs.declared.refusal.Refusal.TheVariants.{NoMemory};
ghost use Rattle.sector.specs.Bytes.{sector_at};
ghost use Rattle.device.specs.declared.mark.Mark.TheVariants.{Fresh, Same, Zero, Loaded};
ghost use Rattle.device.specs.Listed.{listed};
ghost use Rattle.device.specs.Marks.{mark_at, flushed_at, AreKept, AreZeroed};

use crate::bytes::{append, sectors_of};
use crate::kept::{replace_all, restore_all};
use crate::listing::list;
use crate::mark::Mark;
use crate::marking::{mark_all, put_all, run_len, settle};
use crate::span::Span;
use crate::zeroed::zero_all;
use sector::{Refusal, SECTOR_BYTES};
use std::alloc::Global;

/// The marks of a disk's sectors, those that were written since the last flush, and the values of some of these that
/// were kept aside, in the order of their list.
///
/// There is room for all that may be kept aside and listed until the next flush.
#[derive(Drop)]
pub struct Undo {
    pub aside: Vec<u8>,
    pub marks: Vec<Mark>,
    pub zeroed: Vec<Span>,
    pub kept: Vec<Span>,
    ghost small: { length marks.items ≤ 16_777_216 },
    ghost aside_room: { 512 * length marks.items ≤ vec_capacity aside },
    ghost zeroed_room: { length marks.items ≤ vec_capacity zeroed },
    ghost kept_room: { length marks.items ≤ vec_capacity kept },
    ghost whole: { length aside.items ≡ 512 * length (listed kept.items) },
    ghost are_zeroed: { AreZeroed marks.items (listed zeroed.items) },
    ghost are_kept: { AreKept marks.items (listed kept.items) },
}

impl Undo {
    ghost use Rattle.device.specs.Changes.{AreKeptIn, AreSettled, AreUnsettledIn, FreshBeside, MakesNoneFresh, MarksAsMany, MarksOnly, UndoesAlike};

    /// For a disk of so many sectors that were never written. `NoMemory` where the room is refused: 529 bytes a sector,
    /// of which only the mark is written before there is something to keep. No later call takes memory.
    pub fn new(alloc: Global, sectors: usize) -> Result<Undo, Refusal>
        requires { sectors ≤ 16_777_216 }
        ensures marks { IfOk result (λ undo. undo.marks.items ≡ replicate sectors Fresh) }
        ensures err { IfErr result (λ e. e ≡ NoMemory) }
    {
        let Ok(aside) = Vec::with_capacity(alloc, sectors * SECTOR_BYTES) else {
            return Err(Refusal::NoMemory);
        };
        let Ok(marks) = vec![in alloc; Mark::Fresh; sectors] else {
            return Err(Refusal::NoMemory);
        };
        let Ok(zeroed) = Vec::with_capacity(alloc, sectors) else {
            return Err(Refusal::NoMemory);
        };
        let Ok(kept) = Vec::with_capacity(alloc, sectors) else {
            return Err(Refusal::NoMemory);
        };
        Ok(Undo {
            aside,
            marks,
            zeroed,
            kept,
        })
    }

    // Notes of sectors that were never written that they were zero at the last flush.
    #[inline(always)]
    fn note_zero(&mut self, first: usize, count: usize)
        requires some { 1 ≤ count }
        requires inside { first + count ≤ length self.old.marks.items }
        requires fresh { (t : ℕ) → first ≤ t → t < first + count → mark_at self.old.marks.items t ≡ Fresh }
        ensures len { MarksAsMany self.old self.new }
        ensures set { (t : ℕ) → first ≤ t → t < first + count → mark_at self.new.marks.items t ≡ Zero }
        ensures others { MarksOnly first count self.old self.new }
        ensures kept { self.new.kept.items ≡ self.old.kept.items }
        ensures aside { self.new.aside.items ≡ self.old.aside.items }
    {
        list(&mut self.zeroed, first, count);
        mark_all(&mut self.marks, first, count, Mark::Zero);
    }

    // Keeps the values of sectors aside, which are those of the last flush.
    #[inline(always)]
    fn take_aside(&mut self, first: usize, count: usize, values: &[u8])
        requires some { 1 ≤ count }
        requires inside { first + count ≤ length self.old.marks.items }
        requires same { (t : ℕ) → first ≤ t → t < first + count → mark_at self.old.marks.items t ≡ Same }
        requires whole { length values.now ≡ 512 * count }
        ensures len { MarksAsMany self.old self.new }
        ensures set { AreKeptIn first count self.new }
        ensures others { MarksOnly first count self.old self.new }
        ensures kept { listed self.new.kept.items ≡ listed self.old.kept.items ++ range_with_len first count }
        ensures aside { self.new.aside.items ≡ self.old.aside.items ++ values.now }
    {
        append(&mut self.aside, values);
        list(&mut self.kept, first, count);
        mark_all(&mut self.marks, first, count, Mark::Kept);
    }

    // Keeps the values of sectors aside again that a load made those of the last flush, each in the place of the value
    // before.
    #[inline(never)]
    fn take_again(&mut self, now: &[u8], first: usize, count: usize)
        requires some { 1 ≤ count }
        requires inside { first + count ≤ length self.old.marks.items }
        requires loaded { (t : ℕ) → first ≤ t → t < first + count → mark_at self.old.marks.items t ≡ Loaded }
        requires whole { length now.now ≡ 512 * length self.old.marks.items }
        ensures len { MarksAsMany self.old self.new }
        ensures set { AreKeptIn first count self.new }
        ensures others { MarksOnly first count self.old self.new }
        ensures flushed { UndoesAlike now.now self.old self.new }
    {
        replace_all(&mut self.aside, &self.kept, now, first, count);
        mark_all(&mut self.marks, first, count, Mark::Kept);
    }

    // Sees to it that a write of sectors that have one mark leaves their values of the last flush.
    #[inline(always)]
    fn keep_run(&mut self, now: &[u8], first: usize, count: usize)
        requires some { 1 ≤ count }
        requires inside { first + count ≤ length self.old.marks.items }
        requires same { (t : ℕ) → first ≤ t → t < first + count → mark_at self.old.marks.items t ≡ mark_at self.old.marks.items first }
        requires whole { length now.now ≡ 512 * length self.old.marks.items }
        requires fresh { (t : ℕ) → mark_at self.old.marks.items t ≡ Fresh → sector_at now.now t ≡ replicate 512 0 }
        ensures len { MarksAsMany self.old self.new }
        ensures kept { AreUnsettledIn first count self.new }
        ensures others { MarksOnly first count self.old self.new }
        ensures flushed { UndoesAlike now.now self.old self.new }
    {
        match self.marks[first] {
            Mark::Fresh => self.note_zero(first, count),
            Mark::Same => self.take_aside(first, count, sectors_of(now, first, count)),
            Mark::Zero | Mark::Kept => {}
            Mark::Loaded => self.take_again(now, first, count),
        }
    }

    /// Sees to it that a write of sectors leaves their values of the last flush. It goes over the list of all that are kept
    /// aside only for sectors that were written since the last flush, then loaded, and are now written once more.
    #[inline(always)]
    pub fn keep(&mut self, now: &[u8], first: usize, count: usize)
        requires inside { first + count ≤ length self.old.marks.items }
        requires whole { length now.now ≡ 512 * length self.old.marks.items }
        requires fresh { (t : ℕ) → mark_at self.old.marks.items t ≡ Fresh → sector_at now.now t ≡ replicate 512 0 }
        ensures len { MarksAsMany self.old self.new }
        ensures kept { AreUnsettledIn first count self.new }
        ensures others { MarksOnly first count self.old self.new }
        ensures flushed { UndoesAlike now.now self.old self.new }
    {
        if count == 1 {
            self.keep_run(now, first, 1);
        } else {
            self.keep_runs(now, first, count);
        }
    }

    // Sees to the same of any number of sectors, run by run.
    #[inline(never)]
    fn keep_runs(&mut self, now: &[u8], first: usize, count: usize)
        requires inside { first + count ≤ length self.old.marks.items }
        requires whole { length now.now ≡ 512 * length self.old.marks.items }
        requires fresh { (t : ℕ) → mark_at self.old.marks.items t ≡ Fresh → sector_at now.now t ≡ replicate 512 0 }
        ensures len { MarksAsMany self.old self.new }
        ensures kept { AreUnsettledIn first count self.new }
        ensures others { MarksOnly first count self.old self.new }
        ensures flushed { UndoesAlike now.now self.old self.new }
    {
        let end = first + count;
        let mut done = first;
        while done < end {
            let run = run_len(&self.marks, done, end);
            self.keep_run(now, done, run);
            done += run;
        }
    }

    /// Makes the values that sectors have now, whatever they are, those of the last flush.
    pub fn put(&mut self, first: usize, count: usize)
        requires inside { first + count ≤ length self.old.marks.items }
        ensures len { MarksAsMany self.old self.new }
        ensures flushed { (now : List ℕ) → (t : ℕ) → first ≤ t → t < first + count → flushed_at now (listed self.new.kept.items) self.new.aside.items self.new.marks.items t ≡ sector_at now t }
        ensures others { (now : List ℕ) → (t : ℕ) → (t < first) ⊎ (first + count ≤ t) → flushed_at now (listed self.new.kept.items) self.new.aside.items self.new.marks.items t ≡ flushed_at now (listed self.old.kept.items) self.old.aside.items self.old.marks.items t }
        ensures fresh { FreshBeside first count self.old self.new }
    {
        put_all(&mut self.marks, first, count);
    }

    /// Makes the values that all sectors have now those of the last flush.
    #[inline(always)]
    pub fn forget(&mut self)
        ensures len { MarksAsMany self.old self.new }
        ensures settled { AreSettled self.new }
        ensures fresh { MakesNoneFresh self.old self.new }
        ensures zeroed { self.new.zeroed.items ≡ [] }
        ensures kept { self.new.kept.items ≡ [] }
        ensures aside { self.new.aside.items ≡ [] }
    {
        settle(&mut self.marks, &mut self.zeroed);
        settle(&mut self.marks, &mut self.kept);
        self.aside.clear();
    }

    /// Makes the values that all sectors have now those of the last flush, some of which were just written.
    #[inline(always)]
    pub fn forget_written(&mut self, first: usize, count: usize)
        requires some { 1 ≤ count }
        requires inside { first + count ≤ length self.old.marks.items }
        ensures len { MarksAsMany self.old self.new }
        ensures settled { AreSettled self.new }
        ensures fresh { FreshBeside first count self.old self.new }
    {
        self.forget();
        mark_all(&mut self.marks, first, count, Mark::Same);
    }

    /// Puts the values of the last flush back into the bytes of the disk.
    pub fn take_back(&mut self, now: &mut [u8])
        requires whole { length now.old ≡ 512 * length self.old.marks.items }
        ensures len { MarksAsMany self.old self.new }
        ensures settled { AreSettled self.new }
        ensures back { (t : ℕ) → sector_at now.new t ≡ flushed_at now.old (listed self.old.kept.items) self.old.aside.items self.old.marks.items t }
        ensures fresh { MakesNoneFresh self.old self.new }
    {
        zero_all(now, &self.marks, &self.zeroed);
        restore_all(now, &self.marks, &self.aside, &self.kept);
        self.forget();
    }
}
