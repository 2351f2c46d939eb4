// The marks of many sectors at once.
ghost use Rattle.std.specs.Prelude.{◌≡◌, ◌≢◌, ◌⊎◌, ℕ, ◌+◌, ◌<◌, ◌≤◌, [], true, false, length, slice_index};
ghost use Rattle.device.specs.declared.mark.Mark.TheVariants.{Same};
ghost use Rattle.device.specs.Listed.{listed, place_in};
ghost use Rattle.device.specs.Marks.{mark_at, put_mark};
ghost use Rattle.device.specs.Changes.{ChangesIn, GainsRoom, KeepsLen, MakesSame};

use crate::mark::Mark;
use crate::span::Span;

/// Whether a sector has a mark.
pub fn has_mark(marks: &[Mark], s: usize, mark: Mark) -> bool
    requires { s < length marks.now }
    ensures yes { result ≡ true → mark_at marks.now s ≡ mark }
    ensures no { result ≡ false → mark_at marks.now s ≢ mark }
{
    marks[s] == mark
}

/// How many sectors have the mark of the first of them, up to an end.
pub fn run_len(marks: &[Mark], first: usize, end: usize) -> usize
    requires some { first < end }
    requires inside { end ≤ length marks.now }
    ensures some { 1 ≤ result }
    ensures inside { first + result ≤ end }
    ensures same { (t : ℕ) → first ≤ t → t < first + result → mark_at marks.now t ≡ mark_at marks.now first }
{
    let mark = marks[first];
    for s in first + 1..end {
        if marks[s] != mark {
            return s - first;
        }
    }
    end - first
}

/// Gives sectors a mark.
#[inline(always)]
pub fn mark_all(marks: &mut Vec<Mark>, first: usize, count: usize, mark: Mark)
    requires some { 1 ≤ count }
    requires inside { first + count ≤ length marks.old.items }
    ensures len { KeepsLen marks.old marks.new }
    ensures set { (t : ℕ) → first ≤ t → t < first + count → mark_at marks.new.items t ≡ mark }
    ensures others { ChangesIn first count marks.old marks.new }
{
    fill(marks, first, count, mark);
}

// Gives sectors a mark, in a slice, which is filled in bulk.
#[inline(always)]
fn fill(marks: &mut [Mark], first: usize, count: usize, mark: Mark)
    requires some { 1 ≤ count }
    requires inside { first + count ≤ length marks.old }
    ensures len { length marks.new ≡ length marks.old }
    ensures set { (t : ℕ) → first ≤ t → t < first + count → mark_at marks.new t ≡ mark }
    ensures others { (t : ℕ) → (t < first) ⊎ (first + count ≤ t) → mark_at marks.new t ≡ mark_at marks.old t }
{
    marks[first] = mark;
    for s in first + 1..first + count {
        marks[s] = mark;
    }
}

/// Marks sectors whose values now were made those of the last flush.
pub fn put_all(marks: &mut Vec<Mark>, first: usize, count: usize)
    requires { first + count ≤ length marks.old.items }
    ensures len { KeepsLen marks.old marks.new }
    ensures put { (t : ℕ) → first ≤ t → t < first + count → mark_at marks.new.items t ≡ put_mark (mark_at marks.old.items t) }
    ensures others { ChangesIn first count marks.old marks.new }
{
    for s in first..first + count {
        marks[s] = mark_put(marks[s]);
    }
}

// The mark of a sector that had another, once its value now was made that of the last flush.
fn mark_put(mark: Mark) -> Mark
    ensures { result ≡ put_mark mark }
{
    match mark {
        Mark::Fresh | Mark::Same | Mark::Zero => Mark::Same,
        Mark::Kept | Mark::Loaded => Mark::Loaded,
    }
}

/// Marks the listed sectors as having the values of the last flush, and empties their list. Most often it has one sector,
/// which is marked straight on.
#[inline(always)]
pub fn settle(marks: &mut Vec<Mark>, spans: &mut Vec<Span>)
    requires { (j : ℕ) → j < length (listed spans.old.items) → slice_index (listed spans.old.items) j < length marks.old.items }
    ensures len { KeepsLen marks.old marks.new }
    ensures settled { (t : ℕ) → place_in (listed spans.old.items) t < length (listed spans.old.items) → mark_at marks.new.items t ≡ Same }
    ensures others { MakesSame marks.old marks.new }
    ensures empty { spans.new.items ≡ [] }
    ensures room { GainsRoom spans.old spans.new }
{
    if spans.is_empty() {
        return;
    }
    let first = spans[0].first as usize;
    if spans.len() == 1 && spans[0].count == 1 {
        spans.clear();
        mark_all(marks, first, 1, Mark::Same);
    } else {
        settle_all(marks, spans);
        spans.clear();
    }
}

// Marks the listed sectors as having the values of the last flush.
#[inline(never)]
fn settle_all(marks: &mut Vec<Mark>, spans: &[Span])
    requires { (j : ℕ) → j < length (listed spans.now) → slice_index (listed spans.now) j < length marks.old.items }
    ensures len { KeepsLen marks.old marks.new }
    ensures settled { (t : ℕ) → place_in (listed spans.now) t < length (listed spans.now) → mark_at marks.new.items t ≡ Same }
    ensures others { MakesSame marks.old marks.new }
{
    for span in spans {
        mark_all(marks, span.first as usize, span.count as usize, Mark::Same);
    }
}
