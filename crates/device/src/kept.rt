// The values that were kept aside, in the order of the list of their sectors.
ghost use Rattle.std.specs.Prelude.{◌≡◌, ◌⊎◌, ℕ, ◌+◌, ◌*◌, ◌-◌, ◌<◌, ◌≤◌, length, slice_index};
ghost use Rattle.sector.specs.Bytes.{sector_at};
ghost use Rattle.device.specs.declared.mark.Mark.TheVariants.{Kept};
ghost use Rattle.device.specs.Listed.{listed, place_in};
ghost use Rattle.device.specs.Marks.{mark_at};
ghost use Rattle.device.specs.Changes.{ChangesOnlyKept};

use crate::bytes::{sectors_of, write_sectors};
use crate::mark::Mark;
use crate::marking::has_mark;
use crate::span::Span;

/// Puts the values that were kept aside back into the bytes of the disk, of the listed sectors that are still marked so.
pub fn restore_all(now: &mut [u8], marks: &[Mark], aside: &[u8], kept: &[Span])
    requires small { length (listed kept.now) ≤ 16_777_216 }
    requires bytes { length now.old ≡ 512 * length marks.now }
    requires whole { length aside.now ≡ 512 * length (listed kept.now) }
    requires inside { (j : ℕ) → j < length (listed kept.now) → slice_index (listed kept.now) j < length marks.now }
    requires once { (j : ℕ) → j < length (listed kept.now) → place_in (listed kept.now) (slice_index (listed kept.now) j) ≡ j }
    ensures len { length now.new ≡ length now.old }
    ensures back { (t : ℕ) → mark_at marks.now t ≡ Kept → place_in (listed kept.now) t < length (listed kept.now) → sector_at now.new t ≡ sector_at aside.now (place_in (listed kept.now) t) }
    ensures others { ChangesOnlyKept marks.now now.old now.new }
{
    let mut place = 0;
    for span in kept {
        restore(now, marks, aside, place, *span);
        place += span.count as usize;
    }
}

// Puts the values back that were kept aside of a span, from a place on, of the sectors that are still marked so.
fn restore(now: &mut [u8], marks: &[Mark], aside: &[u8], place: usize, span: Span)
    requires bytes { length now.old ≡ 512 * length marks.now }
    requires inside { span.first + span.count ≤ length marks.now }
    requires there { 512 * (place + span.count) ≤ length aside.now }
    ensures len { length now.new ≡ length now.old }
    ensures back { (i : ℕ) → i < span.count → mark_at marks.now (span.first + i) ≡ Kept → sector_at now.new (span.first + i) ≡ sector_at aside.now (place + i) }
    ensures outside { (t : ℕ) → (t < span.first) ⊎ (span.first + span.count ≤ t) → sector_at now.new t ≡ sector_at now.old t }
    ensures others { ChangesOnlyKept marks.now now.old now.new }
{
    for i in 0..span.count as usize {
        let s = span.first as usize + i;
        if has_mark(marks, s, Mark::Kept) {
            write_sectors(now, s, sectors_of(aside, place + i, 1));
        }
    }
}

/// Makes the values that some sectors have now those that are kept aside of them. It goes over the whole list.
pub fn replace_all(aside: &mut [u8], kept: &[Span], now: &[u8], first: usize, count: usize)
    requires small { length (listed kept.now) ≤ 16_777_216 }
    requires whole { length aside.old ≡ 512 * length (listed kept.now) }
    requires inside { 512 * (first + count) ≤ length now.now }
    ensures len { length aside.new ≡ length aside.old }
    ensures replaced { (j : ℕ) → j < length (listed kept.now) → first ≤ slice_index (listed kept.now) j → slice_index (listed kept.now) j < first + count → sector_at aside.new j ≡ sector_at now.now (slice_index (listed kept.now) j) }
    ensures others { (j : ℕ) → j < length (listed kept.now) → (slice_index (listed kept.now) j < first) ⊎ (first + count ≤ slice_index (listed kept.now) j) → sector_at aside.new j ≡ sector_at aside.old j }
{
    let mut place = 0;
    for span in kept {
        replace(aside, place, *span, now, first, count);
        place += span.count as usize;
    }
}

// Makes the values that some sectors have now those of them that are kept aside of a span, from a place on.
fn replace(aside: &mut [u8], place: usize, span: Span, now: &[u8], first: usize, count: usize)
    requires there { 512 * (place + span.count) ≤ length aside.old }
    requires inside { 512 * (first + count) ≤ length now.now }
    ensures len { length aside.new ≡ length aside.old }
    ensures replaced { (i : ℕ) → i < span.count → first ≤ span.first + i → span.first + i < first + count → sector_at aside.new (place + i) ≡ sector_at now.now (span.first + i) }
    ensures outside { (i : ℕ) → i < span.count → (span.first + i < first) ⊎ (first + count ≤ span.first + i) → sector_at aside.new (place + i) ≡ sector_at aside.old (place + i) }
    ensures others { (j : ℕ) → (j < place) ⊎ (place + span.count ≤ j) → sector_at aside.new j ≡ sector_at aside.old j }
{
    let begin = span.first as usize;
    let from = first.max(begin);
    let to = (first + count).min(begin + span.count as usize);
    if from < to {
        write_sectors(
            aside,
            place + (from - begin),
            sectors_of(now, from, to - from),
        );
    }
}
