// Sectors that were zero at the last flush become zero again.
ghost use Rattle.std.specs.Prelude.{◌≡◌, ℕ, ◌+◌, ◌*◌, ◌<◌, ◌≤◌, length, replicate, slice_index};
ghost use Rattle.sector.specs.Bytes.{sector_at};
ghost use Rattle.device.specs.declared.mark.Mark.TheVariants.{Zero};
ghost use Rattle.device.specs.Listed.{listed, place_in};
ghost use Rattle.device.specs.Marks.{mark_at};
ghost use Rattle.device.specs.Changes.{ChangesOnlyZero};

use crate::bytes::write_sectors;
use crate::mark::Mark;
use crate::marking::has_mark;
use crate::span::Span;
use sector::SECTOR_BYTES;

/// Makes the listed sectors zero that are still marked so.
pub fn zero_all(now: &mut [u8], marks: &[Mark], zeroed: &[Span])
    requires whole { length now.old ≡ 512 * length marks.now }
    requires inside { (j : ℕ) → j < length (listed zeroed.now) → slice_index (listed zeroed.now) j < length marks.now }
    ensures len { length now.new ≡ length now.old }
    ensures zero { (t : ℕ) → mark_at marks.now t ≡ Zero → place_in (listed zeroed.now) t < length (listed zeroed.now) → sector_at now.new t ≡ replicate 512 0 }
    ensures others { ChangesOnlyZero marks.now now.old now.new }
{
    for span in zeroed {
        zero_span(now, marks, span.first as usize, span.count as usize);
    }
}

// Makes the sectors of a span zero that are still marked so.
fn zero_span(now: &mut [u8], marks: &[Mark], first: usize, count: usize)
    requires whole { length now.old ≡ 512 * length marks.now }
    requires inside { first + count ≤ length marks.now }
    ensures len { length now.new ≡ length now.old }
    ensures zero { (t : ℕ) → mark_at marks.now t ≡ Zero → first ≤ t → t < first + count → sector_at now.new t ≡ replicate 512 0 }
    ensures still { (t : ℕ) → sector_at now.old t ≡ replicate 512 0 → sector_at now.new t ≡ replicate 512 0 }
    ensures others { ChangesOnlyZero marks.now now.old now.new }
{
    for s in first..first + count {
        if has_mark(marks, s, Mark::Zero) {
            write_sectors(now, s, &[0; SECTOR_BYTES]);
        }
    }
}
