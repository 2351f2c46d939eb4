// Ranges are joined.
ghost use Rattle.std.specs.Prelude.{◌≡◌, ◌+◌, ◌<◌, ◌^◌, ◌++◌, OnOk};
ghost use Rattle.snapshot_extents.specs.Ranges.{Cover, joined, with_range};

use crate::range::Range;
use std::alloc::AllocError;

/// Adds a range behind others: to the last of them, where it goes on with that.
pub(crate) fn add(ranges: &mut Vec<Range>, range: Range) -> Result<(), AllocError>
    requires behind { Cover 0 range.start ranges.old.items }
    requires small { range.start + range.count < 2 ^ 64 }
    ensures { OnOk result (ranges.new.items ≡ with_range ranges.old.items range) }
{
    match ranges.pop() {
        None => {
            ranges.push(range)?;
            Ok(())
        }
        Some(last) => add_behind(ranges, last, range),
    }
}

/// Adds the last range, and one behind it.
fn add_behind(ranges: &mut Vec<Range>, last: Range, range: Range) -> Result<(), AllocError>
    requires small { last.count + range.count < 2 ^ 64 }
    ensures { OnOk result (ranges.new.items ≡ ranges.old.items ++ joined last range) }
{
    if !last.goes_on(range) {
        ranges.push(last)?;
        ranges.push(range)?;
        return Ok(());
    }
    let start = last.start;
    let count = last.count + range.count;
    let copy = last.copy;
    ranges.push(Range { start, count, copy })?;
    Ok(())
}
