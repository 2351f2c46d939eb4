// The cells of a picture are counted.
ghost use Rattle.std.specs.Prelude.{◌≡◌, ◌<◌, ◌≤◌, [], length, map, slice_index, IfOk};
ghost use Rattle.std.specs.List.{range_with_len};
ghost use Rattle.map_drawing.specs.Cells.{AreCells, count_in, chunks_in, with_one};
ghost use Rattle.map_drawing.specs.Marks.{level as level_by};

use crate::picture::Cells;
use sector::Pair;
use std::alloc::{AllocError, Global};

/// The cells of an origin of so many chunks, by its pairs.
pub fn count_cells(alloc: Global, pairs: &[Pair], all: u64) -> Result<Cells, AllocError>
    requires { all ≤ 68_719_476_736 }
    ensures { IfOk result (λ cells. AreCells pairs.now all cells) }
{
    let part = all / 1024 + 1;
    let number = (all + all / 1024) / part;
    let mut counts = vec![in alloc; 0u64; number as usize]?;
    count(pairs, part, counts.as_mut_slice());
    Ok(Cells { all, part, counts })
}

/// Counts pairs by their cells.
fn count(pairs: &[Pair], part: u64, counts: &mut [u64])
    requires some { 0 < part }
    requires none { counts.old ≡ map (count_in part []) (range_with_len 0 (length counts.old)) }
    ensures { counts.new ≡ map (count_in part pairs.now) (range_with_len 0 (length counts.old)) }
{
    for pair in pairs {
        add_one(counts, pair.old / part);
    }
}

/// Counts one more in a cell, if there is one.
fn add_one(counts: &mut [u64], cell: u64)
    requires { cell < length counts.old → slice_index counts.old cell < 18_446_744_073_709_551_615 }
    ensures { counts.new ≡ with_one counts.old cell }
{
    if cell < counts.len() as u64 {
        counts[cell as usize] += 1;
    }
}

impl Cells {
    /// How dark a cell is in which so many chunks have copies, from 0 to 9.
    pub(crate) fn level(&self, cell: u64, count: u64) -> u64
        ensures value { result ≡ level_by count (chunks_in self.now.part self.now.all cell) }
        ensures low { result ≤ 9 }
    {
        let before = cell.saturating_mul(self.part);
        let chunks = self.part.min(self.all.saturating_sub(before));
        if count == 0 {
            return 0;
        }
        1 + 8 * count.min(chunks) / chunks.max(1)
    }
}
