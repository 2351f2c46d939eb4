// Sectors of two arrays are compared.
ghost use Rattle.std.specs.Prelude.{◌≡◌, ℕ, ◌+◌, ◌*◌, ◌≤◌, List, length, OnOk, take, drop};
ghost use Rattle.cow_salvage.specs.Differences.{AreDifferences};

use crate::Span;
use crate::joining::add_sector;
use std::alloc::AllocError;

/// Compares so many sectors of two arrays from one on, by the bytes that were read of both, and adds those that differ.
pub(crate) fn compare(
    ours: &[u8],
    theirs: &[u8],
    first: u64,
    count: u64,
    spans: &mut Vec<Span>,
) -> Result<(), AllocError>
    requires ours { length ours.now ≡ 512 * count }
    requires theirs { length theirs.now ≡ 512 * count }
    requires small { first + count ≤ 68_719_476_736 }
    ensures added { OnOk result ((a : List ℕ) → (o : List ℕ) → ours.now ≡ take (512 * count) (drop (512 * first) a) → theirs.now ≡ take (512 * count) (drop (512 * first) o) → AreDifferences a o first spans.old.items → AreDifferences a o (first + count) spans.new.items) }
{
    for i in 0..count {
        let from = 512 * i as usize;
        if ours[from..from + 512] != theirs[from..from + 512] {
            add_sector(spans, first + i)?;
        }
    }
    Ok(())
}
