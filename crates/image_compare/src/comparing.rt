// Two images are compared.
ghost use Rattle.std.specs.Prelude.{◌≡◌, ◌==◌, ℕ, ◌*◌, ◌≤◌, List, length, min, IfOk, Some, None, if◌then◌else◌};
ghost use Rattle.image_compare.specs.Comparisons.{IsComparison, IsFront};

use crate::piece::Front;
use cow_image::Failure;
use image::Image;
use std::alloc::Global;

/// How two images compare.
#[derive(Clone, Copy, PartialEq, Eq)]
pub struct Compared {
    /// The first byte in which they differ, if they do: the end of the shorter one, where that is a front of the other.
    pub first: Option<u64>,
    /// In how many of the sectors that both have they differ.
    pub differing: u64,
}

/// How many sectors are compared at once.
const PIECE: u64 = 2048;

/// Compares two images, which have so many sectors.
pub fn compare<A: Image, B: Image>(
    alloc: Global,
    one: &mut A,
    other: &mut B,
    size: u64,
    other_size: u64,
) -> Result<Compared, Failure>
    requires small { size ≤ 68_719_476_736 }
    requires other_small { other_size ≤ 68_719_476_736 }
    ensures { IfOk result (λ found. (a : List ℕ) → (b : List ℕ) → A.bytes one.old ≡ Some a → B.bytes other.old ≡ Some b → length a ≡ 512 * size → length b ≡ 512 * other_size → IsComparison a b (min size other_size) found) }
{
    let Ok(mut ours) = vec![in alloc; 0u8; 1_048_576] else {
        return Err(Failure::NoMemory);
    };
    let Ok(mut theirs) = vec![in alloc; 0u8; 1_048_576] else {
        return Err(Failure::NoMemory);
    };
    let ours = ours.as_mut_slice();
    let theirs = theirs.as_mut_slice();
    let both = size.min(other_size);
    match compare_front(one, other, both, ours, theirs) {
        Ok(front) => Ok(whole(front, size, other_size)),
        Err(failure) => Err(failure),
    }
}

/// How two images of so many sectors compare, by what is known of all that both have.
fn whole(front: Front, size: u64, other_size: u64) -> Compared
    requires small { size ≤ 68_719_476_736 }
    requires other_small { other_size ≤ 68_719_476_736 }
    ensures { (a : List ℕ) → (b : List ℕ) → length a ≡ 512 * size → length b ≡ 512 * other_size → IsFront a b (min size other_size) front → IsComparison a b (min size other_size) result }
{
    let differing = front.differing;
    match front.first {
        Some(at) => Compared {
            first: Some(at),
            differing,
        },
        None => Compared {
            first: end_of_shorter(size, other_size),
            differing,
        },
    }
}

/// The end of the shorter one of two images that have so many sectors, if they have not as many.
fn end_of_shorter(size: u64, other_size: u64) -> Option<u64>
    requires small { size ≤ 68_719_476_736 }
    requires other_small { other_size ≤ 68_719_476_736 }
    ensures { result ≡ (if size == other_size then None else Some (512 * min size other_size)) }
{
    if size == other_size {
        return None;
    }
    Some(512 * size.min(other_size))
}

/// Compares so many sectors at the front of two images, piece by piece, through room for a piece of both.
fn compare_front<A: Image, B: Image>(
    one: &mut A,
    other: &mut B,
    end: u64,
    ours: &mut [u8],
    theirs: &mut [u8],
) -> Result<Front, Failure>
    requires small { end ≤ 68_719_476_736 }
    requires ours { length ours.old ≡ 1_048_576 }
    requires theirs { length theirs.old ≡ 1_048_576 }
    ensures { IfOk result (λ front. (a : List ℕ) → (b : List ℕ) → A.bytes one.old ≡ Some a → B.bytes other.old ≡ Some b → IsFront a b end front) }
{
    let mut front = Front {
        first: None,
        differing: 0,
    };
    let mut done = 0;
    while done < end {
        let count = PIECE.min(end - done);
        let len = 512 * count as usize;
        let ours = &mut ours[..len];
        let theirs = &mut theirs[..len];
        match one.read_at(512 * done, ours) {
            Ok(()) => {}
            Err(error) => return Err(Failure::Unreadable(error)),
        }
        match other.read_at(512 * done, theirs) {
            Ok(()) => {}
            Err(error) => return Err(Failure::Unreadable(error)),
        }
        front.add(ours, theirs, done, count);
        done += count;
    }
    Ok(front)
}
