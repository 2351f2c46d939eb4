// A part of two images is compared.
ghost use Rattle.std.specs.Prelude.{◌≡◌, ℕ, ◌+◌, ◌*◌, ◌<◌, ◌≤◌, List, length, take, drop};
ghost use Rattle.sector.specs.Bytes.{sector_at};
ghost use Rattle.image_compare.specs.Comparisons.{IsFront};

/// What is known of the fronts of two images: the first byte in which they differ, and in how many sectors.
#[derive(Clone, Copy, PartialEq, Eq)]
pub(crate) struct Front {
    pub first: Option<u64>,
    pub differing: u64,
}

impl Front {
    /// Adds so many sectors behind a front of so many, by the bytes that were read of both.
    pub fn add(&mut self, ours: &[u8], theirs: &[u8], done: u64, count: u64)
        requires ours { length ours.now ≡ 512 * count }
        requires theirs { length theirs.now ≡ 512 * count }
        requires small { done + count ≤ 68_719_476_736 }
        requires few { self.old.differing ≤ done }
        ensures few { self.new.differing ≤ done + count }
        ensures told { (a : List ℕ) → (b : List ℕ) → ours.now ≡ take (512 * count) (drop (512 * done) a) → theirs.now ≡ take (512 * count) (drop (512 * done) b) → IsFront a b done self.old → IsFront a b (done + count) self.new }
    {
        for i in 0..count {
            let from = 512 * i as usize;
            self.add_sector(&ours[from..from + 512], &theirs[from..from + 512], done + i);
        }
    }

    /// Adds a sector behind a front of so many.
    fn add_sector(&mut self, ours: &[u8], theirs: &[u8], done: u64)
        requires ours { length ours.now ≡ 512 }
        requires theirs { length theirs.now ≡ 512 }
        requires small { done < 68_719_476_736 }
        requires few { self.old.differing ≤ done }
        ensures few { self.new.differing ≤ done + 1 }
        ensures told { (a : List ℕ) → (b : List ℕ) → ours.now ≡ sector_at a done → theirs.now ≡ sector_at b done → IsFront a b done self.old → IsFront a b (done + 1) self.new }
    {
        if ours == theirs {
            return;
        }
        self.differing += 1;
        if self.first.is_none() {
            self.first = Some(512 * done + first_in(ours, theirs));
        }
    }
}

/// The first byte in which two sectors differ, which do.
fn first_in(ours: &[u8], theirs: &[u8]) -> u64
    requires ours { length ours.now ≡ 512 }
    requires theirs { length theirs.now ≡ 512 }
    requires other { ours.now ≡ theirs.now → ⊥ }
    ensures alike { take result ours.now ≡ take result theirs.now }
    ensures other { take (result + 1) ours.now ≡ take (result + 1) theirs.now → ⊥ }
    ensures inside { result < 512 }
{
    for at in 0..512 {
        if ours[at] != theirs[at] {
            return at as u64;
        }
    }
    0
}
