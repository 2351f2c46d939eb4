// An image that fails once, for tests.
ghost use Rattle.std.specs.Prelude.{◌≡◌};

use crate::Image;
use std::io;

/// An image one call of which fails: the one that is made after so many others. Its bytes are those of the image below.
#[derive(Drop)]
pub struct FailingImage<I: Image> {
    pub below: I,
    pub left: u64,
}

impl<I: Image> FailingImage<I> {
    // Whether the call that fails is this one.
    fn fails(&mut self) -> bool
        ensures { self.new.below ≡ self.old.below }
    {
        let last = self.left == 1;
        self.left = self.left.saturating_sub(1);
        last
    }
}

impl<I: Image> Image for FailingImage<I> {
    ghost bytes = { λ image. I.bytes image.below };

    ghost may_fail = { λ _ _ _. Unit {0} };

    ghost may_give = { λ image. I.may_give image.below };

    fn len(&mut self) -> io::Result<u64> {
        if self.fails() {
            return Err(io::ErrorKind::Other.into());
        }
        self.below.len()
    }

    fn read_at(&mut self, at: u64, out: &mut [u8]) -> io::Result<()> {
        if self.fails() {
            return Err(io::ErrorKind::Other.into());
        }
        self.below.read_at(at, out)
    }
}
