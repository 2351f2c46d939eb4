// An image with zeros behind its end.
ghost use Rattle.std.specs.Prelude.{◌≡◌, ◌-◌, ◌≤◌, ◌++◌, List, ℕ, length, take, drop, replicate, OnOk, Some};
ghost use Rattle.new_store_files.specs.Padding.{known_padded};

use image::Image;
use std::io;

/// How many zeros stand behind the end: as many as the largest chunk has bytes.
const ZEROS: u64 = 524_288;

/// An image of so many bytes, with zeros behind them, so that its last chunk is whole.
#[derive(Drop)]
pub(crate) struct Padded<'a, I: Image> {
    pub below: &'a mut I,
    pub end: u64,
}

impl<'a, I: Image> Padded<'a, I> {
    /// Reads across the end: so many bytes before it, and zeros, if there are as many.
    fn read_across(&mut self, at: u64, left: usize, out: &mut [u8]) -> io::Result<()>
        requires { left ≤ length out.old }
        ensures data { OnOk result ((b : List ℕ) → I.bytes self.old.below.now ≡ Some b → out.new ≡ take left (drop at b) ++ replicate (length out.old - left) 0) }
        ensures few { OnOk result (length out.old - left ≤ 524_288) }
        ensures bytes { I.bytes self.new.below.now ≡ I.bytes self.old.below.now }
        ensures end { self.new.end ≡ self.old.end }
    {
        if ZEROS < (out.len() - left) as u64 {
            return Err(io::ErrorKind::UnexpectedEof.into());
        }
        out.fill(0);
        match self.below.read_at(at, &mut out[..left]) {
            Ok(()) => Ok(()),
            Err(error) => Err(error),
        }
    }
}

impl<'a, I: Image> Image for Padded<'a, I> {
    ghost bytes = { λ image. known_padded image.end (I.bytes image.below.now) };

    ghost may_fail = { λ _ _ _. Unit {0} };

    ghost may_give = { λ _ _ _. Unit {0} };

    fn len(&mut self) -> io::Result<u64> {
        match self.end.checked_add(ZEROS) {
            Some(len) => Ok(len),
            None => Err(io::ErrorKind::UnexpectedEof.into()),
        }
    }

    fn read_at(&mut self, at: u64, out: &mut [u8]) -> io::Result<()> {
        let count = out.len() as u64;
        if self.end < at {
            return Err(io::ErrorKind::UnexpectedEof.into());
        }
        let left = self.end - at;
        if count <= left {
            return match self.below.read_at(at, out) {
                Ok(()) => Ok(()),
                Err(error) => Err(error),
            };
        }
        match self.read_across(at, left as usize, out) {
            Ok(()) => Ok(()),
            Err(error) => Err(error),
        }
    }
}
