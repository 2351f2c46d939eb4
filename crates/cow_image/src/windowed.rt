// An image that is read ahead.
ghost use Rattle.std.specs.Prelude.{◌≡◌, ℕ, ◌+◌, ◌≤◌, List, length, take, drop, IfOk, IfSome};
ghost use Rattle.std.specs.Bool.{OnTrue};
ghost use Rattle.cow_image.specs.Windows.{IsWindowOf};

use image::Image;
use std::alloc::{AllocError, Global};
use std::io;

/// How many bytes are read ahead.
const WINDOW: u64 = 262_144;

/// A longer read costs less than its bytes' way through a window.
const SHORT: usize = 2048;

/// An image that is read by windows where its reads lie near one another: those inside the window are given from it. Its bytes
/// are those of the image below. Where a window can't be read, just what is asked for is.
#[derive(Drop)]
pub(crate) struct Windowed<'a, I: Image> {
    below: &'a mut I,
    /// How many bytes the image below has.
    end: u64,
    /// Where the window begins, if there is one, and its bytes.
    at: Option<u64>,
    window: Vec<u8>,
    reads: Reads,
    ghost held: { IsWindowOf (I.bytes below.now) at window.items },
}

/// The reads that lay outside the window.
#[derive(Clone, Copy, Drop)]
struct Reads {
    /// Where the last one began.
    last: u64,
    /// How many before it, one after the other, lay near the one before them.
    near: u32,
}

impl Reads {
    /// Counts a read, and tells whether a window is to be read for it: it is short, and near two others.
    fn is_near(&mut self, at: u64, len: usize) -> bool {
        let near = at.abs_diff(self.last) <= WINDOW;
        self.last = at;
        self.near = if near { self.near.saturating_add(1) } else { 0 };
        2 <= self.near && len <= SHORT
    }
}

impl<'a, I: Image> Windowed<'a, I> {
    /// An image that is read ahead, with no window yet.
    pub fn new(alloc: Global, below: &'a mut I) -> Result<Windowed<'a, I>, AllocError>
        ensures { IfOk result (λ image. I.bytes image.below.now ≡ I.bytes below.old) }
    {
        let end = below.len().unwrap_or(0);
        let window = vec![in alloc; 0u8; WINDOW.min(end) as usize]?;
        let reads = Reads { last: 0, near: 0 };
        Ok(Windowed {
            below,
            end,
            at: None,
            window,
            reads,
        })
    }

    /// Gives bytes from the window, if they are all in it.
    fn give(&self, at: u64, out: &mut [u8]) -> bool
        ensures inside { OnTrue result (IfSome (I.bytes self.now.below.now) (λ b. at + length out.old ≤ length b)) }
        ensures data { OnTrue result (IfSome (I.bytes self.now.below.now) (λ b. out.new ≡ take (length out.old) (drop at b))) }
    {
        let Some(first) = self.at else {
            return false;
        };
        let len = self.window.len();
        if at < first || at - first > len as u64 {
            return false;
        }
        let from = (at - first) as usize;
        if len - from < out.len() {
            return false;
        }
        out.copy_from_slice(&self.window[from..from + out.len()]);
        true
    }

    /// Whether a byte stands before the window.
    fn stands_before(&self, at: u64) -> bool {
        match self.at {
            Some(first) => at < first,
            None => false,
        }
    }

    /// Reads a window that has so many bytes from one on: it begins with them, or ends with them where they stand before the
    /// last one. Where it can't be read there is none.
    fn read_window(&mut self, at: u64, len: usize)
        ensures bytes { I.bytes self.new.below.now ≡ I.bytes self.old.below.now }
        ensures calm { (k : ℕ) → (n : ℕ) → I.may_fail self.new.below.now k n → I.may_fail self.old.below.now k n }
    {
        let room = self.window.len() as u64;
        let first = if self.stands_before(at) {
            at.saturating_add(len as u64).saturating_sub(room)
        } else {
            at
        };
        let first = first.min(self.end.saturating_sub(room));
        self.at = None;
        if let Ok(()) = self.below.read_at(first, self.window.as_mut_slice()) {
            self.at = Some(first);
        }
    }

    /// Reads a window for bytes that are to be read ahead, and gives them from it.
    fn give_ahead(&mut self, at: u64, out: &mut [u8]) -> bool
        ensures inside { OnTrue result (IfSome (I.bytes self.old.below.now) (λ b. at + length out.old ≤ length b)) }
        ensures data { OnTrue result (IfSome (I.bytes self.old.below.now) (λ b. out.new ≡ take (length out.old) (drop at b))) }
        ensures bytes { I.bytes self.new.below.now ≡ I.bytes self.old.below.now }
        ensures calm { (k : ℕ) → (n : ℕ) → I.may_fail self.new.below.now k n → I.may_fail self.old.below.now k n }
    {
        if !self.reads.is_near(at, out.len()) {
            return false;
        }
        self.read_window(at, out.len());
        self.give(at, out)
    }
}

impl<'a, I: Image> Image for Windowed<'a, I> {
    ghost bytes = { λ image. I.bytes image.below.now };

    ghost may_fail = { λ image. I.may_fail image.below.now };

    ghost may_give = { λ _ _ _. Unit {0} };

    fn len(&mut self) -> io::Result<u64> {
        self.below.len()
    }

    fn read_at(&mut self, at: u64, out: &mut [u8]) -> io::Result<()> {
        if self.give(at, out) {
            return Ok(());
        }
        if self.give_ahead(at, out) {
            return Ok(());
        }
        self.below.read_at(at, out)
    }
}
