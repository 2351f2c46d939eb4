// A device that fails once, for tests of what one fault does.
ghost use Rattle.std.specs.Prelude.{◌≡◌, ◌∷◌, if◌then◌else◌, false, Some};
ghost use Rattle.sector.specs.Bytes.{next_count};
ghost use Rattle.device.specs.Layers.{Counted, counted_passes, counted_after};

use crate::{Block, Io};
use sector::{Range, Sector};

/// Passes some operations to the device inside, answers the next with a counted fault that changes nothing, and passes
/// all others.
#[derive(Drop)]
pub struct FailAt<B> {
    /// The device inside.
    pub inner: B,
    /// How many operations pass before the one that fails; `None` once it has failed.
    pub left: Option<u64>,
    /// How many operations answered a fault, modulo 2^64.
    pub faults: u64,
    /// How many operations there were, modulo 2^64.
    pub done: u64,
}

impl<B: Block> FailAt<B> {
    /// A device that fails the operation after the next `k`.
    pub fn new(inner: B, k: u64) -> FailAt<B>
        ensures { result ≡ record { inner = inner; left = Some k; faults = 0; done = 0 } }
    {
        FailAt {
            inner,
            left: Some(k),
            faults: 0,
            done: 0,
        }
    }

    // Counts an operation, and says whether it is passed on.
    fn passes(&mut self) -> bool
        ensures passes { result ≡ counted_passes self.old.left }
        ensures counted { self.new ≡ record self.old { left = counted_after self.old.left; done = next_count self.old.done } }
    {
        self.done = self.done.wrapping_add(1);
        match self.left {
            Some(0) => {
                self.left = None;
                false
            }
            Some(k) => {
                self.left = Some(k - 1);
                true
            }
            None => true,
        }
    }
}

impl<B: Block> Block for FailAt<B> {
    ghost size = { λ d. B.size d.inner };

    ghost contents = { λ d. B.contents d.inner };

    ghost durable = { λ d. B.durable d.inner };

    ghost layers = { λ d. Counted d.left ∷ B.layers d.inner };

    ghost fault_count = { λ d. d.faults };

    ghost done_count = { λ d. d.done };

    ghost may_hold = { λ d. B.may_hold d.inner };

    ghost copies_runs = { false };

    fn sectors(&self) -> u64 {
        self.inner.sectors()
    }

    fn faults(&self) -> u64 {
        self.faults
    }

    fn done(&self) -> u64 {
        self.done
    }

    fn read(&mut self, range: Range, out: &mut [u8]) -> Result<(), Io> {
        if self.passes() {
            if let Ok(()) = self.inner.read(range, out) {
                return Ok(());
            }
        }
        self.faults = self.faults.wrapping_add(1);
        Err(Io)
    }

    fn write(&mut self, range: Range, bytes: &[u8]) -> Result<(), Io> {
        if self.passes() {
            if let Ok(()) = self.inner.write(range, bytes) {
                return Ok(());
            }
        }
        self.faults = self.faults.wrapping_add(1);
        Err(Io)
    }

    fn flush(&mut self) -> Result<(), Io> {
        if self.passes() {
            if let Ok(()) = self.inner.flush() {
                return Ok(());
            }
        }
        self.faults = self.faults.wrapping_add(1);
        Err(Io)
    }

    fn copy_sectors(
        &mut self,
        _to: Range,
        _from: &mut FailAt<B>,
        _first: Sector,
        _reads: u32,
        _writes: u32,
    ) -> bool {
        false
    }

    ghost whole = { λ d. B.whole d.inner };

    ghost small = { λ d. B.small d.inner };

    ghost holds_now = { λ d. B.holds_now d.inner };

    ghost holds_durable = { λ d. B.holds_durable d.inner };

    ghost holds_two = { λ copies. cc };

    ghost has_like = { λ copies. cc };
}
