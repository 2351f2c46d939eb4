// A device whose reads wait for a look.
use crate::waiting::Waiting;
use device::{Block, Io};
use layers::{Answer, Layered, Message};
use sector::{Range, Refusal, Sector};

/// The device inside, but that each read waits first.
#[derive(Drop)]
pub struct Slow<'a, B> {
    pub inner: B,
    pub waiting: &'a Waiting,
}

impl<'a, B: Block> Block for Slow<'a, B> {
    ghost size = { λ d. B.size d.inner };

    ghost contents = { λ d. B.contents d.inner };

    ghost durable = { λ d. B.durable d.inner };

    ghost layers = { λ d. B.layers d.inner };

    ghost fault_count = { λ d. B.fault_count d.inner };

    ghost done_count = { λ d. B.done_count d.inner };

    ghost may_hold = { λ d. B.may_hold d.inner };

    ghost copies_runs = { B.copies_runs };

    fn sectors(&self) -> u64 {
        self.inner.sectors()
    }

    fn faults(&self) -> u64 {
        self.inner.faults()
    }

    fn done(&self) -> u64 {
        self.inner.done()
    }

    fn read(&mut self, range: Range, out: &mut [u8]) -> Result<(), Io> {
        self.waiting.read();
        self.inner.read(range, out)
    }

    fn write(&mut self, range: Range, bytes: &[u8]) -> Result<(), Io> {
        self.inner.write(range, bytes)
    }

    fn flush(&mut self) -> Result<(), Io> {
        self.inner.flush()
    }

    fn copy_sectors(
        &mut self,
        to: Range,
        from: &mut Slow<'a, B>,
        first: Sector,
        reads: u32,
        writes: u32,
    ) -> bool {
        self.inner
            .copy_sectors(to, &mut from.inner, first, reads, writes)
    }

    ghost whole = { λ d. B.whole d.inner };

    ghost small = { λ d. B.small d.inner };

    ghost holds_now = { λ d. B.holds_now d.inner };

    ghost holds_durable = { λ d. B.holds_durable d.inner };

    ghost holds_two = { λ copies d. B.holds_two copies d.inner };

    ghost has_like = { λ copies d bytes count bare whole few. (let other = B.has_like copies d.inner bytes count bare whole few in record { like = record d { inner = other.like }; bytes_are = other.bytes_are; flushed = other.flushed; bare = other.bare; sized = other.sized; faulty = other.faulty; counted = other.counted }) };
}

impl<'a, B: Layered> Layered for Slow<'a, B> {
    fn tick(&mut self, seconds: u32) {
        self.inner.tick(seconds)
    }

    fn is_loud(&self) -> bool {
        self.inner.is_loud()
    }

    fn peek(&self, range: Range, out: &mut [u8]) {
        self.inner.peek(range, out)
    }

    fn message(&mut self, depth: usize, message: &Message) -> Result<Answer, Refusal> {
        self.inner.message(depth, message)
    }
}
