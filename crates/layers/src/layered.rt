// What the layers of a device are asked and told besides its operations.
ghost use Rattle.std.specs.Prelude.{◌≡◌, ◌⊎◌, ◌+◌, ◌*◌, ◌<◌, ◌≤◌, length, IfOk, IfErr, OnErr};
ghost use Rattle.sector.specs.Bytes.{sectors_at};
ghost use Rattle.sector.specs.declared.refusal.Refusal.TheVariants.{NoMemory};
ghost use Rattle.device.specs.Layers.{is_loud as is_loud_list};
ghost use Rattle.layers.specs.Messages.{told, Answered, Refused, NeedsRoom};
ghost use Rattle.layers.specs.Ticks.{layers_ticked};
ghost use Rattle.layers.specs.Keeping.{HoldsNoMore, Keeps};

use crate::{Answer, Message, Stack};
use device::{Block, FailAt, MemDisk};
use sector::{Range, Refusal};

/// A device with layers, which know of time and take messages. None of these calls counts as an operation.
pub trait Layered: Block {
    /// Lets so many seconds pass: the moment of each flakey layer moves on, and nothing else changes.
    fn tick(&mut self, seconds: u32)
        ensures layers { Self.layers self.new ≡ layers_ticked seconds (Self.layers self.old) }
        ensures contents { Keeps Self.contents self.old self.new }
        ensures durable { Keeps Self.durable self.old self.new }
        ensures size { Keeps Self.size self.old self.new }
        ensures faults { Keeps Self.fault_count self.old self.new }
        ensures done { Keeps Self.done_count self.old self.new }
        ensures stop { HoldsNoMore Self.may_hold self.old self.new };

    /// Whether no layer answers writes that it does not do.
    fn is_loud(&self) -> bool
        ensures { result ≡ is_loud_list (Self.layers self.now) };

    /// Copies the contents below the layers into a buffer that is as long. It never fails.
    fn peek(&self, range: Range, out: &mut [u8])
        requires some { 0 < range.count }
        requires inside { range.first + range.count ≤ Self.size self.now }
        requires room { length out.old ≡ 512 * range.count }
        ensures { out.new ≡ sectors_at (Self.contents self.now) range.first range.count };

    /// Tells the layer at a depth, counted from the top, from 0. In this order: `BadTable` where that is no dust layer or
    /// there is none, `OutOfRange` for a block past its end, `NoMemory` where a block is added and the allocator refuses
    /// room. What is refused changes nothing; what is answered changes that layer alone.
    fn message(&mut self, depth: usize, message: &Message) -> Result<Answer, Refusal>
        ensures ok { IfOk result (λ a. told (Self.layers self.old) depth message.now ≡ Answered a (Self.layers self.new)) }
        ensures err { IfErr result (λ r. (told (Self.layers self.old) depth message.now ≡ Refused r) ⊎ ((r ≡ NoMemory) × NeedsRoom message.now (told (Self.layers self.old) depth message.now))) }
        ensures unchanged { OnErr result (Self.layers self.new ≡ Self.layers self.old) }
        ensures contents { Keeps Self.contents self.old self.new }
        ensures durable { Keeps Self.durable self.old self.new }
        ensures size { Keeps Self.size self.old self.new }
        ensures faults { Keeps Self.fault_count self.old self.new }
        ensures done { Keeps Self.done_count self.old self.new }
        ensures stop { HoldsNoMore Self.may_hold self.old self.new };
}

impl Layered for MemDisk {
    fn tick(&mut self, _seconds: u32) {}

    fn is_loud(&self) -> bool {
        true
    }

    fn peek(&self, range: Range, out: &mut [u8]) {
        self.raw(range, out)
    }

    fn message(&mut self, _depth: usize, _message: &Message) -> Result<Answer, Refusal> {
        Err(Refusal::BadTable)
    }
}

impl<B: Layered> Layered for FailAt<B> {
    fn tick(&mut self, seconds: u32) {
        self.inner.tick(seconds)
    }

    fn is_loud(&self) -> bool {
        self.inner.is_loud()
    }

    fn peek(&self, range: Range, out: &mut [u8]) {
        self.inner.peek(range, out)
    }

    fn message(&mut self, depth: usize, message: &Message) -> Result<Answer, Refusal> {
        if depth == 0 {
            return Err(Refusal::BadTable);
        }
        match self.inner.message(depth - 1, message) {
            Ok(answer) => Ok(answer),
            Err(refusal) => Err(refusal),
        }
    }
}

impl Layered for Stack {
    fn tick(&mut self, seconds: u32) {
        match self {
            Stack::Disk(disk) => disk.tick(seconds),
            Stack::Flakey(flakey, below) => {
                flakey.tick(seconds);
                below.tick(seconds)
            }
            Stack::Dust(_, below) => below.tick(seconds),
            Stack::Error(_) => {}
        }
    }

    fn is_loud(&self) -> bool {
        match self {
            Stack::Disk(_) | Stack::Error(_) => true,
            Stack::Flakey(flakey, below) => !flakey.features.drop_writes && below.is_loud(),
            Stack::Dust(_, below) => below.is_loud(),
        }
    }

    fn peek(&self, range: Range, out: &mut [u8]) {
        match self {
            Stack::Disk(disk) => disk.raw(range, out),
            Stack::Flakey(flakey, below) => below.peek(range.shifted(flakey.offset), out),
            Stack::Dust(_, below) => below.peek(range, out),
            Stack::Error(_) => out.fill(0),
        }
    }

    fn message(&mut self, depth: usize, message: &Message) -> Result<Answer, Refusal> {
        match self {
            Stack::Disk(_) | Stack::Error(_) => Err(Refusal::BadTable),
            Stack::Flakey(flakey, below) => {
                if depth == 0 {
                    return match flakey.message(message) {
                        Ok(answer) => Ok(answer),
                        Err(refusal) => Err(refusal),
                    };
                }
                match below.message(depth - 1, message) {
                    Ok(answer) => Ok(answer),
                    Err(refusal) => Err(refusal),
                }
            }
            Stack::Dust(dust, below) => {
                if depth == 0 {
                    return match dust.message(message) {
                        Ok(answer) => Ok(answer),
                        Err(refusal) => Err(refusal),
                    };
                }
                match below.message(depth - 1, message) {
                    Ok(answer) => Ok(answer),
                    Err(refusal) => Err(refusal),
                }
            }
        }
    }
}
