// The flakey layer: reliable for some seconds, unreliable for some, and so on. Source: the kernel's page on dm-flakey. What a
// flush does is this project's own choice.
ghost use Rattle.std.specs.Prelude.{◌≡◌, ℕ, ◌+◌, ◌%◌, ◌^◌, ◌<◌, if◌then◌else◌};
ghost use Rattle.device.specs.declared.operation.Operation.TheVariants.{Reads};
ghost use Rattle.device.specs.declared.operation.Fate.TheVariants.{Pass, Fail};

use crate::{Answer, Message};
use device::{Fate, Operation};
use sector::{Range, Refusal};

/// What a flakey layer does while it is unreliable. Without any of them it fails everything.
#[derive(Clone, Copy, PartialEq, Eq)]
pub struct Features {
    /// Answers writes and flushes without doing them.
    pub drop_writes: bool,
    /// Fails writes and flushes.
    pub error_writes: bool,
    /// Fails reads.
    pub error_reads: bool,
}

/// A flakey layer over the sectors of a device from an offset on. It is reliable for `up` seconds, then unreliable for
/// `down` seconds, and then again.
#[derive(Clone, Copy)]
pub struct Flakey {
    /// How many sectors it has.
    pub sectors: u64,
    /// The sector of the device below that is its first.
    pub offset: u64,
    /// The seconds for which it is reliable.
    pub up: u32,
    /// The seconds for which it is not.
    pub down: u32,
    /// The second of its `up` and `down` at which it is, from 0.
    pub moment: u64,
    /// What it does then.
    pub features: Features,
    /// How many operations it answered with a fault, modulo 2^64.
    pub faults: u64,
    /// How many operations it was asked for, modulo 2^64.
    pub done: u64,
    pub ghost runs: { moment < up + down },
    pub ghost near: { offset < 2 ^ 32 },
}

impl Flakey {
    ghost use Rattle.device.specs.Layers.{Flaky, layer_fate};
    ghost use Rattle.layers.specs.Layer.{flakey_layer, features_of};
    ghost use Rattle.layers.specs.Ticks.{ticked};
    ghost use Rattle.layers.specs.Messages.{layer_told, Answered, Refused};
    ghost use Rattle.std.specs.Prelude.{IfOk, IfErr, OnErr};
    ghost use Rattle.layers.specs.Calls.{FlakeyKeepsCounts};

    /// A layer of so many sectors, those of the device below from `offset` on, at the first second of its `up`. A table
    /// line has an offset of 32 bits.
    pub fn new(sectors: u64, offset: u64, up: u32, down: u32, features: Features) -> Flakey
        requires runs { 0 < up + down }
        requires near { offset < 2 ^ 32 }
        ensures layer { flakey_layer result ≡ Flaky 0 up down (features_of features) offset }
        ensures sectors { result.sectors ≡ sectors }
        ensures offset { result.offset ≡ offset }
        ensures counts { (result.faults ≡ 0) × (result.done ≡ 0) }
    {
        Flakey {
            sectors,
            offset,
            up,
            down,
            moment: 0,
            features,
            faults: 0,
            done: 0,
        }
    }

    // What becomes of an operation.
    pub(crate) fn fate(&self, operation: Operation) -> Fate
        ensures { result ≡ layer_fate (flakey_layer self.now) operation }
    {
        if self.moment < self.up as u64 {
            return Fate::Pass;
        }
        let features = self.features;
        match operation {
            Operation::Reads(_, _) => {
                if features.error_reads {
                    Fate::Fail
                } else if features.error_writes || features.drop_writes {
                    Fate::Pass
                } else {
                    Fate::Fail
                }
            }
            Operation::Writes(_, _) | Operation::Flushes => {
                if features.error_writes {
                    Fate::Fail
                } else if features.drop_writes {
                    Fate::Drop
                } else if features.error_reads {
                    Fate::Pass
                } else {
                    Fate::Fail
                }
            }
        }
    }

    // Whether a read is passed on; else it fails.
    pub(crate) fn passes_read(&self, range: Range) -> bool
        ensures { layer_fate (flakey_layer self.now) (Reads range.first range.count) ≡ (if result then Pass else Fail) }
    {
        matches!(
            self.fate(Operation::Reads(range.first, range.count)),
            Fate::Pass
        )
    }

    // Lets so many seconds pass.
    pub(crate) fn tick(&mut self, seconds: u32)
        ensures layer { flakey_layer self.new ≡ ticked seconds (flakey_layer self.old) }
        ensures offset { self.new.offset ≡ self.old.offset }
        ensures rest { FlakeyKeepsCounts self.old self.new }
    {
        self.moment = (self.moment + seconds as u64) % (self.up as u64 + self.down as u64);
    }

    // Answers a message: it knows of the time alone, and refuses any other as `BadTable`. What is refused changes nothing.
    pub(crate) fn message(&mut self, message: &Message) -> Result<Answer, Refusal>
        ensures ok { IfOk result (λ a. layer_told (flakey_layer self.old) message.now ≡ Answered a (flakey_layer self.new)) }
        ensures err { IfErr result (λ r. layer_told (flakey_layer self.old) message.now ≡ Refused r) }
        ensures unchanged { OnErr result (self.new ≡ self.old) }
        ensures offset { self.new.offset ≡ self.old.offset }
        ensures rest { FlakeyKeepsCounts self.old self.new }
    {
        match message {
            Message::Tick(seconds) => {
                self.tick(*seconds);
                Ok(Answer::Done)
            }
            Message::AddBadBlock(_)
            | Message::RemoveBadBlock(_)
            | Message::QueryBlock(_)
            | Message::CountBadBlocks
            | Message::ClearBadBlocks
            | Message::Enable
            | Message::Disable => Err(Refusal::BadTable),
        }
    }
}
