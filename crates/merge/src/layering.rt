// The layers of the store, which know of time and take messages.
ghost use Rattle.std.specs.Prelude.{◌≡◌, ◌⊎◌, IfOk, IfErr, OnErr};
ghost use Rattle.sector.specs.declared.refusal.Refusal.TheVariants.{NoMemory};
ghost use Rattle.layers.specs.Messages.{told, Answered, Refused, NeedsRoom};
ghost use Rattle.merge.specs.Devices.{ChangesOnlyDevice, ChangesOnlyLayers, MayHoldNow, Ticks};

use crate::Merge;
use layers::{Answer, Layered, Message};
use sector::Refusal;

impl<B: Layered> Merge<B> {
    /// Lets so many seconds pass for the layers of its store. It counts no operation, and nothing else changes.
    pub fn tick(&mut self, seconds: u32)
        ensures layers { Ticks B.Block seconds self.old self.new }
        ensures rest { ChangesOnlyLayers B.Block self.old self.new }
        ensures adds { MayHoldNow B.Block self.old self.new }
        ensures same { ChangesOnlyDevice self.old self.new }
    {
        self.store.tick(seconds)
    }

    /// Tells the layer of its store at a depth, counted from the top, from 0. In this order: `BadTable` where that is no
    /// dust layer or there is none, `OutOfRange` for a block past its end, `NoMemory`. It counts no operation, and nothing
    /// else changes.
    pub fn message(&mut self, depth: usize, message: &Message) -> Result<Answer, Refusal>
        ensures ok { IfOk result (λ a. told (B.layers self.old.device) depth message.now ≡ Answered a (B.layers self.new.device)) }
        ensures err { IfErr result (λ r. (told (B.layers self.old.device) depth message.now ≡ Refused r) ⊎ ((r ≡ NoMemory) × NeedsRoom message.now (told (B.layers self.old.device) depth message.now))) }
        ensures unchanged { OnErr result (B.layers self.new.device ≡ B.layers self.old.device) }
        ensures rest { ChangesOnlyLayers B.Block self.old self.new }
        ensures adds { MayHoldNow B.Block self.old self.new }
        ensures same { ChangesOnlyDevice self.old self.new }
    {
        match self.store.message(depth, message) {
            Ok(answer) => Ok(answer),
            Err(refusal) => Err(refusal),
        }
    }
}
