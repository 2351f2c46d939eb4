// The layers of a store's device, which know of time and take messages.
ghost use Rattle.std.specs.Prelude.{◌≡◌, ◌⊎◌, IfOk, IfErr};
ghost use Rattle.sector.specs.declared.refusal.Refusal.TheVariants.{NoMemory};
ghost use Rattle.layers.specs.Messages.{told, Answered, Refused, NeedsRoom};
ghost use Rattle.store.specs.Calls.{ChangesOnlyLayers, KeepsExceptions, KeepsState, LeavesLayers, MayHoldNow, Ticks};

use crate::Store;
use layers::{Answer, Layered, Message};
use sector::Refusal;

impl<B: Layered> Store<B> {
    /// Lets so many seconds pass for the layers of the device. It counts no operation.
    #[tactic(auto, using(layers::specs::Loudness::loud_ticked))]
    pub fn tick(&mut self, seconds: u32)
        ensures layers { Ticks seconds self.old self.new }
        ensures rest { ChangesOnlyLayers self.old self.new }
        ensures adds { MayHoldNow self.old self.new }
        ensures state { KeepsState self.old self.new }
        ensures exceptions { KeepsExceptions self.old self.new }
        ensures places { self.new.places ≡ self.old.places }
    {
        self.device.tick(seconds)
    }

    /// Tells the layer of the device at a depth, counted from the top, from 0. In this order: `BadTable` where that is no
    /// dust layer or there is none, `OutOfRange` for a block past its end, `NoMemory`. It counts no operation.
    #[tactic(auto, using(layers::specs::Loudness::loud_told))]
    pub fn message(&mut self, depth: usize, message: &Message) -> Result<Answer, Refusal>
        ensures ok { IfOk result (λ a. told (B.layers self.old.device) depth message.now ≡ Answered a (B.layers self.new.device)) }
        ensures err { IfErr result (λ r. (told (B.layers self.old.device) depth message.now ≡ Refused r) ⊎ ((r ≡ NoMemory) × NeedsRoom message.now (told (B.layers self.old.device) depth message.now))) }
        ensures unchanged { LeavesLayers result self.old self.new }
        ensures rest { ChangesOnlyLayers self.old self.new }
        ensures adds { MayHoldNow self.old self.new }
        ensures state { KeepsState self.old self.new }
        ensures exceptions { KeepsExceptions self.old self.new }
        ensures places { self.new.places ≡ self.old.places }
    {
        match self.device.message(depth, message) {
            Ok(answer) => Ok(answer),
            Err(refusal) => Err(refusal),
        }
    }
}
