// Messages to the layers of a volume's devices.
ghost use Rattle.std.specs.Prelude.{◌≡◌, ◌<◌, length, slice_index_or, IfOk, IfErr};
ghost use Rattle.volume_commands.specs.ChangesLayers.{ChangesLayers};
ghost use Rattle.volume_commands.specs.Rested.{Attached, settled_of, merged_of};
ghost use Rattle.volume_commands.specs.Telling.{IsOriginTold, IsStoreTold, IsTellRefused, IsMergingTold, IsMergingUntold};

use crate::Resting;
use layers::{Answer, Layered, Message};
use plain_machine::Dev;
use sector::Refusal;

impl<B: Layered> Resting<B> {
    /// Tells the layer at a depth, counted from the top, from 0, of the device under the origin. In this order: `BadTable`
    /// where that is no dust layer or there is none, `OutOfRange` for a block past its end, `NoMemory` where a block is added
    /// and the allocator refuses room. No other layer and no byte changes, and what is refused changes none.
    pub fn message_origin(&mut self, depth: usize, message: &Message) -> Result<Answer, Refusal>
        ensures ok { IfOk result (λ answer. IsOriginTold B.contents B.layers depth message.now answer self.old.rested self.new.rested) }
        ensures err { IfErr result (λ refusal. IsTellRefused (B.layers self.old.rested.origin) depth message.now refusal × (settled_of B.contents B.layers self.new.rested ≡ settled_of B.contents B.layers self.old.rested)) }
        ensures merging { (merged_of B.contents B.layers self.new.rested).merge ≡ (merged_of B.contents B.layers self.old.rested).merge }
        ensures rest { ChangesLayers B.contents B.layers B.size self.old.rested self.new.rested }
        ensures taken { self.new.taken ≡ self.old.taken }
    {
        self.volume.message(Dev::Origin, depth, message)
    }

    /// Tells the layer at a depth of the store of the snapshot at a place, counted from 0. Refused as for the origin.
    pub fn message_store(
        &mut self,
        k: usize,
        depth: usize,
        message: &Message,
    ) -> Result<Answer, Refusal>
        requires { k < length self.old.rested.snaps }
        ensures ok { IfOk result (λ answer. IsStoreTold B.contents B.layers k depth message.now answer self.old.rested self.new.rested) }
        ensures err { IfErr result (λ refusal. ((d : Attached B) → IsTellRefused (B.layers (slice_index_or self.old.rested.snaps k d).store) depth message.now refusal) × (settled_of B.contents B.layers self.new.rested ≡ settled_of B.contents B.layers self.old.rested)) }
        ensures merging { (merged_of B.contents B.layers self.new.rested).merge ≡ (merged_of B.contents B.layers self.old.rested).merge }
        ensures rest { ChangesLayers B.contents B.layers B.size self.old.rested self.new.rested }
        ensures taken { self.new.taken ≡ self.old.taken }
    {
        let number = self.volume.snap(k).number();
        self.volume.message(Dev::Snap(number), depth, message)
    }

    /// Tells the layer at a depth of the store of the snapshot that is being merged. `NoSuchDevice` where no merge is begun,
    /// else refused as for the origin.
    pub fn message_merging(&mut self, depth: usize, message: &Message) -> Result<Answer, Refusal>
        ensures ok { IfOk result (λ answer. IsMergingTold B.contents B.layers depth message.now answer self.old.rested self.new.rested) }
        ensures err { IfErr result (λ refusal. IsMergingUntold B.layers depth message.now refusal self.old.rested × (merged_of B.contents B.layers self.new.rested ≡ merged_of B.contents B.layers self.old.rested)) }
        ensures rest { ChangesLayers B.contents B.layers B.size self.old.rested self.new.rested }
        ensures taken { self.new.taken ≡ self.old.taken }
    {
        let Some(merging) = self.volume.merging() else {
            return Err(Refusal::NoSuchDevice);
        };
        self.volume.message(Dev::Snap(merging), depth, message)
    }
}
