// Messages to the layers of a volume, and the time.
ghost use Rattle.std.specs.Prelude.{◌≡◌, is_some, length};
ghost use Rattle.layers.specs.Stack.{stack_contents, stack_layers, stack_size};
ghost use Rattle.volume_commands.specs.ChangesLayers.{ChangesLayers};
ghost use Rattle.command_semantics.specs.Changes.{Steps};
ghost use Rattle.command_semantics.specs.Places.{HasRole, IsRoleIn};
ghost use Rattle.command_semantics.specs.Messages.{told_mounted, told_role, volume_ticked};
ghost use Rattle.device_list.specs.Held.{merged_inside};

use crate::origin::NamedVolume;
use command_semantics::Role;
use layers::{Answer, Message, Stack};
use sector::Refusal;
use volume_commands::Resting;

/// Tells the layer of this role. `BadTable` for the origin and a snapshot, then as for a stack.
#[tactic(auto, using(volume_commands::proofs::LayersChanged::unchanged))]
fn tell_role(volume: &mut Resting<Stack>, role: Role, message: &Message) -> Result<Answer, Refusal>
    requires { HasRole role (length volume.old.rested.snaps) (is_some volume.old.rested.events.merge) }
    ensures steps { Steps result (merged_inside volume.old.rested) (merged_inside volume.new.rested) (told_role role message.now (merged_inside volume.old.rested)) }
    ensures rest { ChangesLayers stack_contents stack_layers stack_size volume.old.rested volume.new.rested }
{
    match role {
        Role::Origin | Role::Snapshot(_) | Role::Merging => Err(Refusal::BadTable),
        Role::Under(depth) => volume.message_origin(depth, message),
        Role::Store(k, depth) => volume.message_store(k, depth, message),
        Role::MergingStore(depth) => volume.message_merging(depth, message),
    }
}

impl NamedVolume {
    /// Tells the layer of this role. `BadTable` for the origin and a snapshot, then as for a stack.
    pub fn tell(&mut self, role: Role, message: &Message) -> Result<Answer, Refusal>
        requires { IsRoleIn role self.old.shown }
        ensures { Steps result self.old.shown self.new.shown (told_mounted role message.now self.old.shown) }
    {
        tell_role(&mut self.volume, role, message)
    }

    /// Lets so many seconds pass for all devices.
    pub fn tick(&mut self, seconds: u32)
        ensures { self.new.shown ≡ volume_ticked seconds self.old.shown }
    {
        self.volume.tick(seconds);
    }
}
