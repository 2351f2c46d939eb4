// A volume with the names of its devices.
ghost use Rattle.std.specs.Prelude.{◌≡◌, ◌≢◌, ◌⊎◌, ◌<◌, ◌-◌, true, false, None, [], Option, IfOk, IfErr, IfSome, is_some};
ghost use Rattle.sector.specs.declared.refusal.Refusal.TheVariants.{NoMemory, Busy, NotQuiet};
ghost use Rattle.device.specs.Layers.{is_loud};
ghost use Rattle.layers.specs.Stack.{stack_contents, stack_done, stack_durable, stack_faults, stack_layers, stack_may_hold, stack_size};
ghost use Rattle.volume.specs.Layering.{Measures};
ghost use Rattle.volume_lifetime.specs.Life.{HasLife};
ghost use Rattle.whole_commands.specs.Devices.{sectors_of as size_of};
ghost use Rattle.command_semantics.specs.Places.{role_of, role_among, role_merging, IsRoleIn};
ghost use Rattle.command_semantics.specs.Disks.{devices_in};
ghost use Rattle.command_semantics.specs.Origins.{origin_on, stack_under};

use command_semantics::Role;
use device_stacks::{
    NamedStack, SnapNames, depth_in, left_after, role_among, role_merging, sectors_of,
    without_merging,
};
use layers::Stack;
use sector::Refusal;
use std::alloc::Global;
use std::marker::Model;
use volume_commands::Resting;
use words::Name;

/// An origin with its snapshots, and the names of all their devices.
#[derive(Drop)]
pub struct NamedVolume {
    pub(crate) origin: Name,
    pub(crate) under: Vec<Name>,
    pub(crate) stale: bool,
    pub(crate) snaps: Vec<SnapNames>,
    pub(crate) merging: Option<SnapNames>,
    pub(crate) volume: Resting<Stack>,
    pub(crate) asked: u64,
    pub(crate) sound: bool,
}

impl Model for NamedVolume {
    ghost use Rattle.std.specs.Coded.{codes};
    ghost use Rattle.layers.specs.contracts.stack.Stack as stacks;
    ghost use Rattle.volume.specs.Leaving.{is_quiet_of};
    ghost use Rattle.device_list.specs.Backed.{Backed};
    ghost use Rattle.device_list.specs.Held.{flying_in, merging_with, settled_in, IsHeld};

    ghost Value = { Backed };

    ghost coded = { Prim.hlevel (codes, stacks.the_row.coded) };

    ghost view = { λ m. record { shown = record { origin = m.origin; under = m.under.items; stale = m.stale; snaps = m.snaps.items; merging = merging_with m.merging m.volume.rested; state = settled_in m.volume.rested; given = m.volume.rested.attached; asked = m.asked; sound = m.sound; quiet = is_quiet_of m.volume.rested.events; flying = flying_in m.volume.rested.events }; events = m.volume.rested.events } };

    ghost invariant = { λ m. IsHeld m.snaps.items m.merging m.volume.rested m.asked m.sound };
}

impl NamedVolume {
    /// A look at its life, which does nothing: it began over a stack, without snapshots, and all that lines and threads did to it since is
    /// one list of deeds, each with the volume's own answer.
    pub fn look_at_life(&self)
        ensures { HasLife stack_may_hold (record { contents = stack_contents; durable = stack_durable; size = stack_size; faults = stack_faults; done = stack_done }) stack_layers self.now.events }
    {
        self.volume.look_at_life()
    }

    /// An origin over a stack. `NoMemory` where the allocator refuses room; then the stack is given back.
    pub fn open(
        alloc: Global,
        name: Name,
        stack: NamedStack,
    ) -> Result<NamedVolume, (Refusal, NamedStack)>
        ensures ok { IfOk result (λ v. v.shown ≡ origin_on name stack) }
        ensures err { IfErr result (λ e. e ≡ record { 0 = NoMemory; 1 = stack }) }
    {
        let sound = stack.is_loud();
        let (under, device, stale) = stack.into_parts();
        match Resting::new(alloc, device) {
            Ok(volume) => Ok(NamedVolume {
                origin: name,
                under,
                stale,
                snaps: Vec::new(alloc),
                merging: None,
                volume,
                asked: 0,
                sound,
            }),
            Err((refusal, device)) => Err((refusal, NamedStack::of_parts(under, device, stale))),
        }
    }

    /// Gives the stack under the origin back. In this order: `Busy` where there is a snapshot or a merge is begun, `NotQuiet` where a request is in
    /// flight.
    pub fn close(self) -> Result<NamedStack, (Refusal, NamedVolume)>
        ensures ok { IfOk result (λ stack. (self.shown.snaps ≡ []) × (self.shown.merging ≡ None) × (self.shown.quiet ≡ true) × (stack ≡ stack_under self.shown)) }
        ensures sound { IfOk result (λ stack. self.shown.sound ≡ true → is_loud stack.device.layers ≡ true) }
        ensures err { IfErr result (λ e. (((e.0 ≡ Busy) × ((self.shown.snaps ≢ []) ⊎ (is_some self.shown.merging ≡ true))) ⊎ ((e.0 ≡ NotQuiet) × (self.shown.snaps ≡ []) × (self.shown.merging ≡ None) × (self.shown.quiet ≡ false))) × (e.1 ≡ self)) }
    {
        let NamedVolume {
            origin,
            under,
            stale,
            snaps,
            merging,
            volume,
            asked,
            sound,
        } = self;
        match volume.close() {
            Ok(stack) => Ok(NamedStack::of_parts(under, stack, stale)),
            Err((refusal, volume)) => Err((
                refusal,
                NamedVolume {
                    origin,
                    under,
                    stale,
                    snaps,
                    merging,
                    volume,
                    asked,
                    sound,
                },
            )),
        }
    }

    /// How many sectors the origin has.
    pub fn sectors(&self) -> u32
        ensures { result ≡ size_of self.now.shown.state.origin }
    {
        sectors_of(self.volume.origin())
    }

    /// What is left of so many devices, its own taken away.
    pub fn left_of(&self, most: usize) -> usize
        ensures { result ≡ most - devices_in self.now.shown }
    {
        let left = most.saturating_sub(1).saturating_sub(self.under.len());
        without_merging(&self.merging, left_after(&self.snaps, left))
    }

    /// What a name is in the volume.
    #[tactic(auto, unfolding(command_semantics::specs::Places::role_of))]
    pub fn role(&self, name: &Name) -> Option<Role>
        ensures role { result ≡ role_of name.now self.now.shown }
        ensures within { IfSome result (λ role. IsRoleIn role self.now.shown) }
    {
        if self.origin.is_same(name) {
            return Some(Role::Origin);
        }
        match depth_in(&self.under, name) {
            Some(depth) => Some(Role::Under(depth)),
            None => match role_among(&self.snaps, name) {
                Some(role) => Some(role),
                None => role_merging(&self.merging, name),
            },
        }
    }
}
