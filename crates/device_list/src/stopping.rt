// A volume is stopped, and its stacks are given back one by one.
ghost use Rattle.std.specs.Prelude.{◌≡◌, [], ◌∷◌, length, true, IfNone, IfSome};
ghost use Rattle.std.specs.List.{list_all};
ghost use Rattle.command_semantics.specs.Sound.{is_sound_stack};
ghost use Rattle.command_semantics.specs.Stopping.{stopped};
ghost use Rattle.device_list.specs.Stopping.{IsTakenLost, earlier_than};
ghost use Rattle.volume.specs.Asking.{merging_number};
ghost use Rattle.volume.specs.Stopped.{devices_of};

use crate::origin::NamedVolume;
use crate::stack_names::StackNames;
use device_stacks::NamedStack;
use layers::Stack;
use std::marker::Model;
use volume::Stopped;
use volume_commands::Resting;

/// The stacks of a volume that was stopped, which are left to take: the one under the origin, then those of the stores in
/// order of attaching, that of a snapshot that was being merged among them.
#[derive(Drop)]
pub struct StoppedVolume {
    names: StackNames,
    devices: Stopped<Stack>,
}

impl Model for StoppedVolume {
    ghost use Rattle.std.specs.Coded.{codes};
    ghost use Rattle.std.specs.Prelude.{◌≡◌, length};
    ghost use Rattle.layers.specs.contracts.stack.Stack as stacks;
    ghost use Rattle.device_list.specs.Backed.{Left};
    ghost use Rattle.device_list.specs.Stopping.{freed_by};

    ghost Value = { Left };

    ghost coded = { Prim.hlevel (codes, stacks.the_row.coded) };

    ghost view = { λ m. record { shown = freed_by m.names m.devices; devices = m.devices } };

    ghost invariant = { λ m. length m.names ≡ length m.devices };
}

/// How many snapshots were attached before the one that is being merged.
pub(crate) fn earlier(volume: &Resting<Stack>) -> usize
    ensures { result ≡ earlier_than (merging_number volume.now.rested.events.merge) volume.now.rested.snaps }
{
    let Some(number) = volume.merging() else {
        return 0;
    };
    let mut k = 0;
    while k < volume.len() {
        if number < volume.number(k) {
            return k;
        }
        k += 1;
    }
    k
}

impl StoppedVolume {
    /// Takes the first stack.
    pub fn take(&mut self) -> Option<NamedStack>
        ensures some { IfSome result (λ stack. self.old.shown ≡ stack ∷ self.new.shown) }
        ensures none { IfNone result ((self.old.shown ≡ []) × (self.new.shown ≡ [])) }
    {
        match (self.names.take(), self.devices.take()) {
            (Some(names), Some(device)) => Some(NamedStack::of_parts(names, device, false)),
            _ => None,
        }
    }

    /// Takes the first stack, which loses what was not flushed: each sector of the disk at the bottom goes back to its value at
    /// the last flush that reached it. The layers stay.
    pub fn take_lost(&mut self) -> Option<NamedStack>
        ensures some { IfSome result (λ stack. IsTakenLost stack self.old self.new) }
        ensures none { IfNone result ((self.old ≡ record { shown = []; devices = [] }) × (self.new ≡ record { shown = []; devices = [] })) }
    {
        let Some(names) = self.names.take() else {
            return None;
        };
        let Some(mut device) = self.devices.take() else {
            return None;
        };
        device.lose();
        Some(NamedStack::of_parts(names, device, false))
    }
}

impl NamedVolume {
    /// Ends without a further event, whatever is in flight, and gives its stacks back one by one, without a mark and with the
    /// layers and bytes that they have. No memory is taken.
    pub fn stop(self) -> StoppedVolume
        ensures left { result.shown ≡ stopped self.shown }
        ensures sound { self.shown.sound ≡ true → list_all is_sound_stack result.shown ≡ true }
        ensures devices { result.devices ≡ devices_of self.events }
        ensures many { length result.shown ≡ length result.devices }
    {
        let before = earlier(&self.volume);
        let NamedVolume {
            origin: _,
            under,
            stale: _,
            snaps,
            merging,
            volume,
            asked: _,
            sound: _,
        } = self;
        StoppedVolume {
            names: StackNames {
                under: Some(under),
                before,
                merging,
                snaps,
            },
            devices: volume.stop(),
        }
    }

    /// How many stacks it gives back when it is stopped.
    pub fn devices(&self) -> usize
        ensures { result ≡ length (stopped self.now.shown) }
    {
        let stores = match &self.merging {
            None => self.snaps.len(),
            Some(_) => self.snaps.len().saturating_add(1),
        };
        stores.saturating_add(1)
    }
}
