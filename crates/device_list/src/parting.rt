// A volume is taken apart into the names of its devices and the volume itself, and made of both again.
ghost use Rattle.std.specs.Prelude.{◌≡◌, ◌+◌, ◌⊎◌, ℕ, List, sum_by, true, None, Some, is_some, slice_get, length, suc};
ghost use Rattle.std.specs.List.{remove};
ghost use Rattle.layers.specs.Stack.{stack_layers};
ghost use Rattle.volume_commands.specs.Rested.{is_loud_in};
ghost use Rattle.command_semantics.specs.Naming.{merging_sum, names_sum, volume_sum};
ghost use Rattle.volume.specs.Leaving.{is_quiet_of};
ghost use Rattle.device_list.specs.Parting.{HasAll, HasBegun, IsParted, backed_with, parts_sum, place_begun, with_begun, with_requests, NamesAll};

use crate::origin::NamedVolume;
use crate::stopping::earlier;
use device_stacks::SnapNames;
use layers::Stack;
use std::marker::Model;
use volume_commands::Resting;
use words::Name;

/// The names of a volume's devices without the volume itself, the mark of the disk under its origin, the sectors that it was
/// asked for, and whether none of its devices drops writes.
#[derive(Drop)]
pub struct NamedParts {
    origin: Name,
    under: Vec<Name>,
    stale: bool,
    snaps: Vec<SnapNames>,
    merging: Option<SnapNames>,
    asked: u64,
    sound: bool,
}

impl Model for NamedParts {
    ghost use Rattle.command_semantics.specs.Naming.{merging_sum, names_sum, volume_sum};
    ghost use Rattle.volume.specs.Leaving.{is_quiet_of};
    ghost use Rattle.device_list.specs.Parting.{Parts};

    ghost Value = { Parts };

    ghost view = { λ p. record { origin = p.origin; under = p.under.items; stale = p.stale; snaps = p.snaps.items; merging = p.merging; asked = p.asked; sound = p.sound } };
}

impl NamedParts {
    /// Whether no device of the volume, nor one that has left it, drops writes.
    pub fn is_sound(&self) -> bool
        ensures { result ≡ self.now.sound }
    {
        self.sound
    }
}

/// Takes out the names of the snapshot that is being merged since there was one more.
#[tactic(auto, using(crate::proofs::Begun::place_within, crate::proofs::Begun::taken_sum))]
fn take_begun(snaps: &mut Vec<SnapNames>, volume: &Resting<Stack>) -> SnapNames
    requires { length snaps.old.items ≡ suc (length volume.now.rested.snaps) }
    ensures rest { snaps.new.items ≡ remove snaps.old.items (place_begun volume.now.rested) }
    ensures names { slice_get snaps.old.items (place_begun volume.now.rested) ≡ Some result }
    ensures many { NamesAll snaps.new.items volume.now.rested }
    ensures sum { (f : List ℕ → ℕ) → sum_by (names_sum f) snaps.new.items + names_sum f result ≡ sum_by (names_sum f) snaps.old.items }
{
    let k = earlier(volume);
    snaps.remove(k)
}

/// Gives the names of the snapshot to the merge that was begun of it, if one was.
#[tactic(auto, using(crate::proofs::Begun::one_more, crate::proofs::Begun::still_all, crate::proofs::Begun::none_sum, crate::proofs::Begun::none_begun))]
fn name_merge(snaps: &mut Vec<SnapNames>, merging: &mut Option<SnapNames>, volume: &Resting<Stack>)
    requires many { ((length snaps.old.items ≡ length volume.now.rested.snaps) × (is_some merging.old ≡ is_some volume.now.rested.events.merge)) ⊎ ((length snaps.old.items ≡ suc (length volume.now.rested.snaps)) × (merging.old ≡ None) × (is_some volume.now.rested.events.merge ≡ true)) }
    ensures many { NamesAll snaps.new.items volume.now.rested }
    ensures begun { is_some merging.new ≡ is_some volume.now.rested.events.merge }
    ensures same { is_some merging.old ≡ is_some volume.now.rested.events.merge → (snaps.new.items ≡ snaps.old.items) × (merging.new ≡ merging.old) }
    ensures sum { (f : List ℕ → ℕ) → sum_by (names_sum f) snaps.new.items + merging_sum f merging.new ≡ sum_by (names_sum f) snaps.old.items + merging_sum f merging.old }
    ensures named { merging.old ≡ None → is_some volume.now.rested.events.merge ≡ true → (snaps.new.items ≡ remove snaps.old.items (place_begun volume.now.rested)) × (merging.new ≡ slice_get snaps.old.items (place_begun volume.now.rested)) }
{
    if merging.is_some() {
        return;
    }
    if volume.merging().is_some() {
        *merging = Some(take_begun(snaps, volume));
    }
}

impl NamedVolume {
    /// The names of its devices, and the volume itself.
    #[tactic(auto, using(crate::proofs::Begun::named_sum))]
    pub fn into_parts(self) -> (NamedParts, Resting<Stack>)
        ensures named { self ≡ backed_with result.0 result.1.rested }
        ensures parted { IsParted result.0 result.1.rested }
        ensures names { (f : List ℕ → ℕ) → parts_sum f result.0 ≡ volume_sum f self.shown }
    {
        let NamedVolume {
            origin,
            under,
            stale,
            snaps,
            merging,
            volume,
            asked,
            sound,
        } = self;
        let parts = NamedParts {
            origin,
            under,
            stale,
            snaps,
            merging,
            asked,
            sound,
        };
        (parts, volume)
    }

    /// A volume under the names of its devices, of which one of the snapshots may be merged since they were taken from it.

    pub fn of_parts(parts: NamedParts, volume: Resting<Stack>) -> NamedVolume
        requires fits { HasAll parts volume.rested ⊎ HasBegun parts volume.rested }
        requires loud { parts.sound ≡ true → is_loud_in stack_layers volume.rested ≡ true }
        ensures names { (f : List ℕ → ℕ) → volume_sum f result.shown ≡ parts_sum f parts }
        ensures sound { result.shown.sound ≡ parts.sound }
        ensures quiet { result.shown.quiet ≡ is_quiet_of volume.rested.events }
        ensures same { HasAll parts volume.rested → result ≡ backed_with (with_requests volume.rested.requests parts) volume.rested }
        ensures begun { HasBegun parts volume.rested → result ≡ backed_with (with_requests volume.rested.requests (with_begun (place_begun volume.rested) parts)) volume.rested }
    {
        let NamedParts {
            origin,
            under,
            stale,
            mut snaps,
            mut merging,
            asked,
            sound,
        } = parts;
        name_merge(&mut snaps, &mut merging, &volume);
        let asked = asked.max(volume.last_request());
        NamedVolume {
            origin,
            under,
            stale,
            snaps,
            merging,
            volume,
            asked,
            sound,
        }
    }
}
