// What the devices of a volume tell of themselves: disks, table lines and status lines.
ghost use Rattle.std.specs.Prelude.{◌≡◌, ◌<◌, true, is_some, length, Some, None, MatchResult, Ok, Err};
ghost use Rattle.device.specs.Disk.{disk_contents};
ghost use Rattle.words.specs.Given.{Gives};
ghost use Rattle.event_machine.specs.Held.{Moving};
ghost use Rattle.command_semantics.specs.Places.{IsRoleIn, IsRoleMerging};
ghost use Rattle.command_semantics.specs.declared.place.Role.TheVariants.{MergingStore};
ghost use Rattle.command_semantics.specs.State.{Merging as Begun, names_in};
ghost use Rattle.command_semantics.specs.Lines.{line_in_merging, line_of_role, merging_line as merging_line_of, origin_line as origin_line_of, snapshot_line as snapshot_line_of};
ghost use Rattle.command_semantics.specs.Raw.{raw_in_merging, raw_under};
ghost use Rattle.command_semantics.specs.Status.{status_in};
ghost use Rattle.device_list.specs.Status.{IsStatusOf, status_flying};

use crate::origin::NamedVolume;
use crate::stored::{
    chunk_at, look, merging_chunk, merging_state, merging_store, state_at, store_at,
};
use command_semantics::Role;
use device::MemDisk;
use device_stacks::{SnapNames, disk_in, line_in, sectors_of};
use sector::Refusal;
use std::alloc::Global;
use table::{Line, StatusState, Target, merge_line, origin_line, snapshot_line};
use words::Text;

impl NamedVolume {
    /// The disk of this role. `BadTable` for another device.
    #[tactic(auto, unfolding(command_semantics::specs::Raw::raw_in_store))]
    pub fn disk(&self, role: Role) -> Result<&MemDisk, Refusal>
        requires { IsRoleIn role self.now.shown }
        ensures { MatchResult result (λ disk. raw_under role self.now.shown ≡ Ok (disk_contents disk.now)) (λ e. raw_under role self.now.shown ≡ Err e) }
    {
        match role {
            Role::Under(depth) => disk_in(depth, &self.under, self.volume.origin()),
            Role::Store(k, depth) => self.snaps[k].disk(depth, store_at(&self.volume, k)),
            Role::MergingStore(depth) => self.disk_of_merging(depth),
            Role::Origin | Role::Snapshot(_) | Role::Merging => Err(Refusal::BadTable),
        }
    }

    /// The disk so deep in the store of the snapshot that is being merged. `BadTable` for another device.
    #[tactic(auto, unfolding(command_semantics::specs::Raw::raw_in_merging))]
    fn disk_of_merging(&self, depth: usize) -> Result<&MemDisk, Refusal>
        requires { IsRoleMerging (MergingStore depth) (names_in self.now.shown.merging) }
        ensures { MatchResult result (λ disk. raw_in_merging depth self.now.shown ≡ Ok (disk_contents disk.now)) (λ e. raw_in_merging depth self.now.shown ≡ Err e) }
    {
        match &self.merging {
            None => unreachable!(),
            Some(names) => match merging_store(&self.volume) {
                None => unreachable!(),
                Some(store) => names.disk(depth, store),
            },
        }
    }

    /// The line of the device so deep in that store. `BadTable` for a disk.
    #[tactic(auto, unfolding(command_semantics::specs::Lines::line_in_merging))]
    fn line_in_merging(&self, depth: usize) -> Result<Line, Refusal>
        requires { IsRoleMerging (MergingStore depth) (names_in self.now.shown.merging) }
        ensures { result ≡ line_in_merging depth self.now.shown }
    {
        match &self.merging {
            None => unreachable!(),
            Some(names) => match merging_store(&self.volume) {
                None => unreachable!(),
                Some(store) => names.line(depth, store),
            },
        }
    }

    /// The line of the snapshot that is being merged: that of any other.
    #[tactic(auto, unfolding(command_semantics::specs::Lines::merging_line))]
    pub(crate) fn line_of_merging(&self) -> Result<Line, Refusal>
        requires { is_some self.now.shown.merging ≡ true }
        ensures { result ≡ merging_line_of self.now.shown }
    {
        let names = match &self.merging {
            None => unreachable!(),
            Some(names) => names,
        };
        let chunk = match merging_chunk(&self.volume) {
            None => unreachable!(),
            Some(chunk) => chunk,
        };
        let device = self.under.get(0).ok_or(Refusal::BadTable)?;
        let store = names.top().ok_or(Refusal::BadTable)?;
        Ok(Line {
            sectors: sectors_of(self.volume.origin()),
            target: Target::Snapshot {
                device: device.copy(),
                store: store.copy(),
                chunk,
                overflow: names.overflow,
            },
        })
    }

    /// The origin's line where no merge is begun.
    #[tactic(auto, unfolding(command_semantics::specs::Lines::origin_line, command_semantics::specs::Lines::origin_target))]
    fn line_of_plain_origin(&self) -> Result<Line, Refusal>
        requires { self.now.shown.merging ≡ None }
        ensures { result ≡ origin_line_of self.now.shown }
    {
        match self.under.get(0) {
            None => Err(Refusal::BadTable),
            Some(device) => Ok(Line {
                sectors: sectors_of(self.volume.origin()),
                target: Target::Origin {
                    device: device.copy(),
                },
            }),
        }
    }

    /// The origin's line while a merge is begun.
    #[tactic(auto, unfolding(command_semantics::specs::Lines::origin_line, command_semantics::specs::Lines::origin_target))]
    fn line_of_merged_origin(&self, names: &SnapNames) -> Result<Line, Refusal>
        requires { (g : Begun) × (self.now.shown.merging ≡ Some g) × (g.names ≡ names.now) }
        ensures { result ≡ origin_line_of self.now.shown }
    {
        let chunk = match merging_chunk(&self.volume) {
            None => unreachable!(),
            Some(chunk) => chunk,
        };
        let device = self.under.get(0).ok_or(Refusal::BadTable)?;
        let store = names.top().ok_or(Refusal::BadTable)?;
        Ok(Line {
            sectors: sectors_of(self.volume.origin()),
            target: Target::Merge {
                device: device.copy(),
                store: store.copy(),
                chunk,
                overflow: names.overflow,
            },
        })
    }

    /// The line of the origin.
    pub(crate) fn line_of_origin(&self) -> Result<Line, Refusal>
        ensures { result ≡ origin_line_of self.now.shown }
    {
        match &self.merging {
            Some(names) => self.line_of_merged_origin(names),
            None => self.line_of_plain_origin(),
        }
    }

    /// The line of a snapshot.
    #[tactic(auto, unfolding(command_semantics::specs::Lines::snapshot_line))]
    pub(crate) fn line_of_snapshot(&self, k: usize) -> Result<Line, Refusal>
        requires { k < length self.now.shown.snaps }
        ensures { result ≡ snapshot_line_of k self.now.shown }
    {
        let device = self.under.get(0).ok_or(Refusal::BadTable)?;
        let names = &self.snaps[k];
        let store = names.top().ok_or(Refusal::BadTable)?;
        Ok(Line {
            sectors: sectors_of(self.volume.origin()),
            target: Target::Snapshot {
                device: device.copy(),
                store: store.copy(),
                chunk: chunk_at(&self.volume, k),
                overflow: names.overflow,
            },
        })
    }

    /// The line of the device of this role. `BadTable` for a disk.
    #[tactic(auto, unfolding(command_semantics::specs::Lines::line_in_store))]
    pub fn line(&self, role: Role) -> Result<Line, Refusal>
        requires { IsRoleIn role self.now.shown }
        ensures { result ≡ line_of_role role self.now.shown }
    {
        match role {
            Role::Origin => self.line_of_origin(),
            Role::Under(depth) => line_in(depth, &self.under, self.volume.origin()),
            Role::Snapshot(k) => self.line_of_snapshot(k),
            Role::Store(k, depth) => self.snaps[k].line(depth, store_at(&self.volume, k)),
            Role::Merging => self.line_of_merging(),
            Role::MergingStore(depth) => self.line_in_merging(depth),
        }
    }

    /// The status line of a device of this role. Where something is in flight, that of a snapshot is by what is in memory of
    /// it. In this order: `BadTable` for disks and layers, `NoMemory` where the allocator refuses room.
    #[inline(never)]
    #[tactic(auto, unfolding(command_semantics::specs::Status::status_in, crate::specs::Status::status_flying))]
    pub fn status(&self, alloc: Global, role: Role) -> Result<Text, Refusal>
        requires { IsRoleIn role self.now.shown }
        ensures done { self.now.shown.sound ≡ true → self.now.shown.quiet ≡ true → Gives result (status_in role self.now.shown) }
        ensures among { (moving : Moving) → self.now.shown.flying ≡ Some moving → Gives result (status_flying role self.now.shown moving) }
        ensures held { IsStatusOf result role self.now.shown }
    {
        look(&self.volume);
        let sectors = u64::from(sectors_of(self.volume.origin()));
        let text = match role {
            Role::Origin => match merging_state(&self.volume) {
                None => origin_line(alloc, sectors),
                Some(state) => merge_line(alloc, sectors, state),
            },
            Role::Merging => snapshot_line(alloc, sectors, StatusState::Invalid),
            Role::Snapshot(k) => snapshot_line(alloc, sectors, state_at(&self.volume, k)),
            Role::Under(_) | Role::Store(_, _) | Role::MergingStore(_) => return Err(
                Refusal::BadTable,
            ),
        };
        match text {
            Ok(text) => Ok(text),
            Err(_) => Err(Refusal::NoMemory),
        }
    }
}
