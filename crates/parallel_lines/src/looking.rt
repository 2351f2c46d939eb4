// What the lines of a block find under their names.
ghost use Rattle.std.specs.Prelude.{◌≡◌, IfOk, map};
ghost use Rattle.device_list.specs.Tables.{table_of};
ghost use Rattle.parallel_lines.specs.Looking.{found_in, name_in, serves};

use command::{NameFound, SeatLine, Work};
use command_semantics::{Place, Role};
use device_list::{Devices, find_device};
use std::alloc::{AllocError, Global};
use words::Name;

/// The name of the device that a seat is to work at.
pub fn name_in(work: &Work) -> &Name
    ensures { result.now ≡ name_in work.now }
{
    match work {
        Work::Read { name, .. } => name,
        Work::Write { name, .. } => name,
        Work::Merge { name } => name,
        Work::OutsideRead { name } => name,
        Work::OutsideWrite { name } => name,
    }
}

/// Whether work may be asked of a device of this role: sectors of an origin or of a snapshot, and a merge of a snapshot.
fn serves(work: &Work, role: Role) -> bool
    ensures { result ≡ serves work.now role }
{
    match role {
        Role::Origin => !matches!(work, Work::Merge { .. }),
        Role::Snapshot(_) | Role::Merging => true,
        Role::Under(_) | Role::Store(_, _) | Role::MergingStore(_) => false,
    }
}

/// What a line finds.
#[tactic(auto, using(device_list::proofs::Showing::shown_there))]
fn found(held: &Devices, line: &SeatLine) -> NameFound
    ensures { result ≡ found_in (table_of held.now) line.now }
{
    match find_device(held, name_in(&line.work)) {
        Err(_) => NameFound::Missing,
        Ok(Place::Free(_, _)) => NameFound::Other,
        Ok(Place::In(v, role)) => {
            if !serves(&line.work, role) {
                NameFound::Other
            } else if held.volumes[v].is_quiet() {
                NameFound::Quiet
            } else {
                NameFound::Busy
            }
        }
    }
}

/// What each line finds. An error says that the allocator refused memory for the list.
pub fn all_found(
    alloc: Global,
    held: &Devices,
    lines: &[SeatLine],
) -> Result<Vec<NameFound>, AllocError>
    ensures { IfOk result (λ all. all.items ≡ map (found_in (table_of held.now)) lines.now) }
{
    lines.iter().map(|line| found(held, line)).collect(alloc)
}
