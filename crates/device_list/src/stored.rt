// What a volume over stacks tells of the snapshot at a place.
ghost use Rattle.std.specs.Prelude.{◌≡◌, ◌<◌, ◌≤◌, ◌+◌, ◌*◌, true, length, get_or, IfSome, Some, None};
ghost use Rattle.layers.specs.Stack.{stack_layers};
ghost use Rattle.whole_commands.specs.Merges.{Merge};
ghost use Rattle.whole_commands.specs.Snaps.{Snap};
ghost use Rattle.table.specs.declared.status.StatusState.TheVariants.{Used};
ghost use Rattle.volume.specs.Leaving.{is_quiet_of};
ghost use Rattle.volume_commands.specs.Flying.{IsWhole};
ghost use Rattle.volume_commands.specs.Rested.{is_loud_in};
ghost use Rattle.command_semantics.specs.Stacks.{device_of};
ghost use Rattle.command_semantics.specs.Status.{merge_state, state_of};
ghost use Rattle.device_list.specs.Held.{merged_inside, settled_in, IsSettledIn, HasNoMerge};
ghost use Rattle.device_list.specs.Status.{IsStateAt};

use chunk_alloc::Usage;
use device_stacks::sectors_of;
use layers::Stack;
use plain_machine::{Overflowing, SnapId};
use table::StatusState;
use volume_commands::Resting;

/// A look at whether the volume is quiet: one that is, and of which no device drops writes, is settled.
pub(crate) fn look(volume: &Resting<Stack>)
    ensures { is_quiet_of volume.now.rested.events ≡ true → is_loud_in stack_layers volume.now.rested ≡ true → IsSettledIn volume.now.rested }
{
    let _ = volume.is_quiet();
}

/// A look at the places of the journal that are taken: one for each request, five for each snapshot that was taken, and forty at most.
pub(crate) fn look_at_places(volume: &Resting<Stack>)
    ensures { volume.now.taken ≤ volume.now.rested.requests + 5 * volume.now.rested.attached + 40 }
{
    volume.look_at_places()
}

/// The stack of its store.
pub(crate) fn store_at(volume: &Resting<Stack>, k: usize) -> &Stack
    requires { k < length volume.now.rested.snaps }
    ensures { (d : Snap) → device_of result.now ≡ (get_or (settled_in volume.now.rested).snaps k d).store }
{
    volume.store_at(k)
}

/// Its chunk size, in sectors.
pub(crate) fn chunk_at(volume: &Resting<Stack>, k: usize) -> u32
    requires { k < length volume.now.rested.snaps }
    ensures { (d : Snap) → result ≡ (get_or (settled_in volume.now.rested).snaps k d).chunk }
{
    volume.chunk(k)
}

/// Its number.
pub(crate) fn number_at(volume: &Resting<Stack>, k: usize) -> SnapId
    requires { k < length volume.now.rested.snaps }
    ensures { (d : Snap) → result ≡ (get_or (settled_in volume.now.rested).snaps k d).number }
{
    volume.number(k)
}

/// What a status line says of a store in use.
fn used(usage: Usage) -> StatusState
    ensures { result ≡ Used usage.allocated usage.total usage.metadata }
{
    StatusState::Used {
        allocated: usage.allocated,
        total: usage.total,
        metadata: usage.metadata,
    }
}

/// What its status line says of it, whatever is in flight.
pub(crate) fn state_at(volume: &Resting<Stack>, k: usize) -> StatusState
    requires { k < length volume.now.rested.snaps }
    ensures settled { IsSettledIn volume.now.rested → (d : Snap) → result ≡ state_of (get_or (settled_in volume.now.rested).snaps k d) }
    ensures held { IsStateAt result k volume.now.rested }
    ensures whole { IsWhole volume.now.rested }
{
    let usage = match volume.usage(k) {
        None => return StatusState::Invalid,
        Some(usage) => usage,
    };
    match volume.overflow(k) {
        Overflowing::Did => StatusState::Overflow,
        Overflowing::Never => used(usage),
        Overflowing::May => used(usage),
    }
}

/// The stack of the merging store, if a merge is begun.
pub(crate) fn merging_store(volume: &Resting<Stack>) -> Option<&Stack>
    ensures some { IfSome result (λ store. (g : Merge) × ((merged_inside volume.now.rested).merge ≡ Some g) × (device_of store.now ≡ g.store)) }
    ensures none { HasNoMerge result volume.now.rested }
{
    volume.merging_store()
}

/// The chunk size of the merge, in sectors.
pub(crate) fn merging_chunk(volume: &Resting<Stack>) -> Option<u32>
    ensures some { IfSome result (λ chunk. (g : Merge) × ((merged_inside volume.now.rested).merge ≡ Some g) × (chunk ≡ g.chunk)) }
    ensures none { HasNoMerge result volume.now.rested }
{
    volume.merging_chunk()
}

/// What the status line of the origin says of the merge.
pub(crate) fn merging_state(volume: &Resting<Stack>) -> Option<StatusState>
    ensures some { IfSome result (λ state. (g : Merge) × ((merged_inside volume.now.rested).merge ≡ Some g) × (state ≡ merge_state g)) }
    ensures none { HasNoMerge result volume.now.rested }
{
    let usage = match volume.merging_usage() {
        None => return None,
        Some(usage) => usage,
    };
    let store = match volume.merging_store() {
        None => return None,
        Some(store) => store,
    };
    if volume.is_merge_failed() {
        return Some(StatusState::Failed);
    }
    Some(StatusState::Used {
        allocated: usage.allocated,
        total: u64::from(sectors_of(store)),
        metadata: usage.metadata,
    })
}
