// Status lines of origins, snapshots and merges, as the kernel's admin-guide page on snapshots has them. What the numbers of a
// line are is the caller's; only want of memory keeps a line from being made.
ghost use Rattle.std.specs.Prelude.{◌≡◌, ◌≤◌, drop, length, IfOk};
ghost use Rattle.table.specs.Lines.{origin_text, snapshot_text, merge_text, stated_text, state_text};

use crate::putting::{put, put_number};
use std::alloc::{AllocError, Global};
use words::Text;

/// What a status line says of a snapshot, or of one that is being merged into its origin.
#[derive(Clone, Copy, PartialEq, Eq)]
pub enum StatusState {
    /// The snapshot is spoiled.
    Invalid,
    /// A device failed in the merge, which stands still.
    Failed,
    /// The snapshot's store overflowed: it refuses writes, and shows what it showed.
    Overflow,
    /// Sectors of the snapshot's store: those in use, all, and those in use that hold no copies.
    Used {
        allocated: u64,
        total: u64,
        metadata: u64,
    },
}

/// Room for the longest line: of numbers of 20 digits each.
const LINE_ROOM: usize = 100;

/// Puts what a status line says of a snapshot, or of one that is being merged, at the end of a room, and tells where it begins.
#[inline(always)]
fn put_state(room: &mut [u8; LINE_ROOM], state: StatusState) -> usize
    ensures within { 38 ≤ result }
    ensures few { result ≤ 100 }
    ensures written { drop result room.new ≡ state_text state }
{
    match state {
        StatusState::Invalid => put(room, LINE_ROOM, b"Invalid"),
        StatusState::Failed => put(room, LINE_ROOM, b"Merge failed"),
        StatusState::Overflow => put(room, LINE_ROOM, b"Overflow"),
        StatusState::Used {
            allocated,
            total,
            metadata,
        } => {
            let end = put_number(room, LINE_ROOM, metadata);
            let end = put(room, end, b" ");
            let end = put_number(room, end, total);
            let end = put(room, end, b"/");
            put_number(room, end, allocated)
        }
    }
}

/// The status line of an origin of so many sectors, without a line end.
#[inline(always)]
pub fn origin_line(alloc: Global, sectors: u64) -> Result<Text, AllocError>
    ensures { IfOk result (λ text. text ≡ origin_text sectors) }
{
    let mut room = [0u8; LINE_ROOM];
    let end = put(&mut room, LINE_ROOM, b" snapshot-origin");
    let end = put_number(&mut room, end, sectors);
    let start = put(&mut room, end, b"0 ");
    Text::ending(alloc, &room, start)
}

/// The line of a device of so many sectors whose target, with a space on either side, has a state. It is made from its end to its
/// beginning, as numbers are.
#[inline(always)]
fn stated_line(
    alloc: Global,
    sectors: u64,
    target: &[u8],
    state: StatusState,
) -> Result<Text, AllocError>
    requires { length target.now ≤ 16 }
    ensures { IfOk result (λ text. text ≡ stated_text sectors target.now state) }
{
    let mut room = [0u8; LINE_ROOM];
    let end = put_state(&mut room, state);
    let end = put(&mut room, end, target);
    let end = put_number(&mut room, end, sectors);
    let start = put(&mut room, end, b"0 ");
    Text::ending(alloc, &room, start)
}

/// The status line of a snapshot of so many sectors, without a line end.
#[inline(always)]
pub fn snapshot_line(alloc: Global, sectors: u64, state: StatusState) -> Result<Text, AllocError>
    ensures { IfOk result (λ text. text ≡ snapshot_text sectors state) }
{
    stated_line(alloc, sectors, b" snapshot ", state)
}

/// The status line of an origin of so many sectors that a snapshot is merged into, without a line end.
#[inline(always)]
pub fn merge_line(alloc: Global, sectors: u64, state: StatusState) -> Result<Text, AllocError>
    ensures { IfOk result (λ text. text ≡ merge_text sectors state) }
{
    stated_line(alloc, sectors, b" snapshot-merge ", state)
}
