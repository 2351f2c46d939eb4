// What a store's first sector says is looked at.
ghost use Rattle.std.specs.Prelude.{◌≡◌, ◌+◌, ◌*◌, ◌<◌, ◌≤◌, length, IfOk, IfErr, OnOk};
ghost use Rattle.sector.specs.Bytes.{sector_at, sectors_at};
ghost use Rattle.cow_header.specs.HeaderText.{found_in};
ghost use Rattle.volume_opening.specs.NotReady.{IsReadFailure};
ghost use Rattle.volume_opening.specs.Seen.{IsSeen};

use crate::NotOpened;
use cow_header::{Found, decode};
use device::Ahead;
use sector::{Range, Refusal, SECTOR_BYTES};
use std::alloc::Global;

/// Reads sectors of a device ahead, beside those that were, and then reads them.
#[tactic(auto, using(crate::proofs::Seen::read_seen))]
pub fn read_seen<B: Ahead>(
    alloc: Global,
    device: &mut B,
    range: Range,
    out: &mut [u8],
) -> Result<(), NotOpened>
    requires some { 0 < range.count }
    requires inside { range.first + range.count ≤ B.size device.old }
    requires room { length out.old ≡ 512 * range.count }
    ensures seen { IsSeen B.may_hold B.contents B.layers B.size device.old device.new }
    ensures data { OnOk result (out.new ≡ sectors_at (B.contents device.new) range.first range.count) }
    ensures len { length out.new ≡ length out.old }
    ensures failed { IfErr result IsReadFailure }
{
    match device.read_more(alloc, range) {
        Ok(true) => {}
        Ok(false) => return Err(NotOpened::StoreFailed),
        Err(_) => return Err(NotOpened::NoMemory),
    }
    match device.read(range, out) {
        Ok(()) => Ok(()),
        Err(_) => Err(NotOpened::StoreFailed),
    }
}

/// Reads the first sector of a store, and gives what it says, or why it is refused.
pub fn first_said<B: Ahead>(
    alloc: Global,
    store: &mut B,
) -> Result<Result<Found, Refusal>, NotOpened>
    requires some { 0 < B.size store.old }
    ensures seen { IsSeen B.may_hold B.contents B.layers B.size store.old store.new }
    ensures said { IfOk result (λ said. said ≡ found_in (sector_at (B.contents store.new) 0)) }
    ensures failed { IfErr result IsReadFailure }
{
    let range = Range {
        first: 0,
        count: 1,
        size: store.sectors(),
    };
    let mut first = [0u8; SECTOR_BYTES];
    read_seen(alloc, store, range, &mut first)?;
    Ok(decode(&first))
}
