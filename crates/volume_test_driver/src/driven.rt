// How a volume over devices of a kind does its events, and what a stop leaves of one.
use crate::disks::copy_of;
use device::{Block, FailAt, MemDisk};
use plain_machine::{Event, Outcome};
use std::alloc::Global;
use std::test::Fail;
use torn_disk::TornDisk;
use volume::Volume;

/// A device over which a volume is driven.
pub trait Driven: Block + Drop {
    /// Does ahead what an attach of this store will ask of it.
    fn attach_ahead(&mut self, _alloc: Global) -> Result<(), Fail> {
        Ok(())
    }

    /// Does ahead what an event will ask of a device.
    fn ahead(_volume: &mut Volume<Self>, _event: Event) {}

    /// Whether a device left unanswered what it had answered, so that the run ends.
    fn is_over(_volume: &Volume<Self>) -> bool {
        false
    }

    /// What a request is answered, where a device may have left it unanswered.
    fn answered(_volume: &Volume<Self>, outcome: Outcome) -> Outcome {
        outcome
    }
}

impl Driven for MemDisk {}

impl Driven for TornDisk {}

impl Driven for FailAt<MemDisk> {}

/// What a stop leaves of a device with a cache.
#[derive(Clone, Copy, PartialEq, Eq)]
pub enum Cut {
    /// All that was written.
    Killed,
    /// What was there at the last sync.
    Unpowered,
    /// Of the sectors that were written since the last sync the first one alone is new.
    First,
    /// The last one of them alone is.
    Last,
    /// Of each sector one or the other, drawn by this number.
    Mixed(u64),
}

impl Cut {
    /// Whether a sector is as it was written, where these are the first and the last that are not as they were synced.
    pub fn is_new(self, sector: u64, (first, last): (u64, u64)) -> bool {
        match self {
            Cut::Killed => true,
            Cut::Unpowered => false,
            Cut::First => sector == first,
            Cut::Last => sector == last,
            Cut::Mixed(number) => {
                let drawn = sector
                    .wrapping_add(number)
                    .wrapping_mul(0x9e37_79b9_7f4a_7c15);
                drawn >> 63 == 1
            }
        }
    }
}

/// A device that stops.
pub trait Stops: Driven {
    /// Whether it stopped, or had its fault.
    fn has_met(&self) -> bool;

    /// The disk that a stop leaves.
    fn left(&self, alloc: Global, cut: Cut) -> Result<MemDisk, Fail>;
}

impl Stops for TornDisk {
    fn has_met(&self) -> bool {
        self.left().is_some()
    }

    fn left(&self, alloc: Global, _cut: Cut) -> Result<MemDisk, Fail> {
        match self.left() {
            Some(disk) => copy_of(alloc, disk),
            None => copy_of(alloc, self),
        }
    }
}
