// What a stop left is loaded again, and judged by the arrays from before.
use crate::arrays::{Arrays, Asked, PlainSnapshot, State};
use crate::calls;
use crate::driven::{Cut, Driven, Stops};
use crate::machine::Machine;
use crate::scenario::Step;
use device::{Block, MemDisk};
use layers::Layered;
use plain_machine::{Dev, SnapId};
use sector::Refusal;
use std::alloc::Global;
use std::test::Fail;
use volume::Stopped;

/// What a stop left: the devices, the origin's first; the arrays from before; and the snapshot whose store a merge may find full.
#[derive(Drop)]
struct Left<B: Block> {
    devices: Vec<B>,
    arrays: Arrays,
    chunk: u32,
    fills_up: Option<SnapId>,
    /// Whether a device stopped, or had its fault.
    met: bool,
}

/// The devices of a machine that stops, the origin's first. A store at whose attach it did is the last.
fn devices_of<B: Block + Drop>(
    alloc: Global,
    stopped: &mut Stopped<B>,
    mut stores: Vec<B>,
    count: usize,
) -> Result<Vec<B>, Fail> {
    let mut devices = Vec::new(alloc);
    for _ in 0..count {
        match stopped.take() {
            Some(device) => devices.push(device)?,
            None => match stores.pop() {
                Some(device) => devices.push(device)?,
                None => return Err(Fail::from("a device is lost")),
            },
        }
    }
    Ok(devices)
}

/// The disks that are left of devices, the last one's first.
fn disks_left<B: Stops>(alloc: Global, devices: &[B], cut: Cut) -> Result<Vec<MemDisk>, Fail> {
    let mut disks = Vec::new(alloc);
    for device in devices {
        disks.push(device.left(alloc, cut)?)?;
    }
    disks.reverse();
    Ok(disks)
}

/// Whether a device stopped, or had its fault.
fn one_has_met<B: Stops>(devices: &[B]) -> bool {
    for device in devices {
        if device.has_met() {
            return true;
        }
    }
    false
}

/// Stops a machine.
fn stop<B: Stops>(alloc: Global, machine: Machine<B>) -> Result<Left<B>, Fail> {
    let Machine {
        volume,
        arrays,
        stores,
        chunk,
        fills_up,
        ..
    } = machine;
    let count = arrays.snaps.len().saturating_add(1);
    let mut stopped = volume.stop();
    let devices = devices_of(alloc, &mut stopped, stores, count)?;
    let met = one_has_met(devices.as_slice());
    Ok(Left {
        devices,
        arrays,
        chunk,
        fills_up,
        met,
    })
}

/// Whether a snapshot's store may be loaded, and whether it may be refused as invalid. A loss of power may take a mark away that was
/// written and not flushed yet.
fn fates(state: State, cut: Cut) -> (bool, bool) {
    match state {
        State::Live | State::Spoilt | State::Merging => (true, false),
        State::Marking => (true, true),
        State::Marked => (cut != Cut::Killed, true),
    }
}

/// What a snapshot's store is to show: that of a merge shows what the origin showed.
fn shown_again<'a>(snap: &'a PlainSnapshot, origin: &'a [u8]) -> &'a [u8] {
    if snap.state == State::Merging {
        origin
    } else {
        snap.array.as_slice()
    }
}

/// The device whose array a write that was under way changes, once all is loaded again.
fn written_dev(asked: &Asked, merging: Option<SnapId>) -> Dev {
    match (asked.dev, merging) {
        (Dev::Origin, Some(number)) => Dev::Snap(number),
        (dev, _) => dev,
    }
}

impl<B: Driven + Layered> Machine<B> {
    /// Attaches the store of a snapshot again, which is to show this array.
    fn take_again(
        &mut self,
        alloc: Global,
        (may_load, may_refuse): (bool, bool),
        disk: B,
        array: &[u8],
    ) -> Result<(), Fail> {
        match calls::attach(alloc, &mut self.volume, disk, self.chunk) {
            Ok(number) if may_load => self.arrays.enter(number, Vec::from_slice(alloc, array)?)?,
            Err((Refusal::Invalid, _)) if may_refuse => {}
            _ => return Err(Fail::from("not loaded as it should be")),
        }
        Ok(())
    }

    /// Attaches all stores again.
    fn take_all_again(
        &mut self,
        alloc: Global,
        disks: &mut Vec<B>,
        arrays: &Arrays,
        cut: Cut,
    ) -> Result<(), Fail> {
        for snap in &arrays.snaps {
            let Some(disk) = disks.pop() else {
                return Err(Fail::from("a store is lost"));
            };
            self.take_again(
                alloc,
                fates(snap.state, cut),
                disk,
                shown_again(snap, arrays.origin.as_slice()),
            )?;
        }
        Ok(())
    }

    /// Has the array show what a write that was under way left of its sectors: each old or new.
    fn adopt(&mut self, dev: Dev, asked: &Asked) -> Result<(), Fail> {
        let Some(byte) = asked.byte else {
            return Ok(());
        };
        for i in 0..asked.count {
            let sector = asked.first.saturating_add(u64::from(i));
            if calls::shows(&self.volume, dev, sector, byte)? {
                self.arrays.set_byte(dev, sector, byte);
            }
        }
        Ok(())
    }

    /// Holds all arrays. Where a merge was begun, it is begun again and finished, and the arrays are held once more.
    fn hold_all(&mut self, alloc: Global, merging: Option<SnapId>) -> Result<(), Fail> {
        self.hold_snaps()?;
        if let Some(number) = merging {
            self.run(alloc, &[Step::Merge(number), Step::Settle, Step::Finish])?;
            self.hold_snaps()?;
        }
        self.hold(Dev::Origin)
    }
}

/// A volume over the origin disk that is left.
fn volume_again<B: Driven>(
    alloc: Global,
    disks: &mut Vec<B>,
    chunk: u32,
) -> Result<Machine<B>, Fail> {
    let Some(origin) = disks.pop() else {
        return Err(Fail::from("no origin"));
    };
    let mut origins = Vec::new(alloc);
    origins.push(origin)?;
    Machine::new(alloc, origins, chunk, false)
}

/// Loads again what is left, and holds it against the arrays from before.
fn judged<B: Stops>(alloc: Global, left: Left<B>) -> Result<Machine<MemDisk>, Fail> {
    let Left {
        devices,
        arrays,
        chunk,
        fills_up,
        ..
    } = left;
    let mut disks = disks_left(alloc, devices.as_slice(), Cut::Killed)?;
    let merging = arrays.merging();
    let mut again = volume_again(alloc, &mut disks, chunk)?;
    again.fills_up = fills_up;
    again.take_all_again(alloc, &mut disks, &arrays, Cut::Killed)?;
    again.arrays.show(arrays.origin.clone()?);
    if let Some(asked) = arrays.under_way {
        again.adopt(written_dev(&asked, merging), &asked)?;
    }
    again.hold_all(alloc, merging)?;
    Ok(again)
}

/// Stops a machine, loads again what is left, and holds it against the arrays from before: each snapshot shows its own, each
/// sector up to the write that was under way, unless it was spoiled and its mark tried; and so does the origin, or where a
/// merge was begun the merging store.
pub fn load_again<B: Stops>(alloc: Global, machine: Machine<B>) -> Result<Machine<MemDisk>, Fail> {
    judged(alloc, stop(alloc, machine)?)
}

/// Stops a machine and loads again what is left, as `load_again` does, and tells whether a device stopped or had its fault.
pub fn loads_again_met<B: Stops>(alloc: Global, machine: Machine<B>) -> Result<bool, Fail> {
    let left = stop(alloc, machine)?;
    let met = left.met;
    judged(alloc, left)?;
    Ok(met)
}

/// Loads again the snapshots that a cut of the power leaves: each shows its array, unless it was spoiled and its mark tried. Where a merge
/// was begun, it is begun again and finished, and then the origin shows its array.
fn cut_is_judged<B: Stops>(alloc: Global, left: &Left<B>, cut: Cut) -> Result<(), Fail> {
    let mut disks = disks_left(alloc, left.devices.as_slice(), cut)?;
    let mut again = volume_again(alloc, &mut disks, left.chunk)?;
    again.take_all_again(alloc, &mut disks, &left.arrays, cut)?;
    match left.arrays.merging() {
        None => again.hold_snaps(),
        merging => {
            again.arrays.show(left.arrays.origin.clone()?);
            again.hold_all(alloc, merging)
        }
    }
}

/// Cuts the power of a machine in each of these ways, and loads again its snapshots: each shows its array, unless it was spoiled and its
/// mark tried; a merge goes on to its end. Nobody wrote to a snapshot, or to the origin behind the beginning of a merge. Tells whether
/// a device had its fault.
pub fn snaps_again_met<B: Stops>(
    alloc: Global,
    machine: Machine<B>,
    cuts: &[Cut],
) -> Result<bool, Fail> {
    let left = stop(alloc, machine)?;
    for cut in cuts {
        cut_is_judged(alloc, &left, *cut)?;
    }
    Ok(left.met)
}
