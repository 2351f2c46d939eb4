// A volume as plain arrays of a byte a sector: the origin's, each snapshot's own, and the requests in flight.
use plain_machine::{Dev, Failure, Reply, ReqId, SnapId};
use sector::{Buf, SECTOR_BYTES};
use std::alloc::{AllocError, Global};

/// The sectors of an origin.
pub const SECTORS: u64 = 128;

/// What became of a snapshot.
#[derive(Clone, Copy, PartialEq, Eq)]
pub enum State {
    Live,
    /// It is spoiled, and its mark was not tried.
    Spoilt,
    /// A device failed at its mark.
    Marking,
    /// Its mark is written.
    Marked,
    /// It is merged into the origin.
    Merging,
}

/// A snapshot: its number, what became of it, and its array.
#[derive(Drop)]
pub struct PlainSnapshot {
    pub number: SnapId,
    pub state: State,
    pub array: Vec<u8>,
}

/// A read of a chunk, or a write of it with a byte.
#[derive(Clone, Copy)]
pub struct Asked {
    pub number: ReqId,
    pub dev: Dev,
    pub first: u64,
    pub count: u32,
    pub byte: Option<u8>,
}

/// The arrays, the requests in flight, and the last request at which a device failed.
#[derive(Drop)]
pub struct Arrays {
    pub origin: Vec<u8>,
    pub snaps: Vec<PlainSnapshot>,
    pub asked: Vec<Asked>,
    pub under_way: Option<Asked>,
}

/// Puts a byte in its place.
pub fn put(array: &mut [u8], sector: u64, byte: u8) {
    if let Some(place) = array.get_mut(sector as usize) {
        *place = byte;
    }
}

impl Arrays {
    /// An origin of one byte, without snapshots.
    pub fn new(alloc: Global, byte: u8) -> Result<Arrays, AllocError> {
        Ok(Arrays {
            origin: vec![in alloc; byte; SECTORS as usize]?,
            snaps: Vec::new(alloc),
            asked: Vec::new(alloc),
            under_way: None,
        })
    }

    /// Enters a live snapshot with this array.
    pub fn enter(&mut self, number: SnapId, array: Vec<u8>) -> Result<(), AllocError> {
        self.snaps.push(PlainSnapshot {
            number,
            state: State::Live,
            array,
        })?;
        Ok(())
    }

    /// Has the origin show an array.
    pub fn show(&mut self, origin: Vec<u8>) {
        self.origin = origin;
    }

    /// What became of a snapshot.
    pub fn state(&self, number: SnapId) -> Option<State> {
        for snap in &self.snaps {
            if snap.number == number {
                return Some(snap.state);
            }
        }
        None
    }

    /// Whether the origin, or a snapshot, answers.
    pub fn is_live(&self, dev: Dev) -> bool {
        match dev {
            Dev::Origin => true,
            Dev::Snap(number) => self.state(number) == Some(State::Live),
        }
    }

    /// Sets what became of a snapshot.
    pub fn set_state(&mut self, number: SnapId, state: State) {
        for snap in &mut self.snaps {
            if snap.number == number {
                snap.state = state;
            }
        }
    }

    /// The byte of a sector.
    pub fn byte(&self, dev: Dev, sector: u64) -> Option<u8> {
        match dev {
            Dev::Origin => self.origin.get(sector as usize).copied(),
            Dev::Snap(number) => self.snap_byte(number, sector),
        }
    }

    /// The byte of a sector of a snapshot.
    fn snap_byte(&self, number: SnapId, sector: u64) -> Option<u8> {
        for snap in &self.snaps {
            if snap.number == number {
                return snap.array.get(sector as usize).copied();
            }
        }
        None
    }

    /// Sets the byte of a sector.
    pub fn set_byte(&mut self, dev: Dev, sector: u64, byte: u8) {
        match dev {
            Dev::Origin => put(self.origin.as_mut_slice(), sector, byte),
            Dev::Snap(number) => self.set_snap_byte(number, sector, byte),
        }
    }

    /// Sets the byte of a sector of a snapshot.
    fn set_snap_byte(&mut self, number: SnapId, sector: u64, byte: u8) {
        for snap in &mut self.snaps {
            if snap.number == number {
                put(snap.array.as_mut_slice(), sector, byte);
            }
        }
    }

    /// A snapshot is merged into the origin, which shows its array from now on.
    pub fn begin_merge(&mut self, number: SnapId) -> Result<(), AllocError> {
        for snap in &mut self.snaps {
            if snap.number == number {
                snap.state = State::Merging;
                self.origin = snap.array.clone()?;
            }
        }
        Ok(())
    }

    /// The number of the snapshot that is merged.
    pub fn merging(&self) -> Option<SnapId> {
        for snap in &self.snaps {
            if snap.state == State::Merging {
                return Some(snap.number);
            }
        }
        None
    }

    /// Takes a request out of those in flight.
    fn take_out(&mut self, number: ReqId) -> Option<Asked> {
        match self.asked.iter().position(|asked| asked.number == number) {
            Some(place) => Some(self.asked.remove(place)),
            None => None,
        }
    }

    /// Fills the sectors of a request.
    fn fill(&mut self, asked: &Asked, byte: u8) {
        for i in 0..asked.count {
            self.set_byte(asked.dev, asked.first.saturating_add(u64::from(i)), byte);
        }
    }

    /// Whether a read was answered by what the array holds.
    fn is_read(&self, asked: &Asked, bytes: &Buf) -> bool {
        for (i, byte) in bytes.as_slice().iter().enumerate() {
            let sector = asked.first.saturating_add((i / SECTOR_BYTES) as u64);
            if self.byte(asked.dev, sector) != Some(*byte) {
                return false;
            }
        }
        bytes.len() == SECTOR_BYTES * asked.count as usize
    }

    /// Follows the answer to a request, and tells whether it is one that the request may have.
    pub fn follow_reply(&mut self, number: ReqId, reply: &Reply) -> bool {
        let Some(asked) = self.take_out(number) else {
            return false;
        };
        match (asked.byte, reply) {
            (Some(byte), Reply::Written) => {
                self.fill(&asked, byte);
                true
            }
            (None, Reply::Data(bytes)) => self.is_read(&asked, bytes),
            (_, Reply::Refused(Failure::Io)) => {
                self.under_way = Some(asked);
                true
            }
            (_, Reply::Refused(Failure::Invalid)) => !self.is_live(asked.dev),
            _ => false,
        }
    }
}
