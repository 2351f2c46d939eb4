// What a table line says.
use words::Name;

/// A line of a device's table. It begins at sector 0, as each device here has one line.
#[derive(Drop)]
pub struct Line {
    /// The sectors of the device.
    pub sectors: u32,
    pub target: Target,
}

/// What a device does, and over which devices.
#[derive(Drop)]
pub enum Target {
    /// `snapshot-origin`: the device that snapshots are taken of.
    Origin {
        device: Name,
    },
    /// `snapshot`: a snapshot of the origin over `device`, its exceptions in `store`, `chunk` sectors a chunk. Where
    /// `overflow` holds, the line's word for the store is `PO` in place of `P`: a write of the snapshot that finds the
    /// store full is refused, and does not spoil the snapshot.
    Snapshot {
        device: Name,
        store: Name,
        chunk: u32,
        overflow: bool,
    },
    /// `snapshot-merge`: the same store while it is merged into the origin over `device`.
    Merge {
        device: Name,
        store: Name,
        chunk: u32,
        overflow: bool,
    },
    /// `flakey`: `device` from sector `offset` on, reliable for `up` seconds and unreliable for `down`, in turn.
    Flakey {
        device: Name,
        offset: u32,
        up: u32,
        down: u32,
        features: FlakeyFeatures,
    },
    /// `dust`: `device` with bad blocks of `block` bytes.
    Dust {
        device: Name,
        block: u32,
    },
    /// `error`: every operation fails.
    Error,
}

/// What an unreliable flakey device does. With no feature it fails all.
#[derive(Clone, Copy, PartialEq, Eq)]
pub struct FlakeyFeatures {
    /// Fails reads.
    pub error_reads: bool,
    /// Fails writes.
    pub error_writes: bool,
    /// Answers success to writes, and drops them.
    pub drop_writes: bool,
}
