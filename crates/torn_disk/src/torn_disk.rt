// What a fuse holds.
ghost use Rattle.std.specs.Prelude.{◌≡◌, ◌*◌, length};
ghost use Rattle.device.specs.Disk.{disk_size};

use device::MemDisk;

/// A disk that passes some writes and flushes. At the next it is blown: it keeps aside the disk, at a write with some of
/// its sectors new and the others old, at a flush as it was, and that and every later operation answers a counted fault
/// and changes nothing. Until then reads pass, and are not counted.
#[derive(Drop)]
pub struct TornDisk {
    pub(crate) disk: MemDisk,
    pub(crate) before: Vec<u8>,
    pub(crate) reaching: Vec<bool>,
    pub(crate) left: Option<u64>,
    pub(crate) faults: u64,
    pub(crate) done: u64,
    ghost same_length: { length before.items ≡ 512 * disk_size disk },
}
