// A write that is torn: some of its sectors reach the disk.
ghost use Rattle.std.specs.Prelude.{◌≡◌, ◌+◌, ◌*◌, ◌≤◌, length};
ghost use Rattle.sector.specs.Bytes.{sector_at, with_sectors};
ghost use Rattle.device.specs.Disk.{disk_size, disk_contents};
ghost use Rattle.torn_disk.specs.Torn.{IsTornBy, is_new};
ghost use Rattle.torn_disk.specs.Calls.{DiskKeepsDurable};

use device::{Block, MemDisk};
use sector::{Range, SECTOR_BYTES};

// Writes the sectors of a write that are new, and leaves the others.
#[tactic(auto, using(crate::proofs::Torn::torn_none, crate::proofs::Torn::torn_old, crate::proofs::Torn::torn_new))]
pub(crate) fn tear(disk: &mut MemDisk, range: Range, bytes: &[u8], new: &[bool])
    requires inside { range.first + range.count ≤ disk_size disk.old }
    requires room { length bytes.now ≡ 512 * range.count }
    ensures torn { IsTornBy new.now range.first range.count bytes.now (disk_contents disk.old) (disk_contents disk.new) }
    ensures durable { DiskKeepsDurable disk.old disk.new }
    ensures size { disk_size disk.new ≡ disk_size disk.old }
{
    for i in 0..range.count {
        if reaches(new, i) {
            write_one(disk, range, i, bytes);
        }
    }
}

// Whether a sector of a torn write is new: those past the end of the list are old.
fn reaches(new: &[bool], i: u32) -> bool
    ensures { result ≡ is_new new.now i }
{
    match new.get(i as usize) {
        Some(reaches) => *reaches,
        None => false,
    }
}

// Writes one sector of a write.
fn write_one(disk: &mut MemDisk, range: Range, i: u32, bytes: &[u8])
    requires one { i + 1 ≤ range.count }
    requires inside { range.first + range.count ≤ disk_size disk.old }
    requires room { length bytes.now ≡ 512 * range.count }
    ensures contents { disk_contents disk.new ≡ with_sectors (disk_contents disk.old) (range.first + i) (sector_at bytes.now i) }
    ensures durable { DiskKeepsDurable disk.old disk.new }
    ensures size { disk_size disk.new ≡ disk_size disk.old }
{
    let at = i as usize * SECTOR_BYTES;
    let one = Range {
        first: range.first + i as u64,
        count: 1,
        size: range.size,
    };
    let _ = disk.write(one, &bytes[at..at + SECTOR_BYTES]);
}
