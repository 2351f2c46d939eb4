//! Devices of sectors: the trait `Block`, disks in memory, a device that fails one operation, and the trait `Ahead` of one that does
//! operations ahead.
//!
//! It stands on `sector`. It promises that a read gives what the writes left, that an operation answers `Io` exactly
//! where a fault was counted, and says what a stop or a loss at any moment may leave in each sector.
#![tactic(auto)]

mod ahead;
mod block;
mod bytes;
mod disk_sectors;
mod doing_ahead;
mod fail_at;
mod io;
mod kept;
mod late;
mod listing;
mod mark;
mod marking;
mod mem_disk;
mod operation;
mod span;
mod undo;
mod zeroed;

pub use ahead::Ahead;
pub use block::Block;
pub use doing_ahead::do_ahead;
pub use fail_at::FailAt;
pub use io::Io;
pub use mem_disk::{MAX_SECTORS, MemDisk};
pub use operation::{Fate, Operation};
