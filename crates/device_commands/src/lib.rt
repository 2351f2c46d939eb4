//! The program's named devices: disks, layers over them, and volumes, and what each command does to them.
//!
//! It stands on `device_list` for all devices by name, on `layers` for stacks of layers, on `table` for the lines that describe
//! devices, and on `whole_commands` for what a volume does. It promises that a command answers and leaves exactly what its definition
//! says of the table of devices before it, with the first refusal in the stated order: in any case where it asks nothing of a
//! volume, and else where no device of that volume drops writes and nothing is in flight in it. Want of memory may change an
//! answer, and so may want of room in a volume's journal, of a command that takes a place there; then nothing else changed, but
//! that some first pieces of a write may stand.
//!
//! A request that is started may end in a later command. While one is in flight in a volume, a call promises what is done to
//! it by the volume's own events and accepted requests, that it touches no device of another, and which refusals come first.
#![tactic(auto)]

mod attaching;
mod back;
mod checkpointing;
mod create;
mod disks;
mod flights;
mod lay;
mod lines;
mod listing;
mod mapping;
mod merging;
mod messages;
mod order;
mod origins;
mod raw;
mod remove;
mod sectors;
mod shown;
mod stopping;

pub use checkpointing::{checkpoint_all, checkpoint_device};
pub use create::create_device;
pub use disks::make_disk;
pub use flights::{settle_device, start_read, start_write, step_device};
pub use lines::line_text;
pub use listing::list_text;
pub use mapping::map_text;
pub use merging::{finish_device, merge_device, resume_device};
pub use messages::{tell, tick};
pub use plain_machine::Replied;
pub use raw::{copy_disk, load_disk, save_disk};
pub use remove::remove_device;
pub use sectors::{flush_device, read_device, write_device};
pub use shown::status_text;
pub use stopping::{stop_device, stop_losing};
