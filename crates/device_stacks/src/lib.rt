//! A stack of layers with the names of its devices, from the top down to the disk: what each command asks of one that nothing
//! uses (`NamedStack`), and what a name in any stack leads to: its depth, the disk at the bottom, the table line of a layer.
//!
//! It stands on `command_semantics` for definitions, on `layers` for stacks, on `table` for lines and on `words` for names. It knows
//! no volume: of a snapshot it has the names alone (`SnapNames`). It promises that each call answers and leaves exactly what its
//! definition says, with the first refusal in the stated order. Numbers of sectors that a command names are checked here too.
#![tactic(auto)]

mod bottom;
mod device_names;
mod lines;
mod listing;
mod roles;
mod sizes;
mod snap_names;
mod stack;
mod told;

pub use bottom::disk_in;
pub use device_names::{depth_in, one_name};
pub use lines::{line_in, sectors_of};
pub use listing::{add_device, add_stack};
pub use roles::{left_after, role_among, role_merging, without_merging};
pub use sizes::{range_in, some_sectors, whole_sectors};
pub use snap_names::SnapNames;
pub use stack::NamedStack;
pub use told::tell_stack;
