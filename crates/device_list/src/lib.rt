//! A volume with the names of its devices: an origin, the stack under it, and its snapshots with the stacks of their stores; and
//! all devices by their names: the stacks that nothing uses, and the volumes with those that they use (`Devices`).
//!
//! It stands on `command_semantics` for definitions, on `device_stacks` for stacks with names, and on `volume_commands` for what a
//! volume does. It promises that each call answers and leaves exactly what its definition says, where no device drops writes,
//! with the first refusal in the stated order; where a name stands among all devices; and whether there are as many devices as
//! there may be.
#![tactic(auto)]

mod attaching;
mod checkpointing;
mod finding;
mod flights;
mod held;
mod layering;
mod listing;
mod mapping;
mod merging;
mod order;
mod origin;
mod parting;
mod reporting;
mod sectors;
mod stack_names;
mod stopping;
mod stored;
mod telling;
mod trace;

pub use finding::{find, find_device, is_full};
pub use held::{Devices, MOST_DEVICES};
pub use layering::trace_layers;
pub use origin::NamedVolume;
pub use parting::NamedParts;
pub use stopping::StoppedVolume;
