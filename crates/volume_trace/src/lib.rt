//! The lines of a trace: of a volume what is in flight, which of its snapshots are lost, how far its merge is, and which events are due;
//! of layers that may fail, what they are at.
//!
//! It stands on `snapshot` and `in_flight` for what is in flight, on `plain_machine` for events, on `table` for what a status line says,
//! on `layers` for layers, and on `device_stacks` for the names of snapshots. It promises that each line is exactly the stated one
//! (`trace_of`, `layers_text`), in the words of the command language. It reads no device, and knows no volume: what is due is the
//! caller's to say.
#![tactic(auto)]

mod copies;
mod due;
mod items;
mod layer_lines;
mod line;
mod merging;
mod requests;

pub use layer_lines::add_layers;
pub use line::trace_line;
pub use merging::merge_item;
