//! A volume by whole commands. A read or a write of any range is cut into pieces; each is submitted, and then the events that
//! are due are done, the one that is due first, until none is. Requests may also be started, and be in flight between commands:
//! their replies come with the command in which they end, each in the order of the events. A flush of a device is one request.
//!
//! It stands on `counted_volume`, whose events it does, on `whole_command_laws`, which has the laws by which those events settle, and on
//! `layers`, whose time and messages it passes on. It promises that each command on a settled volume is the settled machine's
//! one big step over the devices' own bytes and layers, and leaves it settled; that time and messages change layers alone;
//! and that the numbers of a status line are those of a store's own bytes. A new volume is settled where its disk drops no
//! writes; the attach of a store that drops writes alone makes one that is not. Where a volume is not settled, it promises
//! which snapshots there are, and of what sizes. Of each call it says how many places of the volume's journal it takes. At any
//! moment it may be stopped, and gives its devices back.
#![tactic(auto)]

mod among;
mod among_pieces;
mod changing;
mod draining;
mod flights;
mod flushing;
mod layering;
mod lending;
mod merging;
mod parting;
mod pieces;
mod resting;
mod serving;
mod stopping;
mod telling;
mod trace;

pub use plain_machine::{Replied, refusal_for};
pub use resting::Resting;
