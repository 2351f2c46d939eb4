//! One store of copied chunks: its header, its areas of pairs, the places that it hands out, in the format of
//! dm-snap-persistent.c, over any device.
//!
//! It stands on `device`, and on the parts of a store: `cow_header`, `metadata_area`, `chunk_alloc` and
//! `exception_arena`. By its type it promises, before and after each call, that the pairs in memory are those of the
//! device's bytes, and that no chunk stands in two pairs, lies outside its device or is an area's. Each call does at most
//! one operation, `open` aside, and says which bytes of the device it writes; one that fails changes nothing. What is said
//! of the bytes holds while no layer of the device drops writes.
#![tactic(auto)]

mod ahead;
mod chunks;
mod committing;
mod copying;
mod grouping;
mod judging;
mod layering;
mod loading;
mod marking;
mod merging;
mod opening;
mod preparing;
mod state;
mod store;

pub use grouping::Consecutive;
pub use opening::{Loaded, open};
pub use state::{Left, State};
pub use store::Store;
