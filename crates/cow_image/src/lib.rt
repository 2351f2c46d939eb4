//! A store in an image: its map, read from the image (which chunks of the origin it has, and where; or why it is refused), and what
//! its snapshot shows, read from the images of its origin and of the store, and written out.
//!
//! It stands on `image`. It promises that the map is that of the image's bytes, that what is written is the picture of the bytes
//! that the images give, and that what was written before an error is a front of it.
#![tactic(auto)]

mod exporting;
mod failure;
mod fault;
mod faulting;
mod found;
mod judging;
mod map;
mod ranging;
mod reading;
mod running;
mod sorting;
mod telling;
mod windowed;

pub use exporting::{Stopped, export, export_fresh, export_pairs};
pub use failure::Failure;
pub use fault::Fault;
pub use faulting::faults;
pub use found::{Reason, Told};
pub use judging::{begins_before, judge, lies_within};
pub use map::{CowMap, StoreUsage};
pub use ranging::show_range;
pub use reading::{Listed, MAX_IMAGE, read_area, read_pairs};
pub use running::{Run, row_at, run_at};
pub use sorting::sort_by_old;
pub use telling::{read_first, read_slots, read_store, sectors_of};
