//! New stores, written from the front to the end: a header, and areas with their copies, of pairs whose copies are read from another
//! image; the chunks in which two images differ, and the store that leads from one to the other; and the store of the pairs that
//! are kept of a damaged one.
//!
//! It stands on `cow_image` and `cow_salvage`, and on `cow_header` and `metadata_area` for the format. It promises each byte of what is
//! written, that a load accepts it, and what it shows over an origin.
#![tactic(auto)]

mod areas;
mod changing;
mod copying;
mod padding;
mod repairing;
mod writing;

pub use changing::write_between;
pub use repairing::repair;
pub use writing::write_store;
