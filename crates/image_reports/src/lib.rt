//! What `lochknife` answers of two images: how they compare, where the bytes of a snapshot's array stand, and the lines of tables that a
//! kernel is given for both; and of one store, in units for a reader. It stands on `image_compare`, `snapshot_extents` and `cow_reports`.
//!
//! It promises that each text is the one of its definition in `specs/`.
#![tactic(auto)]

mod comparing;
mod human;
mod names;
mod ranging;
mod tables;

pub use comparing::compared;
pub use human::told_human;
pub use ranging::ranged;
pub use tables::table_lines;
