//! The header of a store: what a first sector says, and the text of the chunk that says it, in the format of
//! dm-snap-persistent.c. It stands on `sector` and `chunk`. It promises an answer for every sector, the refusals in
//! one order, and that what is written is read again as its source.
#![tactic(auto)]

mod found;
mod reading;
mod writing;

pub use found::{Found, MAGIC, VERSION};
pub use reading::decode;
pub use writing::encode;
