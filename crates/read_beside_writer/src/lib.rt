//! A snapshot that is read while another program writes its origin and its store. It stands on `cow_header`, `cow_format` and
//! `cow_image`, whose words it takes.
//!
//! It promises that what is read is what the snapshot showed at the first moment, where the writer saves first (`specs/Moments`):
//! what it overwrites in the origin has a pair by then, and a lost snapshot's header is marked before. So the origin is read first,
//! then the pairs, then their copies, and last the header.
#![tactic(auto)]

mod files;
mod looking;
mod lost;
mod snapshot;

pub use files::MovingFiles;
pub use lost::Lost;
pub use snapshot::LiveSnapshot;
