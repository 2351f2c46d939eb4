//! A file as a device of sectors: what will be read is read before the operation that asks for it, so that its answer is known then.
//! What is written is written at once.
//!
//! It stands on `file_calls`, `sector` and `device`. It promises the clauses of `Block` and `Ahead`, whatever the file answers. What
//! it shows is what the file held at first and the record of its calls. It drops no writes as long as the answers are those of a
//! file that keeps what is written (`is_kept`).
#![tactic(auto)]

mod ahead;
mod block;
mod fetch;
mod file_device;
mod finding;
mod piece;
mod pieces;
mod start;

pub use crate::file_device::FileDevice;
pub use start::{Start, Unknown};
