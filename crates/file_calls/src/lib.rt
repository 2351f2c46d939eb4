//! One file's calls by byte offsets: the trait of a file that keeps a record of its calls, and a file of the operating system. A
//! file in memory keeps, lies, fails, tears or stops, as it is told.
//!
//! It stands on `sector`. It promises that each call is noted with its answer. What a file holds is said of the record: `now_in`
//! is what reads give, `MayHold` what a stop may leave, and `is_kept` says of what files all this is true.
#![tactic(auto)]

mod disk_file;
mod file_calls;
mod kinds;
mod mem_file;
mod record;

pub use crate::file_calls::FileCalls;
pub use disk_file::DiskFile;
pub use mem_file::{Fault, MemFile};
