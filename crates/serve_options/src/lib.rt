//! The words of `lochknife` for a snapshot of a disk image in use: what a command line asks for, or which of its words is wrong,
//! and the help.
//!
//! It stands on `option_parser`, which splits words into names and options, and on `words` and `chunk`. It promises what each command
//! line asks for: which command, which files by which names, which chunk size, and how many bytes a new store has, and how exports
//! are named; and of wrong words which is told first.
#![tactic(auto)]

mod asked;
mod exports;
mod help;
mod options;
mod sizes;
mod splitting;
mod wrong;

pub use asked::{Asked, words_ask};
pub use exports::{export_name, has_name};
pub use help::{HELP, VERSION};
pub use options::CHUNK;
pub use sizes::{LEAST_BYTES, MOST_BYTES, size_of};
pub use splitting::{Words, split};
pub use wrong::Wrong;
