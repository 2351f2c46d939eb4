//! The words of a command line, as most programs take them: names and options, each option with a value or without, in any order.
//! A program says which of its options take a value, and which of them a command takes.
//!
//! It stands on nothing of this project. It promises how each list of words is split, by a definition after POSIX and GNU
//! (`specs/Splits`), and of wrong words which is told first (`specs/Asks`). Of a running program's own words (`program_words`) it
//! promises nothing.
#![tactic(auto)]

mod names;
mod options;
mod own_words;
mod requests;
mod splitting;
mod wrong;

pub use own_words::program_words;
pub use requests::Request;
pub use splitting::{Words, split};
pub use wrong::Wrong;
