//! Commands of a program, each run on copies of stored files: what it prints, its exit status and the files that it leaves are
//! compared byte for byte with what is wanted.
//!
//! The file `index` has a line for each row: its name. NAME.row has its steps, a line each (`steps`). For each row `NAME ok` is
//! printed, or the first step that is not so. It stands on no crate: what is run is a `Program`. A row is told as well only where each
//! of its steps was so; no clause says that.
#![tactic(auto)]

mod program;
mod row;
mod rows;
mod sandbox;
mod steps;
mod streams;

pub use program::Program;
pub use rows::main_of;
pub use streams::Output;
