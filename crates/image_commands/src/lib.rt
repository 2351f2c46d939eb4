//! The program `lochknife`, but for its `main`: what the image of a snapshot's store holds, and the array that it shows with the
//! image of its origin.
//!
//! It stands on `image_options`, `cow_reports`, `cow_image`, `cow_salvage`, `cow_merge`, `new_store_files`, `cow_nbd` and `image_to_dmrig`, which say what is
//! asked for, read, written and printed, and on `opened_files`, which opens, locks and watches its files. It has the commands' order,
//! and the exit status: 0 for a store that is good, 1 for one that is refused, 2 where something could not be read or written, 3
//! where a merge is done but not told. No contract says what a file holds. `lochknife_tests` runs its commands.
#![tactic(auto)]

mod array;
mod commands;
mod comparing;
mod differing;
mod doing;
mod ended;
mod living;
mod merging;
mod over;
mod printing;
mod repairing;
mod rolling;
mod running;
mod salvaging;
mod seaming;
mod serving;
mod storing;

pub use running::{answer, run};
