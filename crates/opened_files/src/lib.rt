//! The files of `lochknife`'s commands, as they are opened, locked, watched and told of: inputs, which are only read and locked for
//! that; the two files of a merge in place; a new file that is written whole or not at all, or standard output; how far a command
//! is; and what went wrong with which file, in words.
//!
//! It stands on `images_on_files` and `file_calls`, which say what a file is asked, on `file_users` for who else uses one, on `cow_image`
//! and `cow_nbd`, whose failures and watches are told here. It promises that a file that is watched is asked just what the watcher is
//! asked, each call once. What a file holds, and who opens it meanwhile, is no clause here.
#![tactic(auto)]

mod files;
mod in_place;
mod input;
mod inputs;
mod kept;
mod live_inputs;
mod locking;
mod partial;
mod target;
mod teller;
mod trouble;
mod watched;
mod watched_file;
mod witness;
mod writing;

pub use files::{is_free, name_lasts};
pub use in_place::InPlace;
pub use input::{Input, of_input, size_of};
pub use inputs::Inputs;
pub use kept::Kept;
pub use live_inputs::LiveInputs;
pub use target::{OUTPUT, Target};
pub use teller::Teller;
pub use trouble::{Trouble, Why, about, held};
pub use watched::Watched;
pub use watched_file::WatchedFile;
pub use witness::Witness;
pub use writing::{file_begun, file_ended};
