//! The files of a snapshot of a disk image in use: an empty store is made; files that are to be served are opened, locked, looked at and
//! synced, become devices and exports, and are synced at the end; the list beside an origin of the snapshots that it has; what went wrong
//! with which, in words, and the exit status.
//!
//! It stands on `file_calls` for the calls of one file, on `file_users` for who else uses one, on `file_device` for devices, on
//! `nbd_options` for exports, and on `serve_options` for the sizes that there are. It promises which calls are made of the file of a new
//! store, that one that is not empty is left as it was, and that zeros are left; that a device and a trouble have the name of their file,
//! in the order of the names; that devices are made of files that were synced, no two of them one; which export has which name; that at
//! the end each file is synced, or a trouble told; which text a list holds, that it is synced before it gets its name, and which of its
//! lines a command leaves out; and the exit status. Which file a name has, and who has locked it, is no clause.
#![tactic(auto)]

mod all_files;
mod ended;
mod ending;
mod exports;
mod held_file;
mod list_file;
mod listing;
mod making;
mod opening;
mod origin_list;
mod served_file;
mod synced_file;
mod told_file;
mod trouble;

pub use all_files::{Pair, SessionFiles, opened_pair, session_files};
pub use ended::status_of;
pub use ending::{AllSynced, all_synced};
pub use exports::Exports;
pub use held_file::HeldFile;
pub use list_file::{read_list, write_list};
pub use listing::{Given, list_text};
pub use making::{make_store, new};
pub use opening::{OpenFile, has_streams, opened};
pub use origin_list::{Listed, OriginList, list_beside};
pub use served_file::{ServedFile, served};
pub use synced_file::{Device, Part, SyncedFile, device_name, is_answered, synced};
pub use told_file::ToldFile;
pub use trouble::{StoreFault, Trouble, Why, about, held, pushed};
