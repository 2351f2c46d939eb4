//! The program that `lochknife` is for a snapshot of a disk image in use, but for its `main`: `new` makes an empty store, `take`
//! takes a snapshot over it, and `serve` serves an origin with its snapshots to a client.
//!
//! It stands on `serve_options` for what is asked for, on `serve_files` for the files, their devices and exports, on `volume_opening` for what
//! is written, and on `nbd_write_session` and `volume_nbd` for the client. It promises that exports are named by their own stores' files, that
//! what is merged is the store of that name, that no snapshot of the origin is left out but where it is given up, which
//! file and what is told where a command fails, and that a session ends well only where its client went, all files answered and all were
//! synced. The commands' order is no clause, but that a session begins once the list beside the origin is written.
#![tactic(auto)]

mod ending;
mod exports;
mod loading;
mod merging;
mod running;
mod serving;
mod taking;

pub use running::{answer, run};
