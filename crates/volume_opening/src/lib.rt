//! A volume over devices that do what they are asked for ahead, as files do: a snapshot is taken over an empty store, a store's
//! snapshot is loaded, or one that was loaded is merged. What the store's load will read is read ahead, and both devices are synced,
//! before anything is written.
//!
//! It stands on `volume` and `device`. It promises that a store that is refused, or that has a snapshot where one is to be taken, is not
//! written; and of a snapshot that is taken, where the devices keep what is written, which bytes its store has, that it shows the
//! origin, and that a stop leaves of both nothing but what is there; and of a merge that the origin shows what the snapshot showed from
//! then on, and all else what it did.
#![tactic(auto)]

mod answering;
mod areas;
mod loading;
mod looking;
mod merging;
mod not_opened;
mod ready;
mod taking;

pub use loading::{load, load_written};
pub use merging::merge;
pub use not_opened::NotOpened;
pub use ready::are_ready;
pub use taking::take;
