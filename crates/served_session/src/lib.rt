//! A client's session with a volume over files. A volume is opened with its snapshots (`OpenedVolume`), made ready with its exports
//! (`ReadyArray`), and served.
//!
//! It stands on `volume_opening`, `volume_nbd` and `nbd_write_session`, whose calls it composes, and on `served_session_laws`. It promises that a stop
//! at any moment of a session loses only what no flush acknowledged (`specs/Served`): each array, the origin's and each live
//! snapshot's, shows in each sector what it was when it was opened, or when a flush of it was last answered, or what a write since
//! gives. A snapshot that the client wrote nothing of shows what it was when it was opened, or is lost, in use and behind a stop; and merged
//! by the next session it gives that back. All that is said while the files keep what they answer.
#![tactic(auto)]

mod opened;
mod ready;
mod serving;

pub use opened::OpenedVolume;
pub use ready::ReadyArray;
