//! What stands under a volume's lock, and what stands beside it: under it the volume with its journal, and the passes that tell
//! others of it; beside it a history, which ties a seat's receipts to the journal, and a board for each of eight places, which says
//! how much of a snapshot's store is in use and is read without the lock.
//!
//! It stands on `audited_volume`, on the board of `thread_channels`, and on `atomic_table`, for one word that never changes. Whenever the lock is taken,
//! the history's keeper knows the journal's entries and the requests in flight, and what was published last at each place is the
//! usage of the snapshot there: each call that changes one publishes it once, before the lock is released. Each entry since the rig was
//! made is then the reply to a request of a seat from 1 to 8, the begin of a merge that a seat may ask for, or what the volume notes
//! itself.
//!
//! Of the history it promises that a seat's entries among all are those that it had when it was dealt, and then those that were
//! noted beside its pass, in that order and no others; that its requests in flight among all are those that were noted beside its
//! pass; and that the entries that it saw when it looked last, as it does whenever a request of it is noted, are the first of all.
//! A seat knows its own without the lock.
#![tactic(auto)]

mod beside;
mod boards;
mod history;
mod opened_volume;
mod post;
mod publishing;
mod reading;
mod room;
mod rule;
mod table;
mod telling;
mod told;
mod under_lock;
mod usages;

pub use crate::rule::{Asked, Pass, View};
pub use crate::table::History;
pub use crate::told::Told;
pub use beside::Beside;
pub use boards::{Boards, PLACES, Publishers, Readers};
pub use opened_volume::OpenedVolume;
pub use post::Post;
pub use room::Room;
