//! Threads at audited volumes: seats make requests of the volumes, workers do the copies that requests start, and each volume
//! stands under a lock of its own, with the journal of all that was asked of it. The rig starts no thread: its callers' threads
//! have its seats and workers.
//!
//! It stands on `locked_volume`, which is what stands under a volume's lock and beside it, and on `thread_channels`, whose queue has
//! the tickets of copies. What a seat answers is made of the replies in the receipts that the call added to
//! it, one for each piece that was submitted, in order, for that device, operation and range. Each seat's receipts of a volume are its
//! entries in the journal since the rig was made, in their order, and there are as many: this holds whenever the volume's lock is
//! taken. How much of a snapshot's store is in use a seat reads off a board, without the lock and without a wait: what was published
//! last, and never what was published before something that it has seen.
//!
//! Nothing is promised of waiting: not that a call ever returns, that a waiting thread is woken, that a worker ever runs, that
//! threads take turns, nor how long anything takes. That a copy is done by the worker that took its ticket is how the code is
//! written, and no clause. A branch that never comes, though no proof says so, goes through `never` of `thread_channels`: it answers
//! no false refusal.
#![tactic(auto)]

mod calls;
mod closing;
mod making;
mod opened;
mod opening;
mod performing;
mod place;
mod queue;
mod queueing;
mod rig;
mod seat;
mod sitting;
mod sitting_calls;
mod turns;
mod watching;
mod worker;

pub use locked_volume::Room;
pub use opened::Opened;
pub use rig::Rig;
pub use seat::Seat;
pub use worker::Worker;
