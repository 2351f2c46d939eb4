//! The threads of a block: `run_seats` gives the seats of a block, and workers for the copies, threads of their own, with a gate
//! that may hold one worker (`Hold`).
//!
//! It stands on `volume_threads`, whose rig has the volumes, its seats and its workers, and on `command_replies` for what is answered. Of
//! `run_seats` it promises that each volume comes back with no request in flight, with the snapshots that it had, but that a merge
//! of one of them may have begun, and that its devices drop no more writes than before; that its journal goes on from the entries
//! that it had, with what the tasks ask for and what the volume notes itself alone; and that each task of a seat comes back in its
//! place, the first of them done in their order, each answer made of the receipts of its call. In which lawful order the seats'
//! calls come is decided by the threads.
//!
//! Nothing is promised of waiting: not that a run ever ends, that a worker ever runs, that threads take turns, nor how long
//! anything takes. A branch that never comes, though no proof says so, goes through `never` of `thread_channels`: it answers no false
//! refusal.
#![tactic(auto)]

mod giving;
mod hold;
mod plan;
mod running;
mod seat_run;
mod serving;
mod task;

pub use hold::Hold;
pub use running::run_seats;
pub use task::{Job, SEATS, Task};
