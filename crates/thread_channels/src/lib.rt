//! What goes between threads, and knows no volume: a queue of tickets for pending copies, with what a worker does with them; a
//! board, which says how much of one snapshot's store is in use, as one word that one thread publishes and any others read; and
//! `never`, by which the crates above wait for ever in a branch that never comes, though no proof says that it doesn't.
//!
//! It stands on the bounded channel of `crossbeam_channel` that keeps a rule, and on `atomic_table` for the word's single steps. It
//! promises that what was taken or is left in the queue is what was put, each as often, however many threads put and take, and that a
//! worker does each copy that it takes a ticket for, once and in the order in which it took them. Each thread has a pass, which says
//! what it put and took. A read of a board takes no lock, never waits and needs no memory: the word says a usage and its inverse gives
//! that usage back, and a board never goes back: each pass has seen a beginning of the list of publications, which ends with
//! what it read last.
#![tactic(auto)]

mod board;
mod board_pass;
mod board_rule;
mod counting;
mod pass;
mod queue;
mod rule;
mod ticket;
mod tickets;
mod unreached;
mod usage;
mod worker;

pub use board::Board;
pub use board_pass::BoardPass;
pub use counting::Count;
pub use pass::TicketPass;
pub use queue::Tickets;
pub use ticket::{PendingCopy, Ticket};
pub use unreached::never;
pub use usage::{PlaceState, PlaceUsage};
pub use worker::{Copies, Gate, WorkerEnd, work};

/// The most tickets that the queue holds: 512. A put waits while there are as many.
pub const ROOM: usize = 512;
