//! An audit of a volume: it does the volume's calls, and keeps a journal of what callers see happen. While no device that the
//! volume had dropped writes, the entries, replayed on the arrays and states that the volume began with, give the arrays and
//! states that its devices' own bytes stand for, and each reply among them is the one that the plain machine gives there.
//!
//! It stands on `volume`, whose contracts it hands on, and on `plain_machine`, whose machine replays the entries. A request belongs to
//! the seat that submitted it, which alone issues it, and gets a receipt for its entry; `check` says whether a receipt is
//! for an entry of the journal. All memory that an entry and a receipt need is taken before the call that may come to them.
#![tactic(auto)]

mod applying;
mod array;
mod attaching;
mod audit;
mod bases;
mod changing;
mod checkpoint;
mod ending;
mod entry;
mod fold;
mod holding;
mod leaving;
mod looking;
mod noting;
mod submitting;
mod verdict;

pub use array::Array;
pub use attaching::places_needed;
pub use audit::{Audit, MAX_ENTRIES, SEATS};
pub use entry::{Answered, Base, Entry, Receipt, Saved, Verdict};
pub use looking::is_may;
