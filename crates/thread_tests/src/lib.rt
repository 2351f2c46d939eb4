//! Audits of a small volume, and rigs over disks in memory, by calls.
//!
//! It stands on `audited_volume` and `volume_threads` and has tests only: flushes, receipts across a checkpoint and a store that overflowed, and a
//! full journal that goes on after a checkpoint, in the same memory; what seats see of the boards of a volume's places, beside a volume of
//! its own that does the same, and while a read holds the volume's lock; and that two workers are at work at once.
#![tactic(auto)]

#[cfg(test)]
mod asked;
#[cfg(test)]
mod calling;
#[cfg(test)]
mod flushes;
#[cfg(test)]
mod full;
#[cfg(test)]
mod looked_at;
#[cfg(test)]
mod meeting;
#[cfg(test)]
mod open_gate;
#[cfg(test)]
mod receipts;
#[cfg(test)]
mod slow;
#[cfg(test)]
mod waiting;
#[cfg(test)]
mod watched;
