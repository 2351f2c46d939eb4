//! The parts below a store, a volume and its threads, each by calls: the kernel's bytes and numbers, and worked values.
//!
//! It stands on those crates and has tests only. Each call that takes memory is run here once with memory enough.
#![tactic(auto)]

#[cfg(test)]
mod area_places;
#[cfg(test)]
mod areas;
#[cfg(test)]
mod boards;
#[cfg(test)]
mod bytes;
#[cfg(test)]
mod chunks;
#[cfg(test)]
mod device_calls;
#[cfg(test)]
mod disks;
#[cfg(test)]
mod exceptions;
#[cfg(test)]
mod flights;
#[cfg(test)]
mod fuses;
#[cfg(test)]
mod headers;
#[cfg(test)]
mod numbering;
#[cfg(test)]
mod places;
#[cfg(test)]
mod ranges;
#[cfg(test)]
mod replies;
#[cfg(test)]
mod tickets;
