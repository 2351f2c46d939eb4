//! Volumes that stop within a write, and volumes of which one device fails once.
//!
//! It stands on `volume_test_driver` and has tests only. A fuse is blown at each write of each device in turn: what a stop there leaves is
//! loaded again and shows the plain arrays. And each device fails at each of its operations in turn: each failure is told, and
//! nothing else is, and a merge that stopped at it goes on to its end. Flushes by requests are issued beside a merge's events.
#![tactic(auto)]

#[cfg(test)]
mod faults;
#[cfg(test)]
mod stops;
#[cfg(test)]
mod torn_area;
#[cfg(test)]
mod two_issues;
