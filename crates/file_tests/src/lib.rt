//! Volumes over files in memory, each call of which fails, lies, is done by half, or is the last, in turn; and volumes of which nothing is
//! done ahead, or something else than what an event asks.
//!
//! It stands on `volume_test_driver` and has tests only. What a kill and what a loss of power leave of the files is loaded again, and held
//! against the plain arrays; where a file lied, the arrays that rest on others are.
#![tactic(auto)]

#[cfg(test)]
mod doubted;
#[cfg(test)]
mod files;
#[cfg(test)]
mod lies;
