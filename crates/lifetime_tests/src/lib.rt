//! A volume's life as a list of deeds gives the disk back as it was, and a list of calls leaves what its calls leave.
//!
//! It stands on `volume` and `volume_lifetime` and has tests only.
#![tactic(auto)]

#[cfg(test)]
mod listed;
#[cfg(test)]
mod lives;
