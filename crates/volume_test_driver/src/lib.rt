//! For tests: a volume that is driven by a list of steps, beside plain arrays of a byte a sector, with which each answer is compared.
//!
//! The volume's devices are disks, disks that tear, disks that fail, or files in memory. What a stop or a loss of power leaves of them
//! is loaded again, and held against the arrays from before.
#![tactic(auto)]

pub mod again;
pub mod arrays;
pub mod calls;
pub mod disks;
pub mod driven;
pub mod filed;
pub mod machine;
pub mod scenario;
pub mod told;
