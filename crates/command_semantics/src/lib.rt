//! What the command program's devices are, and what each command does to them: definitions, and where a name stands.
//!
//! Disks and layers are named stacks; an origin owns the stack that it stands on, and each of its snapshots the stack of its
//! store. The definitions of `specs/` say for each command what it answers and leaves of the table of all devices, with the
//! first refusal in the stated order. It stands on `layers` for layers, on `table` for the lines that describe devices and
//! for status lines, on `whole_commands` for what a volume does. It has no code that runs but two enums.
#![tactic(auto)]

mod place;

pub use place::{Place, Role};
