//! Which word of a line of commands breaks its form, and what would be right, in one plain sentence.
//!
//! It stands on `words` for the forms of words, and on `command` for data words. It knows no device, and changes no answer: `command`
//! says what a line says, and this looks at lines that were refused. It promises that a line has the form that a table of forms says, that
//! the first word that breaks it is told of, or else what is wrong though each word fits, and that exactly the stated sentence is written.
#![tactic(auto)]

mod fault;
mod forms;
mod late;
mod near;
mod sentence;
mod shown;
mod slot;
#[cfg(test)]
mod tests;

pub use fault::{Fault, fault_in};
pub use near::near_command;
pub use sentence::{tell_line, tell_seat_line};
pub use shown::{put_four, put_three, put_two, put_word};
