//! Command lines: what a line of the command file says, and the lines of a block, which are to run at once.
//!
//! It stands on `words` for the forms of words, names and numbers, on `table` for table lines, on `layers` for messages,
//! and on `sector` for data and refusals. It promises that a line is read exactly as the grammar in `specs/` says
//! (`said_of`, and below it one definition for each command), with the first refusal in the stated order. Nothing but
//! want of memory can change an answer. It knows no device: whether a name is there, and what the command does, is the
//! caller's. A block is what its lines say, one after the other (`with_line`), with the first of its refusals (`first_refusal`).
//!
//! Data stands in a line as runs of equal bytes (`data_words`). What a command answers, and the line that prints it, is of the crate
//! `command_replies`.
#![tactic(auto)]

mod block;
mod block_line;
mod data_words;
mod events;
mod found;
mod grammar;
mod line;
mod messages;
mod opening;
mod seat_line;

pub use block::LineBlock;
pub use block_line::{Said, said_by};
pub use data_words::{DataRun, MANY_BYTES, run_in};
pub use events::EventWords;
pub use found::{NameFound, refusal_among};
pub use grammar::Command;
pub use line::{LINE_LIMIT, said};
pub use opening::{Opening, is_par, opening_by};
pub use seat_line::{SeatLine, Work};
