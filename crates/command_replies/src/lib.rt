//! What commands answer, and the lines that print the answers.
//!
//! It stands on `command` for the grammar of data words, on `words` and `table` for texts and numbers in a line, on `layers` for what
//! a message is answered, and on `sector` for data and refusals. It promises that exactly the stated line is written for a reply,
//! byte by byte: data as longest runs that say the bytes again, by the grammar of data words. Printing takes no memory, so a reply
//! that was reached is never lost to want of it; the words of what a seat read are made before, and take some (`words_of_data`).
#![tactic(auto)]

mod answers;
mod command_reply;
mod ended;
pub mod laws;
mod runs;
mod seated;

pub use command_reply::CommandReply;
pub use ended::{Ended, Ending};
pub use runs::words_of_data;
pub use seated::{SeatAnswer, Seated};
