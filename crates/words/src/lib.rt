//! The words of a line, and the forms that every text of this project shares: numbers, names of devices, and how
//! the answer of a call compares with a plain rule. It stands on `sector` for the refusals. Each function answers
//! exactly what its definition in `specs/` says; splitting a line into all its words alone takes memory, cutting off the first does not.
//! Lines are read from any reader, one at a time, and no line, however long, takes memory beyond its buffer.
#![tactic(auto)]

mod ahead;
mod line;
mod lines;
mod names;
mod numbers;
mod short;
mod texts;
mod wide;
mod word;

pub use line::words_in;
pub use lines::LineBuffer;
pub use names::{Name, is_a_name};
pub use numbers::{number, numeral};
pub use texts::Text;
pub use word::{after_word, first_word, next_word};
