//! The seam between the two programs: an image's bytes as the lines of commands that give a disk of `dmrig` these bytes, and the
//! bytes that `dmrig` answers to `save`, read back from its answers. It stands on `words` and `command`, in whose words
//! both are said, and on `image`. It promises that what is written is the text of the image's bytes, and that what is read are
//! the bytes that all lines tell, or the number of the first line that is no such answer.
#![tactic(auto)]

mod putting;
mod runs;
mod telling;
mod texts;

pub use putting::{MOST_SECTORS, Stopped, put_words};
pub use telling::{Untold, read_told};
