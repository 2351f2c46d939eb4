//! The words of `lochknife`'s command line: what they ask for or which of them is wrong, and what the program says of itself. It stands
//! on `option_parser`, which splits them into names and options, and on `words`, for the names of disks and for numbers.
//!
//! It promises that what is asked for is a function of all words (`specs/Asks`), but where memory is refused. A name of a file is given
//! as it was said: whether there is one is not looked at here.
#![tactic(auto)]

mod asked;
mod help;
mod helping;
mod options;
mod over;
mod telling;
mod topics;
mod wrong;

pub use asked::{Asked, Form, words_ask};
pub use help::{HELP, VERSION};
pub use telling::{Telling, words_tell};
pub use topics::topic;
pub use wrong::Wrong;
