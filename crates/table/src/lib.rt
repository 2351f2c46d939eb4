//! Table lines of devices: what a line of a device-mapper table says, as a value, its reading and its printing.
//! It stands on `words` for the forms of words and on `chunk` for the sizes of chunks. It promises that exactly the
//! lines of one grammar are read, that a printed line is the canonical one, and that it is read again as the value
//! that it was printed from. Whether the named devices are there, and how large they are, is not asked here. Status lines of
//! origins, snapshots and merges, as the kernel's admin-guide page on snapshots has them, are printed here too; `put` and
//! `put_number` put a text into a room from its end to its beginning, for the lines of replies too.
#![tactic(auto)]

mod lines;
mod printing;
mod putting;
mod reading;
mod runs;
mod status;

pub use lines::{FlakeyFeatures, Line, Target};
pub use printing::print;
pub use putting::{put, put_number};
pub use reading::{parse, parse_words};
pub use runs::{Run, end_runs, take_pair};
pub use status::{StatusState, merge_line, origin_line, snapshot_line};
