//! The command program: what each line of commands does to the named devices, blocks of lines that run at once, and whole
//! texts of lines.
//!
//! It stands on `device_commands`, which does each command, on `parallel_lines`, which runs a block, on `command`, which says what a
//! line says and what is printed, and on `words` for what is read. It promises that a text of lines prints exactly the
//! answers of the definition `output_of`, one command after the other, from no devices on: each command's own definition
//! says what it answers and which devices it leaves, with the first refusal in the stated order. Since a volume's arrays are
//! computed from its disks' own bytes, this says too that the raw bytes of a live snapshot's store give what it shows. Want
//! of memory alone may change an answer; then the line says so, the summary counts it, and no device changed but by a read
//! or a write of which some part was done.
//!
//! A request that a command started ends in a later one, and its line stands before that command's own.
//!
//! All that is said of texts in which no line makes a layer that drops writes, starts a request, steps an event of a merge,
//! or opens a block; a merge that `settle` does is among them. Of every text it is promised that whole replies are printed
//! and counted, that its lines are done one after the other, where a block is open as its lines, and that the end of the
//! text ends a block that is still open: such a block is refused, and nothing of it was done, or was run whole. And of every
//! line where no block is open that it answers its outcome where its command asks nothing of a volume, stops one, or asks
//! only one of which no device drops writes and in which nothing is in flight, and no group of a merge is formed; in what
//! order it is refused before a volume is asked, which changes nothing; and else what it does to that volume's events, which
//! replies stand before its own, and that it changes no other device.
#![tactic(auto)]

mod blocks;
mod desk;
mod ended;
mod error;
mod events;
mod numbered;
mod numbering;
mod reading;
mod room;
mod session;
mod step;
mod summary;
mod text;
mod tracer;
mod tracing;
mod undoing;

pub use desk::Desk;
pub use error::{RunError, StreamError, exit_status};
pub use numbered::run_numbered;
pub use session::Session;
pub use summary::Summary;
pub use text::run;
pub use tracer::{Both, TraceTo, Tracer, Untraced, write_out};
pub use undoing::look_at_undoing;
