//! Why a line of commands was refused, in one plain sentence with what would be right: behind each refused line a writer is told.
//!
//! It stands on `explain_syntax`, which tells of a line's form, and on `script_runner`, which lends the devices and the refusal. It
//! changes nothing of what is printed: it looks, as a trace does, and its trait's contract (`script_runner::Tracer`) says that it leaves
//! the answers as they are. It promises that exactly the stated sentence is written of a line, of a refusal and of the devices that are
//! there. That the refusal is the one that the line got, and that nothing is left untold but where a writer fails or memory runs out, is
//! no clause; rows show it.
#![tactic(auto)]

mod creating;
mod explain;
mod kinds;
mod naming;
mod reasons;

pub use explain::ExplainTo;
