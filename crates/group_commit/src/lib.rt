//! Which events of a volume are done together, so that all that is in flight shares the syncs of one commit. No device and no
//! volume is in it: it stands on `in_flight`, whose lists it reads, and on `plain_machine`, whose events it names.
//!
//! It promises that the events of a batch are those of all requests that go somewhere, of all copies at a stage, or of all copies that are
//! safe to publish, each once and in the lists' order; and that the batches of a round follow one another as `specs/Rounds` says.
#![tactic(auto)]

mod batches;
mod rounds;

pub use batches::{add_issues, add_publications, add_reads, add_writes};
pub use rounds::{Batch, after, store_event};
