// What a step says to the rule. It is for the proof alone.

use audited_volume::Entry;
use plain_machine::Request;
use std::snapshot::Snapshot;

/// What happens to the journal at a step.
#[derive(Drop)]
pub enum Told {
    /// A seat's request is in flight, under this number.
    Asked(u64, Snapshot<Request>),
    /// The request with this number was answered, and this is its entry.
    Answered(u64, Snapshot<Entry>),
    /// An entry that answers no request.
    Noted(Snapshot<Entry>),
}
