// What may be done to a volume, as values, and what comes of it.

use device::Block;
use layers::{Answer, Message};
use plain_machine::{Dev, Event, NotDue, Outcome, ReqId, Request, SnapId};
use sector::Refusal;
use snapshot::StoreDev;

/// One thing that is done to a volume.
#[derive(Drop)]
pub enum Deed<B: Block> {
    /// Submits a request. A write brings 512 bytes for each sector of its range.
    Submit(Request),
    /// Does an event, where it is due.
    Step(Event),
    /// Lets so many seconds pass for the layers of every device.
    Tick(u32),
    /// Tells the layer at a depth of the device under the origin, or of a snapshot's store, counted from 0 at the top.
    Tell(Dev, usize, Message),
    /// Takes a snapshot over a store, in chunks of so many sectors where the store is fresh; whether it may overflow.
    Attach(StoreDev<B>, u32, bool),
    /// Takes a snapshot away.
    Detach(SnapId),
    /// Begins to merge a snapshot into the origin.
    BeginMerge(SnapId),
    /// Lets a merge that failed go on.
    ResumeMerge,
    /// Takes a merge out that has nothing left to do.
    FinishMerge,
}

/// What came of it: what the volume's own call answered, with the refusals of that call.
#[derive(Drop)]
pub enum Done<B: Block> {
    /// The number of a request, or why it is refused.
    Submitted(Result<ReqId, Refusal>),
    /// What came of an event, or that it was not due.
    Stepped(Result<Outcome, NotDue>),
    /// The time has passed.
    Ticked,
    /// The answer of a layer, or why the message is refused.
    Told(Result<Answer, Refusal>),
    /// The number of a snapshot, or why it is not taken, with its store.
    Attached(Result<SnapId, (Refusal, StoreDev<B>)>),
    /// The store of a snapshot, or why it stays.
    Detached(Result<StoreDev<B>, Refusal>),
    /// The merge is begun, or why it is not.
    Begun(Result<(), Refusal>),
    /// The merge may go on, or why there is none.
    Resumed(Result<(), Refusal>),
    /// The store of the snapshot that was merged, or why the merge stays.
    Finished(Result<StoreDev<B>, Refusal>),
}
