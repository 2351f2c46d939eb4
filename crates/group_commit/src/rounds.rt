// The batches of a round.
ghost use Rattle.std.specs.Prelude.{◌≡◌};
ghost use Rattle.group_commit.specs.Rounds.{after as after_by, store_event as event_by};

use plain_machine::{Event, SnapId};

/// What is done together.
#[derive(Clone, Copy, PartialEq, Eq)]
pub enum Batch {
    /// All requests that go somewhere, before what takes long.
    Issues,
    /// All copies that wait are read from the origin.
    Reads,
    /// All that were read are written to their stores.
    Writes,
    /// Each store is flushed, for the copies of this round and for the commit of the last one.
    Flushes,
    /// All copies are published whose commit lasts.
    Publications,
    /// All requests that waited for that.
    MoreIssues,
    /// Each spoiled store is marked.
    Marks,
    /// Each store's next area is zeroed where the next commit fills one.
    Zeros,
    /// Each store's area is written with the new pairs.
    Areas,
}

/// The batch that follows in a round; `None` where the round ends.
pub fn after(batch: Batch) -> Option<Batch>
    ensures { result ≡ after_by batch }
{
    match batch {
        Batch::Issues => Some(Batch::Reads),
        Batch::Reads => Some(Batch::Writes),
        Batch::Writes => Some(Batch::Flushes),
        Batch::Flushes => Some(Batch::Publications),
        Batch::Publications => Some(Batch::MoreIssues),
        Batch::MoreIssues => Some(Batch::Marks),
        Batch::Marks => Some(Batch::Zeros),
        Batch::Zeros => Some(Batch::Areas),
        Batch::Areas => None,
    }
}

/// The event of a batch for the store of a snapshot; `None` where the batch is of requests or of copies.
pub fn store_event(batch: Batch, snap: SnapId) -> Option<Event>
    ensures { result ≡ event_by batch snap }
{
    match batch {
        Batch::Flushes => Some(Event::FlushStore(snap)),
        Batch::Marks => Some(Event::WriteInvalid(snap)),
        Batch::Zeros => Some(Event::ZeroNext(snap)),
        Batch::Areas => Some(Event::WriteArea(snap)),
        Batch::Issues | Batch::Reads | Batch::Writes | Batch::Publications | Batch::MoreIssues => {
            None
        }
    }
}
