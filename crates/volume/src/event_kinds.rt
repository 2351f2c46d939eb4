// Which events are those of a merge.
ghost use Rattle.std.specs.Prelude.{◌≡◌};
ghost use Rattle.volume.specs.EventKinds.{is_of_merge as is_merges};

use plain_machine::Event;

/// Whether an event is one of a merge, and none of a request or a snapshot.
pub fn is_of_merge(event: Event) -> bool
    ensures { result ≡ is_merges event }
{
    match event {
        Event::MergeGroup => true,
        Event::MergeAreaRead => true,
        Event::MergeRead => true,
        Event::MergeWrite => true,
        Event::MergeFlush => true,
        Event::MergeCommit => true,
        Event::MergeRelease => true,
        _ => false,
    }
}
