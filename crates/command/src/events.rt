// Events of a volume, one by one.
ghost use Rattle.std.specs.Prelude.{◌≡◌};
ghost use Rattle.words.specs.Words.{words_of};
ghost use Rattle.command.specs.Events.{event_of, merge_event_of, event_in};

use sector::Refusal;
use words::{Name, next_word, numeral};

/// An event of a volume. A request and a copy are told by their numbers, a snapshot by its name; a volume has one merge at
/// most.
#[derive(Drop)]
pub enum EventWords {
    /// `issue R`: the request's read, write or flush, and its reply; of a flush of the origin beside a merge the flush of the
    /// merging store first, without a reply.
    Issue(u32),
    /// `copy-read P`: reads a copy's chunk from the origin disk.
    CopyRead(u32),
    /// `copy-write P`: writes it to the store.
    CopyWrite(u32),
    /// `publish P`: from here on the snapshot has its own copy of the chunk.
    Publish(u32),
    /// `zero-next SNAP`: zeroes the area after the one that the next pair fills.
    ZeroNext(Name),
    /// `write-area SNAP`: writes the area with the first copies' pairs added.
    WriteArea(Name),
    /// `write-invalid SNAP`: marks the store of a spoiled snapshot.
    WriteInvalid(Name),
    /// `flush-store SNAP`: flushes the store, so that its copies, its pairs and its mark are on its disk.
    FlushStore(Name),
    /// `merge-group`: takes the last run of pairs of the area for merging.
    MergeGroup,
    /// `merge-area-read`: reads the area before the one that is merged empty.
    MergeAreaRead,
    /// `merge-read`: reads a chunk of the group from the store.
    MergeRead,
    /// `merge-write`: writes it to the origin disk.
    MergeWrite,
    /// `merge-flush`: flushes the origin, all chunks of the group being copied.
    MergeFlush,
    /// `merge-commit`: writes the area with the group's slots cleared.
    MergeCommit,
    /// `merge-release`: ends the group.
    MergeRelease,
}

// An event by its word, and what it is about.
#[tactic(auto, unfolding(crate::specs::Events::event_of))]
fn event_of(kind: &[u8], subject: &[u8]) -> Result<EventWords, Refusal>
    ensures { result ≡ event_of kind.now subject.now }
{
    if kind == b"issue".as_slice() {
        Ok(EventWords::Issue(numeral(subject)?))
    } else if kind == b"copy-read".as_slice() {
        Ok(EventWords::CopyRead(numeral(subject)?))
    } else if kind == b"copy-write".as_slice() {
        Ok(EventWords::CopyWrite(numeral(subject)?))
    } else if kind == b"publish".as_slice() {
        Ok(EventWords::Publish(numeral(subject)?))
    } else if kind == b"zero-next".as_slice() {
        Ok(EventWords::ZeroNext(Name::new(subject)?))
    } else if kind == b"write-area".as_slice() {
        Ok(EventWords::WriteArea(Name::new(subject)?))
    } else if kind == b"write-invalid".as_slice() {
        Ok(EventWords::WriteInvalid(Name::new(subject)?))
    } else if kind == b"flush-store".as_slice() {
        Ok(EventWords::FlushStore(Name::new(subject)?))
    } else {
        Err(Refusal::BadTable)
    }
}

// An event of a merge by its word.
#[tactic(auto, unfolding(crate::specs::Events::merge_event_of))]
fn merge_event_of(kind: &[u8]) -> Result<EventWords, Refusal>
    ensures { result ≡ merge_event_of kind.now }
{
    if kind == b"merge-group".as_slice() {
        Ok(EventWords::MergeGroup)
    } else if kind == b"merge-area-read".as_slice() {
        Ok(EventWords::MergeAreaRead)
    } else if kind == b"merge-read".as_slice() {
        Ok(EventWords::MergeRead)
    } else if kind == b"merge-write".as_slice() {
        Ok(EventWords::MergeWrite)
    } else if kind == b"merge-flush".as_slice() {
        Ok(EventWords::MergeFlush)
    } else if kind == b"merge-commit".as_slice() {
        Ok(EventWords::MergeCommit)
    } else if kind == b"merge-release".as_slice() {
        Ok(EventWords::MergeRelease)
    } else {
        Err(Refusal::BadTable)
    }
}

/// The event that the words of a text say. `BadTable` for words that are none.
pub fn event_in(text: &[u8]) -> Result<EventWords, Refusal>
    ensures { result ≡ event_in (words_of text.now) }
{
    let Some((kind, rest)) = next_word(text) else {
        return Err(Refusal::BadTable);
    };
    let Some((subject, rest)) = next_word(rest) else {
        return merge_event_of(kind);
    };
    if next_word(rest).is_some() {
        return Err(Refusal::BadTable);
    }
    event_of(kind, subject)
}
