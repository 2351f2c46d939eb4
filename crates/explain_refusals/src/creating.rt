// Why no device was made.
ghost use Rattle.std.specs.Prelude.{◌≡◌, OnOk};
ghost use Rattle.std.specs.Io.KnownBytes.{Appends};
ghost use Rattle.device_list.specs.Tables.{table_of};
ghost use Rattle.words.specs.Texts.{texts};
ghost use Rattle.explain_refusals.specs.Creating.{is_snapshot_line, unstood_text, lacking_text, no_origin_text, taken_word, busy_text, says_text, size_part, size_text, is_shown_kind, kind_by, kind_text, store_text, full_text, create_text};

use crate::kinds::{Kind, Seen, known};
use crate::naming::{below, is_origin, is_there, sectors_at, tell_missing, tell_used, word_at};
use device_list::Devices;
use explain_syntax::{put_four, put_three, put_two};
use sector::Refusal;
use std::io;
use std::io::Write;

/// Whether a line is that of a snapshot.
fn is_snapshot_line(words: &[&[u8]]) -> bool
    ensures { result ≡ is_snapshot_line (texts words.now) }
{
    word_at(words, 4) == b"snapshot".as_slice()
}

/// Tells that no origin stands on a device, and which line makes one.
#[tactic(auto, unfolding(crate::specs::Creating::unstood_text))]
fn tell_unstood<W: Write>(writer: &mut W, name: &[u8]) -> io::Result<()>
    ensures { OnOk result (Appends (W.contents writer.old) (W.contents writer.new) (unstood_text name.now)) }
{
    put_four(
        writer,
        b"no origin stands on ",
        name,
        b" itself: create NAME 0 SECTORS snapshot-origin ",
        name,
    )
}

/// Tells what a line lacks over a device that is there: of a snapshot its store, or else an origin.
#[tactic(auto, unfolding(crate::specs::Creating::lacking_text))]
fn tell_lacking<W: Write>(writer: &mut W, held: &Devices, words: &[&[u8]]) -> io::Result<()>
    ensures { OnOk result (Appends (W.contents writer.old) (W.contents writer.new) (lacking_text (texts words.now) (table_of held.now))) }
{
    let store = word_at(words, 6);
    if is_snapshot_line(words) && !is_there(held, store) {
        return tell_missing(writer, store);
    }
    tell_unstood(writer, word_at(words, 5))
}

/// Tells why no origin is found for a snapshot, or that its store is not there.
#[tactic(auto, using(crate::proofs::Nothing::appends_nothing), unfolding(crate::specs::Creating::no_origin_text))]
fn tell_below<W: Write>(writer: &mut W, held: &Devices, words: &[&[u8]]) -> io::Result<()>
    ensures { OnOk result (Appends (W.contents writer.old) (W.contents writer.new) (no_origin_text (texts words.now) (table_of held.now))) }
{
    let name = word_at(words, 5);
    if !is_there(held, name) {
        return tell_missing(writer, name);
    }
    if is_origin(held, name) {
        let text = b" is an origin; a snapshot's line names what it stands on: ";
        return match below(held, name) {
            Some(below) => put_three(writer, name, text, below.as_slice()),
            None => put_three(writer, name, text, b""),
        };
    }
    tell_lacking(writer, held, words)
}

/// The word of what a line would take: of a snapshot its store, of any other the device below.
#[tactic(auto, unfolding(crate::specs::Creating::taken_word))]
fn taken_word<'a>(words: &[&'a [u8]]) -> &'a [u8]
    ensures { result.now ≡ taken_word (texts words.now) }
{
    if is_snapshot_line(words) {
        word_at(words, 6)
    } else {
        word_at(words, 5)
    }
}

/// Tells of a name that is taken, or of a device that is in use.
#[tactic(auto, unfolding(crate::specs::Creating::busy_text))]
fn tell_busy<W: Write>(writer: &mut W, held: &Devices, words: &[&[u8]]) -> io::Result<()>
    ensures { OnOk result (Appends (W.contents writer.old) (W.contents writer.new) (busy_text (texts words.now) (table_of held.now))) }
{
    let name = word_at(words, 1);
    if is_there(held, name) {
        return put_three(writer, b"the name ", name, b" is in use");
    }
    tell_used(writer, held, taken_word(words))
}

/// Tells how many sectors a device has, where that is known.
#[tactic(auto, using(crate::proofs::Nothing::appends_nothing))]
fn tell_sectors<W: Write>(writer: &mut W, sectors: Option<u64>) -> io::Result<()>
    ensures { OnOk result (Appends (W.contents writer.old) (W.contents writer.new) (size_part sectors)) }
{
    match sectors {
        Some(sectors) => write!(writer, ": it has {sectors}"),
        None => Ok(()),
    }
}

/// Tells that a size is none of the device below.
#[tactic(auto, unfolding(crate::specs::Creating::says_text))]
fn tell_says<W: Write>(writer: &mut W, says: &[u8], below: &[u8]) -> io::Result<()>
    ensures { OnOk result (Appends (W.contents writer.old) (W.contents writer.new) (says_text says.now below.now)) }
{
    put_four(
        writer,
        b"the line says ",
        says,
        b" sectors, which are not those of ",
        below,
    )
}

/// Tells of another size than that of the device below.
#[tactic(auto, using(words::proofs::Written::appends_more), unfolding(crate::specs::Creating::size_text))]
fn tell_size<W: Write>(writer: &mut W, held: &Devices, words: &[&[u8]]) -> io::Result<()>
    ensures { OnOk result (Appends (W.contents writer.old) (W.contents writer.new) (size_text (texts words.now) (table_of held.now))) }
{
    let below = word_at(words, 5);
    tell_says(writer, word_at(words, 3), below)?;
    tell_sectors(writer, sectors_at(held, below))
}

/// Whether a kind is one on which no line stands.
fn is_shown_kind(kind: Kind) -> bool
    ensures { result ≡ is_shown_kind kind }
{
    matches!(kind, Kind::Origin | Kind::Snapshot | Kind::Merging)
}

/// Tells of a device of another kind, or of another size, than a line says.
fn tell_taken<W: Write>(
    writer: &mut W,
    held: &Devices,
    words: &[&[u8]],
    taken: Option<Seen>,
) -> io::Result<()>
    ensures { OnOk result (Appends (W.contents writer.old) (W.contents writer.new) (kind_by (texts words.now) (table_of held.now) taken)) }
{
    match taken {
        Some(device) if is_shown_kind(device.kind) => put_four(
            writer,
            taken_word(words),
            b" is ",
            device.kind.words().as_bytes(),
            b"; a line stands on disks and layers",
        ),
        _ => tell_size(writer, held, words),
    }
}

/// Tells of a device of another kind, or of another size, than a line says; of an error layer, that it has no such size.
#[tactic(auto, unfolding(crate::specs::Creating::kind_text))]
fn tell_kind<W: Write>(writer: &mut W, held: &Devices, words: &[&[u8]]) -> io::Result<()>
    ensures { OnOk result (Appends (W.contents writer.old) (W.contents writer.new) (kind_text (texts words.now) (table_of held.now))) }
{
    if word_at(words, 4) == b"error".as_slice() {
        return put_two(
            writer,
            word_at(words, 3),
            b" sectors: an error layer has 1 to 16777216",
        );
    }
    tell_taken(writer, held, words, known(held, taken_word(words)))
}

/// What is said of a store that is refused, behind its name.
#[tactic(auto, unfolding(crate::specs::Creating::store_text))]
fn of_store(refusal: Refusal) -> &'static str
    ensures { result.now ≡ store_text refusal }
{
    match refusal {
        Refusal::StoreTooSmall => " has less than two chunks, and is too small for a store",
        Refusal::BadHeader =>
            " begins with another number than a store does; zeros there make it fresh, as by load DISK 0 512*00",
        Refusal::BadVersion => " holds a store of another version",
        Refusal::BadChunk => " holds a store whose header has no allowed chunk",
        Refusal::Invalid =>
            " holds a store that was lost; zeros in its first sector make it fresh, as by load DISK 0 512*00",
        Refusal::Stale =>
            " holds a lost store whose mark could not be written; zeros in its first sector make it fresh, as by load DISK 0 512*00",
        Refusal::Damaged => " holds a store whose list of pairs is damaged",
        _ => " could not be read or written, or the origin not flushed: a layer failed it",
    }
}

/// Tells that the journal is full of the origin over a device.
#[tactic(auto, unfolding(crate::specs::Creating::full_text))]
fn tell_full<W: Write>(writer: &mut W, below: &[u8]) -> io::Result<()>
    ensures { OnOk result (Appends (W.contents writer.old) (W.contents writer.new) (full_text below.now)) }
{
    put_two(
        writer,
        b"the journal is full: checkpoint the origin over ",
        below,
    )
}

/// Tells why a line made no device.
#[tactic(auto, unfolding(crate::specs::Creating::create_text))]
pub fn tell_create<W: Write>(
    writer: &mut W,
    held: &Devices,
    refusal: Refusal,
    words: &[&[u8]],
) -> io::Result<()>
    ensures { OnOk result (Appends (W.contents writer.old) (W.contents writer.new) (create_text refusal (texts words.now) (table_of held.now))) }
{
    match refusal {
        Refusal::NoSuchDevice => tell_below(writer, held, words),
        Refusal::Busy => tell_busy(writer, held, words),
        Refusal::BadTable | Refusal::OutOfRange => tell_kind(writer, held, words),
        Refusal::TooMany => writer.write_all(
            b"there are 64 devices, or 8 snapshots of the origin, and no more may be",
        ),
        Refusal::NotQuiet => put_three(
            writer,
            b"the volume over ",
            word_at(words, 5),
            b" has a request in flight or an event left: settle its origin",
        ),
        Refusal::MergeInProgress => put_three(
            writer,
            b"a merge is begun in the volume over ",
            word_at(words, 5),
            b": finish its origin first",
        ),
        Refusal::JournalFull => tell_full(writer, word_at(words, 5)),
        Refusal::NoMemory => writer.write_all(b"the allocator refused memory"),
        _ => put_two(writer, word_at(words, 6), of_store(refusal).as_bytes()),
    }
}
