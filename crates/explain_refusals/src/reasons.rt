// Why a line of right form was refused, by its refusal and the devices that are there.
ghost use Rattle.std.specs.Prelude.{◌≡◌, ◌++◌, OnOk};
ghost use Rattle.std.specs.Io.KnownBytes.{Appends};
ghost use Rattle.device_list.specs.Tables.{table_of};
ghost use Rattle.words.specs.Texts.{texts};
ghost use Rattle.explain_refusals.specs.Naming.{for_origin};
ghost use Rattle.explain_refusals.specs.Reasons.{taken_by, wrong_place, taker_text, wrong_by, wrong_text, piece_text, counted_text, end_by, past_text, past_end_text, ends_text, range_text, busy_text, flights_text, many_text, absent_text, unquiet_text, room_text, full_text, unmerged_text, merge_text, failure_text, command_text, block_text, reason_by, reason_of};

use crate::creating::tell_create;
use crate::kinds::{Seen, known};
use crate::naming::{
    is_disk, is_origin, is_there, put_for_origin, sectors_at, tell_missing, tell_used, word_at,
};
use device_list::Devices;
use explain_syntax::{put_four, put_three, put_two};
use sector::Refusal;
use std::alloc::Global;
use std::io;
use std::io::Write;
use words::words_in;

/// What kinds a command takes, by its verb.
#[tactic(auto, unfolding(crate::specs::Reasons::taken_by))]
fn taken_by(verb: &[u8]) -> &'static [u8]
    ensures { result.now ≡ taken_by verb.now }
{
    if verb == b"load".as_slice() || verb == b"save".as_slice() {
        b" takes a disk"
    } else if verb == b"copy".as_slice() {
        b" takes two disks"
    } else if verb == b"message".as_slice() {
        b" takes a dust layer"
    } else if verb == b"merge".as_slice() || verb == b"map".as_slice() {
        b" takes a snapshot"
    } else if verb == b"table".as_slice() {
        b" takes any device but a disk"
    } else if verb == b"read".as_slice()
        || verb == b"write".as_slice()
        || verb == b"flush".as_slice()
        || verb == b"start".as_slice()
        || verb == b"status".as_slice()
    {
        b" takes an origin or a snapshot"
    } else {
        b" takes an origin"
    }
}

/// Which word names the device of a wrong kind: the first, but the second where that of the first is right.
#[tactic(auto, unfolding(crate::specs::Reasons::wrong_place))]
fn wrong_place(held: &Devices, words: &[&[u8]]) -> usize
    ensures { result ≡ wrong_place (texts words.now) (table_of held.now) }
{
    let (verb, name) = (word_at(words, 0), word_at(words, 1));
    if verb == b"step".as_slice() {
        return if is_origin(held, name) { 3 } else { 1 };
    }
    if verb == b"copy".as_slice() && is_disk(held, name) {
        return 3;
    }
    1
}

/// Tells what takes another kind, and which.
#[tactic(auto, unfolding(crate::specs::Reasons::taker_text))]
fn tell_taker<W: Write>(writer: &mut W, words: &[&[u8]], place: usize) -> io::Result<()>
    ensures { OnOk result (Appends (W.contents writer.old) (W.contents writer.new) (taker_text (texts words.now) place)) }
{
    let verb = word_at(words, 0);
    if verb == b"step".as_slice() && place == 3 {
        return put_two(
            writer,
            word_at(words, 2),
            b" takes a snapshot of that origin",
        );
    }
    if verb == b"message".as_slice() && word_at(words, 3) == b"tick".as_slice() {
        return put_two(writer, verb, b" tick takes a flakey layer");
    }
    put_two(writer, verb, taken_by(verb))
}

/// Tells of the device that a word names.
#[tactic(auto, using(words::proofs::Written::appends_more))]
fn tell_wrong<W: Write>(
    writer: &mut W,
    words: &[&[u8]],
    place: usize,
    device: Option<Seen>,
) -> io::Result<()>
    ensures { OnOk result (Appends (W.contents writer.old) (W.contents writer.new) (wrong_by (texts words.now) place device)) }
{
    let name = word_at(words, place);
    match device {
        Some(device) => {
            put_four(writer, name, b" is ", device.kind.words().as_bytes(), b"; ")?;
            tell_taker(writer, words, place)
        }
        None => tell_missing(writer, name),
    }
}

/// Tells that a device is of another kind than a command takes.
#[tactic(auto, unfolding(crate::specs::Reasons::wrong_text))]
fn tell_kind<W: Write>(writer: &mut W, held: &Devices, words: &[&[u8]]) -> io::Result<()>
    ensures { OnOk result (Appends (W.contents writer.old) (W.contents writer.new) (wrong_text (texts words.now) (table_of held.now))) }
{
    let place = wrong_place(held, words);
    tell_wrong(writer, words, place, known(held, word_at(words, place)))
}

/// Tells that a request that is started lies in one piece.
#[tactic(auto, using(crate::proofs::Nothing::appends_nothing))]
fn tell_piece<W: Write>(writer: &mut W, words: &[&[u8]]) -> io::Result<()>
    ensures { OnOk result (Appends (W.contents writer.old) (W.contents writer.new) (piece_text (texts words.now))) }
{
    if word_at(words, 0) == b"start".as_slice() {
        writer.write_all(b", or they lie in more than one piece")
    } else {
        Ok(())
    }
}

/// Tells how many sectors there are.
#[tactic(auto, unfolding(crate::specs::Reasons::counted_text))]
fn tell_counted<W: Write>(writer: &mut W, sectors: u64) -> io::Result<()>
    ensures { OnOk result (Appends (W.contents writer.old) (W.contents writer.new) (counted_text sectors)) }
{
    write!(writer, ", which has {sectors} sectors")?;
    Ok(())
}

/// Tells how many sectors there are, where that is known; a request that is started lies in one piece.
#[tactic(auto, using(words::proofs::Written::appends_more, crate::proofs::Nothing::appends_nothing))]
fn tell_end<W: Write>(writer: &mut W, words: &[&[u8]], sectors: Option<u64>) -> io::Result<()>
    ensures { OnOk result (Appends (W.contents writer.old) (W.contents writer.new) (end_by (texts words.now) sectors)) }
{
    match sectors {
        Some(sectors) => {
            tell_counted(writer, sectors)?;
            tell_piece(writer, words)
        }
        None => Ok(()),
    }
}

/// Tells what is past the end of a device.
#[tactic(auto, unfolding(crate::specs::Reasons::past_text))]
fn tell_past<W: Write>(writer: &mut W, what: &[u8], name: &[u8]) -> io::Result<()>
    ensures { OnOk result (Appends (W.contents writer.old) (W.contents writer.new) (past_text what.now name.now)) }
{
    put_three(writer, what, b" the end of ", name)
}

/// Tells what is past the end of the device that a line names first, and how many sectors it has.
#[tactic(auto, using(words::proofs::Written::appends_more), unfolding(crate::specs::Reasons::past_end_text))]
fn tell_past_end<W: Write>(
    writer: &mut W,
    held: &Devices,
    words: &[&[u8]],
    what: &[u8],
) -> io::Result<()>
    ensures { OnOk result (Appends (W.contents writer.old) (W.contents writer.new) (past_end_text what.now (texts words.now) (table_of held.now))) }
{
    let name = word_at(words, 1);
    tell_past(writer, what, name)?;
    tell_end(writer, words, sectors_at(held, name))
}

/// Tells of sectors past the end of one of two disks.
#[tactic(auto, unfolding(crate::specs::Reasons::ends_text))]
fn tell_ends<W: Write>(writer: &mut W, one: &[u8], other: &[u8]) -> io::Result<()>
    ensures { OnOk result (Appends (W.contents writer.old) (W.contents writer.new) (ends_text one.now other.now)) }
{
    put_four(
        writer,
        b"the sectors pass the end of ",
        one,
        b", or of ",
        other,
    )
}

/// Tells of sectors or blocks past an end.
#[tactic(auto, unfolding(crate::specs::Reasons::range_text))]
fn tell_range<W: Write>(writer: &mut W, held: &Devices, words: &[&[u8]]) -> io::Result<()>
    ensures { OnOk result (Appends (W.contents writer.old) (W.contents writer.new) (range_text (texts words.now) (table_of held.now))) }
{
    let verb = word_at(words, 0);
    if verb == b"disk".as_slice() {
        return put_two(
            writer,
            word_at(words, 2),
            b" sectors: a disk has 1 to 16777216",
        );
    }
    if verb == b"copy".as_slice() {
        return tell_ends(writer, word_at(words, 1), word_at(words, 3));
    }
    if verb == b"message".as_slice() {
        return tell_past_end(writer, held, words, b"the block is past");
    }
    tell_past_end(writer, held, words, b"the sectors pass")
}

/// Tells what uses a device, or that a name is taken.
#[tactic(auto, unfolding(crate::specs::Reasons::busy_text))]
fn tell_busy<W: Write>(writer: &mut W, held: &Devices, words: &[&[u8]]) -> io::Result<()>
    ensures { OnOk result (Appends (W.contents writer.old) (W.contents writer.new) (busy_text (texts words.now) (table_of held.now))) }
{
    let (verb, name) = (word_at(words, 0), word_at(words, 1));
    if verb == b"disk".as_slice() {
        return put_three(writer, b"the name ", name, b" is in use");
    }
    if verb == b"copy".as_slice() {
        return tell_used(writer, held, word_at(words, 3));
    }
    tell_used(writer, held, name)
}

/// Tells that something is left to do, and which line does it.
#[tactic(auto, using(words::proofs::Written::appends_more))]
fn tell_left<W: Write>(
    writer: &mut W,
    held: &Devices,
    text: &str,
    verb: &[u8],
    name: &[u8],
) -> io::Result<()>
    ensures { OnOk result (Appends (W.contents writer.old) (W.contents writer.new) (text.now ++ for_origin verb.now name.now (table_of held.now))) }
{
    writer.write_all(text.as_bytes())?;
    put_for_origin(writer, held, verb, name)
}

/// Tells that as much is in flight or under way as may be.
#[tactic(auto, unfolding(crate::specs::Reasons::flights_text))]
fn tell_flights<W: Write>(writer: &mut W, held: &Devices, name: &[u8]) -> io::Result<()>
    ensures { OnOk result (Appends (W.contents writer.old) (W.contents writer.new) (flights_text name.now (table_of held.now))) }
{
    tell_left(
        writer,
        held,
        "64 requests are in flight, or 256 copies under way: ",
        b"settle",
        name,
    )
}

/// Tells of a number that is one more than its limit.
#[tactic(auto, unfolding(crate::specs::Reasons::many_text))]
fn tell_many<W: Write>(writer: &mut W, held: &Devices, words: &[&[u8]]) -> io::Result<()>
    ensures { OnOk result (Appends (W.contents writer.old) (W.contents writer.new) (many_text (texts words.now) (table_of held.now))) }
{
    if word_at(words, 0) == b"disk".as_slice() {
        return writer.write_all(b"there are 64 devices, and no more may be: remove one");
    }
    tell_flights(writer, held, word_at(words, 1))
}

/// Tells of a name that no device has: the first of a line, or else the second.
#[tactic(auto, unfolding(crate::specs::Reasons::absent_text))]
fn tell_absent<W: Write>(writer: &mut W, held: &Devices, words: &[&[u8]]) -> io::Result<()>
    ensures { OnOk result (Appends (W.contents writer.old) (W.contents writer.new) (absent_text (texts words.now) (table_of held.now))) }
{
    let name = word_at(words, 1);
    if is_there(held, name) {
        tell_missing(writer, word_at(words, 3))
    } else {
        tell_missing(writer, name)
    }
}

/// Tells that something is left to do of a volume.
#[tactic(auto, unfolding(crate::specs::Reasons::unquiet_text))]
fn tell_unquiet<W: Write>(writer: &mut W, held: &Devices, name: &[u8]) -> io::Result<()>
    ensures { OnOk result (Appends (W.contents writer.old) (W.contents writer.new) (unquiet_text name.now (table_of held.now))) }
{
    tell_left(
        writer,
        held,
        "a request is in flight, or an event is left to do: ",
        b"settle",
        name,
    )
}

/// Tells that the journal is full, and which line makes room.
#[tactic(auto, unfolding(crate::specs::Reasons::room_text))]
fn tell_room<W: Write>(writer: &mut W, held: &Devices, name: &[u8]) -> io::Result<()>
    ensures { OnOk result (Appends (W.contents writer.old) (W.contents writer.new) (room_text name.now (table_of held.now))) }
{
    tell_left(writer, held, "the journal is full: ", b"checkpoint", name)
}

/// Tells that the journal is full, and what makes room.
#[tactic(auto, using(words::proofs::Written::appends_more))]
fn tell_full<W: Write>(writer: &mut W, held: &Devices, name: &[u8]) -> io::Result<()>
    ensures { OnOk result (Appends (W.contents writer.old) (W.contents writer.new) (full_text name.now (table_of held.now))) }
{
    tell_room(writer, held, name)?;
    writer.write_all(b", or dmrig --checkpoint")
}

/// Tells why a block was refused at its end.
#[tactic(auto, unfolding(crate::specs::Reasons::block_text))]
fn block_text(refusal: Refusal) -> &'static str
    ensures { result.now ≡ block_text refusal }
{
    match refusal {
        Refusal::BadTable =>
            "a line of the block has another form, or names a device of another kind; nothing of it was run",
        Refusal::NoSuchDevice =>
            "a line of the block names a device that is not there; nothing of it was run",
        Refusal::NotQuiet =>
            "a volume that the block names has a request in flight or an event left: settle it first",
        _ => "there was no memory for the block; nothing of it was run",
    }
}

/// Tells of a merge that is not there, or has work left.
#[tactic(auto, unfolding(crate::specs::Reasons::unmerged_text))]
fn tell_unmerged<W: Write>(writer: &mut W, held: &Devices, name: &[u8]) -> io::Result<()>
    ensures { OnOk result (Appends (W.contents writer.old) (W.contents writer.new) (unmerged_text name.now (table_of held.now))) }
{
    tell_left(
        writer,
        held,
        "no merge is begun, or it has not come to its end: ",
        b"settle",
        name,
    )
}

/// Tells why a line about a merge was refused.
#[tactic(auto, unfolding(crate::specs::Reasons::merge_text))]
fn tell_merge<W: Write>(
    writer: &mut W,
    held: &Devices,
    refusal: Refusal,
    name: &[u8],
) -> io::Result<()>
    ensures { OnOk result (Appends (W.contents writer.old) (W.contents writer.new) (merge_text refusal name.now (table_of held.now))) }
{
    match refusal {
        Refusal::MergingSnapshot => put_two(
            writer,
            name,
            b" is being merged, and takes no requests: its origin shows what it showed",
        ),
        Refusal::MergeInProgress => tell_left(
            writer,
            held,
            "a merge is begun and not taken out: settle, then ",
            b"finish",
            name,
        ),
        Refusal::NotMerging => put_two(
            writer,
            name,
            b" has no merge; resume lets one go on that failed, and no device is suspended here",
        ),
        _ => tell_unmerged(writer, held, name),
    }
}

/// Tells what failed, or what a merge forbids.
#[tactic(auto, unfolding(crate::specs::Reasons::failure_text))]
fn tell_failure<W: Write>(
    writer: &mut W,
    held: &Devices,
    refusal: Refusal,
    name: &[u8],
) -> io::Result<()>
    ensures { OnOk result (Appends (W.contents writer.old) (W.contents writer.new) (failure_text refusal name.now (table_of held.now))) }
{
    match refusal {
        Refusal::Invalid => put_two(
            writer,
            name,
            b" is lost for good: its store filled up, or a device failed",
        ),
        Refusal::Overflow => put_two(
            writer,
            name,
            b"'s store is full, and its line says PO: it takes no write any more",
        ),
        Refusal::Io => put_three(
            writer,
            b"a layer under ",
            name,
            b", or under a store, failed the operation: table tells each layer",
        ),
        Refusal::NotDue => writer.write_all(b"the event is not due: dmrig --trace tells which are"),
        Refusal::NoMemory => writer.write_all(b"the allocator refused memory"),
        _ => tell_merge(writer, held, refusal, name),
    }
}

/// Tells why a line was refused that makes no device.
#[tactic(auto, unfolding(crate::specs::Reasons::command_text))]
fn tell_command<W: Write>(
    writer: &mut W,
    held: &Devices,
    refusal: Refusal,
    words: &[&[u8]],
) -> io::Result<()>
    ensures { OnOk result (Appends (W.contents writer.old) (W.contents writer.new) (command_text refusal (texts words.now) (table_of held.now))) }
{
    match refusal {
        Refusal::NoSuchDevice => tell_absent(writer, held, words),
        Refusal::BadTable => tell_kind(writer, held, words),
        Refusal::OutOfRange => tell_range(writer, held, words),
        Refusal::Busy => tell_busy(writer, held, words),
        Refusal::TooMany => tell_many(writer, held, words),
        Refusal::NotQuiet => tell_unquiet(writer, held, word_at(words, 1)),
        Refusal::JournalFull => tell_full(writer, held, word_at(words, 1)),
        _ => tell_failure(writer, held, refusal, word_at(words, 1)),
    }
}

/// Tells why a line was refused, by its words.
#[tactic(auto, unfolding(crate::specs::Reasons::reason_by))]
fn tell_by<W: Write>(
    writer: &mut W,
    held: &Devices,
    refusal: Refusal,
    words: &[&[u8]],
) -> io::Result<()>
    ensures { OnOk result (Appends (W.contents writer.old) (W.contents writer.new) (reason_by refusal (texts words.now) (table_of held.now))) }
{
    let verb = word_at(words, 0);
    if verb == b"end".as_slice() {
        writer.write_all(block_text(refusal).as_bytes())
    } else if verb == b"create".as_slice() {
        tell_create(writer, held, refusal, words)
    } else {
        tell_command(writer, held, refusal, words)
    }
}

/// Tells why a line was refused whose form is right, or the end of a block.
pub fn tell_reason<W: Write>(
    writer: &mut W,
    alloc: Global,
    line: &[u8],
    refusal: Refusal,
    held: &Devices,
) -> io::Result<()>
    ensures { OnOk result (Appends (W.contents writer.old) (W.contents writer.new) (reason_of line.now refusal (table_of held.now))) }
{
    let words = words_in(alloc, line)?;
    tell_by(writer, held, refusal, &words)
}
