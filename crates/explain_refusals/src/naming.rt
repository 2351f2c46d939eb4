// The words and the devices that a sentence names.
ghost use Rattle.std.specs.Prelude.{◌≡◌, OnOk, is_some};
ghost use Rattle.std.specs.Io.KnownBytes.{Appends};
ghost use Rattle.command_semantics.specs.Places.{IsPlaceIn};
ghost use Rattle.device_list.specs.Tables.{table_of};
ghost use Rattle.words.specs.Texts.{texts};
ghost use Rattle.explain_syntax.specs.Forms.{word_at};
ghost use Rattle.explain_refusals.specs.Kinds.{known};
ghost use Rattle.explain_refusals.specs.Naming.{is_of, is_origin_kind, is_disk_kind, for_origin, below_of, sectors_in, sectors_at, missing_text, used_text, used_by};

use crate::kinds::{Kind, Seen, known, line_at, use_of};
use command_semantics::Place;
use device_list::Devices;
use explain_syntax::{put_three, put_two};
use std::io;
use std::io::Write;
use table::Target;
use words::Name;

/// The word at a place; no byte where there is none.
#[tactic(auto, unfolding(explain_syntax::specs::Forms::word_at))]
pub fn word_at<'a>(words: &[&'a [u8]], place: usize) -> &'a [u8]
    ensures { result.now ≡ word_at (texts words.now) place }
{
    match words.get(place) {
        Some(word) => *word,
        None => b"",
    }
}

/// Whether a name names a device.
pub fn is_there(held: &Devices, name: &[u8]) -> bool
    ensures { result ≡ is_some (known name.now (table_of held.now)) }
{
    known(held, name).is_some()
}

/// Whether a kind is that of an origin.
fn is_origin_kind(kind: Kind) -> bool
    ensures { result ≡ is_origin_kind kind }
{
    matches!(kind, Kind::Origin)
}

/// Whether a kind is that of a disk.
fn is_disk_kind(kind: Kind) -> bool
    ensures { result ≡ is_disk_kind kind }
{
    matches!(kind, Kind::Disk)
}

/// Whether a name names an origin.
pub fn is_origin(held: &Devices, name: &[u8]) -> bool
    ensures { result ≡ is_of is_origin_kind (known name.now (table_of held.now)) }
{
    match known(held, name) {
        Some(device) => is_origin_kind(device.kind),
        None => false,
    }
}

/// Whether a name names a disk.
pub fn is_disk(held: &Devices, name: &[u8]) -> bool
    ensures { result ≡ is_of is_disk_kind (known name.now (table_of held.now)) }
{
    match known(held, name) {
        Some(device) => is_disk_kind(device.kind),
        None => false,
    }
}

/// Writes `settle vol`, or another verb: with the name where that names an origin, and else with the origin of what it names.
#[tactic(auto, unfolding(crate::specs::Naming::for_origin))]
pub fn put_for_origin<W: Write>(
    writer: &mut W,
    held: &Devices,
    verb: &[u8],
    name: &[u8],
) -> io::Result<()>
    ensures { OnOk result (Appends (W.contents writer.old) (W.contents writer.new) (for_origin verb.now name.now (table_of held.now))) }
{
    if is_origin(held, name) {
        put_three(writer, verb, b" ", name)
    } else {
        put_three(writer, verb, b" VOL, where VOL is the origin of ", name)
    }
}

/// The name of the device that the origin stands on which a name names; `None` where it names none.
pub fn below(held: &Devices, name: &[u8]) -> Option<Name>
    ensures { result ≡ below_of (table_of held.now) (known name.now (table_of held.now)) }
{
    let origin = known(held, name)?;
    match line_at(held, origin.place) {
        Ok(line) => match line.target {
            Target::Origin { device } | Target::Merge { device, .. } => Some(device),
            _ => None,
        },
        Err(_) => None,
    }
}

/// How many sectors the device at a place has: an origin and its snapshots, or a stack that nothing uses.
#[tactic(auto, using(device_list::proofs::Showing::shown_there), unfolding(crate::specs::Naming::sectors_in))]
fn sectors_in(held: &Devices, place: Place) -> Option<u64>
    requires { IsPlaceIn place (table_of held.now) }
    ensures { result ≡ sectors_in place (table_of held.now) }
{
    match place {
        Place::Free(i, _) => Some(held.stacks[i].sectors()),
        Place::In(v, _) => Some(u64::from(held.volumes[v].sectors())),
    }
}

/// How many sectors the device has that a name names.
#[tactic(auto, unfolding(crate::specs::Naming::sectors_at))]
pub fn sectors_at(held: &Devices, name: &[u8]) -> Option<u64>
    ensures { result ≡ sectors_at name.now (table_of held.now) }
{
    match known(held, name) {
        Some(device) => sectors_in(held, device.place),
        None => None,
    }
}

/// Tells that no device has a name.
pub fn tell_missing<W: Write>(writer: &mut W, name: &[u8]) -> io::Result<()>
    ensures { OnOk result (Appends (W.contents writer.old) (W.contents writer.new) (missing_text name.now)) }
{
    put_two(writer, b"no device is named ", name)
}

/// Tells that a device is in use, and by what.
fn tell_use<W: Write>(writer: &mut W, name: &[u8], device: Option<Seen>) -> io::Result<()>
    ensures { OnOk result (Appends (W.contents writer.old) (W.contents writer.new) (used_by name.now device)) }
{
    match device {
        Some(device) => put_three(
            writer,
            name,
            b" is in use: ",
            use_of(device.place).as_bytes(),
        ),
        None => put_two(writer, name, b" is in use"),
    }
}

/// Tells that the device of a name is in use, and by what.
#[tactic(auto, unfolding(crate::specs::Naming::used_text))]
pub fn tell_used<W: Write>(writer: &mut W, held: &Devices, name: &[u8]) -> io::Result<()>
    ensures { OnOk result (Appends (W.contents writer.old) (W.contents writer.new) (used_text name.now (table_of held.now))) }
{
    tell_use(writer, name, known(held, name))
}
