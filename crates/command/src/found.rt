// Why a block is refused before anything runs, by what is found under the names of its lines.
ghost use Rattle.std.specs.Prelude.{◌≡◌};
ghost use Rattle.std.specs.List.{list_any};
ghost use Rattle.command.specs.Founds.{first_refusal, is_busy, is_missing, is_other};

use sector::Refusal;

/// What is found under the name of a line.
#[derive(Clone, Copy, PartialEq, Eq)]
pub enum NameFound {
    /// No device.
    Missing,
    /// A device of another kind than the line asks for.
    Other,
    /// A device of a volume in which something is left to do.
    Busy,
    /// A device of a volume that is quiet.
    Quiet,
}

fn is_other(found: NameFound) -> bool
    ensures { result ≡ is_other found }
{
    matches!(found, NameFound::Other)
}

fn is_missing(found: NameFound) -> bool
    ensures { result ≡ is_missing found }
{
    matches!(found, NameFound::Missing)
}

fn is_busy(found: NameFound) -> bool
    ensures { result ≡ is_busy found }
{
    matches!(found, NameFound::Busy)
}

fn is_any_other(found: &[NameFound]) -> bool
    ensures { result ≡ list_any is_other found.now }
{
    found.iter().any(|found| is_other(*found))
}

fn is_any_missing(found: &[NameFound]) -> bool
    ensures { result ≡ list_any is_missing found.now }
{
    found.iter().any(|found| is_missing(*found))
}

fn is_any_busy(found: &[NameFound]) -> bool
    ensures { result ≡ list_any is_busy found.now }
{
    found.iter().any(|found| is_busy(*found))
}

/// The first refusal of a block of whose lines this is found: `BadTable` for a device of another kind, then `NoSuchDevice`
/// for a name that no device has, then `NotQuiet` for a volume that has something left to do. In each of these nothing runs.
pub fn refusal_among(found: &[NameFound]) -> Option<Refusal>
    ensures { result ≡ first_refusal found.now }
{
    if is_any_other(found) {
        Some(Refusal::BadTable)
    } else if is_any_missing(found) {
        Some(Refusal::NoSuchDevice)
    } else if is_any_busy(found) {
        Some(Refusal::NotQuiet)
    } else {
        None
    }
}
