// What a device is, and what stands on it, in a few words.
ghost use Rattle.std.specs.Prelude.{◌≡◌, IfSome};
ghost use Rattle.command_semantics.specs.Lines.{line_at};
ghost use Rattle.command_semantics.specs.Places.{IsPlaceIn};
ghost use Rattle.device_list.specs.Tables.{table_of};
ghost use Rattle.explain_refusals.specs.Kinds.{kind_words, kind_of, kind_at, known, use_under, use_of};

use command_semantics::{Place, Role};
use device_list::{Devices, find};
use sector::Refusal;
use table::{Line, Target};
use words::Name;

/// What a device is.
#[derive(Clone, Copy)]
pub enum Kind {
    Disk,
    Flakey,
    Dust,
    Error,
    Origin,
    Snapshot,
    Merging,
}

impl Kind {
    /// With its article.
    #[tactic(auto, unfolding(crate::specs::Kinds::kind_words))]
    pub fn words(self) -> &'static str
        ensures { result.now ≡ kind_words self }
    {
        match self {
            Kind::Disk => "a disk",
            Kind::Flakey => "a flakey layer",
            Kind::Dust => "a dust layer",
            Kind::Error => "an error layer",
            Kind::Origin => "an origin",
            Kind::Snapshot => "a snapshot",
            Kind::Merging => "a snapshot that is being merged",
        }
    }
}

/// A device that a name names.
#[derive(Clone, Copy)]
pub struct Seen {
    pub kind: Kind,
    pub place: Place,
}

/// The kind of a disk or a layer, by its table line, which a disk has none of.
fn kind_of(line: Result<Line, Refusal>) -> Kind
    ensures { result ≡ kind_of line }
{
    match line {
        Ok(line) => match line.target {
            Target::Flakey { .. } => Kind::Flakey,
            Target::Dust { .. } => Kind::Dust,
            Target::Error => Kind::Error,
            Target::Origin { .. } | Target::Snapshot { .. } | Target::Merge { .. } => Kind::Disk,
        },
        Err(_) => Kind::Disk,
    }
}

/// The table line of the device at a place; `BadTable` for a disk.
#[tactic(auto, using(device_list::proofs::Showing::shown_there), unfolding(command_semantics::specs::Lines::line_at))]
pub fn line_at(held: &Devices, place: Place) -> Result<Line, Refusal>
    requires { IsPlaceIn place (table_of held.now) }
    ensures { result ≡ line_at place (table_of held.now) }
{
    match place {
        Place::Free(i, depth) => held.stacks[i].line(depth),
        Place::In(v, role) => held.volumes[v].line(role),
    }
}

/// The kind of the device at a place.
#[tactic(auto, unfolding(crate::specs::Kinds::kind_at))]
fn kind_at(held: &Devices, place: Place) -> Kind
    requires { IsPlaceIn place (table_of held.now) }
    ensures { result ≡ kind_at place (table_of held.now) }
{
    match place {
        Place::In(_, Role::Origin) => Kind::Origin,
        Place::In(_, Role::Snapshot(_)) => Kind::Snapshot,
        Place::In(_, Role::Merging) => Kind::Merging,
        _ => kind_of(line_at(held, place)),
    }
}

/// The device that a word names; `None` where none is there.
#[tactic(auto, unfolding(crate::specs::Kinds::known))]
pub fn known(held: &Devices, word: &[u8]) -> Option<Seen>
    ensures device { result ≡ known word.now (table_of held.now) }
    ensures within { IfSome result (λ known. IsPlaceIn known.place (table_of held.now)) }
{
    let name = Name::read(word)?;
    let place = find(held, &name)?;
    Some(Seen {
        kind: kind_at(held, place),
        place,
    })
}

/// What stands on the top of a stack, or on a layer in it.
fn use_under(depth: usize, text: &'static str) -> &'static str
    ensures { result.now ≡ use_under depth text.now }
{
    match depth {
        0 => text,
        _ => "a layer stands on it",
    }
}

/// What stands on a device, or uses it.
#[tactic(auto, unfolding(crate::specs::Kinds::use_of))]
pub fn use_of(place: Place) -> &'static str
    ensures { result.now ≡ use_of place }
{
    match place {
        Place::Free(_, depth) => use_under(depth, "nothing stands on it"),
        Place::In(_, Role::Origin) => "it has snapshots, or a merge: remove or finish these first",
        Place::In(_, Role::Under(depth)) => use_under(depth, "an origin stands on it"),
        Place::In(_, Role::Snapshot(_)) => "it is a snapshot",
        Place::In(_, Role::Store(_, depth)) => use_under(depth, "it is the store of a snapshot"),
        Place::In(_, Role::Merging) => "it is being merged",
        Place::In(_, Role::MergingStore(depth)) => use_under(
            depth,
            "it is the store of a snapshot that is being merged, till finish",
        ),
    }
}
