// An export is found by its name.
ghost use Rattle.std.specs.Prelude.{◌≡◌};
ghost use Rattle.nbd_options.specs.Haggled.{named, first_of, place_at};

use crate::export::Export;
use crate::session::Place;

/// The export that a name means: the first one of this name, and where the name is empty the first one of all.
pub fn found(exports: &[Export<'_>], name: &[u8]) -> Option<Place>
    ensures { result ≡ named exports.now name.now }
{
    if name.is_empty() {
        return first(exports);
    }
    for (export, it) in exports.iter().enumerate() {
        if it.name == name {
            return Some(place_of(export, it));
        }
    }
    None
}

fn first(exports: &[Export<'_>]) -> Option<Place>
    ensures { result ≡ first_of exports.now }
{
    let first = exports.first()?;
    Some(place_of(0, first))
}

/// The place of an export that has this number.
fn place_of(export: usize, it: &Export<'_>) -> Place
    ensures { result ≡ place_at export it.now }
{
    Place {
        export,
        size: it.size,
        flags: it.flags,
        blocks: it.blocks,
        bitmap: it.bitmap,
    }
}
