// The words of commands on two images: a store over its origin, and any two.
ghost use Rattle.std.specs.Prelude.{◌≡◌};
ghost use Rattle.option_parser.specs.Reading.{split_of};
ghost use Rattle.image_options.specs.Asks.{told, map_over_by, compare_by, table_by};

use crate::asked::{Asked, Form};
use crate::options::{are_apart, form_of};
use crate::wrong::Wrong;
use option_parser::Words;

/// What `map` asks for, where an origin is given.
pub(crate) fn map_over<'a>(
    words: &Words<'a>,
    origin: &'a str,
    cow: &'a str,
    form: Form,
) -> Result<Asked<'a>, Wrong<'a>>
    ensures { told result ≡ map_over_by (split_of words.now) origin.now cow.now form }
{
    are_apart(words, "--over", "--raw")?;
    let svg = words.value("--svg");
    if svg.is_some() || words.has("--picture") {
        are_apart(words, "--picture", "--json")?;
        are_apart(words, "--svg", "--json")?;
        return Ok(Asked::Picture { origin, cow, svg });
    }
    Ok(Asked::Ranges { origin, cow, form })
}

pub(crate) fn compare<'a>(words: &Words<'a>) -> Result<Asked<'a>, Wrong<'a>>
    ensures { told result ≡ compare_by (split_of words.now) }
{
    let (one, other) = words.two("A", "B")?;
    let form = form_of(words);
    Ok(Asked::Compare { one, other, form })
}

pub(crate) fn table<'a>(words: &Words<'a>) -> Result<Asked<'a>, Wrong<'a>>
    ensures { told result ≡ table_by (split_of words.now) }
{
    let (origin, cow) = words.two("ORIGIN", "COW")?;
    Ok(Asked::Table { origin, cow })
}
