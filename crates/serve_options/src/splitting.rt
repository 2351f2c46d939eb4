// Words are split into names and options.
ghost use Rattle.std.specs.Prelude.{◌≡◌, ◌++◌, map, drop, IfOk};
ghost use Rattle.std.specs.String.{string_bytes};
ghost use Rattle.option_parser.specs.Reading.{texts_of};
ghost use Rattle.serve_options.specs.Splits.{split_by, split_of};

use crate::options::VALUED;
use std::alloc::{AllocError, Global};

/// The words of a command line.
#[derive(Drop)]
pub struct Words<'a> {
    /// Its names and options.
    pub(crate) line: option_parser::Words<'a>,
    /// The values of each `--merge`, in their order.
    pub(crate) merges: Vec<&'a str>,
    /// The values of each `--snapshot`, in their order.
    pub(crate) snapshots: Vec<&'a str>,
    /// Those of each `--merge`, and then those of each `--snapshot`.
    pub(crate) cows: Vec<&'a str>,
}

/// Names, and others behind them.
fn joined<'a>(
    alloc: Global,
    first: &[&'a str],
    then: &[&'a str],
) -> Result<Vec<&'a str>, AllocError>
    ensures { IfOk result (λ all. texts_of all.items ≡ texts_of first.now ++ texts_of then.now) }
{
    let mut all = Vec::new(alloc);
    all.extend_from_slice(first)?;
    all.extend_from_slice(then)?;
    Ok(all)
}

/// Splits words, the first of which is the program's own name.
pub fn split<'a>(alloc: Global, words: &'a [String]) -> Result<Words<'a>, AllocError>
    ensures { IfOk result (λ split. split_of split ≡ split_by (drop 1 (map string_bytes words.now))) }
{
    let line = option_parser::split(alloc, VALUED, words)?;
    let merges = line.values(alloc, "--merge")?;
    let snapshots = line.values(alloc, "--snapshot")?;
    let cows = joined(alloc, merges.as_slice(), snapshots.as_slice())?;
    Ok(Words {
        line,
        merges,
        snapshots,
        cows,
    })
}
