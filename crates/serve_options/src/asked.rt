// What is asked for.
ghost use Rattle.std.specs.Prelude.{◌≡◌};
ghost use Rattle.serve_options.specs.Splits.{split_of};
ghost use Rattle.serve_options.specs.Asks.{told, told_store, asked_by, command_by, new_by, take_by, serve_by, wrong_store as wrong_store_by};

use crate::exports::{export_name, has_name, unfit};
use crate::options::{chunk_of, options_of, refuses};
use crate::sizes::size_of;
use crate::splitting::Words;
use crate::wrong::Wrong;
use option_parser::Request;

/// What is asked for. A name of a file is as it was given.
#[derive(Clone, Copy, PartialEq, Eq)]
pub enum Asked<'w, 'a> {
    /// The words that are taken.
    Help,
    /// The program's name and version.
    Version,
    /// An empty store of so many bytes.
    New {
        cow: &'a str,
        bytes: u64,
    },
    /// A snapshot over an empty store, with chunks of so many sectors.
    Take {
        origin: &'a str,
        cow: &'a str,
        chunk: u32,
    },
    /// An origin and the snapshots of its stores are served. The one that is merged is the first of these. An empty store gets chunks of
    /// so many sectors. `refuse`: a write of a snapshot that finds its store full is refused. `anyway`: a snapshot of the origin that is
    /// left out is given up.
    Serve {
        origin: &'a str,
        cows: &'w [&'a str],
        merge: Option<&'a str>,
        chunk: u32,
        refuse: bool,
        anyway: bool,
    },
}

/// What the words of a command line ask for: help and the version come before all else, but for a word that lacks behind an option.
pub fn words_ask<'w, 'a>(words: &'w Words<'a>) -> Result<Asked<'w, 'a>, Wrong<'a>>
    ensures { told result ≡ asked_by (split_of words.now) }
{
    match words.line.request()? {
        Request::Help => Ok(Asked::Help),
        Request::Version => Ok(Asked::Version),
        Request::Command(command) => {
            words.line.take_only(options_of(command))?;
            ask(words, command)
        }
    }
}

/// What a command asks for, whose options are all taken.
fn ask<'w, 'a>(words: &'w Words<'a>, command: &'a str) -> Result<Asked<'w, 'a>, Wrong<'a>>
    ensures { told result ≡ command_by (split_of words.now) command.now }
{
    match command {
        "help" => Ok(Asked::Help),
        "new" => new(words),
        "take" => take(words),
        "serve" => serve(words),
        _ => Err(Wrong::Line(option_parser::Wrong::Command(command))),
    }
}

fn new<'w, 'a>(words: &'w Words<'a>) -> Result<Asked<'w, 'a>, Wrong<'a>>
    ensures { told result ≡ new_by (split_of words.now) }
{
    let (cow, size) = words.line.two("COW", "SIZE")?;
    match size_of(size.as_bytes()) {
        Some(bytes) => Ok(Asked::New { cow, bytes }),
        None => Err(Wrong::Size(size)),
    }
}

fn take<'w, 'a>(words: &'w Words<'a>) -> Result<Asked<'w, 'a>, Wrong<'a>>
    ensures { told result ≡ take_by (split_of words.now) }
{
    let (origin, cow) = words.line.two("ORIGIN", "COW")?;
    let chunk = chunk_of(&words.line)?;
    Ok(Asked::Take { origin, cow, chunk })
}

fn serve<'w, 'a>(words: &'w Words<'a>) -> Result<Asked<'w, 'a>, Wrong<'a>>
    ensures { told result ≡ serve_by (split_of words.now) }
{
    let origin = words.line.one("ORIGIN")?;
    let chunk = chunk_of(&words.line)?;
    let refuse = refuses(&words.line)?;
    match wrong_store(words) {
        Some(wrong) => Err(wrong),
        None => Ok(Asked::Serve {
            origin,
            cows: words.cows.as_slice(),
            merge: words.merges.first().copied(),
            chunk,
            refuse,
            anyway: words.line.has("--anyway"),
        }),
    }
}

/// What is wrong with the stores that are given, if anything is: two are to be merged; one is to be merged and served; they are more
/// than eight; or an export has no name of its own.
fn wrong_store<'a>(words: &Words<'a>) -> Option<Wrong<'a>>
    ensures { told_store result ≡ wrong_store_by (split_of words.now) }
{
    if let Some(cow) = words.merges.get(1) {
        return Some(Wrong::Merge(*cow));
    }
    let snapshots = words.snapshots.as_slice();
    if let Some(cow) = words.merges.first()
        && has_name(snapshots, export_name(cow.as_bytes()))
    {
        return Some(Wrong::Both(*cow));
    }
    if let Some(cow) = words.cows.get(8) {
        return Some(Wrong::Snapshot(*cow));
    }
    match unfit(snapshots) {
        Some(cow) => Some(Wrong::Export(cow)),
        None => None,
    }
}
