// What is asked for.
ghost use Rattle.std.specs.Prelude.{◌≡◌, map};
ghost use Rattle.std.specs.String.{string_bytes};
ghost use Rattle.option_parser.specs.Reading.{split_of};
ghost use Rattle.image_options.specs.Asks.{WithMemory, told, asked_by, split_asks, command_by, show_by, map_by, check_by, differ_by, export_by, merge_by, repair_by, store_by, serve_by, words_by, image_by};

use crate::helping::{help, help_beside};
use crate::options::{VALUED, are_apart, chunk_of, form_of, has_with, options_of};
use crate::over::{compare, map_over, table};
use crate::wrong::Wrong;
use option_parser::{Request, Words, split};
use std::alloc::Global;
use words::is_a_name;

/// How an answer is written.
#[derive(Clone, Copy, PartialEq, Eq)]
pub enum Form {
    /// Lines of a key and a value.
    Lines,
    /// JSON.
    Json,
}

/// What is asked for. A name of a file is as it was given.
#[derive(Clone, Copy, PartialEq, Eq)]
pub enum Asked<'a> {
    /// The words that are taken.
    Help,
    /// Those of this command.
    HelpOf {
        command: &'a str,
    },
    /// The program's name and version.
    Version,
    /// A store's header, its numbers, and whether it is good.
    Show {
        cow: &'a str,
        form: Form,
    },
    /// Some of this in units for a reader.
    Human {
        cow: &'a str,
    },
    /// Its pairs.
    Map {
        cow: &'a str,
        form: Form,
    },
    /// Where each byte of the snapshot's array stands: in ranges, from the front to the end.
    Ranges {
        origin: &'a str,
        cow: &'a str,
        form: Form,
    },
    /// Which parts of the origin have copies, as rows of cells, or as a drawing in a new file.
    Picture {
        origin: &'a str,
        cow: &'a str,
        svg: Option<&'a str>,
    },
    /// Its slots, whether it is good or not.
    RawMap {
        cow: &'a str,
        form: Form,
    },
    /// Whether it is good for this origin.
    Check {
        origin: &'a str,
        cow: &'a str,
        form: Form,
    },
    /// The bytes in which the snapshot and its origin differ.
    Differ {
        origin: &'a str,
        cow: &'a str,
        form: Form,
    },
    /// Whether two images are the same.
    Compare {
        one: &'a str,
        other: &'a str,
        form: Form,
    },
    /// The lines of tables that a kernel is given for both.
    Table {
        origin: &'a str,
        cow: &'a str,
    },
    /// The snapshot's array.
    Export {
        origin: &'a str,
        cow: &'a str,
        out: &'a str,
        form: Form,
    },
    /// What is known of the array where the store is refused or can't be read everywhere: with chunks of so many sectors,
    /// where the header does not say them, and also by the pairs behind the first empty slot.
    Salvage {
        origin: &'a str,
        cow: &'a str,
        out: &'a str,
        chunk: Option<u32>,
        behind: bool,
        form: Form,
    },
    /// The snapshot's copies taken back into its origin, in place, or only told of.
    Merge {
        origin: &'a str,
        cow: &'a str,
        dry: bool,
        form: Form,
    },
    /// A new store of the pairs that are kept of one, damaged or not, with the words of a salvage.
    Repair {
        cow: &'a str,
        new: &'a str,
        chunk: Option<u32>,
        behind: bool,
        form: Form,
    },
    /// A new store whose snapshot of this origin is this array, with chunks of so many sectors, where they are given.
    Store {
        origin: &'a str,
        array: &'a str,
        new: &'a str,
        chunk: Option<u32>,
    },
    /// The snapshot and its origin served to a client on standard input and output; or the snapshot alone, while another
    /// program writes both files.
    Serve {
        origin: &'a str,
        cow: &'a str,
        live: bool,
    },
    /// The lines of commands that give a disk of `dmrig` an image's bytes.
    Words {
        disk: &'a str,
        image: &'a str,
    },
    /// The bytes that the answers on standard input tell, as a file.
    Image {
        out: &'a str,
    },
}

/// What the words of a command line say, the first of which is the program's own name.
pub fn words_ask<'a>(alloc: Global, words: &'a [String]) -> Result<Asked<'a>, Wrong<'a>>
    ensures { WithMemory result (told result ≡ asked_by (map string_bytes words.now)) }
{
    match split(alloc, VALUED, words) {
        Ok(words) => split_ask(&words),
        Err(_) => Err(Wrong::NoMemory),
    }
}

/// What split words ask for: help and the version come before all else.
fn split_ask<'a>(words: &Words<'a>) -> Result<Asked<'a>, Wrong<'a>>
    ensures { told result ≡ split_asks (split_of words.now) }
{
    match words.request()? {
        Request::Help => Ok(help_beside(words)),
        Request::Version => Ok(Asked::Version),
        Request::Command(command) => {
            words.take_only(options_of(command))?;
            ask(words, command)
        }
    }
}

/// What a command asks for, whose options are all taken.
fn ask<'a>(words: &Words<'a>, command: &'a str) -> Result<Asked<'a>, Wrong<'a>>
    ensures { told result ≡ command_by (split_of words.now) command.now }
{
    match command {
        "help" => help(words),
        "show" => show(words),
        "map" => map(words),
        "check" => check(words),
        "diff" => differ(words),
        "compare" => compare(words),
        "table" => table(words),
        "export" => export(words),
        "rollback" => export(words),
        "merge" => merge(words),
        "repair" => repair(words),
        "store" => store(words),
        "nbd" => serve(words),
        "words" => spell(words),
        "image" => hear(words),
        _ => Err(Wrong::Line(option_parser::Wrong::Command(command))),
    }
}

fn show<'a>(words: &Words<'a>) -> Result<Asked<'a>, Wrong<'a>>
    ensures { told result ≡ show_by (split_of words.now) }
{
    let cow = words.one("COW")?;
    let form = form_of(words);
    if words.has("--human") {
        are_apart(words, "--human", "--json")?;
        return Ok(Asked::Human { cow });
    }
    Ok(Asked::Show { cow, form })
}

fn map<'a>(words: &Words<'a>) -> Result<Asked<'a>, Wrong<'a>>
    ensures { told result ≡ map_by (split_of words.now) }
{
    let cow = words.one("COW")?;
    let form = form_of(words);
    if let Some(origin) = words.value("--over") {
        return map_over(words, origin, cow, form);
    }
    has_with(words, "--picture", "--over")?;
    has_with(words, "--svg", "--over")?;
    if words.has("--raw") {
        return Ok(Asked::RawMap { cow, form });
    }
    Ok(Asked::Map { cow, form })
}

fn check<'a>(words: &Words<'a>) -> Result<Asked<'a>, Wrong<'a>>
    ensures { told result ≡ check_by (split_of words.now) }
{
    let (origin, cow) = words.two("ORIGIN", "COW")?;
    let form = form_of(words);
    Ok(Asked::Check { origin, cow, form })
}

fn differ<'a>(words: &Words<'a>) -> Result<Asked<'a>, Wrong<'a>>
    ensures { told result ≡ differ_by (split_of words.now) }
{
    let (origin, cow) = words.two("ORIGIN", "COW")?;
    let form = form_of(words);
    Ok(Asked::Differ { origin, cow, form })
}

fn export<'a>(words: &Words<'a>) -> Result<Asked<'a>, Wrong<'a>>
    ensures { told result ≡ export_by (split_of words.now) }
{
    let (origin, cow, out) = words.three("ORIGIN", "COW", "OUT")?;
    let chunk = chunk_of(words)?;
    let behind = words.has("--behind");
    let form = form_of(words);
    if words.has("--salvage") {
        return Ok(Asked::Salvage {
            origin,
            cow,
            out,
            chunk,
            behind,
            form,
        });
    }
    if behind {
        return Err(Wrong::Alone("--behind"));
    }
    if chunk.is_some() {
        return Err(Wrong::Alone("--chunk"));
    }
    Ok(Asked::Export {
        origin,
        cow,
        out,
        form,
    })
}

fn merge<'a>(words: &Words<'a>) -> Result<Asked<'a>, Wrong<'a>>
    ensures { told result ≡ merge_by (split_of words.now) }
{
    let (origin, cow) = words.two("ORIGIN", "COW")?;
    let dry = words.has("--dry-run");
    let form = form_of(words);
    Ok(Asked::Merge {
        origin,
        cow,
        dry,
        form,
    })
}

fn repair<'a>(words: &Words<'a>) -> Result<Asked<'a>, Wrong<'a>>
    ensures { told result ≡ repair_by (split_of words.now) }
{
    let (cow, new) = words.two("COW", "NEW")?;
    let chunk = chunk_of(words)?;
    let behind = words.has("--behind");
    let form = form_of(words);
    Ok(Asked::Repair {
        cow,
        new,
        chunk,
        behind,
        form,
    })
}

fn store<'a>(words: &Words<'a>) -> Result<Asked<'a>, Wrong<'a>>
    ensures { told result ≡ store_by (split_of words.now) }
{
    let (origin, array, new) = words.three("ORIGIN", "SNAPSHOT", "NEW")?;
    let chunk = chunk_of(words)?;
    Ok(Asked::Store {
        origin,
        array,
        new,
        chunk,
    })
}

fn serve<'a>(words: &Words<'a>) -> Result<Asked<'a>, Wrong<'a>>
    ensures { told result ≡ serve_by (split_of words.now) }
{
    let (origin, cow) = words.two("ORIGIN", "COW")?;
    let live = words.has("--live");
    Ok(Asked::Serve { origin, cow, live })
}

fn spell<'a>(words: &Words<'a>) -> Result<Asked<'a>, Wrong<'a>>
    ensures { told result ≡ words_by (split_of words.now) }
{
    let (disk, image) = words.two("NAME", "IMAGE")?;
    if !is_a_name(disk.as_bytes()) {
        return Err(Wrong::Disk(disk));
    }
    Ok(Asked::Words { disk, image })
}

fn hear<'a>(words: &Words<'a>) -> Result<Asked<'a>, Wrong<'a>>
    ensures { told result ≡ image_by (split_of words.now) }
{
    let out = words.one("OUT")?;
    Ok(Asked::Image { out })
}
