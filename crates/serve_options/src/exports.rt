// The names of exports.
ghost use Rattle.std.specs.Prelude.{◌≡◌, [], map};
ghost use Rattle.option_parser.specs.Reading.{text_in, text_of};
ghost use Rattle.serve_options.specs.Exports.{last_part, has_export, is_unfit as is_unfit_by, first_unfit};

/// The name of a snapshot's export: the last part of its file's name.
pub fn export_name(cow: &[u8]) -> &[u8]
    ensures { result.now ≡ last_part [] cow.now }
{
    let mut from = 0;
    for place in 0..cow.len() {
        if cow[place] == b'/' {
            from = place + 1;
        }
    }
    &cow[from..]
}

/// Whether the export of one of these snapshots has this name.
pub fn has_name(cows: &[&str], name: &[u8]) -> bool
    ensures { result ≡ has_export (map text_of cows.now) name.now }
{
    for cow in cows {
        if export_name(cow.as_bytes()) == name {
            return true;
        }
    }
    false
}

/// Whether the export of a snapshot behind these can't have its name: it is the origin's, that of one before, or empty.
fn is_unfit(before: &[&str], cow: &str) -> bool
    ensures { result ≡ is_unfit_by (map text_of before.now) cow.now }
{
    let name = export_name(cow.as_bytes());
    name.is_empty() || name == b"origin".as_slice() || has_name(before, name)
}

/// The first snapshot whose export can't have its name.
pub fn unfit<'a>(cows: &[&'a str]) -> Option<&'a str>
    ensures { text_in result ≡ first_unfit [] (map text_of cows.now) }
{
    for place in 0..cows.len() {
        if is_unfit(&cows[..place], cows[place]) {
            return Some(cows[place]);
        }
    }
    None
}
