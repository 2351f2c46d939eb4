// The text of the list beside an origin: which stores it names, and which of them a command leaves out.
ghost use Rattle.std.specs.Prelude.{◌≡◌, ◌++◌, [], IfOk, IfSome, OnOk, map};
ghost use Rattle.serve_files.specs.Listing.{added, head, is_given, is_merged, left_out, line_of, list_of, merge_line};
ghost use Rattle.serve_files.specs.Names.{text_in, text_of};

use serve_options::{export_name, has_name};
use std::alloc::{AllocError, Global};

/// Its first line.
pub(crate) fn first_line() -> &'static [u8]
    ensures { result.now ≡ head }
{
    b"# lochknife: the file beside this one has these snapshots, and must be served with them\n"
}

/// What stands behind the first line of a list.
pub(crate) fn behind_first(text: &[u8]) -> Option<&[u8]>
    ensures { IfSome result (λ lines. text.now ≡ head ++ lines.now) }
{
    let first = first_line();
    if text.len() < first.len() {
        return None;
    }
    let (front, lines) = text.split_at(first.len());
    if front == first { Some(lines) } else { None }
}

/// What a command serves: the store that it merges, all its stores, and whether others may be in the list.
#[derive(Clone, Copy)]
pub struct Given<'w, 'a> {
    pub merge: Option<&'a str>,
    pub cows: &'w [&'a str],
    pub others: bool,
}

/// Whether the store that is merged has this name.
fn is_of_merge(merge: Option<&str>, name: &[u8]) -> bool
    ensures { result ≡ is_merged (text_in merge.entry) name.now }
{
    match merge {
        None => false,
        Some(cow) => export_name(cow.as_bytes()) == name,
    }
}

impl Given<'_, '_> {
    /// Whether the command serves what a line says.
    fn serves(self, line: &[u8]) -> bool
        ensures { result ≡ is_given (record { merge = text_in self.entry.merge; cows = map text_of self.entry.cows.now; others = self.entry.others }) line.now }
    {
        match line.split_first() {
            None => true,
            Some((letter, name)) => {
                if *letter == b'/' {
                    return is_of_merge(self.merge, name);
                }
                self.others || has_name(self.cows, line)
            }
        }
    }

    /// The first line of a text that the command leaves out.
    pub(crate) fn leaves_out<'t>(self, text: &'t [u8]) -> Option<&'t [u8]>
        ensures { text_in result ≡ left_out (record { merge = text_in self.entry.merge; cows = map text_of self.entry.cows.now; others = self.entry.others }) [] text.now }
    {
        let mut from = 0;
        for place in 0..text.len() {
            if text[place] == b'\n' {
                let line = &text[from..place];
                if !self.serves(line) {
                    return Some(line);
                }
                from = place + 1;
            }
        }
        let line = &text[from..];
        if self.serves(line) { None } else { Some(line) }
    }
}

/// Adds a store's line.
pub(crate) fn add_line(text: &mut Vec<u8>, cow: &str) -> Result<(), AllocError>
    ensures { OnOk result (text.new.items ≡ text.old.items ++ line_of cow.now) }
{
    text.extend_from_slice(export_name(cow.as_bytes()))?;
    text.push(b'\n')?;
    Ok(())
}

/// Adds the line of a merge that is begun.
fn add_merge(text: &mut Vec<u8>, merge: Option<&str>) -> Result<(), AllocError>
    ensures { OnOk result (text.new.items ≡ text.old.items ++ merge_line (text_in merge.entry)) }
{
    match merge {
        None => Ok(()),
        Some(cow) => {
            text.push(b'/')?;
            add_line(text, cow)
        }
    }
}

/// The list of these stores, of which one may be merged.
pub fn list_text(alloc: Global, merge: Option<&str>, cows: &[&str]) -> Result<Vec<u8>, AllocError>
    ensures { IfOk result (λ text. text.items ≡ list_of (text_in merge.entry) (map text_of cows.now)) }
{
    let mut text = Vec::new(alloc);
    text.extend_from_slice(first_line())?;
    add_merge(&mut text, merge)?;
    for cow in cows {
        add_line(&mut text, *cow)?;
    }
    Ok(text)
}

/// A list with a store's line behind those that it has; a new one where there is none.
pub(crate) fn with_line(alloc: Global, old: &[u8], cow: &str) -> Result<Vec<u8>, AllocError>
    ensures { IfOk result (λ text. text.items ≡ added cow.now old.now) }
{
    if old.is_empty() {
        return list_text(alloc, None, &[cow]);
    }
    let mut text = old.to_vec(alloc)?;
    if old.last().copied() != Some(b'\n') {
        text.push(b'\n')?;
    }
    add_line(&mut text, cow)?;
    Ok(text)
}
