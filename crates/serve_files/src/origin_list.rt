// The list beside an origin, and the file that it stands in.
ghost use Rattle.std.specs.Prelude.{◌≡◌, ℕ, List, [], IfErr, IfOk, None, Ok, OnErr, OnOk, map, true};
ghost use Rattle.serve_files.specs.Listing.{IsBehindHead, added, left_out, listed_as};
ghost use Rattle.serve_files.specs.Names.{IsAbout, text_in, text_of};
ghost use Rattle.serve_files.specs.Status.{is_of_store};

use crate::list_file::{NewList, new_list, read_list};
use crate::listing::{Given, behind_first, list_text, with_line};
use crate::opening::folder_synced;
use crate::trouble::{Trouble, Why, about, held};
use file_calls::DiskFile;
use std::fs::File;
use std::io::ErrorKind;
use std::{fs, io};

/// The list beside an origin names what is served, and lasts. Only `OriginList::hold` gives one.
#[derive(Drop)]
pub struct Listed {
    made: (),
}

/// The list beside an origin: its file, and what that holds; nothing where it is not there.
#[derive(Drop)]
pub struct OriginList<'a> {
    origin: &'a str,
    path: String,
    text: Vec<u8>,
}

/// Says that a list could not be read or written.
fn about_list<'a, T: Drop>(origin: &'a str, asked: io::Result<T>) -> Result<T, Trouble<'a>>
    ensures told { IfErr result (IsAbout origin.now) }
    ensures same { IfOk result (λ value. asked ≡ Ok value) }
{
    match asked {
        Ok(value) => Ok(value),
        Err(error) => {
            let why = Why::List(error);
            Err(Trouble { name: origin, why })
        }
    }
}

/// What the file of a list holds; nothing where it is not there.
fn text_at<'a>(rt: &HostRuntime, origin: &'a str, path: &str) -> Result<Vec<u8>, Trouble<'a>>
    ensures told { IfErr result (IsAbout origin.now) }
{
    match File::open(rt, path) {
        Ok(file) => about_list(origin, read_list(rt.alloc(), &mut DiskFile::new(file))),
        Err(error) if error.kind() == ErrorKind::NotFound => Ok(Vec::new(rt.alloc())),
        Err(error) => about_list(origin, Err(error)),
    }
}

/// Reads the list of an origin, which stands beside the file itself where that is given by a link.
pub fn list_beside<'a>(rt: &HostRuntime, origin: &'a str) -> Result<OriginList<'a>, Trouble<'a>>
    ensures origin { IfOk result (λ list. list.origin.now ≡ origin.now) }
    ensures told { IfErr result (IsAbout origin.now) }
{
    let file = about(origin, fs::canonicalize(rt, origin))?;
    let file = file.as_str();
    let path = held(origin, format!(in rt.alloc(); "{file}.snapshots"))?;
    let text = text_at(rt, origin, path.as_str())?;
    Ok(OriginList { origin, path, text })
}

/// Gives a list that lasts in its file the name of the list, and makes that last.
fn named(rt: &HostRuntime, _list: NewList<'_>, from: &str, to: &str) -> io::Result<()> {
    fs::rename(rt, from, to)?;
    folder_synced(rt, to)
}

/// Replaces a list by another text: in a new file, which gets the list's name once it lasts.
fn replaced(rt: &HostRuntime, path: &str, text: &[u8]) -> io::Result<()> {
    let beside = format!(in rt.alloc(); "{path}.new")?;
    let file = File::create(rt, beside.as_str())?;
    match new_list(DiskFile::new(file), text) {
        Ok(list) => named(rt, list, beside.as_str(), path),
        Err(error) => {
            let _ = fs::remove_file(rt, beside.as_str());
            Err(error)
        }
    }
}

/// What is told of a line that a command leaves out.
fn why_left_out(rt: &HostRuntime, line: &[u8]) -> Why
    ensures { is_of_store result ≡ true }
{
    let (name, merges) = match line.strip_prefix(b"/") {
        Some(name) => (name, true),
        None => (line, false),
    };
    let name = str::from_utf8(name).unwrap_or("of another name");
    match format!(in rt.alloc(); "{name}") {
        Ok(name) if merges => Why::MergeLeft(name),
        Ok(name) => Why::LeftOut(name),
        Err(_) => Why::LeftOut(String::new(rt.alloc())),
    }
}

impl<'a> OriginList<'a> {
    /// What stands behind its first line.
    fn lines(&self) -> Result<&[u8], Trouble<'a>>
        ensures lines { IfOk result (λ lines. IsBehindHead lines.now self.now.text.items) }
        ensures told { IfErr result (IsAbout self.now.origin.now) }
    {
        let text = self.text.as_slice();
        if text.is_empty() {
            return Ok(text);
        }
        match behind_first(text) {
            Some(lines) => Ok(lines),
            None => {
                let why = Why::NoList;
                Err(Trouble {
                    name: self.origin,
                    why,
                })
            }
        }
    }

    /// Sees that a command serves all that it names.
    pub fn is_served(&self, rt: &HostRuntime, given: Given<'_, '_>) -> Result<(), Trouble<'a>>
        ensures ok { OnOk result ((lines : List ℕ) × IsBehindHead lines self.now.text.items × (left_out (record { merge = text_in given.entry.merge; cows = map text_of given.entry.cows.now; others = given.entry.others }) [] lines ≡ None)) }
        ensures told { IfErr result (IsAbout self.now.origin.now) }
    {
        match given.leaves_out(self.lines()?) {
            None => Ok(()),
            Some(line) => {
                let why = why_left_out(rt, line);
                Err(Trouble {
                    name: self.origin,
                    why,
                })
            }
        }
    }

    /// Has it hold another text, and makes that last.
    fn renew(&mut self, rt: &HostRuntime, text: Vec<u8>) -> Result<Listed, Trouble<'a>>
        ensures text { OnOk result (self.new.text.items ≡ text.items) }
        ensures same { OnErr result (self.new.text ≡ self.old.text) }
        ensures told { IfErr result (IsAbout self.old.origin.now) }
        ensures origin { self.new.origin ≡ self.old.origin }
    {
        if text.as_slice() != self.text.as_slice() {
            let done = replaced(rt, self.path.as_str(), text.as_slice());
            about_list(self.origin, done)?;
            self.text = text;
        }
        Ok(Listed { made: () })
    }

    /// Has it name just these stores, of which one may be merged. Where they are none and it is not there, it is not made.
    pub fn hold(
        &mut self,
        rt: &HostRuntime,
        merge: Option<&str>,
        cows: &[&str],
    ) -> Result<Listed, Trouble<'a>>
        ensures text { OnOk result (self.new.text.items ≡ listed_as (text_in merge.entry) (map text_of cows.now) self.old.text.items) }
        ensures same { OnErr result (self.new.text ≡ self.old.text) }
        ensures told { IfErr result (IsAbout self.old.origin.now) }
    {
        if cows.is_empty() && self.text.is_empty() {
            return Ok(Listed { made: () });
        }
        let text = held(self.origin, list_text(rt.alloc(), merge, cows))?;
        self.renew(rt, text)
    }

    /// Has it name a store besides those that it names.
    pub fn add(&mut self, rt: &HostRuntime, cow: &str) -> Result<Listed, Trouble<'a>>
        ensures text { OnOk result (self.new.text.items ≡ added cow.now self.old.text.items) }
        ensures same { OnErr result (self.new.text ≡ self.old.text) }
        ensures told { IfErr result (IsAbout self.old.origin.now) }
    {
        let text = held(
            self.origin,
            with_line(rt.alloc(), self.text.as_slice(), cow),
        )?;
        self.renew(rt, text)
    }
}
