// The files of a command are opened, locked and synced, and become devices.
ghost use Rattle.std.specs.Prelude.{◌≡◌, ◌≢◌, ◌⊎◌, ◌∷◌, ◌++◌, ◌+◌, ◌<◌, ℕ, IfErr, IfOk, OnOk, [], false, length, map, slice_index_or, true};
ghost use Rattle.std.specs.List.{All, AllPairs};
ghost use Rattle.file_calls.specs.Calls.{Sync};
ghost use Rattle.file_calls.specs.Note.{call_of};
ghost use Rattle.serve_files.specs.Names.{IsAbout, text_of};

use crate::held_file::HeldFile;
use crate::opening::{OpenFile, are_apart, is_apart, opened};
use crate::served_file::served;
use crate::synced_file::{Device, Part, synced};
use crate::trouble::{Trouble, pushed};
use file_calls::DiskFile;

/// An open file is locked and synced, and becomes the device of this number.
fn part_of<'a>(
    rt: &'a HostRuntime,
    opened: OpenFile<'a>,
    number: u64,
) -> Result<Part<'a>, Trouble<'a>>
    ensures device { IfOk result (λ part. part.device.file.name.now ≡ opened.entry.name.now) }
    ensures number { IfOk result (λ part. part.device.number ≡ number) }
    ensures held { IfOk result (λ part. part.held.name.now ≡ opened.entry.name.now) }
    ensures synced { IfOk result (λ part. map call_of part.held.file.noted.notes ≡ Sync true false ∷ []) }
    ensures told { IfErr result (IsAbout opened.entry.name.now) }
{
    synced(served(rt, opened)?)?.part(rt, number)
}

/// The devices of an origin and of a store that is to be taken.
#[derive(Drop)]
pub struct Pair<'a> {
    pub origin: Device<'a>,
    pub store: Device<'a>,
}

/// Opens an origin and a store, which are not one file, locks them, and makes what is in them last.
pub fn opened_pair<'a>(
    rt: &'a HostRuntime,
    origin: &'a str,
    cow: &'a str,
) -> Result<Pair<'a>, Trouble<'a>>
    ensures names { IfOk result (λ pair. (pair.origin.file.name.now ≡ origin.now) × (pair.store.file.name.now ≡ cow.now)) }
    ensures numbers { IfOk result (λ pair. (pair.origin.number ≡ 0) × (pair.store.number ≡ 1)) }
    ensures told { IfErr result (λ trouble. (trouble.name.now ≡ origin.now) ⊎ (trouble.name.now ≡ cow.now)) }
{
    let first = opened(rt, origin)?;
    let second = opened(rt, cow)?;
    is_apart(&first, &second)?;
    let Part { device: origin, .. } = part_of(rt, first, 0)?;
    let Part { device: store, .. } = part_of(rt, second, 1)?;
    Ok(Pair { origin, store })
}

/// Opens the stores of an origin: no two of all these files are one.
fn stores_opened<'a>(
    rt: &HostRuntime,
    origin: &OpenFile<'a>,
    cows: &[&'a str],
) -> Result<Vec<OpenFile<'a>>, Trouble<'a>>
    ensures names { IfOk result (λ stores. map (λ store. store.name.now) stores.items ≡ map text_of cows.now) }
    ensures apart { IfOk result (λ stores. All (λ store. origin.now.which ≢ store.which) stores.items) }
    ensures each_apart { IfOk result (λ stores. AllPairs (λ store other. store.which ≢ other.which) stores.items) }
{
    let mut stores = Vec::new(rt.alloc());
    for cow in cows {
        let store = opened(rt, *cow)?;
        is_apart(origin, &store)?;
        are_apart(stores.as_slice(), &store)?;
        pushed(*cow, &mut stores, store)?;
    }
    Ok(stores)
}

/// The devices of a session, and the same files to be synced at its end. Only `session_files` makes it.
#[derive(Drop)]
pub struct SessionFiles<'a> {
    pub origin: Device<'a>,
    /// In the order of their names.
    pub stores: Vec<Device<'a>>,
    /// The origin's first, then each store's.
    pub held: Vec<HeldFile<'a, DiskFile>>,
}

impl<'a> SessionFiles<'a> {
    /// The origin alone.
    fn new(rt: &'a HostRuntime, origin: Part<'a>) -> Result<SessionFiles<'a>, Trouble<'a>>
        ensures origin { IfOk result (λ files. files.origin ≡ origin.entry.device) }
        ensures stores { IfOk result (λ files. files.stores.items ≡ []) }
        ensures held { IfOk result (λ files. files.held.items ≡ origin.entry.held ∷ []) }
    {
        let Part { device, held: last } = origin;
        let mut all = Vec::new(rt.alloc());
        pushed(last.name, &mut all, last)?;
        Ok(SessionFiles {
            origin: device,
            stores: Vec::new(rt.alloc()),
            held: all,
        })
    }

    /// A store more.
    fn add(&mut self, store: Part<'a>) -> Result<(), Trouble<'a>>
        ensures origin { self.new.origin ≡ self.old.origin }
        ensures stores { OnOk result (self.new.stores.items ≡ self.old.stores.items ++ store.entry.device ∷ []) }
        ensures held { OnOk result (self.new.held.items ≡ self.old.held.items ++ store.entry.held ∷ []) }
    {
        let Part { device, held: last } = store;
        let name = last.name;
        pushed(name, &mut self.stores, device)?;
        pushed(name, &mut self.held, last)
    }
}

/// Opens all files of a session, of which no two are one, locks them, and makes what is in them last.
pub fn session_files<'a>(
    rt: &'a HostRuntime,
    origin: &'a str,
    cows: &[&'a str],
) -> Result<SessionFiles<'a>, Trouble<'a>>
    ensures origin { IfOk result (λ files. (files.origin.file.name.now ≡ origin.now) × (files.origin.number ≡ 0)) }
    ensures stores { IfOk result (λ files. map (λ store. store.file.name.now) files.stores.items ≡ map text_of cows.now) }
    ensures numbers { IfOk result (λ files. (k : ℕ) (store : _) → k < length files.stores.items → (slice_index_or files.stores.items k store).number ≡ 1 + k) }
    ensures held { IfOk result (λ files. map (λ file. file.name.now) files.held.items ≡ origin.now ∷ map text_of cows.now) }
    ensures synced { IfOk result (λ files. All (λ file. map call_of file.file.noted.notes ≡ Sync true false ∷ []) files.held.items) }
{
    let first = opened(rt, origin)?;
    let stores = stores_opened(rt, &first, cows)?;
    let mut files = SessionFiles::new(rt, part_of(rt, first, 0)?)?;
    for store in stores {
        let number = 1 + files.stores.len() as u64;
        files.add(part_of(rt, store, number)?)?;
    }
    Ok(files)
}
