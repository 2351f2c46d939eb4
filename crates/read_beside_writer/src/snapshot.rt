// What a snapshot shows is read while its files are written.
ghost use Rattle.std.specs.Prelude.{◌≡◌, ℕ, ◌+◌, ◌*◌, ◌%◌, ◌^◌, ◌<◌, ◌≤◌, length, IfSome, OnOk, Some};
ghost use Rattle.cow_format.specs.Pairs.{pairs_of};
ghost use Rattle.cow_image.specs.Shown.{shown};
ghost use Rattle.read_beside_writer.specs.Moments.{Files, AreRead, IsLive, IsSaving, SamePast};
ghost use Rattle.read_beside_writer.specs.Known.{AreKnown, AreOfOrigin, AreShown};

use crate::files::MovingFiles;
use crate::looking::{Pairs, look};
use crate::lost::Lost;
use cow_header::{Found, decode};
use std::alloc::Global;
use std::collections::BTreeMap;

/// A snapshot whose origin has so many sectors, while another program writes both files.
#[derive(Drop)]
pub struct LiveSnapshot<F: MovingFiles> {
    pub files: F,
    pub chunk: u32,
    pub size: u64,
    pub pairs: Pairs,
    pub ghost some: { 0 < chunk },
    pub ghost allowed: { chunk ≤ 1024 },
    pub ghost small: { size ≤ 68_719_476_736 },
    pub ghost known: { (h : ℕ → Files) → F.history files ≡ Some h → IsSaving chunk h → AreKnown chunk h (F.now files) pairs.listed.items },
}

impl<F: MovingFiles> LiveSnapshot<F> {
    /// The snapshot of a store with chunks of so many sectors, of which no pair is known yet.
    pub fn new(alloc: Global, files: F, chunk: u32, size: u64) -> LiveSnapshot<F>
        requires some { 0 < chunk }
        requires allowed { chunk ≤ 1024 }
        requires small { size ≤ 68_719_476_736 }
        ensures files { result.files ≡ files }
        ensures chunk { result.chunk ≡ chunk }
        ensures size { result.size ≡ size }
    {
        let pairs = Pairs {
            listed: Vec::new(alloc),
            places: BTreeMap::new(alloc),
        };
        LiveSnapshot {
            files,
            chunk,
            size,
            pairs,
        }
    }

    /// Reads what the snapshot shows from a byte on: first the origin, then the pairs that came, then their copies, and last the
    /// header. What the writer overwrote before the origin was read has a pair by then, or the header is marked.
    pub fn read(&mut self, at: u64, out: &mut [u8]) -> Result<(), Lost>
        requires inside { at + length out.old ≤ 512 * self.old.size }
        ensures saves { OnOk result ((h : ℕ → Files) → F.history self.old.files ≡ Some h → IsSaving self.old.chunk h → 512 * self.old.size ≤ length (h 0).origin → out.new ≡ shown self.old.chunk (h 0).origin (h 0).store (pairs_of self.old.chunk (h 0).store) at (length out.old)) }
        ensures history { SamePast F.history self.old.files self.new.files }
        ensures chunk { self.new.chunk ≡ self.old.chunk }
        ensures size { self.new.size ≡ self.old.size }
    {
        if let Err(error) = self.files.read_origin(at, out) {
            return Err(Lost::Origin(error));
        }
        look(&mut self.files, self.chunk, &mut self.pairs)?;
        put_copies(&mut self.files, self.chunk, &self.pairs, at, out)?;
        is_live(&mut self.files, self.chunk)
    }
}

/// Puts the copies of the chunks that have some into bytes of the origin, from one on.
fn put_copies<F: MovingFiles>(
    files: &mut F,
    chunk: u32,
    pairs: &Pairs,
    at: u64,
    out: &mut [u8],
) -> Result<(), Lost>
    requires some { 0 < chunk }
    requires allowed { chunk ≤ 1024 }
    requires near { at + length out.old < 2 ^ 63 }
    ensures shown { OnOk result ((h : ℕ → Files) → (first read : ℕ) → F.history files.old ≡ Some h → AreOfOrigin chunk h first read (F.now files.old) pairs.now.listed.items at out.old → AreShown chunk h (F.now files.new) at out.new (length out.old)) }
    ensures history { SamePast F.history files.old files.new }
    ensures later { F.now files.old ≤ F.now files.new }
{
    let bytes = 512 * chunk as u64;
    let mut done = 0;
    while done < out.len() {
        let from = at + done as u64;
        let len = (bytes - from % bytes).min((out.len() - done) as u64) as usize;
        put_part(files, chunk, pairs, from, &mut out[done..done + len])?;
        done += len;
    }
    Ok(())
}

/// Puts a copy into bytes of one chunk, if it has one.
fn put_part<F: MovingFiles>(
    files: &mut F,
    chunk: u32,
    pairs: &Pairs,
    from: u64,
    part: &mut [u8],
) -> Result<(), Lost>
    requires some { 0 < chunk }
    requires allowed { chunk ≤ 1024 }
    requires inside { from % (512 * chunk) + length part.old ≤ 512 * chunk }
    ensures shown { OnOk result ((h : ℕ → Files) → (first read : ℕ) → F.history files.old ≡ Some h → AreOfOrigin chunk h first read (F.now files.old) pairs.now.listed.items from part.old → AreShown chunk h (F.now files.new) from part.new (length part.old)) }
    ensures history { SamePast F.history files.old files.new }
    ensures later { F.now files.old ≤ F.now files.new }
{
    let bytes = 512 * chunk as u64;
    match pairs.places.get(&(from / bytes)) {
        Some(place) => put_copy(files, bytes, *place, from % bytes, part),
        None => Ok(()),
    }
}

/// Reads a part of a copy.
fn put_copy<F: MovingFiles>(
    files: &mut F,
    bytes: u64,
    place: u64,
    inside: u64,
    part: &mut [u8],
) -> Result<(), Lost>
    ensures data { OnOk result (IfSome (F.history files.old) (λ h. AreRead (λ m. (h m).store) (F.now files.old) (F.now files.new) (bytes * place + inside) part.new)) }
    ensures history { SamePast F.history files.old files.new }
    ensures later { F.now files.old ≤ F.now files.new }
{
    let Some(at) = byte_in(bytes, place, inside) else {
        return Err(Lost::Pairs);
    };
    match files.read_store(at, part) {
        Ok(()) => Ok(()),
        Err(error) => Err(Lost::Store(error)),
    }
}

/// A byte of a chunk of so many bytes.
fn byte_in(bytes: u64, number: u64, inside: u64) -> Option<u64>
    ensures { IfSome result (λ at. at ≡ bytes * number + inside) }
{
    bytes.checked_mul(number)?.checked_add(inside)
}

/// Sees that the header is still good.
fn is_live<F: MovingFiles>(files: &mut F, chunk: u32) -> Result<(), Lost>
    ensures live { OnOk result (IfSome (F.history files.old) (λ h. (m : ℕ) × (F.now files.old ≤ m) × IsLive chunk (h m))) }
    ensures history { SamePast F.history files.old files.new }
    ensures later { F.now files.old ≤ F.now files.new }
{
    let mut first = [0u8; 512];
    if let Err(error) = files.read_sector(0, &mut first) {
        return Err(Lost::Store(error));
    }
    match decode(first.as_slice()) {
        Ok(Found::Header { chunk: here }) if here == chunk => Ok(()),
        _ => Err(Lost::Header),
    }
}
