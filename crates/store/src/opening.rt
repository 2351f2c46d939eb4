// A store is opened: its first sector says whether it is fresh, and a written one gives its pairs. Nothing is written.
ghost use Rattle.std.specs.Prelude.{◌≡◌, ◌⊎◌, ℕ, ◌+◌, ◌*◌, ◌/◌, ◌<◌, ◌≤◌, List, [], length, replicate, is_ok, OnOk, OnErr, IfOk, IfErr, MatchResult, IsTrue, Ok, Err, true, false, AllPairs};
ghost use Rattle.sector.specs.Bytes.{sector_at};
ghost use Rattle.sector.specs.declared.refusal.Refusal.TheVariants.{NoMemory, Io as IoRefusal, StoreTooSmall, Damaged};
ghost use Rattle.std.specs.List.{All};
ghost use Rattle.chunk.specs.Sizes.{is_chunk};
ghost use Rattle.device.specs.Layers.{fate, is_answered, layers_after, is_loud};
ghost use Rattle.device.specs.declared.operation.Operation.TheVariants.{Reads};
ghost use Rattle.cow_format.specs.Places.{chunk_at, area_place};
ghost use Rattle.cow_format.specs.Pairs.{pairs_of, IsApart, IsInside, AreWellFormed};
ghost use Rattle.metadata_area.specs.Cleared.{HasTail, HasNoTail};
ghost use Rattle.cow_header.specs.HeaderText.{found_in};
ghost use Rattle.cow_header.specs.declared.found.Found.TheVariants.{Fresh as FoundFresh, Header as FoundHeader};
ghost use Rattle.store.specs.Held.{committed, pending, reserved};
ghost use Rattle.store.specs.Loaded.{IsCleared};
ghost use Rattle.store.specs.Opening.{IsRefused, IsOpenedFresh, IsOpenedWritten, IsFirstRefusal, faults_after};
ghost use Rattle.store.specs.Opened.{EitherAddsNow, EitherAsLoud, EitherCounts, EitherKeeps, HasNoCopies, HasNoRoom, MatchLoaded};
ghost use Rattle.store.specs.Reading.{ended, all_read, read_found, read_pairs, reading, IsEnded};
ghost use Rattle.store.specs.Starved.{ArePartRead, IsStarved};
ghost use Rattle.crash_laws.specs.Firm.{AddsNow};
ghost use Rattle.store.specs.Devices.{AddsOnlyNow, IsAsLoud, Keeps};

use crate::judging::{are_formed, greatest_new};
use crate::loading::read_areas;
use crate::{Left, State, Store};
use chunk_alloc::Alloc;
use cow_header::{Found, decode};
use device::Block;
use exception_arena::Arena;
use metadata_area::Area;
use sector::{Pair, Range, Refusal, SECTOR_BYTES};
use std::alloc::Global;

/// What the first sector of a store says. A device without sectors is `StoreTooSmall`, and is not read.
fn read_header<B: Block>(device: &mut B) -> Result<Found, Refusal>
    ensures found { IfOk result (λ found. (0 < B.size device.old) × (found_in (sector_at (B.contents device.old) 0) ≡ Ok found)) }
    ensures allowed { IfOk result (λ found. (chunk : ℕ) → found ≡ FoundHeader chunk → is_chunk chunk ≡ true) }
    ensures refused { IfErr result (IsFirstRefusal (B.size device.old) (B.contents device.old)) }
    ensures contents { Keeps B.contents device.old device.new }
    ensures durable { Keeps B.durable device.old device.new }
    ensures adds { AddsOnlyNow B.Block device.old device.new }
    ensures size { Keeps B.size device.old device.new }
    ensures loud { IsAsLoud B.layers device.old device.new }
    ensures one { OnOk result (B.layers device.new ≡ layers_after (B.layers device.old) (Reads 0 1)) }
    ensures answered { OnOk result (is_answered (fate (B.layers device.old) (Reads 0 1)) ≡ true) }
    ensures fed { IfErr result (λ e. e ≡ NoMemory → ⊥) }
    ensures says { IfOk result (λ found. (line : ℕ) → reading line (B.size device.old) (B.contents device.old) (B.layers device.old) ≡ read_found line (B.size device.old) (B.contents device.old) (Ok found) (B.layers device.new)) }
    ensures unread { IfErr result (λ e. (line : ℕ) → reading line (B.size device.old) (B.contents device.old) (B.layers device.old) ≡ ended e (B.layers device.new)) }
    ensures faults { MatchResult result (λ _. B.fault_count device.new ≡ B.fault_count device.old) (λ e. B.fault_count device.new ≡ faults_after e (B.fault_count device.old)) }
{
    let size = device.sectors();
    if size == 0 {
        return Err(Refusal::StoreTooSmall);
    }
    let range = Range {
        first: 0,
        count: 1,
        size,
    };
    let mut first = [0u8; SECTOR_BYTES];
    match device.read(range, &mut first) {
        Ok(()) => match decode(&first) {
            Ok(found) => Ok(found),
            Err(refusal) => Err(refusal),
        },
        Err(_) => Err(Refusal::Io),
    }
}

/// Whether a load found a header.
#[derive(Clone, Copy, PartialEq, Eq)]
pub enum Loaded {
    /// The store was fresh.
    Fresh,
    /// The store had a header, and perhaps pairs.
    Written,
}

/// Opens a store, for an origin of so many sectors, 2^31 at most as any device has: a fresh one with chunks of so many sectors, a written one with those
/// of its header. It only reads, and takes the room for two chunks and for a pair to each chunk of the device. `prepare`
/// does the flushes and writes that a load leaves.
///
/// The refusals, in this order: `Io` where the first sector cannot be read; `BadHeader`, `BadVersion`, `BadChunk` and
/// `Invalid` by that sector; `StoreTooSmall` for less than two chunks; `Io` where an area cannot be read, up to the one of
/// the first empty slot; `Damaged` where the pairs are not well formed. `NoMemory` comes behind what the first sector
/// refuses. The device is given back with a refusal.
pub fn open<B: Block>(
    alloc: Global,
    mut device: B,
    chunk: u32,
    origin: u64,
) -> Result<(Store<B>, Loaded), (Refusal, B)>
    requires chunk { is_chunk chunk ≡ true }
    requires near { origin ≤ 2_147_483_648 }
    ensures opened { IfOk result (λ opened. MatchLoaded opened.1 (IsOpenedFresh chunk origin (B.size device) (B.contents device) opened.0.state (committed opened.0.exceptions)) (IsOpenedWritten origin (B.size device) (B.contents device) opened.0.state (committed opened.0.exceptions))) }
    ensures pending { IfOk result (λ opened. length (pending opened.0.exceptions) ≡ 0) }
    ensures reserved { IfOk result (λ opened. reserved opened.0.exceptions ≡ 0) }
    ensures refused { IfErr result (λ refused. IsRefused chunk origin (B.size device) (B.contents device) refused.0) }
    ensures contents { MatchResult result (λ opened. B.contents opened.0.device ≡ B.contents device) (λ refused. B.contents refused.1 ≡ B.contents device) }
    ensures durable { MatchResult result (λ opened. B.durable opened.0.device ≡ B.durable device) (λ refused. B.durable refused.1 ≡ B.durable device) }
    ensures adds { MatchResult result (λ opened. AddsNow (B.may_hold device) (B.may_hold opened.0.device) (B.contents opened.0.device)) (λ refused. AddsNow (B.may_hold device) (B.may_hold refused.1) (B.contents refused.1)) }
    ensures size { MatchResult result (λ opened. B.size opened.0.device ≡ B.size device) (λ refused. B.size refused.1 ≡ B.size device) }
    ensures loud { MatchResult result (λ opened. is_loud (B.layers opened.0.device) ≡ is_loud (B.layers device)) (λ refused. is_loud (B.layers refused.1) ≡ is_loud (B.layers device)) }
    ensures starved { IfErr result (λ refused. refused.0 ≡ NoMemory → IsStarved chunk (B.size device) (B.contents device) (B.layers device) (B.layers refused.1)) }
    ensures layers { MatchResult result (λ opened. reading chunk (B.size device) (B.contents device) (B.layers device) ≡ all_read (B.layers opened.0.device)) (λ refused. IsEnded (reading chunk (B.size device) (B.contents device) (B.layers device)) refused.0 (B.layers device) (B.layers refused.1)) }
    ensures faults { MatchResult result (λ opened. B.fault_count opened.0.device ≡ B.fault_count device) (λ refused. B.fault_count refused.1 ≡ faults_after refused.0 (B.fault_count device)) }
{
    let found = match read_header(&mut device) {
        Ok(found) => found,
        Err(refusal) => return Err((refusal, device)),
    };
    match found {
        Found::Fresh => {
            if device.sectors() < 2 * chunk as u64 {
                return Err((Refusal::StoreTooSmall, device));
            }
            match open_fresh(alloc, device, chunk, origin) {
                Ok(store) => Ok((store, Loaded::Fresh)),
                Err(refused) => Err(refused),
            }
        }
        Found::Header { chunk } => {
            if device.sectors() < 2 * chunk as u64 {
                return Err((Refusal::StoreTooSmall, device));
            }
            match open_written(alloc, device, chunk, origin) {
                Ok(store) => Ok((store, Loaded::Written)),
                Err(refused) => Err(refused),
            }
        }
    }
}

/// A store over a device that is fresh: no pairs, and area 0, which is to be zeroed, as the current one. `NoMemory` where
/// memory for two chunks, or for a pair to each chunk of the device, is refused.
fn open_fresh<B: Block>(
    alloc: Global,
    device: B,
    chunk: u32,
    origin: u64,
) -> Result<Store<B>, (Refusal, B)>
    requires size { is_chunk chunk ≡ true }
    requires some { 0 < chunk }
    requires allowed { chunk ≤ 1024 }
    requires near { origin ≤ 2_147_483_648 }
    requires large { 2 * chunk ≤ B.size device }
    requires found { found_in (sector_at (B.contents device) 0) ≡ Ok FoundFresh }
    ensures device { IfOk result (λ store. store.device ≡ device) }
    ensures state { IfOk result (λ store. store.state ≡ record { chunk = chunk; origin = origin; size = B.size device; current = 0; filled = 0; zeroed = false; firm = false; sure = 0; left = Left.FirstArea; awaits = true; copying = true; valid = true }) }
    ensures committed { IfOk result (λ store. committed store.exceptions ≡ []) }
    ensures pending { IfOk result HasNoCopies }
    ensures reserved { IfOk result HasNoRoom }
    ensures next { IfOk result (λ store. store.places.next ≡ 2) }
    ensures refused { IfErr result (λ e. (e.0 ≡ NoMemory) × (e.1 ≡ device)) }
{
    let Ok((area, spare)) = two_areas(alloc, chunk) else {
        return Err((Refusal::NoMemory, device));
    };
    let size = device.sectors();
    let Ok(exceptions) = Arena::with_room(alloc, chunks_of(size, chunk)) else {
        return Err((Refusal::NoMemory, device));
    };
    let state = State {
        chunk,
        origin,
        size,
        current: 0,
        filled: 0,
        zeroed: false,
        firm: false,
        sure: 0,
        left: Left::FirstArea,
        awaits: true,
        copying: true,
        valid: true,
    };
    Ok(Store {
        device,
        exceptions,
        area,
        spare,
        places: Alloc::new(chunk, size),
        state,
    })
}

/// How many chunks a device has, and so how many pairs a store on it has at most. Memory for so many is taken at once and
/// untouched until they come, since lists that grow by being moved leave holes in memory.
fn chunks_of(size: u64, chunk: u32) -> usize
    requires { 0 < chunk }
    ensures { result ≡ size / chunk }
{
    (size / chunk as u64) as usize
}

/// Two areas of zeros; `NoMemory` where memory for them is refused.
fn two_areas(alloc: Global, chunk: u32) -> Result<(Area, Area), Refusal>
    requires some { 0 < chunk }
    requires allowed { chunk ≤ 1024 }
    ensures first { IfOk result (λ areas. areas.0.chunk ≡ chunk) }
    ensures second { IfOk result (λ areas. areas.1.chunk ≡ chunk) }
    ensures first_zero { IfOk result (λ areas. areas.0.bytes.items ≡ replicate (512 * chunk) 0) }
    ensures second_zero { IfOk result (λ areas. areas.1.bytes.items ≡ replicate (512 * chunk) 0) }
    ensures refusal { IfErr result (λ e. e ≡ NoMemory) }
{
    Ok((Area::new(alloc, chunk)?, Area::new(alloc, chunk)?))
}

/// A store over a device that has a header with this chunk size: its pairs, if they are well formed.
fn open_written<B: Block>(
    alloc: Global,
    mut device: B,
    chunk: u32,
    origin: u64,
) -> Result<Store<B>, (Refusal, B)>
    requires size { is_chunk chunk ≡ true }
    requires some { 0 < chunk }
    requires allowed { chunk ≤ 1024 }
    requires near { origin ≤ 2_147_483_648 }
    requires large { 2 * chunk ≤ B.size device }
    requires found { found_in (sector_at (B.contents device) 0) ≡ Ok (FoundHeader chunk) }
    ensures chunk { IfOk result (λ store. store.state.chunk ≡ chunk) }
    ensures pairs { IfOk result (λ store. pairs_of chunk (B.contents device) ≡ committed store.exceptions) }
    ensures formed { IfOk result (λ store. AreWellFormed chunk origin (B.size device) (committed store.exceptions)) }
    ensures count { IfOk result (λ store. length (committed store.exceptions) ≡ store.state.current * (32 * chunk) + store.state.filled) }
    ensures part { IfOk result (λ store. store.state.filled < 32 * chunk) }
    ensures tail { IfOk result (λ store. (store.state.left ≡ Left.Tail) × HasTail (chunk_at chunk (B.contents device) (area_place chunk store.state.current)) store.state.filled ⊎ (store.state.left ≡ Left.Nothing) × HasNoTail (chunk_at chunk (B.contents device) (area_place chunk store.state.current)) store.state.filled) }
    ensures rest { IfOk result (λ store. (store.state.origin ≡ origin) × (store.state.size ≡ B.size device) × (store.state.zeroed ≡ false) × (store.state.firm ≡ false) × (store.state.awaits ≡ true) × (store.state.copying ≡ true)) }
    ensures sure { IfOk result (λ store. store.state.sure ≡ 0) }
    ensures valid { IfOk result (λ store. store.state.valid ≡ true) }
    ensures pending { IfOk result (λ store. length (pending store.exceptions) ≡ 0) }
    ensures reserved { IfOk result HasNoRoom }
    ensures refused { IfErr result (λ refused. (refused.0 ≡ IoRefusal) ⊎ (refused.0 ≡ NoMemory) ⊎ ((refused.0 ≡ Damaged) × (AreWellFormed chunk origin (B.size device) (pairs_of chunk (B.contents device)) → ⊥))) }
    ensures contents { EitherKeeps B.contents device result }
    ensures durable { EitherKeeps B.durable device result }
    ensures adds { EitherAddsNow device result }
    ensures size { EitherKeeps B.size device result }
    ensures loud { EitherAsLoud device result }
    ensures starved { IfErr result (λ refused. refused.0 ≡ NoMemory → ArePartRead chunk (B.size device) (B.contents device) (B.layers device) (B.layers refused.1)) }
    ensures layers { MatchResult result (λ store. read_pairs chunk (B.size device) (B.contents device) (B.layers device) ≡ all_read (B.layers store.device)) (λ refused. IsEnded (read_pairs chunk (B.size device) (B.contents device) (B.layers device)) refused.0 (B.layers device) (B.layers refused.1)) }
    ensures faults { EitherCounts device result }
{
    let Ok((mut area, spare)) = two_areas(alloc, chunk) else {
        return Err((Refusal::NoMemory, device));
    };
    let size = device.sectors();
    let Ok(mut pairs) = Vec::with_capacity(alloc, chunks_of(size, chunk)) else {
        return Err((Refusal::NoMemory, device));
    };
    let current = match read_areas(&mut device, &mut area, &mut pairs) {
        Ok(current) => current,
        Err(refusal) => return Err((refusal, device)),
    };
    let exceptions = match hold_formed(alloc, chunk, origin, size, pairs.as_slice()) {
        Ok(exceptions) => exceptions,
        Err(refusal) => return Err((refusal, device)),
    };
    let filled = (pairs.len() as u64 - current * (32 * chunk as u64)) as u32;
    let left = clear_load(&mut area, filled);
    let state = State {
        chunk,
        origin,
        size,
        current,
        filled,
        zeroed: false,
        firm: false,
        sure: 0,
        left,
        awaits: true,
        copying: true,
        valid: true,
    };
    let places = Alloc::after_load(chunk, size, greatest_new(pairs.as_slice()));
    Ok(Store {
        device,
        exceptions,
        area,
        spare,
        places,
        state,
    })
}

/// Holds these pairs as committed ones, where they are well formed; else `Damaged`. `NoMemory` where memory is refused: it is
/// taken for a pair to each chunk of the device.
fn hold_formed(
    alloc: Global,
    chunk: u32,
    origin: u64,
    size: u64,
    pairs: &[Pair],
) -> Result<Arena, Refusal>
    requires some { 0 < chunk }
    requires allowed { chunk ≤ 1024 }
    requires near { origin ≤ 2_147_483_648 }
    requires small { size ≤ 2_147_483_648 }
    ensures inside { IfOk result (λ _. All (IsInside chunk origin size) pairs.now) }
    ensures apart { IfOk result (λ _. AllPairs IsApart pairs.now) }
    ensures committed { IfOk result (λ exceptions. committed exceptions ≡ pairs.now) }
    ensures pending { IfOk result (λ exceptions. length (pending exceptions) ≡ 0) }
    ensures reserved { IfOk result (λ exceptions. reserved exceptions ≡ 0) }
    ensures starved { IfErr result (λ e. e ≡ NoMemory → All (IsInside chunk origin size) pairs.now) }
    ensures refused { IfErr result (λ e. (e ≡ NoMemory) ⊎ ((e ≡ Damaged) × (All (IsInside chunk origin size) pairs.now → AllPairs IsApart pairs.now → ⊥))) }
{
    match are_formed(alloc, chunk, origin, size, pairs) {
        Ok(true) => {
            let mut exceptions = Arena::with_room(alloc, chunks_of(size, chunk))?;
            exceptions.hold(pairs)?;
            Ok(exceptions)
        }
        Ok(false) => Err(Refusal::Damaged),
        Err(refusal) => Err(refusal),
    }
}

/// Zeroes what follows an area's first empty slot, and tells whether the area is to be written for that.
fn clear_load(area: &mut Area, filled: u32) -> Left
    requires part { filled < 32 * area.old.chunk }
    ensures chunk { area.new.chunk ≡ area.old.chunk }
    ensures cleared { IsCleared area.old.chunk filled area.old.bytes.items result area.new.bytes.items }
    ensures tail { (result ≡ Left.Tail) × HasTail area.old.bytes.items filled ⊎ (result ≡ Left.Nothing) × HasNoTail area.old.bytes.items filled }
{
    if area.has_tail(filled) {
        area.clear_tail(filled);
        Left::Tail
    } else {
        Left::Nothing
    }
}
