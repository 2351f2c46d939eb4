// Which copies a write at a sector of the origin needs, each snapshot of its own chunk: the room for them is taken, and then
// they are started.
ghost use Rattle.std.specs.Prelude.{◌≡◌, ◌==◌, ◌&&◌, ◌+◌, ◌*◌, ◌/◌, ◌^◌, ◌<◌, ◌≤◌, [], IfErr, IfOk, OnErr, OnOk, count_by, length, map, sum_by, true};
ghost use Rattle.std.specs.List.{All};
ghost use Rattle.chunk.specs.Sizes.{is_chunk};
ghost use Rattle.sector.specs.declared.refusal.Refusal.TheVariants.{NoMemory};
ghost use Rattle.snapshot_list.specs.Numbers.{count_in};
ghost use Rattle.snapshot_list.specs.Starting.{AreSavedIn, HasRoomFor, HaveRooms, IsSavedIn, lacks, lacks_chunk, own_of, starts, unroomed};

use device::Block;
use in_flight::{Flight, has_copy, refuse, sectors_of};
use plain_machine::SnapId;
use sector::{Chunk, Refusal};
use snapshot::Snapshot;
use std::alloc::Global;

/// How many whole chunks so many sectors are. Chunks are powers of two: a shift is several times as fast as a division.
#[inline(always)]
pub(crate) fn whole_chunks(sectors: u64, chunk: u32) -> u64
    requires { is_chunk chunk ≡ true }
    ensures { result ≡ sectors / chunk }
{
    sectors >> chunk.trailing_zeros()
}

/// A snapshot's chunk of a sector of the origin.
#[inline(always)]
pub fn own_chunk<B: Block>(snap: &Snapshot<B>, first: u64) -> Chunk
    ensures { result ≡ first / snap.now.state.chunk }
{
    whole_chunks(first, snap.chunk())
}

/// Whether a snapshot is live, and has neither a chunk nor a copy of it under way.
pub fn is_lacking_chunk<B: Block>(snap: &Snapshot<B>, chunk: Chunk) -> bool
    ensures { result ≡ lacks_chunk chunk snap.now }
{
    snap.is_live() && !snap.place_of(chunk).is_some() && !has_copy(snap.copies(), chunk)
}

/// Whether a snapshot is live, and has neither its chunk of a sector nor a copy of it under way.
pub fn is_lacking<B: Block>(snap: &Snapshot<B>, first: u64) -> bool
    ensures { result ≡ lacks first snap.now }
{
    is_lacking_chunk(snap, own_chunk(snap, first))
}

/// Makes room for the copy of a snapshot's chunk of a sector, where it lacks it: the buffer is as long as the chunk, or
/// empty where none is needed. Nothing else of the snapshot changes. `NoMemory` where room is refused, and nothing else.
#[inline(always)]
pub fn take_room<B: Block>(
    alloc: Global,
    snap: &mut Snapshot<B>,
    first: u64,
) -> Result<Vec<u8>, Refusal>
    ensures same { unroomed snap.new ≡ unroomed snap.old }
    ensures ok { IfOk result (λ room. HasRoomFor first snap.new room) }
    ensures refusal { IfErr result (λ e. e ≡ NoMemory) }
{
    if !is_lacking(snap, first) {
        return Ok(Vec::new(alloc));
    }
    let sectors = sectors_of(snap.chunk(), snap.sectors(), own_chunk(snap, first));
    match snap.reserve() {
        Ok(()) => {}
        Err(refusal) => return Err(refusal),
    }
    snap.take_buffer(alloc, 512 * sectors as usize)
}

/// Makes the room for the copies of the chunks of a sector, in all snapshots: a buffer for each, in their order, and nothing
/// else is left in the list. `NoMemory` where room is refused, and nothing else: the list is then empty, and the snapshots before
/// may have more room.
pub fn take_rooms<B: Block>(
    alloc: Global,
    snaps: &mut [Snapshot<B>],
    first: u64,
    rooms: &mut Vec<Vec<u8>>,
) -> Result<(), Refusal>
    ensures same { map unroomed snaps.new ≡ map unroomed snaps.old }
    ensures ok { OnOk result (HaveRooms first snaps.new rooms.new.items) }
    ensures refusal { IfErr result (λ e. e ≡ NoMemory) }
    ensures emptied { OnErr result (rooms.new.items ≡ []) }
{
    rooms.clear();
    let Ok(()) = rooms.reserve(snaps.len()) else {
        return Err(Refusal::NoMemory);
    };
    for k in 0..snaps.len() {
        match take_room(alloc, &mut snaps[k], first) {
            Ok(room) => rooms.push_reserved(room),
            Err(refusal) => {
                rooms.clear();
                return Err(refusal);
            }
        }
    }
    Ok(())
}

/// Starts the copy of a snapshot's chunk of a sector, where it lacks it, under the next number, and tells how many numbers
/// were given then. A snapshot whose store is full is spoiled, and its requests are refused.
#[inline(always)]
pub fn save_in<B: Block>(
    snap: &mut Snapshot<B>,
    flights: &mut [Flight],
    copies: u64,
    first: u64,
    room: Vec<u8>,
) -> u64
    requires begins { first < snap.old.state.origin }
    requires room { HasRoomFor first snap.old room }
    requires few { copies + 1 < 2 ^ 64 }
    ensures saved { IsSavedIn B.contents B.layers (own_of first snap.old) snap.old snap.new copies result flights.old flights.new }
{
    // A look: a chunk has a sector at least. So the room tells whether the chunk is lacking, and it is not sought again.
    let _ = snap.chunk();
    if room.is_empty() {
        return copies;
    }
    let chunk = own_chunk(snap, first);
    if snap.start(copies + 1, chunk, room) {
        copies + 1
    } else {
        let number = snap.number();
        snap.spoil();
        refuse(flights, number);
        copies
    }
}

/// Starts the copies of the chunks of a sector in all snapshots that lack theirs, in their order, and tells how many numbers
/// were given then. The rooms are handed over, and the list is left empty.
pub fn save_in_all<B: Block>(
    snaps: &mut [Snapshot<B>],
    flights: &mut [Flight],
    copies: u64,
    first: u64,
    rooms: &mut Vec<Vec<u8>>,
) -> u64
    requires begins { All (λ s. first < s.state.origin) snaps.old }
    requires rooms { HaveRooms first snaps.old rooms.old.items }
    requires few { copies + length snaps.old < 2 ^ 64 }
    ensures saved { AreSavedIn B.contents B.layers (own_of first) snaps.old snaps.new copies result flights.old flights.new }
{
    let mut given = copies;
    let mut place = 0;
    for room in rooms.drain(..) {
        given = save_in(&mut snaps[place], flights, given, first, room);
        place += 1;
    }
    given
}

/// How many copies of a snapshot are not published, those aside that a merge started: at most 256.
fn waiting_count<B: Block>(snap: &Snapshot<B>) -> usize
    requires { count_in snap.now ≤ 256 }
    ensures { result ≡ count_in snap.now }
{
    let count = snap.marks().len() + snap.copies().len();
    if snap.merging().is_some() {
        count.saturating_sub(1)
    } else {
        count
    }
}

/// How many copies of all snapshots are not published, those aside that a merge started: at most 256.
pub fn pending_count<B: Block>(snaps: &[Snapshot<B>]) -> usize
    requires { sum_by count_in snaps.now ≤ 256 }
    ensures { result ≡ sum_by count_in snaps.now }
{
    let mut count = 0;
    for snap in snaps {
        count += waiting_count(snap);
    }
    count
}

/// Whether a snapshot starts a copy of its chunk of a sector.
fn is_starting<B: Block>(snap: &Snapshot<B>, first: u64) -> bool
    ensures { result ≡ starts first snap.now }
{
    is_lacking(snap, first) && !snap.is_full()
}

/// How many snapshots start a copy of their chunk of a sector.
pub fn starting_count<B: Block>(snaps: &[Snapshot<B>], first: u64) -> usize
    ensures { result ≡ count_by (starts first) snaps.now }
{
    snaps.iter().filter(|s| is_starting(s, first)).count()
}

/// Whether a snapshot is the one with a number, and starts a copy of its chunk of a sector.
fn is_starting_as<B: Block>(snap: &Snapshot<B>, number: SnapId, first: u64) -> bool
    ensures { result ≡ ((snap.now.number == number) && starts first snap.now) }
{
    snap.number() == number && is_starting(snap, first)
}

/// How many snapshots with a number start a copy of their chunk of a sector.
pub fn starting_count_of<B: Block>(snaps: &[Snapshot<B>], number: SnapId, first: u64) -> usize
    ensures { result ≡ count_by (λ s. (s.number == number) && starts first s) snaps.now }
{
    snaps
        .iter()
        .filter(|s| is_starting_as(s, number, first))
        .count()
}
