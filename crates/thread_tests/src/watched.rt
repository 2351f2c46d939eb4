// After each call of two seats, made in turn, the boards say what the status of a volume does that was asked the same.
ghost use denote.Param.Send.{IsSend, IsSync};
ghost use Rattle.std.specs.Prelude.{◌≡◌, ◌<◌, ℕ, [], length, slice_index_or, true, IfOk};
ghost use Rattle.audited_volume.specs.Books.{AuditShape};
ghost use Rattle.volume_threads.specs.Rigs.{IsRoomOf};

use crate::asked::{Asked, SECTORS, ask_seat, ask_volume, status_of};
use crate::open_gate::OpenGate;
use audited_volume::Audit;
use device::MemDisk;
use layers::Layered;
use plain_machine::{Dev, SnapId};
use sector::Refusal;
use snapshot::StoreDev;
use std::alloc::Global;
use std::marker::Brand;
use std::sync::Wait;
use std::test::Fail;
use std::thread;
use std::thread::Threads;
use thread_channels::{Gate, PlaceState, PlaceUsage};
use volume::Volume;
use volume_lifetime::LivedVolume;
use volume_threads::{Opened, Rig, Room, Seat, Worker};

/// The first snapshot, in chunks of four sectors.
const LARGE: SnapId = 1;

/// The second one, whose store is full after two copies, and may overflow.
const SMALL: SnapId = 2;

/// The third one, in chunks of two sectors, which is beside the merge of the first.
const OTHER: SnapId = 3;

/// The calls in turn, each with the seat that makes it, from 0.
const CALLS: [(usize, Asked); 10] = [
    (0, Asked::Write(Dev::Origin, 3, 1)),
    (1, Asked::Write(Dev::Snap(LARGE), 9, 1)),
    (0, Asked::Read(Dev::Snap(LARGE), 3, 1)),
    (1, Asked::Write(Dev::Snap(SMALL), 30, 1)),
    (0, Asked::Write(Dev::Snap(SMALL), 31, 1)),
    (1, Asked::Read(Dev::Snap(SMALL), 30, 2)),
    (1, Asked::Write(Dev::Origin, 10, 2)),
    (0, Asked::Write(Dev::Origin, 20, 30)),
    (1, Asked::Merge(LARGE)),
    (0, Asked::Write(Dev::Origin, 50, 1)),
];

/// Whether a seat sees on the boards what the volume beside it says.
fn agrees<B: Layered, G: Gate + Drop, J: Room>(
    rig: &Rig<B, G, J>,
    seat: &mut Seat<J>,
    beside: &Volume<B>,
) -> bool
    requires { 0 < J.volumes }
{
    seat.usage(rig, 0, 0) == status_of(beside, LARGE)
        && seat.usage(rig, 0, 1) == status_of(beside, SMALL)
        && seat.usage(rig, 0, 2) == status_of(beside, OTHER)
        && seat.usage(rig, 0, 3) == PlaceUsage::empty()
}

/// Whether each seat does.
fn all_agree<B: Layered, G: Gate + Drop, J: Room>(
    rig: &Rig<B, G, J>,
    seats: &mut [Seat<J>],
    beside: &Volume<B>,
) -> bool
    requires { 0 < J.volumes }
{
    for seat in seats.iter_mut() {
        if !agrees(rig, seat, beside) {
            return false;
        }
    }
    true
}

/// Makes the calls, and tells after how many of them boards and status are not the same: none, where they always are.
fn call_all<B: Layered, G: Gate + Drop, J: Room, R: Wait>(
    rt: &R,
    alloc: Global,
    rig: &Rig<B, G, J>,
    seats: &mut [Seat<J>],
    beside: &mut Volume<B>,
    calls: &[(usize, Asked)],
) -> Option<usize>
    requires some { 0 < J.volumes }
    requires merges { (snap : ℕ) → J.merges 0 snap ≡ true }
{
    let mut made = 0usize;
    for call in calls {
        let (by, asked) = *call;
        if let Some(seat) = seats.get_mut(by) {
            let _ = ask_seat(rt, alloc, rig, seat, asked);
        }
        let _ = ask_volume(alloc, beside, asked);
        made = made.wrapping_add(1);
        if !all_agree(rig, seats, beside) {
            return Some(made);
        }
    }
    None
}

/// What the thread of a worker does.
fn work<B: Layered, G: Gate + Drop, J: Room, R: Wait>(
    rt: &R,
    rig: &Rig<B, G, J>,
    worker: Worker<J>,
) {
    let mut worker = worker;
    rig.work(rt, &mut worker);
}

/// The calls, and then the workers are told to stop.
fn call_and_end<B: Layered, G: Gate + Drop, J: Room, R: Wait>(
    rt: &R,
    alloc: Global,
    rig: &Rig<B, G, J>,
    seats: &mut Vec<Seat<J>>,
    beside: &mut Volume<B>,
    calls: &[(usize, Asked)],
) -> Option<usize>
    requires some { 0 < J.volumes }
    requires merges { (snap : ℕ) → J.merges 0 snap ≡ true }
{
    let differs = call_all(rt, alloc, rig, seats.as_mut_slice(), beside, calls);
    if let Some(seat) = seats.first_mut() {
        rig.end(rt, seat);
    }
    differs
}

/// The calls, with workers on threads of their own.
fn call_with_workers<B, G, J, R>(
    rt: &R,
    alloc: Global,
    rig: &Rig<B, G, J>,
    workers: Vec<Worker<J>>,
    seats: &mut Vec<Seat<J>>,
    beside: &mut Volume<B>,
    calls: &[(usize, Asked)],
) -> Option<usize>
where
    B: Layered + Send + Sync,
    G: Gate + Drop + Sync,
    J: Room + Send + Sync,
    R: Threads + Wait + Sync,
    requires some { 0 < J.volumes }
    requires merges { (snap : ℕ) → J.merges 0 snap ≡ true }
{
    thread::scope(
        thread::scope_env(),
        rt,
        move |scope|
            requires some { 0 < J.volumes }
            requires merges { (snap : ℕ) → J.merges 0 snap ≡ true }
            requires crosses { IsSend B.row × IsSync B.row × IsSync G.row × IsSend J.row × IsSync J.row × IsSync R.row }
        {
            for worker in workers {
                if scope.spawn(move || work(rt, rig, worker)).is_err() {
                    return Some(0);
                }
            }
            call_and_end(rt, alloc, rig, seats, beside, calls)
        },
    )
}

/// The calls, by a rig of two seats and so many workers.
fn watched_in<B, G, J, R>(
    rt: &R,
    alloc: Global,
    audits: Vec<Audit<B>>,
    opened: Opened,
    workers: usize,
    gate: G,
    beside: &mut Volume<B>,
    calls: &[(usize, Asked)],
) -> Result<Option<usize>, Refusal>
where
    B: Layered + Send + Sync + Drop,
    G: Gate + Drop + Sync,
    J: Room + Send + Sync,
    R: Threads + Wait + Sync,
    requires room { IsRoomOf B.size B.layers audits.items opened J.volumes J.history J.boards J.start J.queue J.fixed }
    requires quiet { (k : ℕ) (d : AuditShape B) → k < length audits.items → (slice_index_or audits.items k d).held ≡ [] }
    requires some { 0 < J.volumes }
    requires merges { (snap : ℕ) → J.merges 0 snap ≡ true }
    requires few { workers < 5 }
{
    let made = Rig::<B, G, J>::new(alloc, audits, workers, 2, gate, opened);
    let (rig, team, mut seats) = match made {
        Ok(parts) => parts,
        Err((refusal, _)) => return Err(refusal),
    };
    if !all_agree(&rig, seats.as_mut_slice(), beside) {
        return Ok(Some(0));
    }
    Ok(call_with_workers(rt, alloc, &rig, team, &mut seats, beside, calls))
}

/// The same, by a rig of its own.
pub fn watched<B, G, R>(
    rt: &R,
    alloc: Global,
    audit: Audit<B>,
    workers: usize,
    gate: G,
    beside: &mut Volume<B>,
    calls: &[(usize, Asked)],
) -> Result<Option<usize>, Refusal>
where
    B: Layered + Send + Sync + Drop,
    G: Gate + Drop + Sync,
    R: Threads + Wait + Sync,
    requires quiet { audit.held ≡ [] }
    requires few { workers < 5 }
{
    let Ok(opened) = Opened::new(alloc, 1) else {
        return Err(Refusal::NoMemory);
    };
    let Ok(mut audits) = Vec::with_capacity(alloc, 1) else {
        return Err(Refusal::NoMemory);
    };
    audits.push_reserved(audit);
    watched_in::<B, G, Brand, R>(rt, alloc, audits, opened, workers, gate, beside, calls)
}

/// A snapshot more, with this store and chunks of so many sectors.
fn with_snapshot(
    alloc: Global,
    volume: LivedVolume<MemDisk>,
    device: MemDisk,
    chunk: u32,
    overflow: bool,
) -> Result<LivedVolume<MemDisk>, Fail>
    requires { volume.flights ≡ [] }
    ensures { IfOk result (λ v. v.flights ≡ []) }
{
    let mut volume = volume;
    let store = StoreDev {
        device,
        stale: false,
    };
    match volume.attach(alloc, store, chunk, overflow) {
        Ok(_) => Ok(volume),
        Err(_) => Err(Fail::from("no snapshot")),
    }
}

/// An origin with the first two snapshots.
pub fn volume_of_two(alloc: Global) -> Result<LivedVolume<MemDisk>, Fail>
    ensures { IfOk result (λ v. v.flights ≡ []) }
{
    let Ok(volume) = LivedVolume::new(alloc, MemDisk::new(alloc, SECTORS)?) else {
        return Err(Fail::from("no volume"));
    };
    let volume = with_snapshot(alloc, volume, MemDisk::new(alloc, 64)?, 4, false)?;
    with_snapshot(alloc, volume, MemDisk::new(alloc, 4)?, 1, true)
}

/// An origin with all three.
fn volume_of_three(alloc: Global) -> Result<LivedVolume<MemDisk>, Fail>
    ensures { IfOk result (λ v. v.flights ≡ []) }
{
    let volume = volume_of_two(alloc)?;
    with_snapshot(alloc, volume, MemDisk::new(alloc, 64)?, 2, false)
}

#[test]
fn boards_say_what_status_says_after_each_call(rt: HostRuntime) -> Result<(), Fail> {
    let alloc = rt.alloc();
    let Ok(audit) = Audit::new(alloc, volume_of_three(alloc)?) else {
        return Err(Fail::from("no audit"));
    };
    let mut beside = volume_of_three(alloc)?.into_volume();
    let gate = OpenGate { waits: false };
    assert!(rt; watched(&rt, alloc, audit, 1, gate, &mut beside, &CALLS)?.is_none());
    assert!(rt; status_of(&beside, SMALL).state == PlaceState::Invalid);
    assert!(rt; beside.merging() == Some(LARGE));
    assert!(rt; status_of(&beside, OTHER).state == PlaceState::Good);
    Ok(())
}
