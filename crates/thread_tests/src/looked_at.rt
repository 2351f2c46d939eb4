// A seat reads a board while another one's read holds the volume's lock.
ghost use denote.Param.Send.{IsSend, IsSync};
ghost use Rattle.std.specs.Prelude.{◌≡◌, ◌<◌, ℕ, [], length, slice_index_or};
ghost use Rattle.audited_volume.specs.Books.{AuditShape};
ghost use Rattle.volume_threads.specs.Rigs.{IsRoomOf};

use crate::open_gate::OpenGate;
use crate::slow::Slow;
use crate::waiting::Waiting;
use audited_volume::Audit;
use device::MemDisk;
use layers::Layered;
use plain_machine::Dev;
use sector::{Range, Refusal};
use snapshot::StoreDev;
use std::alloc::Global;
use std::marker::Brand;
use std::sync::Wait;
use std::test::Fail;
use std::thread;
use std::thread::Threads;
use thread_channels::{PlaceState, PlaceUsage};
use volume_lifetime::LivedVolume;
use volume_threads::{Opened, Rig, Room, Seat};

/// The sectors of each disk.
const SECTORS: u64 = 64;

/// Reads a sector of the origin.
fn read<B: Layered, J: Room, R: Wait>(
    rt: &R,
    rig: &Rig<B, OpenGate, J>,
    seat: &mut Seat<J>,
) -> Result<(), Refusal>
    requires { 0 < J.volumes }
{
    let range = Range::new(5, 1, SECTORS)?;
    let _ = seat.read(rt, rig, 0, Dev::Origin, range)?;
    Ok(())
}

/// Reads the first place's board once the read has begun, and lets the read go on. None where the read never began.
fn look<B: Layered, J: Room>(
    rig: &Rig<B, OpenGate, J>,
    seat: &mut Seat<J>,
    waiting: &Waiting,
) -> Option<PlaceUsage>
    requires { 0 < J.volumes }
{
    if !waiting.has_begun() {
        return None;
    }
    let usage = seat.usage(rig, 0, 0);
    waiting.answer();
    Some(usage)
}

/// Seat 1 reads on a thread of its own, and then seat 2 looks. None where the thread can't be started.
fn read_and_look<B, J, R>(
    rt: &R,
    rig: &Rig<B, OpenGate, J>,
    seats: &mut Vec<Seat<J>>,
    waiting: &Waiting,
) -> Option<PlaceUsage>
where
    B: Layered + Send + Sync,
    J: Room + Send + Sync,
    R: Threads + Wait + Sync,
    requires { 0 < J.volumes }
{
    thread::scope(
        thread::scope_env(),
        rt,
        |scope|
            requires some { 0 < J.volumes }
            requires crosses { IsSend B.row × IsSync B.row × IsSend J.row × IsSync J.row × IsSync R.row }
        {
            let mut usage = None;
            for seat in seats.iter_mut() {
                if seat.number() > 1 {
                    usage = look(rig, seat, waiting);
                    continue;
                }
                if scope
                    .spawn(
                        move ||
                            requires { 0 < J.volumes }
                        {
                            let _ = read(rt, rig, seat);
                        },
                    )
                    .is_err()
                {
                    return None;
                }
            }
            usage
        },
    )
}

/// What the look saw.
fn looked_at_in<B, J, R>(
    rt: &R,
    alloc: Global,
    audits: Vec<Audit<B>>,
    opened: Opened,
    waiting: &Waiting,
) -> Result<Option<PlaceUsage>, Refusal>
where
    B: Layered + Send + Sync + Drop,
    J: Room + Send + Sync,
    R: Threads + Wait + Sync,
    requires room { IsRoomOf B.size B.layers audits.items opened J.volumes J.history J.boards J.start J.queue J.fixed }
    requires quiet { (k : ℕ) (d : AuditShape B) → k < length audits.items → (slice_index_or audits.items k d).held ≡ [] }
    requires some { 0 < J.volumes }
{
    let gate = OpenGate { waits: false };
    let (rig, _, mut seats) = match Rig::<B, OpenGate, J>::new(alloc, audits, 0, 2, gate, opened) {
        Ok(parts) => parts,
        Err((refusal, _)) => return Err(refusal),
    };
    waiting.arm();
    Ok(read_and_look(rt, &rig, &mut seats, waiting))
}

/// The same, by a rig of its own.
fn looked_at<B, R>(
    rt: &R,
    alloc: Global,
    audit: Audit<B>,
    waiting: &Waiting,
) -> Result<Option<PlaceUsage>, Refusal>
where
    B: Layered + Send + Sync + Drop,
    R: Threads + Wait + Sync,
    requires { audit.held ≡ [] }
{
    let Ok(opened) = Opened::new(alloc, 1) else {
        return Err(Refusal::NoMemory);
    };
    let Ok(mut audits) = Vec::with_capacity(alloc, 1) else {
        return Err(Refusal::NoMemory);
    };
    audits.push_reserved(audit);
    looked_at_in::<B, Brand, R>(rt, alloc, audits, opened, waiting)
}

fn slow(alloc: Global, waiting: &Waiting) -> Result<Slow<'_, MemDisk>, Fail> {
    Ok(Slow {
        inner: MemDisk::new(alloc, SECTORS)?,
        waiting,
    })
}

#[test]
fn a_look_is_answered_while_a_read_holds_the_lock(rt: HostRuntime) -> Result<(), Fail> {
    let alloc = rt.alloc();
    let waiting = Waiting::new();
    let Ok(mut volume) = LivedVolume::new(alloc, slow(alloc, &waiting)?) else {
        return Err(Fail::from("no volume"));
    };
    let store = StoreDev {
        device: slow(alloc, &waiting)?,
        stale: false,
    };
    let Ok(_) = volume.attach(alloc, store, 1, false) else {
        return Err(Fail::from("no snapshot"));
    };
    let Ok(audit) = Audit::new(alloc, volume) else {
        return Err(Fail::from("no audit"));
    };
    let usage = looked_at(&rt, alloc, audit, &waiting)?;
    let fresh = PlaceUsage {
        state: PlaceState::Good,
        allocated: 2,
        metadata: 2,
    };
    assert!(rt; usage == Some(fresh));
    assert!(rt; waiting.was_in_time());
    Ok(())
}
