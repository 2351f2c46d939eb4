// A rig is made of audits.
ghost use Rattle.std.specs.Prelude.{◌≡◌, ◌+◌, ◌-◌, ◌<◌, ◌≤◌, ℕ, [], length, slice_index_or, vec_capacity, IfErr, IfOk};
ghost use Rattle.sector.specs.declared.refusal.Refusal.TheVariants.{NoMemory};
ghost use Rattle.audited_volume.specs.Books.{AuditShape};
ghost use Rattle.locked_volume.specs.Fixed.{fixed_of};
ghost use Rattle.volume_threads.specs.Placed.{AreNumbered};
ghost use Rattle.locked_volume.specs.Beside.{OpenedAt};
ghost use Rattle.volume_threads.specs.Rigs.{AreDealt, AreIdle, AreNewSeats, IsRoomOf, HasNoReceipts, IsStart};
ghost use Rattle.volume_threads.specs.Watching.{AreWatching};

use crate::opened::Opened;
use crate::place::VolumePlace;
use crate::queue::TicketQueue;
use crate::rig::Rig;
use crate::seat::Seat;
use crate::sitting::Sitting;
use crate::worker::Worker;
use audited_volume::Audit;
use layers::Layered;
use locked_volume::{OpenedVolume, Readers, Room};
use sector::Refusal;
use std::alloc::{AllocError, Global};
use std::marker::PhantomData;
use std::sync::{Condvar, Mutex};
use thread_channels::{Count, Gate};

/// A seat at each volume.
fn seat_row<J: Room>(
    alloc: Global,
    number: u8,
    volumes: &mut Vec<OpenedVolume>,
) -> Result<Vec<Sitting<J>>, AllocError>
    requires { AreDealt J.history J.boards J.volumes number 0 volumes.old.items }
    ensures dealt { IfOk result (λ _. AreDealt J.history J.boards J.volumes (number + 1) 0 volumes.new.items) }
    ensures row { IfOk result (λ row. (length row.items ≡ J.volumes) × AreIdle number row.items × HasNoReceipts row.items) }
{
    let mut row = Vec::new(alloc);
    for k in 0..volumes.len() {
        let volume = &mut volumes[k];
        let pass = volume.deal();
        row.push(Sitting::new(alloc, k, number, pass))?;
    }
    Ok(row)
}

/// Passes to the boards of each volume.
fn watch_row<J: Room>(
    alloc: Global,
    volumes: &mut Vec<OpenedVolume>,
) -> Result<Vec<Readers>, AllocError>
    requires many { length volumes.old.items ≡ J.volumes }
    requires boards { (k : ℕ) (d : OpenedAt) → k < J.volumes → (slice_index_or volumes.old.items k d).boards ≡ J.boards k }
    ensures same { volumes.new.items ≡ volumes.old.items }
    ensures row { IfOk result (λ row. AreWatching J.boards J.volumes row.items) }
{
    let mut row = Vec::new(alloc);
    for k in 0..volumes.len() {
        let volume = &mut volumes[k];
        row.push(volume.readers(alloc)?)?;
    }
    Ok(row)
}

/// Seats 1, 2 and so on, so many.
fn seats_of<J: Room>(
    alloc: Global,
    seats: usize,
    opened: &mut Opened,
) -> Result<Vec<Seat<J>>, AllocError>
    requires few { seats < 9 }
    requires dealt { AreDealt J.history J.boards J.volumes 1 0 opened.old.volumes }
    requires queue { (opened.old.queue ≡ J.queue) × (opened.old.parts ≡ 1024) }
    ensures queue { IfOk result (λ _. (opened.new.queue ≡ J.queue) × (opened.new.parts ≡ 1024 - seats)) }
    ensures volumes { IfOk result (λ _. AreDealt J.history J.boards J.volumes (seats + 1) 0 opened.new.volumes) }
    ensures new { IfOk result (λ all. AreNewSeats seats all.items) }
{
    let mut all = Vec::new(alloc);
    for i in 0..seats {
        let number = (i + 1) as u8;
        let sittings = seat_row(alloc, number, &mut opened.volumes)?;
        let watches = watch_row::<J>(alloc, &mut opened.volumes)?;
        let pass = opened.queue_pass();
        all.push(Seat {
            number,
            sittings,
            watches,
            pass,
            alloc,
        })?;
    }
    Ok(all)
}

/// So many workers.
fn workers_of<J: Room>(
    alloc: Global,
    workers: usize,
    opened: &mut Opened,
) -> Result<Vec<Worker<J>>, AllocError>
    requires few { workers < 5 }
    requires queue { (opened.old.queue ≡ J.queue) × (1000 < opened.old.parts) }
    ensures queue { IfOk result (λ _. opened.new.queue ≡ J.queue) }
    ensures same { IfOk result (λ _. opened.new.volumes ≡ opened.old.volumes) }
    ensures many { IfOk result (λ all. length all.items ≡ workers) }
{
    let mut all = Vec::new(alloc);
    for _ in 0..workers {
        let pass = opened.queue_pass();
        all.push(Worker { pass })?;
    }
    Ok(all)
}

/// The place of a volume.
fn place_one<B: Layered, J: Room>(
    volume: usize,
    audit: Audit<B>,
    opened: OpenedVolume,
) -> VolumePlace<B, J>
    requires history { opened.table ≡ J.history volume }
    requires boards { opened.boards ≡ J.boards volume }
    requires start { audit.entries ≡ J.start volume }
    requires held { audit.held ≡ [] }
    requires fixed { fixed_of B.size B.layers audit ≡ J.fixed volume }
    ensures { result.volume ≡ volume }
{
    let (beside, post) = opened.into_post(volume, audit);
    let piece = post.piece();
    VolumePlace {
        volume,
        piece,
        lock: Mutex::new(post),
        moved: Condvar::new(),
        beside,
    }
}

/// The places of all volumes, in their order. The vector of the audits keeps its room.
fn place_all<B: Layered, J: Room>(
    audits: &mut Vec<Audit<B>>,
    volumes: Vec<OpenedVolume>,
    places: &mut Vec<VolumePlace<B, J>>,
)
    requires many { (length audits.old.items ≡ J.volumes) × (length volumes.items ≡ J.volumes) }
    requires room { (places.old.items ≡ []) × (J.volumes ≤ vec_capacity places.old) }
    requires tables { (k : ℕ) (d : OpenedAt) → k < J.volumes → (slice_index_or volumes.items k d).table ≡ J.history k }
    requires boards { (k : ℕ) (d : OpenedAt) → k < J.volumes → (slice_index_or volumes.items k d).boards ≡ J.boards k }
    requires audits { (k : ℕ) (d : AuditShape B) → k < J.volumes → IsStart (J.start k) (J.fixed k) (fixed_of B.size B.layers (slice_index_or audits.old.items k d)) (slice_index_or audits.old.items k d) }
    ensures places { AreNumbered (λ p. p.volume) places.new.items × (length places.new.items ≡ J.volumes) }
    ensures audits { (audits.new.items ≡ []) × (vec_capacity audits.new ≡ vec_capacity audits.old) }
{
    let mut volumes = volumes;
    for volume in 0..audits.len() {
        let audit = audits.remove(0);
        let opened = volumes.remove(0);
        places.push_reserved(place_one(volume, audit, opened));
    }
}

impl<B: Layered + Drop, G: Gate + Drop, J: Room> Rig<B, G, J> {
    /// A rig over audited volumes that have no request in flight, with so many workers, 4 at most, and so many seats, 8 at most.
    /// `NoMemory` where memory is refused, with the audits as they were.
    pub fn new(
        alloc: Global,
        audits: Vec<Audit<B>>,
        workers: usize,
        seats: usize,
        gate: G,
        opened: Opened,
    ) -> Result<(Rig<B, G, J>, Vec<Worker<J>>, Vec<Seat<J>>), (Refusal, Vec<Audit<B>>)>
        requires many { (workers < 5) × (seats < 9) }
        requires room { IsRoomOf B.size B.layers audits.items opened J.volumes J.history J.boards J.start J.queue J.fixed }
        requires quiet { (k : ℕ) (d : AuditShape B) → k < length audits.items → (slice_index_or audits.items k d).held ≡ [] }
        ensures ok { IfOk result (λ r. (r.0.workers ≡ workers) × (length r.1.items ≡ workers) × AreNewSeats seats r.2.items) }
        ensures err { IfErr result (λ e. e ≡ record { 0 = NoMemory; 1 = audits }) }
    {
        let mut opened = opened;
        let Ok(all) = seats_of(alloc, seats, &mut opened) else {
            return Err((Refusal::NoMemory, audits));
        };
        let Ok(team) = workers_of(alloc, workers, &mut opened) else {
            return Err((Refusal::NoMemory, audits));
        };
        let Ok(mut places) = Vec::with_capacity(alloc, audits.len()) else {
            return Err((Refusal::NoMemory, audits));
        };
        let Opened {
            volumes,
            tickets,
            pass: _,
        } = opened;
        let mut audits = audits;
        place_all(&mut audits, volumes, &mut places);
        let queue = TicketQueue {
            tickets,
            count: Mutex::new(Count::new()),
            room: PhantomData,
        };
        let rig = Rig {
            places,
            audits,
            queue,
            workers,
            gate,
        };
        Ok((rig, team, all))
    }
}
