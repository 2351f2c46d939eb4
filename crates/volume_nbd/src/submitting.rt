// A piece is handed on to the volume.
ghost use Rattle.std.specs.Prelude.{◌≡◌, ◌+◌, ◌*◌, ◌≤◌, IfOk, List, length, sum_by, true, ℕ};
ghost use Rattle.plain_machine.specs.declared.request.Op.TheVariants.{Write};
ghost use Rattle.nbd_jobs.specs.declared.work.Kind.TheVariants.{Write as AsksWrite};
ghost use Rattle.nbd_jobs.specs.declared.work.Work.{Work};
ghost use Rattle.snapshot_list.specs.Numbers.{count_in};
ghost use Rattle.volume_nbd.specs.Served.{ChangesVolume};
ghost use Rattle.volume_nbd.specs.Submits.{DoesTakeIn, IsCrowded, IsHandedOn, op_of};

use crate::VolumeArray;
use crate::answers::refused;
use crate::looking::look_at;
use device::{Ahead, Block};
use in_flight::MAX_COPIES;
use nbd_backend::Refused;
use nbd_jobs::{Kind, Work};
use nbd_messages::ErrorValue;
use plain_machine::{Op, Request};
use sector::{Buf, Range};
use snapshot::Snapshot;
use std::alloc::{AllocError, Global};
use volume::Volume;

/// What is asked of the volume. Zeros are written.
fn operation(alloc: Global, work: Work, part: &[u8]) -> Result<Op, AllocError>
    ensures { IfOk result (λ op. op ≡ op_of work.kind work.count part.now) }
{
    match work.kind {
        Kind::Read => Ok(Op::Read),
        Kind::Write => Ok(Op::Write(Buf::from_slice(alloc, part)?)),
        Kind::Zeroes => Ok(Op::Write(Buf::zeroed(alloc, 512 * work.count as usize)?)),
        Kind::Flush => Ok(Op::Flush),
    }
}

/// How many copies of a snapshot are not published, those aside that a merge started. They are counted up to what a number holds.
fn waiting_count<B: Ahead>(snap: &Snapshot<B>) -> usize
    ensures { result ≤ count_in snap.now }
{
    let count = snap.marks().len().saturating_add(snap.copies().len());
    if snap.merging().is_some() {
        count.saturating_sub(1)
    } else {
        count
    }
}

/// How many copies of all snapshots are not published, and one more for each snapshot, counted likewise.
fn wanted_count<B: Ahead>(snaps: &[Snapshot<B>]) -> usize
    ensures { result ≤ sum_by count_in snaps.now + length snaps.now }
{
    let mut count = snaps.len();
    for snap in snaps {
        count = count.saturating_add(waiting_count(snap));
    }
    count
}

/// Whether a write that starts a copy for each snapshot would find no room.
fn is_crowded<B: Ahead>(volume: &Volume<B>) -> bool
    ensures { result ≡ true → IsCrowded volume.now }
{
    MAX_COPIES < wanted_count(volume.snaps())
}

impl<B: Ahead> VolumeArray<B> {
    /// Asks the volume for a piece, and tells what it answered.
    fn hand_on(&mut self, alloc: Global, op: Op, range: Range) -> Result<u64, Refused>
        requires bytes { (bytes : List ℕ) → op ≡ Write bytes → length bytes ≡ 512 * range.count }
        ensures does { (work : Work) (part : List ℕ) → op ≡ op_of work.kind work.count part → range.first ≡ work.first → range.count ≡ work.count → range.size ≡ B.size self.old.volume.origin → IsHandedOn B.may_hold B.contents B.layers B.size self.old.chosen work part result self.old.volume self.new.volume }
        ensures kept { ChangesVolume self.old self.new }
    {
        let request = Request {
            dev: self.dev,
            op,
            range,
        };
        let answer = self.volume.submit(alloc, request);
        look_at(&self.volume);
        match answer {
            Ok(number) => Ok(number),
            Err(refusal) => Err(refused(refusal)),
        }
    }

    /// Takes a piece of the chosen device in, and tells its number in the volume. Refused: where copies are many, until some are
    /// done (`Full`); past the end (`Invalid`); without memory (`NoMemory`); and as the volume refuses it.
    pub fn take_in(&mut self, alloc: Global, work: Work, part: &[u8]) -> Result<u64, Refused>
        requires { work.kind ≡ AsksWrite → length part.now ≡ 512 * work.count }
        ensures does { DoesTakeIn B.may_hold B.contents B.layers B.size self.old.chosen work part.now result self.old.volume self.new.volume }
        ensures kept { ChangesVolume self.old self.new }
    {
        if is_crowded(&self.volume) {
            return Err(Refused::Full);
        }
        let Ok(range) = Range::new(work.first, work.count, self.volume.origin().sectors()) else {
            return Err(Refused::Error(ErrorValue::Invalid));
        };
        match operation(alloc, work, part) {
            Ok(op) => self.hand_on(alloc, op, range),
            Err(_) => Err(Refused::Error(ErrorValue::NoMemory)),
        }
    }
}
