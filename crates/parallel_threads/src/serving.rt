// What the thread of a seat does.
ghost use Rattle.std.specs.Prelude.{◌≡◌, ◌*◌, ◌<◌, ℕ, length, true};
ghost use Rattle.parallel_threads.specs.Tasks.{IsCall, IsDone, IsMergedAs, IsReadAs, IsWrittenAs, MayMerge, denied_of, is_merge_of, pieces_at};

use crate::hold::Hold;
use crate::plan::Plan;
use crate::seat_run::SeatRun;
use crate::task::{Job, Task};
use command_replies::{SeatAnswer, words_of_data};
use layers::Layered;
use locked_volume::Room;
use plain_machine::{Dev, SnapId};
use sector::{Buf, Range, Refusal, SECTOR_BYTES};
use std::alloc::Global;
use std::sync::Wait;
use thread_channels::{Gate, never};
use volume_threads::{Rig, Seat};

/// A volume is one of the rig's, as the caller of the run counted it.
fn among<R: Wait>(rt: &R, volume: usize, volumes: usize)
    ensures { volume < volumes }
{
    if volumes <= volume {
        never(rt);
    }
}

/// A write has as many bytes as its range, as the caller of the run made it.
fn fits<R: Wait>(rt: &R, range: Range, bytes: &Buf)
    ensures { length bytes.now ≡ 512 * range.count }
{
    if bytes.len() != SECTOR_BYTES * range.count as usize {
        never(rt);
    }
}

/// Reads, and puts what was read into words here, beside the other seats.
fn read<B: Layered, G: Gate + Drop, J: Room, R: Wait>(
    rt: &R,
    alloc: Global,
    rig: &Rig<B, G, J>,
    seat: &mut Seat<J>,
    volume: usize,
    dev: Dev,
    range: Range,
) -> SeatAnswer
    requires { volume < J.volumes }
    ensures { IsReadAs (denied_of J.start J.fixed) (pieces_at J.fixed) volume dev range result seat.old seat.new }
{
    match seat.read(rt, rig, volume, dev, range) {
        Ok(bytes) => match words_of_data(alloc, bytes.as_slice()) {
            Ok(words) => SeatAnswer::Data(words),
            Err(_) => SeatAnswer::Refused(Refusal::NoMemory),
        },
        Err(refusal) => SeatAnswer::Refused(refusal),
    }
}

fn write<B: Layered, G: Gate + Drop, J: Room, R: Wait>(
    rt: &R,
    rig: &Rig<B, G, J>,
    seat: &mut Seat<J>,
    volume: usize,
    dev: Dev,
    range: Range,
    bytes: Buf,
) -> SeatAnswer
    requires { volume < J.volumes }
    ensures { IsWrittenAs (denied_of J.start J.fixed) (pieces_at J.fixed) volume dev range bytes result seat.old seat.new }
{
    fits(rt, range, &bytes);
    match seat.write(rt, rig, volume, dev, range, bytes) {
        Ok(()) => SeatAnswer::Done,
        Err(refusal) => SeatAnswer::Refused(refusal),
    }
}

fn merge<B: Layered, G: Gate + Drop, J: Room, R: Wait>(
    rt: &R,
    rig: &Rig<B, G, J>,
    seat: &mut Seat<J>,
    volume: usize,
    snap: SnapId,
) -> SeatAnswer
    requires volume { volume < J.volumes }
    requires asked { J.merges volume snap ≡ true }
    ensures { IsMergedAs (denied_of J.start J.fixed) (pieces_at J.fixed) volume snap result seat.old seat.new }
{
    match seat.merge(rt, rig, volume, snap) {
        Ok(()) => SeatAnswer::Done,
        Err(refusal) => SeatAnswer::Refused(refusal),
    }
}

/// Does a job, and tells the gate's hold of a read that was answered.
fn answer<B: Layered, G: Gate + Drop, J: Room, R: Wait>(
    rt: &R,
    alloc: Global,
    rig: &Rig<B, G, J>,
    seat: &mut Seat<J>,
    volumes: usize,
    hold: &Hold,
    job: Job,
) -> SeatAnswer
    requires volumes { volumes ≡ J.volumes }
    requires asked { (volume number : ℕ) → is_merge_of volume number job ≡ true → J.merges volume number ≡ true }
    ensures { IsCall (denied_of J.start J.fixed) (pieces_at J.fixed) job result seat.old seat.new }
{
    match job {
        Job::Read { volume, dev, range } => {
            among(rt, volume, volumes);
            let answer = read(rt, alloc, rig, seat, volume, dev, range);
            hold.answer();
            answer
        }
        Job::Write {
            volume,
            dev,
            range,
            bytes,
        } => {
            among(rt, volume, volumes);
            write(rt, rig, seat, volume, dev, range, bytes)
        }
        Job::Merge { volume, snap } => {
            among(rt, volume, volumes);
            merge(rt, rig, seat, volume, snap)
        }
        Job::RefusedRead(refusal) => {
            hold.answer();
            SeatAnswer::Refused(refusal)
        }
        Job::Refused(refusal) => SeatAnswer::Refused(refusal),
    }
}

/// Does a task's job, and keeps its answer.
fn perform<B: Layered, G: Gate + Drop, J: Room, R: Wait>(
    rt: &R,
    alloc: Global,
    rig: &Rig<B, G, J>,
    seat: &mut Seat<J>,
    volumes: usize,
    hold: &Hold,
    task: &mut Task,
)
    requires volumes { volumes ≡ J.volumes }
    requires asked { MayMerge J.merges task.old }
    ensures { IsDone (denied_of J.start J.fixed) (pieces_at J.fixed) task.old task.new seat.old seat.new }
{
    if let Some(job) = task.job.take() {
        task.answer = Some(answer(rt, alloc, rig, seat, volumes, hold, job));
    }
}

impl<J: Plan> SeatRun<J> {
    /// Does the first task that is left.
    fn step<B: Layered, G: Gate + Drop, R: Wait>(
        &mut self,
        rt: &R,
        rig: &Rig<B, G, J>,
        volumes: usize,
        hold: &Hold,
    )
        requires left { self.old.done < length self.old.tasks.items }
        requires volumes { volumes ≡ J.volumes }
    {
        let task = &mut self.tasks[self.done];
        perform(rt, self.alloc, rig, &mut self.seat, volumes, hold, task);
        self.done += 1;
    }

    /// Does the seat's tasks in their order, and keeps the answer of each.
    pub(crate) fn serve<B: Layered, G: Gate + Drop, R: Wait>(
        &mut self,
        rt: &R,
        rig: &Rig<B, G, J>,
        volumes: usize,
        hold: &Hold,
    )
        requires { volumes ≡ J.volumes }
    {
        for _ in 0..self.tasks.len() {
            if self.done < self.tasks.len() {
                self.step(rt, rig, volumes, hold);
            }
        }
    }
}
