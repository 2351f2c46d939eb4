// What each line of a block asks of the volumes that are taken out.
ghost use Rattle.std.specs.Prelude.{◌≡◌, ◌≢◌, ◌+◌, ◌-◌, ◌<◌, ◌||◌, ◌++◌, ◌∷◌, ℕ, [], false, Err, IfErr, IfOk, Ok, OnOk, length, slice_index_or, vec_len};
ghost use Rattle.sector.specs.declared.refusal.Refusal.TheVariants.{NoMemory};
ghost use Rattle.chunk.specs.Pieces.{span_of};
ghost use Rattle.command.specs.Blocks.{AreSeats};
ghost use Rattle.command.specs.Lines.{IsSeat};
ghost use Rattle.device_list.specs.Tables.{table_of};
ghost use Rattle.command_semantics.specs.Places.{IsRoleIn, place_of};
ghost use Rattle.command_semantics.specs.Sectors.{dev_of};
ghost use Rattle.parallel_threads.specs.Tasks.{tasks_at};
ghost use Rattle.parallel_lines.specs.Answering.{AreAsked};
ghost use Rattle.parallel_lines.specs.Asking.{IsJob, IsMergeAs, IsReadAs, IsTask, IsWriteAs, asked, asks_of, merges_of, place_among, writes_of};
ghost use Rattle.parallel_lines.specs.Looking.{name_in};
ghost use Rattle.parallel_lines.specs.Planned.{IsPlanned};
ghost use Rattle.parallel_lines.specs.Running.{is_in, used_in};

use crate::looking::name_in;
use command::{SeatLine, Work};
use command_replies::CommandReply;
use command_semantics::{Place, Role};
use device_list::{Devices, NamedVolume, find_device};
use device_stacks::{range_in, whole_sectors};
use parallel_threads::{Job, SEATS, Task};
use plain_machine::Dev;
use sector::{Buf, Range, Refusal};
use std::alloc::{AllocError, Global};

/// Which volumes are taken out, by their place in the table; the tasks of each seat; and room for a reply to each line, and for
/// the gate's.
#[derive(Drop)]
pub struct BlockPlan {
    pub used: Vec<bool>,
    pub tasks: Vec<Vec<Task>>,
    pub replies: Vec<CommandReply>,
}

/// The place that a volume has among those that are taken out, the last of the table first.
fn place_among(used: &[bool], v: usize) -> usize
    requires { v < length used.now }
    ensures { result ≡ place_among used.now v }
{
    used[v + 1..].iter().filter(|used| **used).count()
}

/// What a request to a device of this role is sent to. `MergingSnapshot` for a snapshot that is being merged, `BadTable` for
/// disks and layers.
#[tactic(auto, unfolding(command_semantics::specs::Sectors::dev_of))]
fn dev_of(volume: &NamedVolume, role: Role) -> Result<Dev, Refusal>
    requires { IsRoleIn role volume.now.shown }
    ensures { result ≡ dev_of role volume.now.shown.state }
{
    match role {
        Role::Origin => Ok(Dev::Origin),
        Role::Snapshot(k) => Ok(Dev::Snap(volume.number(k))),
        Role::Merging => Err(Refusal::MergingSnapshot),
        Role::Under(_) | Role::Store(_, _) | Role::MergingStore(_) => Err(Refusal::BadTable),
    }
}

/// The device and the range of so many sectors from `first` on. In this order: `OutOfRange` for sectors past the end, and
/// `MergingSnapshot` for a snapshot that is being merged.
fn asked(volume: &NamedVolume, role: Role, first: u32, count: u32) -> Result<(Dev, Range), Refusal>
    requires { IsRoleIn role volume.now.shown }
    ensures ok { IfOk result (λ asks. asks_of role first count volume.now.shown ≡ Ok (record { dev = asks.0; span = span_of asks.1 })) }
    ensures err { IfErr result (λ e. asks_of role first count volume.now.shown ≡ Err e) }
{
    let range = range_in(u64::from(volume.sectors()), first, count)?;
    let dev = dev_of(volume, role)?;
    Ok((dev, range))
}

/// A read of sectors of a volume, which has this place among those that are taken out.
fn read_job(volume: &NamedVolume, place: usize, role: Role, first: u32, count: u32) -> Job
    requires { IsRoleIn role volume.now.shown }
    ensures { IsReadAs place (asks_of role first count volume.now.shown) result }
{
    match asked(volume, role, first, count) {
        Ok((dev, range)) => Job::Read {
            volume: place,
            dev,
            range,
        },
        Err(refusal) => Job::RefusedRead(refusal),
    }
}

/// A write of so many sectors.
fn sectors_job(volume: &NamedVolume, place: usize, role: Role, at: (u32, u32), bytes: Buf) -> Job
    requires { IsRoleIn role volume.now.shown }
    ensures { IsWriteAs place bytes (asks_of role at.0 at.1 volume.now.shown) result }
{
    match asked(volume, role, at.0, at.1) {
        Ok((dev, range)) => Job::Write {
            volume: place,
            dev,
            range,
            bytes,
        },
        Err(refusal) => Job::Refused(refusal),
    }
}

/// A write of whole sectors.
fn write_job(volume: &NamedVolume, place: usize, role: Role, first: u32, bytes: Buf) -> Job
    requires { IsRoleIn role volume.now.shown }
    ensures { IsWriteAs place bytes (writes_of role first bytes volume.now.shown) result }
{
    match whole_sectors(bytes.as_slice()) {
        Ok(count) => sectors_job(volume, place, role, (first, count), bytes),
        Err(refusal) => Job::Refused(refusal),
    }
}

/// A merge of a snapshot. `MergeInProgress` for one that is being merged.
fn merge_job(volume: &NamedVolume, place: usize, role: Role) -> Job
    requires { IsRoleIn role volume.now.shown }
    ensures { IsMergeAs place (merges_of role volume.now.shown) result }
{
    match role {
        Role::Snapshot(k) => Job::Merge {
            volume: place,
            snap: volume.number(k),
        },
        _ => Job::Refused(Refusal::MergeInProgress),
    }
}

/// What a line asks of a volume, which has this place among those that are taken out.
fn job(volume: &NamedVolume, place: usize, role: Role, work: Work) -> Job
    requires { IsRoleIn role volume.now.shown }
    ensures { IsJob place role volume.now.shown work result }
{
    match work {
        Work::Read {
            name: _,
            first,
            count,
        } => read_job(volume, place, role, first, count),
        Work::Write {
            name: _,
            first,
            bytes,
        } => write_job(volume, place, role, first, bytes),
        Work::Merge { name: _ } => merge_job(volume, place, role),
        Work::OutsideRead { name: _ } => Job::RefusedRead(Refusal::OutOfRange),
        Work::OutsideWrite { name: _ } => Job::Refused(Refusal::OutOfRange),
    }
}

/// Marks the volume of the device that a line names.
fn mark(held: &Devices, line: &SeatLine, used: &mut Vec<bool>)
    requires { vec_len used.old ≡ length (table_of held.now).volumes }
    ensures many { vec_len used.new ≡ vec_len used.old }
    ensures marked { (w : ℕ) → w < vec_len used.old → slice_index_or used.new.items w false ≡ (slice_index_or used.old.items w false || is_in w (place_of (name_in line.now.work) (table_of held.now))) }
{
    match find_device(held, name_in(&line.work)) {
        Ok(Place::In(v, _)) => used[v] = true,
        Ok(Place::Free(_, _)) => {}
        Err(_) => {}
    }
}

/// Of each volume, by its place in the table, whether a line names a device of it.
fn used_in(alloc: Global, held: &Devices, lines: &[SeatLine]) -> Result<Vec<bool>, AllocError>
    ensures { IfOk result (λ used. used.items ≡ used_in lines.now (table_of held.now)) }
{
    let mut used = vec![in alloc; false; held.volumes.len()]?;
    for line in lines {
        mark(held, line, &mut used);
    }
    Ok(used)
}

/// A job that waits for its turn.
fn waiting(job: Job) -> Task
    ensures { result ≡ asked job }
{
    Task {
        job: Some(job),
        answer: None,
    }
}

/// The task that a line is. The lines of a block that is not refused each name a device of a volume.
#[tactic(auto, using(device_list::proofs::Showing::shown_there))]
fn task(held: &Devices, used: &[bool], work: Work) -> Task
    requires { length used.now ≡ length (table_of held.now).volumes }
    ensures { IsTask used.now (table_of held.now) work result }
{
    match find_device(held, name_in(&work)) {
        Ok(Place::In(v, role)) => {
            let place = place_among(used, v);
            waiting(job(&held.volumes[v], place, role, work))
        }
        Ok(Place::Free(_, _)) => waiting(Job::Refused(Refusal::NoSuchDevice)),
        Err(_) => waiting(Job::Refused(Refusal::NoSuchDevice)),
    }
}

/// No tasks for each seat.
#[tactic(auto, using(crate::proofs::Asked::none_more))]
fn no_tasks(alloc: Global) -> Result<Vec<Vec<Task>>, AllocError>
    ensures { IfOk result (λ tasks. (length tasks.items ≡ 8) × ((i : ℕ) → tasks_at tasks.items i ≡ [])) }
{
    let mut tasks = Vec::with_capacity(alloc, SEATS)?;
    for _ in 0..SEATS {
        tasks.push(Vec::new(alloc))?;
    }
    Ok(tasks)
}

/// Puts a task behind those of its seat.
fn put_task(tasks: &mut Vec<Vec<Task>>, seat: u8, task: Task) -> Result<(), AllocError>
    requires seat { IsSeat seat }
    requires seats { length tasks.old.items ≡ 8 }
    ensures seats { length tasks.new.items ≡ 8 }
    ensures put { OnOk result (tasks_at tasks.new.items (seat - 1) ≡ tasks_at tasks.old.items (seat - 1) ++ task ∷ []) }
    ensures others { (i : ℕ) → i ≢ seat - 1 → tasks_at tasks.new.items i ≡ tasks_at tasks.old.items i }
{
    tasks[usize::from(seat) - 1].push(task)?;
    Ok(())
}

/// The tasks of each seat, in the order of its lines.
fn tasks_of(
    alloc: Global,
    held: &Devices,
    used: &[bool],
    lines: Vec<SeatLine>,
) -> Result<Vec<Vec<Task>>, AllocError>
    requires used { length used.now ≡ length (table_of held.now).volumes }
    requires seats { AreSeats lines.items }
    ensures seats { IfOk result (λ tasks. length tasks.items ≡ 8) }
    ensures asked { IfOk result (λ tasks. AreAsked used.now (table_of held.now) lines.items (tasks_at tasks.items)) }
{
    let mut tasks = no_tasks(alloc)?;
    for line in lines {
        let SeatLine { seat, work } = line;
        put_task(&mut tasks, seat, task(held, used, work))?;
    }
    Ok(tasks)
}

fn plan_of(alloc: Global, held: &Devices, lines: Vec<SeatLine>) -> Result<BlockPlan, AllocError>
    requires seats { AreSeats lines.items }
    ensures plan { IfOk result (IsPlanned lines held.now) }
{
    let used = used_in(alloc, held, &lines)?;
    let replies = Vec::with_capacity(alloc, lines.len() + 1)?;
    let tasks = tasks_of(alloc, held, &used, lines)?;
    Ok(BlockPlan {
        used,
        tasks,
        replies,
    })
}

/// What the lines of a block ask. The one error is `NoMemory`.
pub fn planned(alloc: Global, held: &Devices, lines: Vec<SeatLine>) -> Result<BlockPlan, Refusal>
    requires seats { AreSeats lines.items }
    ensures plan { IfOk result (IsPlanned lines held.now) }
    ensures err { IfErr result (λ e. e ≡ NoMemory) }
{
    match plan_of(alloc, held, lines) {
        Ok(plan) => Ok(plan),
        Err(_) => Err(Refusal::NoMemory),
    }
}
