// Seats and workers have threads.
ghost use Rattle.std.specs.Prelude.{◌≡◌, ◌+◌, ◌<◌, ℕ, [], false, length, slice_index_or, IfErr, IfOk, MatchResult};
ghost use Rattle.std.specs.List.{All};
ghost use denote.Param.Send.{IsSend, IsSync};
ghost use Rattle.sector.specs.declared.refusal.Refusal.TheVariants.{NoMemory};
ghost use Rattle.audited_volume.specs.Books.{AuditShape};
ghost use Rattle.volume_threads.specs.Rigs.{IsRoomOf};
ghost use Rattle.parallel_threads.specs.Left.{AllAddAskedFor, AreLeft, NothingRan};
ghost use Rattle.parallel_threads.specs.Tasks.{AreTold, StayBeside, merges_among, tasks_at};

use crate::giving::{begin_all, end_all};
use crate::hold::{Hold, HoldGate};
use crate::plan::Plan;
use crate::seat_run::SeatRun;
use crate::task::{SEATS, Task};
use audited_volume::Audit;
use layers::Layered;
use locked_volume::Room;
use sector::Refusal;
use std::alloc::Global;
use std::marker::Brand;
use std::sync::Wait;
use std::thread;
use std::thread::Threads;
use thread_channels::Gate;
use volume_threads::{Opened, Rig, Worker};

/// Gives each seat that has something to do a thread of its own, and waits for all. The tasks of a seat that can't be started
/// stay without an answer.
fn seat_all<B, G, J, R>(
    rt: &R,
    rig: &Rig<B, G, J>,
    runs: &mut [SeatRun<J>],
    volumes: usize,
    hold: &Hold,
)
where
    B: Layered + Send + Sync,
    G: Gate + Drop + Sync,
    J: Plan + Send + Sync,
    R: Threads + Wait + Sync,
    requires { volumes ≡ J.volumes }
{
    thread::scope(
        thread::scope_env(),
        rt,
        move |scope|
            requires volumes { volumes ≡ J.volumes }
            requires crosses { IsSend B.row × IsSync B.row × IsSync G.row × IsSend J.row × IsSync J.row × IsSync R.row }
        {
            for run in runs.iter_mut() {
                if run.tasks.is_empty() {
                    continue;
                }
                let _ = scope.spawn(
                    move ||
                        requires { volumes ≡ J.volumes }
                    { run.serve(rt, rig, volumes, hold) },
                );
            }
        },
    );
}

/// Tells the workers to stop.
fn end<B: Layered, G: Gate + Drop, J: Plan, R: Wait>(
    rt: &R,
    rig: &Rig<B, G, J>,
    runs: &mut Vec<SeatRun<J>>,
)
    ensures many { length runs.new.items ≡ length runs.old.items }
    ensures unbegun { All (λ run. run.done ≡ 0) runs.old.items → All (λ run. run.done ≡ 0) runs.new.items }
{
    if let Some(run) = runs.first_mut() {
        rig.end(rt, &mut run.seat);
    }
}

/// Runs the seats, and then tells the workers to stop.
fn seat_and_end<B, G, J, R>(
    rt: &R,
    rig: &Rig<B, G, J>,
    runs: &mut Vec<SeatRun<J>>,
    volumes: usize,
    hold: &Hold,
)
where
    B: Layered + Send + Sync,
    G: Gate + Drop + Sync,
    J: Plan + Send + Sync,
    R: Threads + Wait + Sync,
    requires { volumes ≡ J.volumes }
    ensures { length runs.new.items ≡ length runs.old.items }
{
    seat_all(rt, rig, runs, volumes, hold);
    end(rt, rig, runs);
}

/// What the thread of a worker does, which has the worker.
fn work<B: Layered, G: Gate + Drop, J: Room, R: Wait>(
    rt: &R,
    rig: &Rig<B, G, J>,
    worker: Worker<J>,
) {
    let mut worker = worker;
    rig.work(rt, &mut worker);
}

/// Gives each worker a thread of its own, then the seats, and tells the workers to stop once the seats are done. Whether each
/// worker could be started: if not, no seat was.
fn work_all<B, G, J, R>(
    rt: &R,
    rig: &Rig<B, G, J>,
    workers: Vec<Worker<J>>,
    runs: Vec<SeatRun<J>>,
    volumes: usize,
    hold: &Hold,
) -> (Vec<SeatRun<J>>, bool)
where
    B: Layered + Send + Sync,
    G: Gate + Drop + Sync,
    J: Plan + Send + Sync,
    R: Threads + Wait + Sync,
    requires volumes { volumes ≡ J.volumes }
    requires unbegun { All (λ run. run.done ≡ 0) runs.items }
    requires eight { length runs.items ≡ 8 }
    ensures eight { length result.0.items ≡ 8 }
    ensures unbegun { result.1 ≡ false → All (λ run. run.done ≡ 0) result.0.items }
{
    thread::scope(
        thread::scope_env(),
        rt,
        move |scope|
            requires volumes { volumes ≡ J.volumes }
            requires unbegun { All (λ run. run.done ≡ 0) runs.items }
            requires eight { length runs.items ≡ 8 }
            requires crosses { IsSend B.row × IsSync B.row × IsSync G.row × IsSend J.row × IsSync J.row × IsSync R.row }
            ensures eight { length result.0.items ≡ 8 }
            ensures unbegun { result.1 ≡ false → All (λ run. run.done ≡ 0) result.0.items }
        {
            let mut runs = runs;
            let mut started = true;
            for worker in workers {
                if scope.spawn(move || work(rt, rig, worker)).is_err() {
                    started = false;
                }
            }
            if started {
                seat_and_end(rt, rig, &mut runs, volumes, hold);
            } else {
                end(rt, rig, &mut runs);
            }
            (runs, started)
        },
    )
}

/// The run over tables and a queue that were made for it.
fn run_in<B, J, R>(
    rt: &R,
    alloc: Global,
    audits: Vec<Audit<B>>,
    opened: Opened,
    workers: usize,
    hold: &Hold,
    tasks: &mut Vec<Vec<Task>>,
) -> Result<Vec<Audit<B>>, (Refusal, Vec<Audit<B>>)>
where
    B: Layered + Drop + Send + Sync,
    J: Plan + Send + Sync,
    R: Threads + Wait + Sync,
    requires few { workers < 5 }
    requires room { IsRoomOf B.size B.layers audits.items opened J.volumes J.history J.boards J.start J.queue J.fixed }
    requires plan { (i : ℕ) → J.tasks (i + 1) ≡ tasks_at tasks.old.items i }
    requires merges { J.merges ≡ merges_among (tasks_at tasks.old.items) }
    requires quiet { (k : ℕ) (d : AuditShape B) → k < length audits.items → (slice_index_or audits.items k d).held ≡ [] }
    ensures ok { IfOk result (λ after. AreLeft B.size B.layers audits.items after.items) }
    ensures err { IfErr result (λ e. (e.0 ≡ NoMemory) × AreLeft B.size B.layers audits.items e.1.items) }
    ensures spared { IfErr result (λ e. NothingRan audits.items e.1.items (tasks_at tasks.old.items) (tasks_at tasks.new.items)) }
    ensures told { IfOk result (λ after. (i : ℕ) → i < 8 → i < length tasks.old.items → AreTold B.size B.layers audits.items after.items (i + 1) (tasks_at tasks.old.items i) (tasks_at tasks.new.items i)) }
    ensures asked { MatchResult result (λ after. AllAddAskedFor (tasks_at tasks.old.items) audits.items after.items) (λ e. AllAddAskedFor (tasks_at tasks.old.items) audits.items e.1.items) }
    ensures others { StayBeside tasks.old tasks.new }
{
    let volumes = audits.len();
    let Ok(mut runs) = Vec::with_capacity(alloc, SEATS) else {
        return Err((Refusal::NoMemory, audits));
    };
    let Ok(mut seats) = Vec::with_capacity(alloc, SEATS) else {
        return Err((Refusal::NoMemory, audits));
    };
    let (rig, team, all) = match Rig::<B, HoldGate, J>::new(
        alloc,
        audits,
        workers,
        SEATS,
        HoldGate { hold },
        opened,
    ) {
        Ok(parts) => parts,
        Err(refused) => return Err(refused),
    };
    begin_all::<J>(alloc, all, tasks, &mut runs);
    let (runs, ran) = work_all(rt, &rig, team, runs, volumes, hold);
    end_all(rt, runs, tasks, &mut seats);
    let mut nobody = Vec::new(alloc);
    let audits = rig.close(rt, nobody.as_mut_slice(), seats.as_mut_slice());
    if ran {
        Ok(audits)
    } else {
        Err((Refusal::NoMemory, audits))
    }
}

/// Runs the tasks of up to eight seats, each seat's in their order on a thread of its own, all seats at once, with so many
/// workers for the copies, on threads of their own too. The volumes come back in their order, and so do the tasks: of those of
/// a seat the first are done, in their order, each answered by the receipts of one call, which are the seat's entries in the
/// journals. What else these have is a merge that one of the tasks asks for, or what the volumes note themselves. `NoMemory`
/// where there is no memory for what the threads share, or a worker can't be started; then none is done.
pub fn run_seats<B, R>(
    rt: &R,
    alloc: Global,
    audits: Vec<Audit<B>>,
    workers: usize,
    hold: &Hold,
    tasks: &mut Vec<Vec<Task>>,
) -> Result<Vec<Audit<B>>, (Refusal, Vec<Audit<B>>)>
where
    B: Layered + Drop + Send + Sync,
    R: Threads + Wait + Sync,
    requires few { workers < 5 }
    requires quiet { (k : ℕ) (d : AuditShape B) → k < length audits.items → (slice_index_or audits.items k d).held ≡ [] }
    ensures ok { IfOk result (λ after. AreLeft B.size B.layers audits.items after.items) }
    ensures err { IfErr result (λ e. (e.0 ≡ NoMemory) × AreLeft B.size B.layers audits.items e.1.items) }
    ensures spared { IfErr result (λ e. NothingRan audits.items e.1.items (tasks_at tasks.old.items) (tasks_at tasks.new.items)) }
    ensures told { IfOk result (λ after. (i : ℕ) → i < 8 → i < length tasks.old.items → AreTold B.size B.layers audits.items after.items (i + 1) (tasks_at tasks.old.items i) (tasks_at tasks.new.items i)) }
    ensures asked { MatchResult result (λ after. AllAddAskedFor (tasks_at tasks.old.items) audits.items after.items) (λ e. AllAddAskedFor (tasks_at tasks.old.items) audits.items e.1.items) }
    ensures others { StayBeside tasks.old tasks.new }
{
    let Ok(opened) = Opened::new(alloc, audits.len()) else {
        return Err((Refusal::NoMemory, audits));
    };
    run_in::<B, Brand, R>(rt, alloc, audits, opened, workers, hold, tasks)
}
