// Tasks are given to seats, and taken back from them.
ghost use Rattle.std.specs.Prelude.{◌≡◌, ◌+◌, ◌<◌, ◌≤◌, ℕ, [], length, slice_index_or, vec_capacity};
ghost use Rattle.std.specs.List.{All};
ghost use Rattle.volume_threads.specs.Rigs.{AreNewSeats, SeatShape};
ghost use Rattle.parallel_threads.specs.Tasks.{AreAsMany, IsEnded, IsNew, MayMerge, StayBehind, StayBut, denied_of, pieces_at, tasks_at};

use crate::plan::Plan;
use crate::seat_run::SeatRun;
use crate::task::{SEATS, Task};
use std::alloc::Global;
use std::mem;
use std::sync::Wait;
use volume_threads::Seat;

/// Takes the tasks at a place; none where there is no such place.
fn take_tasks(alloc: Global, tasks: &mut Vec<Vec<Task>>, i: usize) -> Vec<Task>
    ensures taken { result.items ≡ tasks_at tasks.old.items i }
    ensures many { AreAsMany tasks.old tasks.new }
    ensures others { StayBut i tasks.old tasks.new }
{
    if i >= tasks.len() {
        return Vec::new(alloc);
    }
    mem::replace(&mut tasks[i], Vec::new(alloc))
}

/// Puts tasks at their place, where there is one.
fn put_tasks(tasks: &mut Vec<Vec<Task>>, i: usize, list: Vec<Task>)
    ensures put { i < length tasks.old.items → tasks_at tasks.new.items i ≡ list.items }
    ensures many { AreAsMany tasks.old tasks.new }
    ensures others { StayBut i tasks.old tasks.new }
{
    if i < tasks.len() {
        tasks[i] = list;
    }
}

/// Gives each seat its tasks.
pub(crate) fn begin_all<J: Plan>(
    alloc: Global,
    seats: Vec<Seat<J>>,
    tasks: &mut Vec<Vec<Task>>,
    runs: &mut Vec<SeatRun<J>>,
)
    requires seats { AreNewSeats 8 seats.items }
    requires plan { (i : ℕ) → J.tasks (i + 1) ≡ tasks_at tasks.old.items i }
    requires asked { (i : ℕ) → i < 8 → All (MayMerge J.merges) (tasks_at tasks.old.items i) }
    requires room { (runs.old.items ≡ []) × (8 ≤ vec_capacity runs.old) }
    ensures many { AreAsMany tasks.old tasks.new }
    ensures others { StayBehind tasks.old tasks.new }
    ensures unbegun { All (λ run. run.done ≡ 0) runs.new.items }
    ensures eight { length runs.new.items ≡ 8 }
{
    let mut seats = seats;
    for i in 0..SEATS {
        let seat = seats.remove(0);
        let list = take_tasks(alloc, tasks, i);
        runs.push_reserved(SeatRun::new(alloc, seat, list));
    }
}

/// The first of them.
fn next<J: Plan>(runs: &mut Vec<SeatRun<J>>) -> SeatRun<J>
    requires { 0 < length runs.old.items }
    ensures first { All (λ run. run.done ≡ 0) runs.old.items → result.done ≡ 0 }
    ensures rest { All (λ run. run.done ≡ 0) runs.old.items → All (λ run. run.done ≡ 0) runs.new.items }
    ensures fewer { length runs.new.items + 1 ≡ length runs.old.items }
{
    runs.remove(0)
}

/// Takes the seats and their tasks back. Where no run did any of its tasks, they are as they were given.
pub(crate) fn end_all<J: Plan, R: Wait>(
    rt: &R,
    runs: Vec<SeatRun<J>>,
    tasks: &mut Vec<Vec<Task>>,
    seats: &mut Vec<Seat<J>>,
)
    requires eight { length runs.items ≡ 8 }
    requires room { (seats.old.items ≡ []) × (8 ≤ vec_capacity seats.old) }
    ensures many { AreAsMany tasks.old tasks.new × (length seats.new.items ≡ 8) }
    ensures ended { (i : ℕ) (d : SeatShape) → i < 8 → i < length tasks.old.items → IsEnded (denied_of J.start J.fixed) (pieces_at J.fixed) (J.tasks (i + 1)) (tasks_at tasks.new.items i) (i + 1) (slice_index_or seats.new.items i d) }
    ensures numbers { (i : ℕ) (d : SeatShape) → i < 8 → (slice_index_or seats.new.items i d).number ≡ i + 1 }
    ensures unbegun { All (λ run. run.done ≡ 0) runs.items → (i : ℕ) (d : SeatShape) → i < 8 → IsNew (slice_index_or seats.new.items i d) }
    ensures kept { All (λ run. run.done ≡ 0) runs.items → (i : ℕ) → i < 8 → i < length tasks.old.items → tasks_at tasks.new.items i ≡ J.tasks (i + 1) }
    ensures others { StayBehind tasks.old tasks.new }
{
    let mut runs = runs;
    for i in 0..SEATS {
        let (seat, list) = next(&mut runs).into_parts(rt, i + 1);
        put_tasks(tasks, i, list);
        seats.push_reserved(seat);
    }
}
