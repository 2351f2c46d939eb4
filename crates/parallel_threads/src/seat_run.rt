// A seat at its tasks.
ghost use Rattle.std.specs.Prelude.{◌≡◌, true};
ghost use Rattle.std.specs.List.{All};
ghost use Rattle.parallel_threads.specs.Tasks.{AreUnderWay, IsEnded, IsNew, IsUnbegun, MayMerge, denied_of, pieces_at};

use crate::plan::Plan;
use crate::task::Task;
use std::alloc::Global;
use std::sync::Wait;
use thread_channels::never;
use volume_threads::Seat;

/// A seat and its tasks, the first of which are done: so many.
#[derive(Drop)]
pub struct SeatRun<J: Plan> {
    pub(crate) alloc: Global,
    pub(crate) seat: Seat<J>,
    pub(crate) tasks: Vec<Task>,
    pub(crate) done: usize,
    ghost told: { AreUnderWay (denied_of J.start J.fixed) (pieces_at J.fixed) (J.tasks seat.number) tasks.items done seat },
    ghost asked: { All (MayMerge J.merges) tasks.items },
}

impl<J: Plan> SeatRun<J> {
    /// A seat that made no requests, and its tasks.
    pub(crate) fn new(alloc: Global, seat: Seat<J>, tasks: Vec<Task>) -> SeatRun<J>
        requires tasks { tasks.items ≡ J.tasks seat.number }
        requires new { IsNew seat }
        requires asked { All (MayMerge J.merges) tasks.items }
        ensures { result.done ≡ 0 }
    {
        SeatRun {
            alloc,
            seat,
            tasks,
            done: 0,
        }
    }

    /// Whether all its tasks are done, or none.
    fn is_over(&self) -> bool
        ensures { result ≡ true → IsEnded (denied_of J.start J.fixed) (pieces_at J.fixed) (J.tasks self.now.seat.number) self.now.tasks.items self.now.seat.number self.now.seat }
    {
        self.done == self.tasks.len() || self.done == 0
    }

    /// The seat and its tasks. It is of this number, and its thread did all of them or was not started. A seat of which none is
    /// done made no request.
    pub(crate) fn into_parts<R: Wait>(self, rt: &R, number: usize) -> (Seat<J>, Vec<Task>)
        ensures ended { IsEnded (denied_of J.start J.fixed) (pieces_at J.fixed) (J.tasks number) result.1.items number result.0 }
        ensures unbegun { self.done ≡ 0 → IsUnbegun (J.tasks number) result.1.items result.0 }
    {
        if usize::from(self.seat.number()) != number || !self.is_over() {
            never(rt);
        }
        let SeatRun {
            alloc: _,
            seat,
            tasks,
            done: _,
        } = self;
        (seat, tasks)
    }
}
