// Pieces of jobs are given to the array, and come back.
ghost use Rattle.std.specs.Prelude.{◌≡◌, ◌<◌, ◌∷◌, [], IfOk, List, OnOk, Some, length, slice_index_or};
ghost use Rattle.nbd_jobs.specs.Steps.{IsInside, JobState, work_at};
ghost use Rattle.nbd_backend.specs.Calls.{Call, CallsTo, Step, Submit};
ghost use Rattle.nbd_backend.specs.declared.array.Stepped.TheVariants.{Back as Returned, Ended as IsEnded};
ghost use Rattle.nbd_write_session.specs.Moved.{IsClear, MovesCalling, MovesEnded, MovesSaying, MovesUnsaid, StaysFree};
ghost use Rattle.nbd_write_session.specs.Pieces.{part_by};
ghost use Rattle.nbd_write_session.specs.Reached.{Reached};
ghost use Rattle.nbd_write_session.specs.declared.working.Went.TheVariants.{Stopped};

use crate::ended::{Ended, Finish};
use crate::line::{Line, said};
use nbd_backend::{Array, Refused, Stepped};
use nbd_jobs::{Job, Kind, MOST_PIECES, Work, push_failure, push_reply};
use nbd_messages::ErrorValue;
use std::alloc::{AllocError, Global};
use std::io::Write;

/// Gives a piece of a job to the array.
fn given<A: Array>(alloc: Global, array: &mut A, job: &Job, work: Work) -> Result<u64, Refused>
    requires { IsInside (length job.now.bytes) work }
    ensures { A.does (Submit work (part_by work.kind job.now.bytes work) result) array.old array.new }
{
    match work.kind {
        Kind::Write => array.submit(alloc, work, job.part(work)),
        Kind::Read => array.submit(alloc, work, b"".as_slice()),
        Kind::Zeroes => array.submit(alloc, work, b"".as_slice()),
        Kind::Flush => array.submit(alloc, work, b"".as_slice()),
    }
}

/// What came of a step.
#[derive(Clone, Copy, PartialEq, Eq)]
pub enum Went {
    /// Nothing is left to do.
    Still,
    /// Something was done for which no piece waits.
    Idle,
    /// Something was done.
    On,
    /// The array is not to be written any more. All that was open is answered.
    Stopped,
}

impl Line {
    /// Says what is to be said.
    pub fn say<W: Write>(&mut self, writer: &mut W) -> Result<(), Ended>
        ensures moves { OnOk result ((calls : List Call) → MovesSaying self.old self.new (W.contents writer.old) (W.contents writer.new) calls calls) }
        ensures out { OnOk result (self.new.out.items ≡ []) }
        ensures jobs { self.new.jobs ≡ self.old.jobs }
        ensures input { self.new.input ≡ self.old.input }
        ensures size { self.new.size ≡ self.old.size }
    {
        said(writer, self.out.as_slice())?;
        self.out.clear();
        Ok(())
    }

    /// Gives the next piece of the job at a place. `false` where the array has no room.
    fn give<A: Array>(
        &mut self,
        alloc: Global,
        array: &mut A,
        place: usize,
        work: Work,
    ) -> Result<bool, Ended>
        requires place { place < length self.old.jobs.jobs }
        requires few { length self.old.jobs.out < 64 }
        requires inside { (d : JobState) → IsInside (length (slice_index_or self.old.jobs.jobs place d).bytes) work }
        requires next { (d : JobState) → work_at self.old.chunk (slice_index_or self.old.jobs.jobs place d).request (slice_index_or self.old.jobs.jobs place d).serial (slice_index_or self.old.jobs.jobs place d).stage ≡ Some work }
        ensures moves { IfOk result (λ _. CallsTo A.does array.old array.new (MovesCalling self.old self.new)) }
        ensures called { Reached A.does result array.old array.new }
    {
        match given(alloc, array, self.jobs.get(place), work) {
            Ok(number) => {
                self.jobs.hand_out(place, self.chunk, number)?;
                Ok(true)
            }
            Err(Refused::Full) => Ok(false),
            Err(Refused::Error(error)) => {
                self.jobs.refuse(place, error);
                Ok(true)
            }
        }
    }

    /// Gives the next piece of the first job that has one. `false` where there is none, or no room.
    fn give_next<A: Array>(&mut self, alloc: Global, array: &mut A) -> Result<bool, Ended>
        ensures moves { IfOk result (λ _. CallsTo A.does array.old array.new (MovesCalling self.old self.new)) }
        ensures called { Reached A.does result array.old array.new }
    {
        if MOST_PIECES <= self.jobs.pieces() {
            return Ok(false);
        }
        let Some(place) = self.jobs.next() else {
            return Ok(false);
        };
        match self.jobs.get(place).work(self.chunk) {
            Some(work) => self.give(alloc, array, place, work),
            None => Ok(false),
        }
    }

    /// Gives pieces while there are some, and room.
    pub fn give_all<A: Array>(&mut self, alloc: Global, array: &mut A) -> Result<(), Ended>
        ensures moves { OnOk result (CallsTo A.does array.old array.new (MovesCalling self.old self.new)) }
        ensures called { Reached A.does result array.old array.new }
    {
        for _ in 0..u64::MAX {
            if !self.give_next(alloc, array)? {
                return Ok(());
            }
        }
        Ok(())
    }

    /// Takes back what came of a piece.
    pub fn take_back(&mut self, number: u64, bytes: &[u8], error: Option<ErrorValue>)
        ensures moves { (calls : List Call) → MovesCalling self.old self.new calls (Step (Returned number bytes.now error) ∷ calls) }
        ensures input { self.new.input ≡ self.old.input }
        ensures size { self.new.size ≡ self.old.size }
        ensures out { self.new.out.items ≡ self.old.out.items }
        ensures none { StaysFree self.old self.new }
    {
        match self.jobs.take_piece(number) {
            Some(piece) => self.jobs.take_back(piece, bytes, error),
            None => {}
        }
    }

    /// Answers the first job that is done. `false` where there is none.
    fn answer_one(&mut self) -> Result<bool, AllocError>
        ensures { IfOk result (λ _. MovesUnsaid self.old self.new) }
    {
        match self.jobs.take_done() {
            Some(job) => {
                self.held = self.held.saturating_sub(job.bytes.len() as u64);
                push_reply(&mut self.out, self.structured, &job)?;
                Ok(true)
            }
            None => Ok(false),
        }
    }

    /// Answers all jobs that are done.
    pub fn answer(&mut self) -> Result<(), AllocError>
        ensures { OnOk result (MovesUnsaid self.old self.new) }
    {
        for _ in 0..u64::MAX {
            if !self.answer_one()? {
                return Ok(());
            }
        }
        Ok(())
    }

    /// Answers the first job EIO, whatever is out of it.
    fn fail_one(&mut self) -> Result<(), AllocError>
        ensures { OnOk result (MovesEnded self.old self.new) }
    {
        match self.jobs.take_first() {
            Some(job) => {
                push_failure(&mut self.out, self.structured, ErrorValue::Io, &job.request)?;
                Ok(())
            }
            None => Ok(()),
        }
    }

    /// Answers all jobs EIO, whatever is out of them.
    #[tactic(auto, using(crate::proofs::Moved::none_left))]
    fn fail_all(&mut self) -> Result<(), Ended>
        ensures moves { OnOk result (MovesEnded self.old self.new) }
        ensures none { OnOk result (self.new.jobs.jobs ≡ []) }
    {
        for _ in 0..u64::MAX {
            if self.jobs.len() == 0 {
                return Ok(());
            }
            self.fail_one()?;
        }
        Err(Ended::Stuck)
    }

    /// The array is not to be written any more: what is not done is answered EIO.
    fn end<W: Write>(&mut self, writer: &mut W) -> Result<(), Ended>
        ensures moves { OnOk result ((calls : List Call) → MovesSaying self.old self.new (W.contents writer.old) (W.contents writer.new) (Step IsEnded ∷ calls) (Step IsEnded ∷ calls)) }
        ensures none { OnOk result (IsClear self.new) }
    {
        self.answer()?;
        self.fail_all()?;
        self.say(writer)?;
        Ok(())
    }

    /// Says what is done.
    fn tell<W: Write>(&mut self, writer: &mut W) -> Result<(), Ended>
        ensures moves { OnOk result ((calls : List Call) → MovesSaying self.old self.new (W.contents writer.old) (W.contents writer.new) calls calls) }
        ensures out { OnOk result (self.new.out.items ≡ []) }
    {
        self.answer()?;
        self.say(writer)?;
        Ok(())
    }

    /// Says what is done, before what takes long, and gives more.
    fn pause<A: Array, W: Write>(
        &mut self,
        alloc: Global,
        array: &mut A,
        writer: &mut W,
    ) -> Result<(), Ended>
        ensures moves { OnOk result (CallsTo A.does array.old array.new (MovesSaying self.old self.new (W.contents writer.old) (W.contents writer.new))) }
        ensures called { Reached A.does result array.old array.new }
    {
        self.tell(writer)?;
        self.give_all(alloc, array)?;
        Ok(())
    }

    /// A step of the array, and what comes of it.
    fn step<A: Array, W: Write>(
        &mut self,
        alloc: Global,
        array: &mut A,
        writer: &mut W,
    ) -> Result<Went, Ended>
        ensures moves { IfOk result (λ _. CallsTo A.does array.old array.new (MovesSaying self.old self.new (W.contents writer.old) (W.contents writer.new))) }
        ensures called { Reached A.does result array.old array.new }
        ensures stopped { result ≡ Ok Stopped → IsClear self.new }
    {
        match array.step() {
            Stepped::Still => Ok(Went::Still),
            Stepped::Idle => Ok(Went::Idle),
            Stepped::Done => Ok(Went::On),
            Stepped::Slow => {
                self.pause(alloc, array, writer)?;
                Ok(Went::On)
            }
            Stepped::Back(number, bytes, error) => {
                self.take_back(number, bytes.as_slice(), error);
                Ok(Went::On)
            }
            Stepped::Ended => {
                self.end(writer)?;
                Ok(Went::Stopped)
            }
        }
    }

    /// Steps until no piece waits for the array. `Still` where it was still at once.
    fn go<A: Array, W: Write>(
        &mut self,
        alloc: Global,
        array: &mut A,
        writer: &mut W,
    ) -> Result<Went, Ended>
        ensures moves { IfOk result (λ _. CallsTo A.does array.old array.new (MovesSaying self.old self.new (W.contents writer.old) (W.contents writer.new))) }
        ensures called { Reached A.does result array.old array.new }
        ensures stopped { result ≡ Ok Stopped → IsClear self.new }
    {
        let mut went = Went::Still;
        for _ in 0..u64::MAX {
            match self.step(alloc, array, writer)? {
                Went::Still => return Ok(went),
                Went::Idle => return Ok(Went::Idle),
                Went::On => went = Went::On,
                Went::Stopped => return Ok(Went::Stopped),
            }
        }
        Ok(went)
    }

    /// Does what is given until the array is still, and says what is answered. `Still` where the array was so at once.
    fn settle<A: Array, W: Write>(
        &mut self,
        alloc: Global,
        array: &mut A,
        writer: &mut W,
    ) -> Result<Went, Ended>
        ensures moves { IfOk result (λ _. CallsTo A.does array.old array.new (MovesSaying self.old self.new (W.contents writer.old) (W.contents writer.new))) }
        ensures called { Reached A.does result array.old array.new }
        ensures out { IfOk result (λ _. self.new.out.items ≡ []) }
        ensures stopped { result ≡ Ok Stopped → self.new.jobs.jobs ≡ [] }
    {
        self.give_all(alloc, array)?;
        match self.go(alloc, array, writer)? {
            Went::Stopped => Ok(Went::Stopped),
            Went::Still => {
                self.tell(writer)?;
                Ok(Went::Still)
            }
            Went::Idle => {
                self.tell(writer)?;
                Ok(Went::On)
            }
            Went::On => {
                self.tell(writer)?;
                Ok(Went::On)
            }
        }
    }

    /// Does all that the jobs ask for, until none is left, and says what is answered.
    #[tactic(auto, using(crate::proofs::Moved::none_left))]
    pub fn work<A: Array, W: Write>(
        &mut self,
        alloc: Global,
        array: &mut A,
        writer: &mut W,
    ) -> Result<Finish, Ended>
        ensures moves { IfOk result (λ _. CallsTo A.does array.old array.new (MovesSaying self.old self.new (W.contents writer.old) (W.contents writer.new))) }
        ensures called { Reached A.does result array.old array.new }
        ensures none { OnOk result (IsClear self.new) }
    {
        self.say(writer)?;
        for _ in 0..u64::MAX {
            let left = self.jobs.len();
            if left == 0 {
                return Ok(Finish::Client);
            }
            match self.settle(alloc, array, writer)? {
                Went::Idle => {}
                Went::On => {}
                Went::Still => {
                    if self.jobs.len() == left {
                        return Err(Ended::Stuck);
                    }
                }
                Went::Stopped => return Ok(Finish::Array),
            }
        }
        Err(Ended::Stuck)
    }
}
