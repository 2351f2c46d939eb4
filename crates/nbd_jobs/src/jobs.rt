// The jobs of a connection, and the pieces of them that are out.
ghost use Rattle.std.specs.Prelude.{◌≡◌, ◌==◌, ℕ, ◌+◌, ◌<◌, ◌≤◌, [], ◌∷◌, ◌++◌, IfOk, IfSome, IsSome, OnErr, OnOk, MatchOption, None, option_to_list, length, slice_index_or};
ghost use Rattle.std.specs.List.{position, remove};
ghost use Rattle.nbd_jobs.specs.declared.jobs.Piece.{Piece as PieceOf};
ghost use Rattle.nbd_jobs.specs.Steps.{JobState, room_of, has_work, is_done, is_out as is_out_of, sent_of, handed, failed, filled, settled};
ghost use Rattle.nbd_jobs.specs.Held.{Held, opened, Became, IsBackAt, IsPlaceIn, KeepsAsked, KeepsRequests, failed_by, taken_back};

use crate::bytes::Bytes;
use crate::job::{Job, Stage};
use nbd_messages::{ErrorValue, Request};
use std::alloc::{AllocError, Global};
use std::marker::Model;

/// A connection has at most so many jobs.
pub const MOST_JOBS: usize = 256;

/// At most so many pieces are out at a time.
pub const MOST_PIECES: usize = 64;

/// A piece of a job that is out.
#[derive(Clone, Copy, PartialEq, Eq)]
pub struct Piece {
    /// The number under which it comes back.
    pub number: u64,
    /// The number of its job.
    pub serial: u64,
    /// How many of the job's sectors are before it.
    pub at: u32,
}

/// The requests of a connection that are not answered, in the order in which they arrived, and the pieces that are out.
#[derive(Drop)]
pub struct Jobs {
    list: Vec<Job>,
    out: Vec<Piece>,
    /// How many numbers of jobs were given.
    given: u64,
}

impl Model for Jobs {
    ghost use Rattle.std.specs.Prelude.{◌≤◌, length};
    ghost use Rattle.nbd_jobs.specs.Held.{Held};

    ghost Value = { Held };

    ghost view = { λ j. record { jobs = j.list.items; out = j.out.items; given = j.given } };

    ghost invariant = { λ j. (length j.list.items ≤ 256) × (length j.out.items ≤ 64) };
}

impl Jobs {
    /// None.
    pub fn new(alloc: Global) -> Result<Jobs, AllocError>
        ensures { IfOk result (λ j. j ≡ record { jobs = []; out = []; given = 0 }) }
    {
        Ok(Jobs {
            list: Vec::with_capacity(alloc, MOST_JOBS)?,
            out: Vec::with_capacity(alloc, MOST_PIECES)?,
            given: 0,
        })
    }

    /// How many there are.
    pub fn len(&self) -> usize
        ensures is { result ≡ length self.now.jobs }
        ensures few { result ≤ 256 }
    {
        self.list.len()
    }

    /// Whether no job is left.
    pub fn is_empty(&self) -> bool
        ensures { result ≡ (length self.now.jobs == 0) }
    {
        self.list.len() == 0
    }

    /// How many pieces are out.
    pub fn pieces(&self) -> usize
        ensures is { result ≡ length self.now.out }
        ensures few { result ≤ 64 }
    {
        self.out.len()
    }

    /// The job at a place.
    pub fn get(&self, place: usize) -> &Job
        requires { place < length self.now.jobs }
        ensures { (d : JobState) → result.now ≡ slice_index_or self.now.jobs place d }
    {
        &self.list[place]
    }

    /// A request is taken in. Without memory, or where no number is left, nothing changes.
    pub fn take_in(&mut self, request: Request, bytes: Bytes) -> Result<(), AllocError>
        requires few { length self.old.jobs < 256 }
        requires sized { length bytes ≡ room_of request }
        requires short { length bytes ≤ 33_554_432 }
        ensures ok { OnOk result (self.new ≡ record { jobs = self.old.jobs ++ opened request (self.old.given + 1) bytes ∷ []; out = self.old.out; given = self.old.given + 1 }) }
        ensures err { OnErr result (self.new ≡ self.old) }
    {
        let Some(serial) = self.given.checked_add(1) else {
            return Err(AllocError);
        };
        match self.list.push(Job::new(request, serial, bytes)) {
            Ok(()) => {
                self.given = serial;
                Ok(())
            }
            Err(_) => Err(AllocError),
        }
    }

    /// The place of the first job of which something is to be done next.
    pub fn next(&self) -> Option<usize>
        ensures is { result ≡ position has_work self.now.jobs }
        ensures inside { IsPlaceIn result self.now.jobs }
    {
        self.list.iter().position(|job| job.has_work())
    }

    /// The next piece of a job goes out under a number. Without memory nothing changes.
    pub fn hand_out(&mut self, place: usize, chunk: u32, number: u64) -> Result<(), AllocError>
        requires inside { place < length self.old.jobs }
        requires some { 0 < chunk }
        requires few { length self.old.out < 64 }
        ensures given { self.new.given ≡ self.old.given }
        ensures asked { KeepsRequests self.old self.new }
        ensures jobs { OnOk result (Became place (handed chunk) self.old.jobs self.new.jobs) }
        ensures out { OnOk result ((d : JobState) → self.new.out ≡ self.old.out ++ record { number = number; serial = (slice_index_or self.old.jobs place d).serial; at = sent_of (slice_index_or self.old.jobs place d).stage } ∷ []) }
        ensures err { OnErr result (self.new ≡ self.old) }
    {
        let piece = piece_of(&self.list[place], number);
        match self.out.push(piece) {
            Ok(()) => {}
            Err(_) => return Err(AllocError),
        }
        hand_out_at(&mut self.list, place, chunk);
        Ok(())
    }

    /// What is to be done next of a job is refused: nothing more of it goes out.
    pub fn refuse(&mut self, place: usize, error: ErrorValue)
        requires { place < length self.old.jobs }
        ensures given { self.new.given ≡ self.old.given }
        ensures out { self.new.out ≡ self.old.out }
        ensures asked { KeepsRequests self.old self.new }
        ensures jobs { Became place (λ j. settled (is_out_of self.old.out j.serial) (failed error j)) self.old.jobs self.new.jobs }
    {
        refuse_at(&mut self.list, place, error, self.out.as_slice());
    }

    /// The place of the piece that has a number.
    fn piece_at(&self, number: u64) -> Option<usize>
        ensures is { result ≡ position (λ p. p.number == number) self.now.out }
        ensures inside { IsPlaceIn result self.now.out }
    {
        self.out.iter().position(|piece| piece.number == number)
    }

    /// The piece of a number is out no more. `None` where none has it.
    pub fn take_piece(&mut self, number: u64) -> Option<Piece>
        ensures jobs { self.new.jobs ≡ self.old.jobs }
        ensures given { self.new.given ≡ self.old.given }
        ensures is { MatchOption (position (λ p. p.number == number) self.old.out) ((result ≡ None) × (self.new ≡ self.old)) (λ k. (k < length self.old.out) × (self.new.out ≡ remove self.old.out k) × IfSome result (λ p. (d : PieceOf) → p ≡ slice_index_or self.old.out k d) × IsSome result) }
    {
        match self.piece_at(number) {
            Some(place) => Some(self.out.remove(place)),
            None => None,
        }
    }

    /// The place of the job that has a number.
    fn job_at(&self, serial: u64) -> Option<usize>
        ensures is { result ≡ position (λ j. j.serial == serial) self.now.jobs }
        ensures inside { IsPlaceIn result self.now.jobs }
    {
        self.list.iter().position(|job| job.serial == serial)
    }

    /// A piece that is out no more is back, with the bytes that it read or with an error: its job, if it is there, takes that in.
    pub fn take_back(&mut self, piece: Piece, part: &[u8], error: Option<ErrorValue>)
        ensures out { self.new.out ≡ self.old.out }
        ensures given { self.new.given ≡ self.old.given }
        ensures jobs { IsBackAt piece part.now error self.old.out self.old.jobs self.new.jobs }
        ensures asked { KeepsRequests self.old self.new }
    {
        match self.job_at(piece.serial) {
            Some(place) => take_back_at(
                &mut self.list,
                place,
                piece,
                part,
                error,
                self.out.as_slice(),
            ),
            None => {}
        }
    }

    /// The first job, which is then no job any more, whatever is out of it.
    pub fn take_first(&mut self) -> Option<Job>
        ensures out { self.new.out ≡ self.old.out }
        ensures given { self.new.given ≡ self.old.given }
        ensures jobs { self.old.jobs ≡ option_to_list result ++ self.new.jobs }
    {
        if self.list.len() == 0 {
            return None;
        }
        Some(self.list.remove(0))
    }

    /// The place of the first job that may be answered.
    fn done_at(&self) -> Option<usize>
        ensures is { result ≡ position is_done self.now.jobs }
        ensures inside { IsPlaceIn result self.now.jobs }
    {
        self.list.iter().position(|job| job.is_done())
    }

    /// The first job that may be answered, which is then no job any more.
    pub fn take_done(&mut self) -> Option<Job>
        ensures out { self.new.out ≡ self.old.out }
        ensures given { self.new.given ≡ self.old.given }
        ensures is { MatchOption (position is_done self.old.jobs) ((result ≡ None) × (self.new ≡ self.old)) (λ k. (k < length self.old.jobs) × (self.new.jobs ≡ remove self.old.jobs k) × IfSome result (λ j. (d : JobState) → j ≡ slice_index_or self.old.jobs k d) × IsSome result) }
    {
        match self.done_at() {
            Some(place) => Some(self.list.remove(place)),
            None => None,
        }
    }
}

/// How many sectors of a job were handed out before its next piece.
fn sent(stage: Stage) -> u32
    ensures { result ≡ sent_of stage }
{
    match stage {
        Stage::Moving(sent) => sent,
        Stage::Lasting => 0,
        Stage::Flushing => 0,
        Stage::Done => 0,
    }
}

/// The next piece of a job, under a number.
fn piece_of(job: &Job, number: u64) -> Piece
    ensures { result ≡ record { number = number; serial = job.now.serial; at = sent_of job.now.stage } }
{
    Piece {
        number,
        serial: job.serial,
        at: sent(job.stage),
    }
}

/// Whether a piece of a job is out.
fn is_out(out: &[Piece], serial: u64) -> bool
    ensures { result ≡ is_out_of out.now serial }
{
    out.iter().any(|piece| piece.serial == serial)
}

/// The next piece of the job at a place goes out.
#[tactic(auto, using(crate::proofs::Asked::asked_kept))]
fn hand_out_at(list: &mut Vec<Job>, place: usize, chunk: u32)
    requires inside { place < length list.old.items }
    requires some { 0 < chunk }
    ensures jobs { Became place (handed chunk) list.old.items list.new.items }
    ensures asked { KeepsAsked list.old.items list.new.items }
{
    let job = &mut list[place];
    job.hand_out(chunk);
}

/// The job at a place is refused, of which pieces may be out.
#[tactic(auto, using(crate::proofs::Asked::asked_kept))]
fn refuse_at(list: &mut Vec<Job>, place: usize, error: ErrorValue, out: &[Piece])
    requires { place < length list.old.items }
    ensures jobs { Became place (λ j. settled (is_out_of out.now j.serial) (failed error j)) list.old.items list.new.items }
    ensures asked { KeepsAsked list.old.items list.new.items }
{
    let job = &mut list[place];
    let is_out = is_out(out, job.serial);
    job.fail(error);
    job.settle(is_out);
}

/// The job at a place takes in what came of a piece of it.
#[tactic(auto, using(crate::proofs::Asked::asked_kept))]
fn take_back_at(
    list: &mut Vec<Job>,
    place: usize,
    piece: Piece,
    part: &[u8],
    error: Option<ErrorValue>,
    out: &[Piece],
)
    requires { place < length list.old.items }
    ensures jobs { Became place (taken_back out.now piece part.now error) list.old.items list.new.items }
    ensures asked { KeepsAsked list.old.items list.new.items }
{
    let is_out = is_out(out, piece.serial);
    let job = &mut list[place];
    settle(job, is_out, piece.at, part, error);
}

/// A job takes in what came of a piece of it; `out` tells whether others are out.
fn settle(job: &mut Job, out: bool, at: u32, part: &[u8], error: Option<ErrorValue>)
    ensures { job.new ≡ settled out (failed_by error (filled at part.now job.old)) }
{
    job.fill(at, part);
    match error {
        Some(error) => job.fail(error),
        None => {}
    }
    job.settle(out);
}
