// A request that is not answered yet.
ghost use Rattle.std.specs.Prelude.{◌≡◌, ℕ, ◌+◌, ◌-◌, ◌*◌, ◌/◌, ◌<◌, ◌≤◌, Bool, true, None, IfSome, List, length, min, nat_lt, slice_range, if◌then◌else◌};
ghost use Rattle.nbd_messages.specs.Writing.{must_last as must_last_of, writes as writes_by};
ghost use Rattle.nbd_jobs.specs.Steps.{IsInside, IsStageOf, IsWithin, room_of, first_of, sectors_of, kind_by, beginning, piece_len as piece_len_of, next_piece as next_piece_of, work_at, a_flush, has_work as has_work_of, is_done as is_done_of, handed, handed_at, settled, settled_at, stopped_at, first_error, failed, filled};

use crate::bytes::Bytes;
use crate::work::{Kind, Work};
use nbd_messages::{Command, ErrorValue, Request};
use std::marker::Model;

/// How far a job has come.
#[derive(Clone, Copy, PartialEq, Eq)]
pub enum Stage {
    /// So many of its sectors were handed out.
    Moving(u32),
    /// A flush of it is to be handed out.
    Lasting,
    /// A flush of it is out.
    Flushing,
    /// It may be answered.
    Done,
}

/// A request that is not answered yet.
#[derive(Drop)]
pub struct Job {
    pub request: Request,
    /// Its number among all jobs of the connection, counted from 1.
    pub serial: u64,
    pub stage: Stage,
    /// Its first error.
    pub error: Option<ErrorValue>,
    /// What a write brings, or what a read is answered.
    pub bytes: Bytes,
}

impl Model for Job {
    ghost use Rattle.std.specs.Prelude.{◌≡◌, ◌≤◌, true, length};
    ghost use Rattle.nbd_jobs.specs.Steps.{JobState, IsBegun, room_of, sectors_of};

    ghost Value = { JobState };

    ghost view = { λ j. record { request = j.request; serial = j.serial; stage = j.stage; error = j.error; bytes = j.bytes } };

    ghost invariant = { λ j. (length j.bytes ≡ room_of j.request) × (IsBegun (sectors_of j.request) j.stage ≡ true) × (length j.bytes ≤ 33_554_432) };
}

/// What is asked of the array for a command.
fn kind_of(command: Command) -> Kind
    ensures { result ≡ kind_by command }
{
    match command {
        Command::Read => Kind::Read,
        Command::Write => Kind::Write,
        Command::WriteZeroes => Kind::Zeroes,
        Command::Disconnect => Kind::Flush,
        Command::Flush => Kind::Flush,
        Command::Trim => Kind::Flush,
        Command::BlockStatus => Kind::Flush,
        Command::Other => Kind::Flush,
    }
}

/// Whether a command writes.
fn writes(command: Command) -> bool
    ensures { result ≡ writes_by command }
{
    match command {
        Command::Write => true,
        Command::WriteZeroes => true,
        Command::Read => false,
        Command::Disconnect => false,
        Command::Flush => false,
        Command::Trim => false,
        Command::BlockStatus => false,
        Command::Other => false,
    }
}

/// Whether what a request writes is to last before it is answered.
fn must_last(request: &Request) -> bool
    ensures { result ≡ must_last_of request.now }
{
    if writes(request.command) {
        return request.flags % 2 == 1;
    }
    false
}

/// The stage with which a job begins.
fn first_stage(command: Command) -> Stage
    ensures { result ≡ beginning command }
{
    match command {
        Command::Read => Stage::Moving(0),
        Command::Write => Stage::Moving(0),
        Command::WriteZeroes => Stage::Moving(0),
        Command::Disconnect => Stage::Lasting,
        Command::Flush => Stage::Lasting,
        Command::Trim => Stage::Lasting,
        Command::BlockStatus => Stage::Lasting,
        Command::Other => Stage::Lasting,
    }
}

/// The sectors of the piece that begins at a sector, where so many are left: up to the end of its chunk.
fn piece_len(chunk: u32, first: u64, left: u32) -> u32
    requires { 0 < chunk }
    ensures is { result ≡ piece_len_of chunk first left }
    ensures within { result ≤ left }
{
    let before = (first % chunk as u64) as u32;
    left.min(chunk - before)
}

impl Job {
    /// A job that begins.
    pub fn new(request: Request, serial: u64, bytes: Bytes) -> Job
        requires sized { length bytes ≡ room_of request }
        requires short { length bytes ≤ 33_554_432 }
        ensures { result ≡ record { request = request; serial = serial; stage = beginning request.command; error = None; bytes = bytes } }
    {
        Job {
            request,
            serial,
            stage: first_stage(request.command),
            error: None,
            bytes,
        }
    }

    /// How many sectors its request has.
    fn sectors(&self) -> u32
        ensures { result ≡ sectors_of self.now.request }
    {
        self.request.length / 512
    }

    /// The piece of which so many sectors were handed out before.
    fn next_piece(&self, chunk: u32, sent: u32) -> Work
        requires some { 0 < chunk }
        requires left { sent < sectors_of self.now.request }
        ensures { result ≡ next_piece_of chunk self.now.request self.now.serial sent }
    {
        let first = self.request.offset / 512 + sent as u64;
        Work {
            serial: self.serial,
            kind: kind_of(self.request.command),
            first,
            count: piece_len(chunk, first, self.sectors() - sent),
            at: sent,
        }
    }

    /// The bytes of a piece that is written.
    pub fn part(&self, work: Work) -> &[u8]
        requires { IsWithin (length self.now.bytes) work }
        ensures is { result.now ≡ slice_range self.now.bytes (512 * work.at) (512 * (work.at + work.count)) }
        ensures len { length result.now ≡ 512 * work.count }
    {
        let from = 512 * work.at as usize;
        let count = 512 * work.count as usize;
        &self.bytes.as_slice()[from..from + count]
    }

    /// What is to be done next of it.
    pub fn work(&self, chunk: u32) -> Option<Work>
        requires { 0 < chunk }
        ensures is { result ≡ work_at chunk self.now.request self.now.serial self.now.stage }
        ensures inside { IfSome result (IsInside (length self.now.bytes)) }
    {
        match self.stage {
            Stage::Moving(sent) => {
                if sent < self.sectors() {
                    Some(self.next_piece(chunk, sent))
                } else {
                    None
                }
            }
            Stage::Lasting => Some(Work {
                serial: self.serial,
                kind: Kind::Flush,
                first: 0,
                count: 0,
                at: 0,
            }),
            Stage::Flushing => None,
            Stage::Done => None,
        }
    }

    /// Whether something is to be done next of it.
    pub fn has_work(&self) -> bool
        ensures { result ≡ has_work_of self.now }
    {
        match self.stage {
            Stage::Moving(sent) => sent < self.sectors(),
            Stage::Lasting => true,
            Stage::Flushing => false,
            Stage::Done => false,
        }
    }

    /// Whether it may be answered.
    pub fn is_done(&self) -> bool
        ensures { result ≡ is_done_of self.now }
    {
        match self.stage {
            Stage::Moving(_) => false,
            Stage::Lasting => false,
            Stage::Flushing => false,
            Stage::Done => true,
        }
    }

    /// The stage once its next piece is handed out.
    fn handed_stage(&self, chunk: u32) -> Stage
        requires { 0 < chunk }
        ensures is { result ≡ handed_at chunk self.now.request self.now.stage }
        ensures begun { IsStageOf self.now.request result }
    {
        match self.stage {
            Stage::Moving(sent) => {
                let first = self.request.offset / 512 + sent as u64;
                let count = piece_len(chunk, first, self.sectors() - sent);
                Stage::Moving(sent + count)
            }
            Stage::Lasting => Stage::Flushing,
            Stage::Flushing => Stage::Flushing,
            Stage::Done => Stage::Done,
        }
    }

    /// Its next piece is handed out.
    pub fn hand_out(&mut self, chunk: u32)
        requires { 0 < chunk }
        ensures { self.new ≡ handed chunk self.old }
    {
        self.stage = self.handed_stage(chunk);
    }

    /// The stage once a piece of it is back; `out` tells whether others are out.
    fn settled_stage(&self, out: bool) -> Stage
        ensures is { result ≡ settled_at out self.now.request self.now.error self.now.stage }
        ensures begun { IsStageOf self.now.request result }
    {
        match self.stage {
            Stage::Moving(sent) => {
                if sent < self.sectors() || out {
                    return Stage::Moving(sent);
                }
                if self.error.is_some() {
                    return Stage::Done;
                }
                if must_last(&self.request) {
                    return Stage::Lasting;
                }
                Stage::Done
            }
            Stage::Lasting => Stage::Lasting,
            Stage::Flushing => Stage::Done,
            Stage::Done => Stage::Done,
        }
    }

    /// A piece of it is back; `out` tells whether others are out.
    pub fn settle(&mut self, out: bool)
        ensures { self.new ≡ settled out self.old }
    {
        self.stage = self.settled_stage(out);
    }

    /// The stage in which nothing more of it is handed out.
    fn stopped_stage(&self) -> Stage
        ensures is { result ≡ stopped_at self.now.request self.now.stage }
        ensures begun { IsStageOf self.now.request result }
    {
        match self.stage {
            Stage::Moving(_) => Stage::Moving(self.sectors()),
            Stage::Lasting => Stage::Flushing,
            Stage::Flushing => Stage::Flushing,
            Stage::Done => Stage::Done,
        }
    }

    /// It failed: nothing more of it is handed out, and its first error stays.
    pub fn fail(&mut self, error: ErrorValue)
        ensures { self.new ≡ failed error self.old }
    {
        self.stage = self.stopped_stage();
        if self.error.is_none() {
            self.error = Some(error);
        }
    }

    /// The bytes of a piece of a read came, from a sector of it on. Such as have no place in it are left out.
    pub fn fill(&mut self, at: u32, part: &[u8])
        ensures { self.new ≡ filled at part.now self.old }
    {
        if self.request.command != Command::Read {
            return;
        }
        let from = 512 * at as usize;
        let Some(end) = from.checked_add(part.len()) else {
            return;
        };
        if end <= self.bytes.len() {
            self.bytes.put(from, part);
        }
    }
}
