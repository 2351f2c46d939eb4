// Requests that arrived become jobs, or are refused at once.
ghost use Rattle.std.specs.Prelude.{◌≡◌, ◌+◌, ◌≤◌, ◌++◌, IfOk, MatchBool, None, OnOk, Some, length, take};
ghost use Rattle.nbd_messages.specs.Requests.{request_in as request_in_of};
ghost use Rattle.nbd_messages.specs.Writing.{payload as payload_of};
ghost use Rattle.nbd_messages.specs.declared.command.Command.TheVariants.{Disconnect};
ghost use Rattle.nbd_jobs.specs.Refused.{refusal_of};
ghost use Rattle.nbd_jobs.specs.Steps.{room_of};
ghost use Rattle.nbd_write_session.specs.Moved.{MovesUnsaid, MovesUnsaidOnOk};
ghost use Rattle.nbd_write_session.specs.Took.{IsOverAfter, IsTakenIn, is_one, kept_by};

use crate::ended::Ended;
use crate::line::Line;
use nbd_jobs::{Bytes, MOST_JOBS, push_failure, refusal};
use nbd_messages::{Command, ErrorValue, REQUEST_BYTES, Request, request_in};
use std::alloc::{AllocError, Global};

/// Where so many bytes are held for requests, no more are taken in.
pub const MOST_BYTES: u64 = 67_108_864;

/// What came of a look for the next request.
#[derive(Clone, Copy, PartialEq, Eq)]
pub enum Took {
    /// One was taken.
    One,
    /// None is there as a whole.
    None,
    /// There may be one, and no room for it.
    Full,
    /// The client said that it goes.
    Over,
}

/// The bytes that follow a request's header.
fn payload(request: &Request) -> u32
    ensures { result ≡ payload_of request.now }
{
    match request.command {
        Command::Write => request.length,
        Command::Read => 0,
        Command::Disconnect => 0,
        Command::Flush => 0,
        Command::Trim => 0,
        Command::WriteZeroes => 0,
        Command::BlockStatus => 0,
        Command::Other => 0,
    }
}

/// The bytes that a job keeps for a request, whose payload was heard.
fn bytes_of(alloc: Global, request: &Request, heard: &[u8]) -> Result<Bytes, AllocError>
    requires { length heard.now ≡ payload_of request.now }
    ensures is { IfOk result (λ b. b ≡ kept_by request.now.command request.now.length heard.now) }
    ensures sized { IfOk result (λ b. length b ≡ room_of request.now) }
{
    match request.command {
        Command::Write => Bytes::from_slice(alloc, heard),
        Command::Read => Bytes::zeroed(alloc, request.length as usize),
        Command::Disconnect => Bytes::zeroed(alloc, 0),
        Command::Flush => Bytes::zeroed(alloc, 0),
        Command::Trim => Bytes::zeroed(alloc, 0),
        Command::WriteZeroes => Bytes::zeroed(alloc, 0),
        Command::BlockStatus => Bytes::zeroed(alloc, 0),
        Command::Other => Bytes::zeroed(alloc, 0),
    }
}

impl Line {
    /// Answers a request that is refused, and takes it; its payload goes as it comes.
    fn refuse(&mut self, request: &Request, error: ErrorValue) -> Result<(), AllocError>
        requires header { 28 ≤ length self.old.input.heard }
        requires wanted { self.old.input.unwanted ≡ 0 }
        requires is { request_in_of (take 28 self.old.input.heard) ≡ Some request.now }
        requires stays { request.now.command ≡ Disconnect → ⊥ }
        requires refused { refusal_of self.old.size request.now ≡ Some error }
        ensures { OnOk result (MovesUnsaid self.old self.new) }
    {
        push_failure(&mut self.out, self.structured, error, request)?;
        self.input.take(REQUEST_BYTES);
        self.input.skip(payload(request) as u64);
        Ok(())
    }

    /// Takes a request that is to be served, if its payload is there.
    fn take_good(&mut self, alloc: Global, request: Request) -> Result<Took, Ended>
        requires header { 28 ≤ length self.old.input.heard }
        requires wanted { self.old.input.unwanted ≡ 0 }
        requires is { request_in_of (take 28 self.old.input.heard) ≡ Some request }
        requires stays { request.command ≡ Disconnect → ⊥ }
        requires good { refusal_of self.old.size request ≡ None }
        requires short { room_of request ≤ 33_554_432 }
        ensures took { IfOk result (λ took. MatchBool (is_one took) (IsTakenIn request self.old.input self.new.input self.old.jobs self.new.jobs) (self.new ≡ self.old)) }
        ensures moves { MovesUnsaidOnOk result self.old self.new }
        ensures over { IsOverAfter result self.new }
    {
        if MOST_JOBS <= self.jobs.len() || MOST_BYTES <= self.held {
            return Ok(Took::Full);
        }
        let end = REQUEST_BYTES + payload(&request) as usize;
        if self.input.len() < end {
            return Ok(Took::None);
        }
        let bytes = bytes_of(alloc, &request, &self.input.heard()[REQUEST_BYTES..end])?;
        let len = bytes.len() as u64;
        self.jobs.take_in(request, bytes)?;
        self.held = self.held.saturating_add(len);
        self.input.take(end);
        Ok(Took::One)
    }

    /// The next request, of whose payload nothing is known. `None` where what is there is none.
    fn header(&self) -> Option<Request>
        requires { 28 ≤ length self.now.input.heard }
        ensures { result ≡ request_in_of (take 28 self.now.input.heard) }
    {
        request_in(&self.input.heard()[..REQUEST_BYTES])
    }

    /// Takes a request that asks for something, or refuses it.
    fn take_asked(&mut self, alloc: Global, request: Request) -> Result<Took, Ended>
        requires header { 28 ≤ length self.old.input.heard }
        requires wanted { self.old.input.unwanted ≡ 0 }
        requires is { request_in_of (take 28 self.old.input.heard) ≡ Some request }
        requires stays { request.command ≡ Disconnect → ⊥ }
        ensures moves { MovesUnsaidOnOk result self.old self.new }
        ensures over { IsOverAfter result self.new }
    {
        match refusal(self.size, &request) {
            Some(error) => {
                self.refuse(&request, error)?;
                Ok(Took::One)
            }
            None => self.take_good(alloc, request),
        }
    }

    /// Takes the next request, if it is there as a whole.
    fn take(&mut self, alloc: Global) -> Result<Took, Ended>
        ensures moves { MovesUnsaidOnOk result self.old self.new }
        ensures over { IsOverAfter result self.new }
    {
        if self.input.len() < REQUEST_BYTES {
            return Ok(Took::None);
        }
        match self.header() {
            Some(request) => match request.command {
                Command::Disconnect => Ok(Took::Over),
                _ => self.take_asked(alloc, request),
            },
            None => Err(Ended::NoClient),
        }
    }

    /// Takes all requests that are there as a whole, and tells why no more are taken.
    pub fn take_all(&mut self, alloc: Global) -> Result<Took, Ended>
        ensures moves { MovesUnsaidOnOk result self.old self.new }
        ensures over { IsOverAfter result self.new }
    {
        for _ in 0..u64::MAX {
            match self.take(alloc)? {
                Took::One => {}
                Took::None => return Ok(Took::None),
                Took::Full => return Ok(Took::Full),
                Took::Over => return Ok(Took::Over),
            }
        }
        Ok(Took::Full)
    }
}
