// What is asked of a volume, and what it replies.
ghost use Rattle.std.specs.Prelude.{◌≡◌, ◌≢◌, IfOk, MatchBool, length};
ghost use Rattle.plain_machine.specs.Replies.{FitsReply};
ghost use Rattle.plain_machine.specs.Failures.{refusal_of};
ghost use Rattle.plain_machine.specs.Kept.{kept as kept_request};

use sector::{Buf, Range, Refusal};
use std::alloc::{AllocError, Global};

/// The number of a snapshot in its volume: of its attaching, counted from 1.
pub type SnapId = u32;

/// The number of a request in its volume, counted from 1.
pub type ReqId = u64;

/// What a write of a snapshot does that finds its store full, and whether one did.
#[derive(Clone, Copy, PartialEq, Eq)]
pub enum Overflowing {
    /// It spoils the snapshot.
    Never,
    /// It is refused, and so is every write of the snapshot from then on. What it shows stays.
    May,
    /// One was refused.
    Did,
}

/// What a request goes to.
#[derive(Clone, Copy, PartialEq, Eq)]
pub enum Dev {
    Origin,
    Snap(SnapId),
}

/// What is asked. A write brings the bytes of whole sectors, as many as its range; a flush is of the whole device, and its
/// range says nothing.
#[derive(Drop)]
pub enum Op {
    Read,
    Write(Buf),
    /// Makes what was written to the device last.
    Flush,
}

/// A read or a write of some sectors of the origin or of a snapshot, inside one piece of the volume, or a flush of one.
#[derive(Drop)]
pub struct Request {
    pub dev: Dev,
    pub op: Op,
    pub range: Range,
}

/// Why a request is not done.
#[derive(Clone, Copy, PartialEq, Eq)]
pub enum Failure {
    /// Its snapshot is spoiled.
    Invalid,
    /// A device failed at it.
    Io,
    /// Its snapshot's store overflowed. A request that was accepted is never answered so: it says why a write was refused.
    Overflow,
}

/// The answer to a request that was accepted.
#[derive(Drop)]
pub enum Reply {
    Data(Buf),
    Written,
    Flushed,
    Refused(Failure),
}

/// How a request that was started ended.
#[derive(Drop)]
pub struct Replied {
    /// Its number in the volume.
    pub number: ReqId,
    /// What it was answered with: the bytes that it read, that it was written or flushed, or why it failed.
    pub reply: Reply,
}

/// The refusal of a command that ended by a failure.
pub fn refusal_for(failure: Failure) -> Refusal
    ensures { result ≡ refusal_of failure }
{
    match failure {
        Failure::Invalid => Refusal::Invalid,
        Failure::Io => Refusal::Io,
        Failure::Overflow => Refusal::Overflow,
    }
}

impl Op {
    /// Whether both ask the same.
    pub fn is_same(&self, other: &Op) -> bool
        ensures { MatchBool result (self.now ≡ other.now) (self.now ≢ other.now) }
    {
        match (self, other) {
            (Op::Read, Op::Read) => true,
            (Op::Write(bytes), Op::Write(others)) => bytes.is_same(others),
            (Op::Flush, Op::Flush) => true,
            _ => false,
        }
    }

    /// Another that asks the same.
    pub fn copy(&self, alloc: Global) -> Result<Op, AllocError>
        ensures { IfOk result (λ op. op ≡ self.now) }
    {
        match self {
            Op::Read => Ok(Op::Read),
            Op::Write(bytes) => Ok(Op::Write(bytes.copy(alloc)?)),
            Op::Flush => Ok(Op::Flush),
        }
    }
}

impl Request {
    /// The request as a volume keeps it: a flush, whose range says nothing, has the first sector for one.
    pub fn kept(self) -> Request
        ensures { result ≡ kept_request self }
    {
        let Request { dev, op, range } = self;
        match op {
            Op::Read => Request {
                dev,
                op: Op::Read,
                range,
            },
            Op::Write(bytes) => Request {
                dev,
                op: Op::Write(bytes),
                range,
            },
            Op::Flush => Request {
                dev,
                op: Op::Flush,
                range: Range {
                    first: 0,
                    count: 1,
                    size: 1,
                },
            },
        }
    }
}

impl Reply {
    /// Whether both answer the same.
    pub fn is_same(&self, other: &Reply) -> bool
        ensures { MatchBool result (self.now ≡ other.now) (self.now ≢ other.now) }
    {
        match (self, other) {
            (Reply::Data(bytes), Reply::Data(others)) => bytes.is_same(others),
            (Reply::Written, Reply::Written) => true,
            (Reply::Flushed, Reply::Flushed) => true,
            (Reply::Refused(failure), Reply::Refused(other)) => *failure == *other,
            _ => false,
        }
    }

    /// The same reply. The bytes of a read go into a buffer that is there and has as many.
    pub fn copy_into(&self, mut room: Buf) -> Reply
        requires { FitsReply (length room) self.now }
        ensures { result ≡ self.now }
    {
        match self {
            Reply::Data(bytes) => {
                room.copy_from(bytes);
                Reply::Data(room)
            }
            Reply::Written => Reply::Written,
            Reply::Flushed => Reply::Flushed,
            Reply::Refused(failure) => Reply::Refused(*failure),
        }
    }
}
