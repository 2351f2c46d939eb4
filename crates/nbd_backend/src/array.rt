// What does the pieces of requests.
ghost use Rattle.std.specs.Prelude.{◌≡◌, ◌*◌, ◌<◌, length};
ghost use Rattle.nbd_jobs.specs.declared.work.Kind.TheVariants.{Write};
ghost use Rattle.nbd_backend.specs.Calls.{Call, Choose, Submit, Step};

use nbd_jobs::{Bytes, Work};
use nbd_messages::ErrorValue;
use std::alloc::Global;

/// Why a piece is not taken in.
#[derive(Clone, Copy, PartialEq, Eq)]
pub enum Refused {
    /// There is no room now: others are to be done first.
    Full,
    /// It can't be done.
    Error(ErrorValue),
}

/// What came of a step.
#[derive(Drop)]
pub enum Stepped {
    /// Nothing is left to do.
    Still,
    /// Something was done for which no piece waits.
    Idle,
    /// Something was done.
    Done,
    /// What comes next takes long: what is to be said is said before, and more may be taken in.
    Slow,
    /// The piece of this number is done: with the bytes that it read, or with an error.
    Back(u64, Bytes, Option<ErrorValue>),
    /// It is not to be written any more: all that is open fails.
    Ended,
}

/// An array of sectors that does pieces of requests, in any order.
pub trait Array {
    /// What a call with its answer makes of it.
    ghost does: { Call → Self → Self → Type 0 };

    /// The client uses the export of this place from here on. `false` where there is none.
    fn choose(&mut self, place: usize) -> bool
        ensures { does (Choose place result) self.old self.new };

    /// A piece lies in one of the runs of so many sectors.
    fn chunk(&self) -> u32
        ensures { 0 < result };

    /// Takes a piece in, and tells its number. What is written is `part`.
    fn submit(&mut self, alloc: Global, work: Work, part: &[u8]) -> Result<u64, Refused>
        requires { work.kind ≡ Write → length part.now ≡ 512 * work.count }
        ensures { does (Submit work part.now result) self.old self.new };

    /// Does something of what was taken in.
    fn step(&mut self) -> Stepped
        ensures { does (Step result) self.old self.new };
}
