// A connection: what was heard, what is to be said, and the requests that are not answered.
ghost use Rattle.std.specs.Prelude.{◌≡◌, ◌<◌, [], IfOk, OnOk};
ghost use Rattle.std.specs.Io.KnownBytes.{Appends};

use crate::ended::Ended;
use crate::input::Input;
use nbd_jobs::Jobs;
use std::alloc::{AllocError, Global};
use std::io::Write;

/// A connection that uses an export.
#[derive(Drop)]
pub struct Line {
    pub input: Input,
    /// What is to be said.
    pub out: Vec<u8>,
    pub jobs: Jobs,
    /// How many bytes the jobs keep.
    pub held: u64,
    /// The sectors of a piece.
    pub chunk: u32,
    /// The export's size in bytes.
    pub size: u64,
    /// Whether reads are answered by structured replies.
    pub structured: bool,
    pub ghost some: { 0 < chunk },
}

impl Line {
    /// A connection that uses an export, of which no request came yet.
    pub fn new(
        alloc: Global,
        input: Input,
        size: u64,
        chunk: u32,
        structured: bool,
    ) -> Result<Line, AllocError>
        requires { 0 < chunk }
        ensures { IfOk result (λ line. (line.jobs ≡ record { jobs = []; out = []; given = 0 }) × (line.input ≡ input) × (line.out.items ≡ []) × (line.size ≡ size) × (line.structured ≡ structured) × (line.chunk ≡ chunk)) }
    {
        Ok(Line {
            input,
            out: Vec::new(alloc),
            jobs: Jobs::new(alloc)?,
            held: 0,
            chunk,
            size,
            structured,
        })
    }
}

/// Says bytes.
pub fn said<W: Write>(writer: &mut W, bytes: &[u8]) -> Result<(), Ended>
    ensures { OnOk result (Appends (W.contents writer.old) (W.contents writer.new) bytes.now) }
{
    if let Err(error) = writer.write_all(bytes) {
        return Err(Ended::Unsaid(error));
    }
    match writer.flush() {
        Ok(()) => Ok(()),
        Err(error) => Err(Ended::Unsaid(error)),
    }
}
