// How a run ended.
ghost use Rattle.std.specs.Prelude.{◌≡◌, ◌≢◌, None};
ghost use Rattle.std.specs.IoError.{error_kind, raw_os_error};
ghost use Rattle.std.specs.declared.io.ErrorKind.TheVariants.{Interrupted};
ghost use Rattle.script_runner.specs.Exit.{IsStreams, IsWriters, status_of};

use crate::summary::Summary;
use std::fmt::{Display, Formatter};
use std::io::ErrorKind;
use std::{fmt, io};
use thiserror::Error;

/// Why a reader or a writer failed: by the system's number, where it gave one, and else by its kind. It is small, for each line
/// hands on whether its answer could be written.
#[derive(Clone, Copy, Debug)]
pub struct StreamError {
    pub kind: ErrorKind,
    /// The system's number.
    pub code: Option<i32>,
}

impl StreamError {
    /// What a stream's error tells, without words of its own.
    #[cold]
    pub fn of(error: io::Error) -> StreamError
        ensures kind { result.kind ≡ error_kind error }
        ensures code { result.code ≡ raw_os_error error }
    {
        StreamError {
            kind: error.kind(),
            code: error.raw_os_error(),
        }
    }

    /// An error of this kind, which the system has no number of.
    #[cold]
    pub fn of_kind(kind: ErrorKind) -> StreamError
        ensures kind { result.kind ≡ kind }
        ensures code { result.code ≡ None }
    {
        StreamError { kind, code: None }
    }
}

impl Display for StreamError {
    fn fmt<W: fmt::Write>(&self, f: &mut Formatter<W>) -> fmt::Result {
        let error = match self.code {
            Some(code) => io::Error::from_raw_os_error(code),
            None => io::Error::from(self.kind),
        };
        write!(f, "{error}")
    }
}

/// Why a run ended early.
#[derive(Debug, Drop, Error)]
pub enum RunError {
    /// The allocator refused the room of the devices or of a line. Nothing was read or printed.
    #[error("out of memory")]
    Memory,
    /// The reader failed. The lines before were done, and their answers printed.
    #[error("cannot read: {0}")]
    Read(StreamError),
    /// The writer failed. The line was done all the same, and part of its answer may be printed.
    #[error("cannot write: {0}")]
    Write(StreamError),
    /// There are more lines than any run has.
    #[error("too many lines")]
    Endless,
}

impl RunError {
    /// The reader's error.
    #[cold]
    pub(crate) fn of_reader(error: io::Error) -> RunError
        ensures { error_kind error ≢ Interrupted → IsStreams result }
    {
        RunError::Read(StreamError::of(error))
    }

    /// The writer's error.
    #[cold]
    pub(crate) fn of_writer(error: io::Error) -> RunError
        ensures writers { IsWriters result }
        ensures streams { IsStreams result }
    {
        RunError::Write(StreamError::of(error))
    }
}

/// The exit status of a run: 0, 1 where a line that begins with `err` was printed, or 2 where it ended early.
pub fn exit_status(ran: &Result<Summary, RunError>) -> u8
    ensures { result ≡ status_of ran.now }
{
    match ran {
        Ok(summary) if summary.refused == 0 => 0,
        Ok(_) => 1,
        Err(_) => 2,
    }
}
