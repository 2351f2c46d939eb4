// A job is answered.
ghost use Rattle.std.specs.Prelude.{◌≡◌, ◌++◌, OnOk, Option, length};
ghost use Rattle.nbd_jobs.specs.Replied.{reply_of, bytes_reply, done_reply};
ghost use Rattle.nbd_messages.specs.Reading.{error_reply, data_start};
ghost use Rattle.nbd_jobs.specs.Replied.{failure_reply};
ghost use Rattle.nbd_jobs.specs.Steps.{room_of};

use crate::job::Job;
use nbd_messages::{Command, ErrorValue, Request, push_data_start, push_error, push_simple_reply};
use std::alloc::AllocError;

/// Adds the reply of a request that failed. Only reads have structured ones.
pub fn push_failure(
    out: &mut Vec<u8>,
    structured: bool,
    error: ErrorValue,
    request: &Request,
) -> Result<(), AllocError>
    ensures { OnOk result (out.new.items ≡ out.old.items ++ failure_reply structured error request.now) }
{
    let is_structured = structured && request.command == Command::Read;
    push_error(out, is_structured, error.number(), request)
}

/// Adds the reply to a job that is done.
pub fn push_reply(out: &mut Vec<u8>, structured: bool, job: &Job) -> Result<(), AllocError>
    ensures reply { OnOk result (out.new.items ≡ out.old.items ++ reply_of structured job.now) }
    ensures sized { length job.now.bytes ≡ room_of job.now.request }
{
    match job.error {
        Some(error) => push_failure(out, structured, error, &job.request),
        None => push_success(out, structured, job),
    }
}

/// Adds the reply to a job without an error: to a read its bytes.
fn push_success(out: &mut Vec<u8>, structured: bool, job: &Job) -> Result<(), AllocError>
    ensures { OnOk result (out.new.items ≡ out.old.items ++ done_reply job.now.request.command structured job.now) }
{
    if job.request.command != Command::Read {
        return push_simple_reply(out, 0, job.request.cookie);
    }
    push_data_start(out, structured, &job.request)?;
    out.extend_from_slice(job.bytes.as_slice())
}
