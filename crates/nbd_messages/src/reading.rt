// What stands before a read's bytes, or in their place.
ghost use Rattle.std.specs.Prelude.{◌≡◌, ◌^◌, ◌<◌, ◌++◌, OnOk};
ghost use Rattle.nbd_messages.specs.Reading.{data_start, error_reply};

use crate::replies::{push_bare_chunk, push_data_front, push_error_chunk, push_simple_reply};
use crate::request::Request;
use std::alloc::AllocError;

/// Adds an error in place of a read's bytes.
pub fn push_error(
    answer: &mut Vec<u8>,
    structured: bool,
    error: u32,
    request: &Request,
) -> Result<(), AllocError>
    ensures { OnOk result (answer.new.items ≡ answer.old.items ++ error_reply structured error request.now) }
{
    if structured {
        push_error_chunk(answer, error, request.cookie)
    } else {
        push_simple_reply(answer, error, request.cookie)
    }
}

/// Adds what stands before a read's bytes.
pub fn push_data_start(
    answer: &mut Vec<u8>,
    structured: bool,
    request: &Request,
) -> Result<(), AllocError>
    requires { request.now.length < 2 ^ 31 }
    ensures { OnOk result (answer.new.items ≡ answer.old.items ++ data_start structured request.now) }
{
    if !structured {
        return push_simple_reply(answer, 0, request.cookie);
    }
    if request.length == 0 {
        return push_bare_chunk(answer, request.cookie);
    }
    push_data_front(answer, request.cookie, request.offset, request.length)
}
