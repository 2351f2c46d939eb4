// Which requests are served.
ghost use Rattle.std.specs.Prelude.{◌≡◌, ◌≤◌, ◌+◌, None, nat_lt};
ghost use Rattle.nbd_jobs.specs.Steps.{room_of};
ghost use Rattle.nbd_jobs.specs.Refused.{refusal_of, is_whole as is_whole_of, range_refusal as range_refusal_of, read_refusal as read_refusal_of, write_refusal as write_refusal_of, zeroes_refusal as zeroes_refusal_of, flush_refusal as flush_refusal_of};

use nbd_messages::{Command, ErrorValue, Request};

/// The most bytes of a read or of a write: 32 MiB.
pub const LONGEST: u32 = 33_554_432;

/// The flags of a request: what it writes is to last before it is answered; zeros are to take room; or to be fast.
const FUA: u16 = 1;

const FUA_AND_NO_HOLE: u16 = 3;

const FAST_ZERO: u16 = 16;

/// Whether a request is of whole sectors, and of one at least.
fn is_whole(request: &Request) -> bool
    ensures { result ≡ is_whole_of request.now }
{
    if request.length == 0 {
        return false;
    }
    if request.length % 512 != 0 {
        return false;
    }
    request.offset % 512 == 0
}

/// Why the range of a request is refused, by an export of so many bytes: `past` where it goes past the end.
fn range_refusal(size: u64, request: &Request, past: ErrorValue) -> Option<ErrorValue>
    ensures { result ≡ range_refusal_of size past request.now }
{
    if !is_whole(request) {
        return Some(ErrorValue::Invalid);
    }
    match request.offset.checked_add(request.length as u64) {
        Some(end) => {
            if size < end {
                return Some(past);
            }
            None
        }
        None => Some(past),
    }
}

/// Why a read is refused.
fn read_refusal(size: u64, request: &Request) -> Option<ErrorValue>
    ensures { result ≡ read_refusal_of size request.now }
{
    if 0 < request.flags {
        return Some(ErrorValue::Invalid);
    }
    if LONGEST < request.length {
        return Some(ErrorValue::Invalid);
    }
    range_refusal(size, request, ErrorValue::Invalid)
}

/// Why a write is refused.
fn write_refusal(size: u64, request: &Request) -> Option<ErrorValue>
    ensures { result ≡ write_refusal_of size request.now }
{
    if FUA < request.flags {
        return Some(ErrorValue::Invalid);
    }
    if LONGEST < request.length {
        return Some(ErrorValue::Invalid);
    }
    range_refusal(size, request, ErrorValue::NoSpace)
}

/// Why a write of zeros is refused.
fn zeroes_refusal(size: u64, request: &Request) -> Option<ErrorValue>
    ensures { result ≡ zeroes_refusal_of size request.now }
{
    if FUA_AND_NO_HOLE < request.flags {
        if request.flags < FAST_ZERO {
            return Some(ErrorValue::Invalid);
        }
        return Some(ErrorValue::NotSupported);
    }
    range_refusal(size, request, ErrorValue::NoSpace)
}

/// Why a flush is refused: its range says nothing.
fn flush_refusal(request: &Request) -> Option<ErrorValue>
    ensures { result ≡ flush_refusal_of request.now }
{
    if 0 < request.flags {
        return Some(ErrorValue::Invalid);
    }
    None
}

/// Why a request is refused, by an export of so many bytes that is read and written. `None` where it is to be served.
pub fn refusal(size: u64, request: &Request) -> Option<ErrorValue>
    ensures is { result ≡ refusal_of size request.now }
    ensures short { result ≡ None → room_of request.now ≤ 33_554_432 }
{
    match request.command {
        Command::Read => read_refusal(size, request),
        Command::Write => write_refusal(size, request),
        Command::WriteZeroes => zeroes_refusal(size, request),
        Command::Flush => flush_refusal(request),
        Command::Disconnect => Some(ErrorValue::Invalid),
        Command::Trim => Some(ErrorValue::Invalid),
        Command::BlockStatus => Some(ErrorValue::Invalid),
        Command::Other => Some(ErrorValue::Invalid),
    }
}
