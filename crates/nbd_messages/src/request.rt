// A request is read.
ghost use Rattle.std.specs.Prelude.{◌≡◌, length};
ghost use Rattle.nbd_messages.specs.Requests.{request_in as request_by};

use crate::command::{Command, command_of};
use crate::numbers::{u16_at, u32_at, u64_at};

/// The bytes of a request's header.
pub const REQUEST_BYTES: usize = 28;

/// The magic number of a request.
const REQUEST_MAGIC: u32 = 0x2560_9513;

/// What a client asks of an export.
#[derive(Clone, Copy, PartialEq, Eq)]
pub struct Request {
    pub flags: u16,
    pub command: Command,
    /// The number under which it is answered.
    pub cookie: u64,
    /// Bytes, from the export's front.
    pub offset: u64,
    /// Bytes.
    pub length: u32,
}

/// The request of a header. `None` where the magic number is another.
pub fn request_in(bytes: &[u8]) -> Option<Request>
    requires { length bytes.now ≡ REQUEST_BYTES }
    ensures { result ≡ request_by bytes.now }
{
    if u32_at(bytes, 0) != REQUEST_MAGIC {
        return None;
    }
    Some(Request {
        flags: u16_at(bytes, 4),
        command: command_of(u16_at(bytes, 6)),
        cookie: u64_at(bytes, 8),
        offset: u64_at(bytes, 16),
        length: u32_at(bytes, 24),
    })
}
