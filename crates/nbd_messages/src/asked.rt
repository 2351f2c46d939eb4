// An option's header is read.
ghost use Rattle.std.specs.Prelude.{◌≡◌, length};
ghost use Rattle.nbd_messages.specs.Requests.{asked_in as asked_by};

use crate::numbers::{u32_at, u64_at};

/// The bytes of an option's header.
pub const ASKED_BYTES: usize = 16;

/// The magic number of an option: IHAVEOPT.
const OPTION_MAGIC: u64 = 0x4948_4156_454f_5054;

/// What a client asks for before it uses an export.
#[derive(Clone, Copy, PartialEq, Eq)]
pub struct Asked {
    pub option: u32,
    /// How many bytes of data follow the header.
    pub length: u32,
}

/// What a header asks for. `None` where the magic number is another.
pub fn asked_in(bytes: &[u8]) -> Option<Asked>
    requires { length bytes.now ≡ ASKED_BYTES }
    ensures { result ≡ asked_by bytes.now }
{
    if u64_at(bytes, 0) != OPTION_MAGIC {
        return None;
    }
    Some(Asked {
        option: u32_at(bytes, 8),
        length: u32_at(bytes, 12),
    })
}
