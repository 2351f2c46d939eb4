// What a client may choose.
ghost use Rattle.std.specs.Prelude.{◌^◌, ◌<◌, length};

use nbd_messages::BlockSizes;

/// An array that has a name.
#[derive(Clone, Copy)]
pub struct Export<'a> {
    pub name: &'a [u8],
    /// Bytes.
    pub size: u64,
    /// What a client may ask for.
    pub flags: u16,
    /// The lengths of requests, where they are told.
    pub blocks: Option<BlockSizes>,
    /// Whether a client may ask which of its bytes are marked.
    pub bitmap: bool,
    pub ghost short: { length name.now < 2 ^ 31 },
}
