// Short texts, which take no memory of the allocator.
ghost use Rattle.std.specs.Prelude.{◌≡◌, ◌≤◌, ◌+◌, ◌++◌, [], drop, length};

use std::marker::Model;

/// The most bytes that a short text has. Most status lines have fewer.
pub const SHORT_ROOM: usize = 32;

/// At most 32 bytes, at the end of their room, where a text that is made from its end has them. Contracts see the list of them.
/// Their room comes first: so it is moved as it was written, 16 bytes at a time.
#[derive(Drop)]
pub struct ShortText {
    room: [u8; SHORT_ROOM],
    start: usize,
}

impl Model for ShortText {
    ghost use Rattle.std.specs.Prelude.{ℕ, List, ◌≤◌, drop};

    ghost Value = { List ℕ };

    ghost view = { λ t. drop t.start t.room };

    ghost invariant = { λ t. t.start ≤ 32 };
}

impl ShortText {
    /// No bytes.
    #[inline(always)]
    pub fn none() -> ShortText
        ensures { result ≡ [] }
    {
        ShortText {
            room: [0u8; SHORT_ROOM],
            start: SHORT_ROOM,
        }
    }

    /// These bytes.
    #[inline(always)]
    pub fn new(bytes: &[u8]) -> ShortText
        requires { length bytes.now ≤ 32 }
        ensures { result ≡ bytes.now }
    {
        let mut room = [0u8; SHORT_ROOM];
        let start = SHORT_ROOM - bytes.len();
        room[start..].copy_from_slice(bytes);
        ShortText { room, start }
    }

    /// The bytes of a longer room from a place on, moved with what stands before them.
    #[inline(always)]
    pub fn ending(bytes: &[u8], start: usize) -> ShortText
        requires room { 32 ≤ length bytes.now }
        requires within { start ≤ length bytes.now }
        requires short { length bytes.now ≤ start + 32 }
        ensures { result ≡ drop start bytes.now }
    {
        let skipped = bytes.len() - SHORT_ROOM;
        let mut room = [0u8; SHORT_ROOM];
        room.copy_from_slice(&bytes[skipped..]);
        ShortText {
            room,
            start: start - skipped,
        }
    }

    /// Its bytes.
    #[inline(always)]
    pub fn as_slice(&self) -> &[u8]
        ensures { result.now ≡ self.now }
    {
        &self.room[self.start..]
    }

    /// Puts its bytes before a place of a room, what stands before them with them, and tells where they begin.
    #[inline(always)]
    pub fn put(&self, room: &mut [u8], end: usize) -> usize
        requires within { end ≤ length room.old }
        requires space { 32 ≤ end }
        ensures start { result + length self.now ≡ end }
        ensures written { drop result room.new ≡ self.now ++ drop end room.old }
    {
        let first = end - SHORT_ROOM;
        room[first..end].copy_from_slice(&self.room);
        first + self.start
    }
}
