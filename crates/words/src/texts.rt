// Texts of any bytes.
ghost use Rattle.std.specs.Prelude.{◌≡◌, ◌≤◌, ◌+◌, ◌++◌, drop, length, IfOk};
ghost use Rattle.std.specs.Str.{bytes_eq};

use crate::short::{SHORT_ROOM, ShortText};
use std::alloc::{AllocError, Global};
use std::marker::Model;

/// Bytes to be printed, as a table line or a status line. Contracts see the list of the bytes. One made of at most 32 bytes
/// takes no memory of the allocator.
#[derive(Drop)]
pub struct Text {
    /// All of them, where there are none in memory of the allocator.
    short: ShortText,
    long: Vec<u8>,
}

impl Model for Text {
    ghost use Rattle.std.specs.Prelude.{ℕ, List};
    ghost use Rattle.words.specs.TextBytes.{bytes_in};

    ghost Value = { List ℕ };

    ghost view = { λ t. bytes_in t.short t.long.items };
}

impl Text {
    /// These bytes. An error says that the allocator refused memory for them.
    pub fn from_slice(alloc: Global, bytes: &[u8]) -> Result<Text, AllocError>
        ensures { IfOk result (λ t. t ≡ bytes.now) }
    {
        if bytes.len() <= SHORT_ROOM {
            return Ok(Text {
                short: ShortText::new(bytes),
                long: Vec::new(alloc),
            });
        }
        let bytes = Vec::from_slice(alloc, bytes)?;
        Ok(Text::from_vec(bytes))
    }

    /// The bytes of a room from a place on, as they are put there from their end. An error says that the allocator refused memory
    /// for them.
    #[inline(always)]
    pub fn ending(alloc: Global, room: &[u8], start: usize) -> Result<Text, AllocError>
        requires { start ≤ length room.now }
        ensures { IfOk result (λ t. t ≡ drop start room.now) }
    {
        if room.len() >= SHORT_ROOM && room.len() - start <= SHORT_ROOM {
            return Ok(Text {
                short: ShortText::ending(room, start),
                long: Vec::new(alloc),
            });
        }
        let text = Text::from_slice(alloc, &room[start..])?;
        Ok(text)
    }

    /// The bytes of a vector, which is not copied.
    pub fn from_vec(bytes: Vec<u8>) -> Text
        ensures { result ≡ bytes.items }
    {
        Text {
            short: ShortText::none(),
            long: bytes,
        }
    }

    /// Its bytes.
    pub fn as_slice(&self) -> &[u8]
        ensures { result.now ≡ self.now }
    {
        if self.long.is_empty() {
            self.short.as_slice()
        } else {
            self.long.as_slice()
        }
    }

    /// Puts its bytes before a place of a room, and tells where they begin. What stands before them there is lost.
    #[inline(always)]
    pub fn put(&self, room: &mut [u8], end: usize) -> usize
        requires within { end ≤ length room.old }
        requires room { 32 ≤ end }
        requires space { length self.now ≤ end }
        ensures start { result + length self.now ≡ end }
        ensures written { drop result room.new ≡ self.now ++ drop end room.old }
    {
        if self.long.is_empty() {
            return self.short.put(room, end);
        }
        let start = end - self.long.len();
        room[start..end].copy_from_slice(self.long.as_slice());
        start
    }

    /// How many bytes it has.
    pub fn len(&self) -> usize
        ensures { result ≡ length self.now }
    {
        self.as_slice().len()
    }

    /// Whether both have the same bytes.
    pub fn is_same(&self, other: &Text) -> bool
        ensures { result ≡ bytes_eq self.now other.now }
    {
        self.as_slice() == other.as_slice()
    }
}
