// A client, of which one message is heard at each read.
ghost use Rattle.std.specs.Prelude.{None};

use std::io;
use std::io::Read;

/// Messages, each with its length before it: 4 bytes, the first the highest.
#[derive(Drop)]
pub struct Client<'a> {
    messages: &'a [u8],
    /// How many bytes are left of the message that is being heard.
    left: usize,
}

impl<'a> Client<'a> {
    /// A client that has said nothing yet.
    pub fn new(messages: &'a [u8]) -> Client<'a> {
        Client { messages, left: 0 }
    }

    // Begins the next message, if there is one.
    fn begin(&mut self) {
        if let Some((length, rest)) = self.messages.split_first_chunk::<4>() {
            self.left = (u32::from_be_bytes(*length) as usize).min(rest.len());
            self.messages = rest;
        }
    }
}

impl Read for Client<'_> {
    ghost remaining = { λ _. None };

    fn read(&mut self, out: &mut [u8]) -> io::Result<usize> {
        if self.left == 0 {
            self.begin();
        }
        let count = self.left.min(out.len()).min(self.messages.len());
        let (part, rest) = self.messages.split_at(count);
        out[..count].copy_from_slice(part);
        self.messages = rest;
        self.left -= count;
        Ok(count)
    }
}
