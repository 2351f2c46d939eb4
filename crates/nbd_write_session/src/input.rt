// What a client said, and what was not taken of it yet.
ghost use Rattle.std.specs.Prelude.{◌≡◌, ◌==◌, ◌+◌, ◌-◌, ◌<◌, ◌≤◌, [], IfOk, MatchBool, ⊤, length};
ghost use Rattle.std.specs.Io.KnownBytes.{IsAtEnd, Keeps};
ghost use Rattle.nbd_write_session.specs.Stream.{Stream, dropped, left, lessened, thinned};

use std::alloc::{AllocError, Global};
use std::io;
use std::io::{ErrorKind, Read};
use std::marker::Model;

/// The longest message, a write of 32 MiB, and what comes behind it.
const ROOM: usize = 35_651_584;

/// Where less room is left behind what was heard, it is moved to the front.
const LEAST_ROOM: usize = 1_048_576;

/// Bytes that were heard, of which those from `from` on are not taken.
#[derive(Drop)]
pub struct Input {
    room: Vec<u8>,
    from: usize,
    to: usize,
    /// How many bytes that nobody wants are to come next.
    unwanted: u64,
}

impl Model for Input {
    ghost use Rattle.std.specs.Prelude.{◌≡◌, ◌<◌, ◌≤◌, length, slice_range};
    ghost use Rattle.nbd_write_session.specs.Stream.{Stream};

    ghost Value = { Stream };

    ghost view = { λ i. record { heard = slice_range i.room.items i.from i.to; unwanted = i.unwanted } };

    ghost invariant = { λ i. (i.from ≤ i.to) × (i.to ≤ length i.room.items) × (0 < i.unwanted → i.from ≡ i.to) };
}

impl Input {
    /// Nothing was heard.
    pub fn new(alloc: Global) -> Result<Input, AllocError>
        ensures { IfOk result (λ i. i ≡ record { heard = []; unwanted = 0 }) }
    {
        Ok(Input {
            room: vec![in alloc; 0u8; ROOM]?,
            from: 0,
            to: 0,
            unwanted: 0,
        })
    }

    /// What was heard and not taken.
    pub fn heard(&self) -> &[u8]
        ensures { result.now ≡ self.now.heard }
    {
        &self.room.as_slice()[self.from..self.to]
    }

    /// How many bytes were heard and not taken.
    pub fn len(&self) -> usize
        ensures is { result ≡ length self.now.heard }
        ensures wanted { 0 < result → self.now.unwanted ≡ 0 }
    {
        self.to - self.from
    }

    pub fn is_empty(&self) -> bool
        ensures { result ≡ (length self.now.heard == 0) }
    {
        self.to - self.from == 0
    }

    /// Takes so many bytes.
    pub fn take(&mut self, count: usize)
        requires { count ≤ length self.old.heard }
        ensures { self.new ≡ dropped count self.old }
    {
        self.from += count;
    }

    /// So many of the next bytes are not wanted: those that are there go now, the others as they come.
    pub fn skip(&mut self, count: u64)
        requires { self.old.unwanted ≡ 0 }
        ensures { self.new ≡ lessened count self.old }
    {
        let there = self.to - self.from;
        let now = count.min(there as u64);
        self.from += now as usize;
        self.unwanted = count - now;
    }

    /// Makes room behind what was heard.
    fn make_room(&mut self)
        ensures { self.new ≡ self.old }
    {
        if LEAST_ROOM <= self.room.len() - self.to {
            return;
        }
        let count = self.to - self.from;
        self.room.copy_within(self.from..self.to, 0);
        self.from = 0;
        self.to = count;
    }

    /// Hears what has arrived, or waits for it. Of what nobody wants, as much goes as is there. `false` at the end of the input.
    pub fn hear<R: Read>(&mut self, reader: &mut R) -> io::Result<bool>
        ensures { IfOk result (λ more. Keeps (left self.old (R.remaining reader.old)) (left self.new (R.remaining reader.new))
            × MatchBool more ⊤ (IsAtEnd (R.remaining reader.new) × (self.new ≡ self.old))) }
    {
        self.make_room();
        let out = &mut self.room.as_mut_slice()[self.to..];
        if out.is_empty() {
            return Err(ErrorKind::InvalidData.into());
        }
        match reader.read(out) {
            Ok(0) => Ok(false),
            Ok(count) => {
                let to = self.to + count;
                let gone = self.unwanted.min((to - self.from) as u64);
                self.from += gone as usize;
                self.to = to;
                self.unwanted -= gone;
                Ok(true)
            }
            Err(error) => {
                if error.kind() == ErrorKind::Interrupted {
                    return Ok(true);
                }
                Err(error)
            }
        }
    }
}
