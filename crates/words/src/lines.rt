// Lines of a text, one at a time, each in a buffer of a fixed size: what is left of a text is what was read ahead and what the reader
// still has. A line that stands whole in what was read ahead is lent from there, and not copied.
ghost use Rattle.std.specs.Prelude.{◌≡◌, ◌≢◌, ◌+◌, ◌<◌, ◌≤◌, [], ◌++◌, true, false, length, take, IfErr, IfOk, MatchBool, vec_capacity, vec_len};
ghost use Rattle.std.specs.IoError.{error_kind};
ghost use Rattle.std.specs.List.{after_first, before_first, list_any};
ghost use Rattle.std.specs.declared.io.ErrorKind.TheVariants.{Interrupted};
ghost use Rattle.std.specs.Io.KnownBytes.{IsAtEnd, Keeps};
ghost use Rattle.words.specs.Lines.{is_end, left};

use crate::ahead::Ahead;
use std::alloc::{AllocError, Global};
use std::io;
use std::io::Read;
use std::marker::Model;

/// Room for a line, and for what is read ahead of it. Contracts see the line, whether it is lent from what was read ahead, what else
/// was read ahead, and the room.
#[derive(Drop)]
pub struct LineBuffer {
    line: Vec<u8>,
    is_lent: bool,
    ahead: Ahead,
}

impl Model for LineBuffer {
    ghost use Rattle.std.specs.Prelude.{if◌then◌else◌, vec_capacity};
    ghost use Rattle.words.specs.Buffered.{Buffered};

    ghost Value = { Buffered };

    ghost view = { λ b. record { line = if b.is_lent then b.ahead.lent else b.line.items; is_lent = b.is_lent; ahead = b.ahead.rest; room = vec_capacity b.line } };
}

/// Adds bytes to a line, as long as it is no longer than `max`.
pub fn keep(line: &mut Vec<u8>, bytes: &[u8], max: usize)
    requires room { max < vec_capacity line.old }
    requires short { vec_len line.old ≤ max + 1 }
    ensures kept { line.new.items ≡ take (max + 1) (line.old.items ++ bytes.now) }
    ensures room { vec_capacity line.old ≤ vec_capacity line.new }
{
    let count = bytes.len().min(max + 1 - line.len());
    line.extend_from_slice(&bytes[..count]).unwrap();
}

impl LineBuffer {
    /// Room for a line of `max` bytes and one more. Nothing is read ahead. An error says that the allocator refused memory.
    pub fn new(alloc: Global, max: usize) -> Result<LineBuffer, AllocError>
        requires { max ≤ 65536 }
        ensures room { IfOk result (λ buffer. max < buffer.room) }
        ensures ahead { IfOk result (λ buffer. buffer.ahead ≡ []) }
    {
        let line = Vec::with_capacity(alloc, max + 1)?;
        let ahead = Ahead::new(alloc)?;
        Ok(LineBuffer {
            line,
            is_lent: false,
            ahead,
        })
    }

    /// The line, or what there is of it so far, without its end.
    #[inline(always)]
    pub fn as_slice(&self) -> &[u8]
        ensures { result.now ≡ self.now.line }
    {
        if self.is_lent {
            self.ahead.lent()
        } else {
            self.line.as_slice()
        }
    }

    /// Another line begins. What line there was before is lost.
    #[inline(always)]
    pub fn begin(&mut self)
        ensures line { self.new.line ≡ [] }
        ensures own { self.new.is_lent ≡ false }
        ensures ahead { self.new.ahead ≡ self.old.ahead }
        ensures room { self.old.room ≤ self.new.room }
    {
        self.line.clear();
        self.is_lent = false;
    }

    /// Takes what was read ahead of the line, up to a line feed and it with that, or all where there is none, and says whether there
    /// was one. Of a line of more than `max` bytes the first `max + 1` are kept, so that it can be told from a shorter one.
    #[inline(always)]
    pub fn take(&mut self, max: usize) -> bool
        requires room { max < self.old.room }
        requires own { self.old.is_lent ≡ false }
        requires short { length self.old.line ≤ max + 1 }
        ensures end { result ≡ list_any is_end self.old.ahead }
        ensures line { self.new.line ≡ take (max + 1) (self.old.line ++ before_first is_end self.old.ahead) }
        ensures rest { self.new.ahead ≡ after_first is_end self.old.ahead }
        ensures own { result ≡ false → self.new.is_lent ≡ false }
        ensures room { self.old.room ≤ self.new.room }
    {
        if self.line.is_empty() && self.ahead.lend_line(max + 1) {
            self.is_lent = true;
            return true;
        }
        self.ahead.take_line(&mut self.line, max)
    }

    /// Reads some bytes ahead, if there are none, and says whether there are any now. The one error is the reader's own, and no read
    /// that was interrupted.
    pub fn fill<R: Read>(&mut self, reader: &mut R) -> io::Result<bool>
        requires own { self.old.is_lent ≡ false }
        ensures kept { IfOk result (λ _. Keeps (left self.old.ahead (R.remaining reader.old)) (left self.new.ahead (R.remaining reader.new))) }
        ensures some { IfOk result (λ more. MatchBool more (0 < length self.new.ahead) (IsAtEnd (left self.old.ahead (R.remaining reader.old)))) }
        ensures retried { IfErr result (λ e. error_kind e ≢ Interrupted) }
        ensures line { self.new.line ≡ self.old.line }
        ensures own { self.new.is_lent ≡ false }
        ensures room { self.new.room ≡ self.old.room }
    {
        self.ahead.fill(reader)
    }
}
