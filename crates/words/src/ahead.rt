// Bytes that are read ahead of the line.
ghost use Rattle.std.specs.Prelude.{◌≡◌, ◌≢◌, ◌+◌, ◌<◌, ◌≤◌, [], ◌++◌, true, false, length, take, IfErr, IfOk, MatchBool, vec_capacity, vec_len};
ghost use Rattle.std.specs.List.{after_first, before_first, list_any};
ghost use Rattle.std.specs.IoError.{error_kind};
ghost use Rattle.std.specs.declared.io.ErrorKind.TheVariants.{Interrupted};
ghost use Rattle.std.specs.Io.KnownBytes.{Consumes, IsAtEnd, Keeps};
ghost use Rattle.words.specs.Lines.{is_end, left};

use crate::lines::keep;
use crate::wide::place_of;
use std::alloc::{AllocError, Global};
use std::io;
use std::io::{ErrorKind, Read};
use std::marker::Model;

/// So many bytes are asked for at once.
const MOST_AHEAD: usize = 16_384;

/// Bytes that were read and are not yet taken, and those that were lent last. Contracts see the lists of both.
#[derive(Drop)]
pub struct Ahead {
    bytes: Vec<u8>,
    start: usize,
    end: usize,
    from: usize,
    to: usize,
}

impl Model for Ahead {
    ghost use Rattle.std.specs.Prelude.{◌-◌, ◌≤◌, ◌<◌, drop, length, take};
    ghost use Rattle.words.specs.Buffered.{ReadAhead};

    ghost Value = { ReadAhead };

    ghost view = { λ a. record { lent = take (a.end - a.start) (drop a.start a.bytes.items); rest = take (a.to - a.from) (drop a.from a.bytes.items) } };

    ghost invariant = { λ a. (a.from ≤ a.to) × (a.to ≤ length a.bytes.items) × (0 < length a.bytes.items) × (a.start ≤ a.end) × (a.end ≤ length a.bytes.items) };
}

/// Takes what the reader gives at once. A read that was interrupted is made again.
#[tactic(auto, using(crate::proofs::Known::keeps_same, crate::proofs::Known::keeps_more, crate::proofs::Known::keeps_consumes, crate::proofs::Known::keeps_end))]
fn read_some<R: Read>(reader: &mut R, bytes: &mut [u8]) -> io::Result<usize>
    requires { 0 < length bytes.old }
    ensures taken { IfOk result (λ n. Consumes (R.remaining reader.old) (R.remaining reader.new) (take n bytes.new)) }
    ensures end { IfOk result (λ n. n ≡ 0 → IsAtEnd (R.remaining reader.old)) }
    ensures within { IfOk result (λ n. n ≤ length bytes.old) }
    ensures retried { IfErr result (λ e. error_kind e ≢ Interrupted) }
    ensures length { length bytes.new ≡ length bytes.old }
{
    for _ in 0..u64::MAX {
        match reader.read(bytes) {
            Ok(count) => return Ok(count),
            Err(e) => {
                if e.kind() != ErrorKind::Interrupted {
                    return Err(e);
                }
            }
        }
    }
    Err(io::Error::from(ErrorKind::TimedOut))
}

impl Ahead {
    /// Nothing is read yet. An error says that the allocator refused memory for what may be read ahead.
    pub fn new(alloc: Global) -> Result<Ahead, AllocError>
        ensures { IfOk result (λ ahead. ahead.rest ≡ []) }
    {
        let bytes = vec![in alloc; 0u8; MOST_AHEAD]?;
        Ok(Ahead {
            bytes,
            start: 0,
            end: 0,
            from: 0,
            to: 0,
        })
    }

    /// The bytes that were lent last.
    #[inline(always)]
    pub fn lent(&self) -> &[u8]
        ensures { result.now ≡ self.now.lent }
    {
        &self.bytes[self.start..self.end]
    }

    /// Reads some bytes, if there are none, and says whether there are any now. What was lent is lost. The one error is the
    /// reader's own, and no read that was interrupted.
    #[inline(never)]
    #[tactic(auto, using(crate::proofs::Known::keeps_same, crate::proofs::Known::filled, crate::proofs::Known::none_left))]
    pub fn fill<R: Read>(&mut self, reader: &mut R) -> io::Result<bool>
        ensures kept { IfOk result (λ _. Keeps (left self.old.rest (R.remaining reader.old)) (left self.new.rest (R.remaining reader.new))) }
        ensures some { IfOk result (λ more. MatchBool more (0 < length self.new.rest) (IsAtEnd (left self.old.rest (R.remaining reader.old)))) }
        ensures retried { IfErr result (λ e. error_kind e ≢ Interrupted) }
    {
        if self.from < self.to {
            return Ok(true);
        }
        let count = read_some(reader, &mut self.bytes)?;
        self.from = 0;
        self.to = count;
        Ok(0 < count)
    }

    /// Takes the bytes up to a line feed, and it with them, lends the first of them, at most so many, and says so. Where there is no
    /// line feed, nothing is taken.
    #[inline(always)]
    #[tactic(auto, using(crate::proofs::LineParts::any_some, crate::proofs::LineParts::any_none))]
    pub fn lend_line(&mut self, most: usize) -> bool
        ensures end { result ≡ list_any is_end self.old.rest }
        ensures line { result ≡ true → self.new.lent ≡ take most (before_first is_end self.old.rest) }
        ensures rest { result ≡ true → self.new.rest ≡ after_first is_end self.old.rest }
        ensures none { result ≡ false → self.new.rest ≡ self.old.rest }
    {
        let rest = &self.bytes[self.from..self.to];
        match place_of(rest, b'\n') {
            Some(end) => {
                self.start = self.from;
                self.end = self.from + end.min(most);
                self.from += end + 1;
                true
            }
            None => false,
        }
    }

    /// Takes the bytes up to a line feed, and it with them, or all of them where there is none, adds them to a line as `keep`
    /// does, and says whether there was one.
    #[inline(never)]
    #[tactic(auto, using(crate::proofs::LineParts::any_some, crate::proofs::LineParts::any_none, crate::proofs::LineParts::before_some, crate::proofs::LineParts::before_none, crate::proofs::LineParts::after_some, crate::proofs::LineParts::after_none))]
    pub fn take_line(&mut self, line: &mut Vec<u8>, max: usize) -> bool
        requires room { max < vec_capacity line.old }
        requires short { vec_len line.old ≤ max + 1 }
        ensures end { result ≡ list_any is_end self.old.rest }
        ensures line { line.new.items ≡ take (max + 1) (line.old.items ++ before_first is_end self.old.rest) }
        ensures rest { self.new.rest ≡ after_first is_end self.old.rest }
        ensures room { vec_capacity line.old ≤ vec_capacity line.new }
    {
        let rest = &self.bytes[self.from..self.to];
        match place_of(rest, b'\n') {
            Some(end) => {
                keep(line, &rest[..end], max);
                self.from += end + 1;
                true
            }
            None => {
                keep(line, rest, max);
                self.from = self.to;
                false
            }
        }
    }
}
