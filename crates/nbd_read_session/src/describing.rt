// Blocks are told apart: which are zeros, and which are marked.
ghost use Rattle.std.specs.Prelude.{◌≡◌, ◌+◌, ◌^◌, ◌<◌, ◌≤◌, length, take, drop, IfOk, Some, Err};
ghost use Rattle.std.specs.List.{list_all};
ghost use Rattle.nbd_read_session.specs.Blocks.{Array, state_of as state_by, mark_of as mark_by, is_blank as is_blank_of, same_kind as same_kind_of, first_kind, first_alike, alike, most_blocks, asked_bytes};
ghost use Rattle.nbd_read_session.specs.Kept.{ShowsSame, StaysCalm};
ghost use Rattle.nbd_read_session.specs.Replied.{MayFail, zeros_told, marks_told};

use crate::{Fault, Served};
use nbd_messages::Request;

/// Bytes of a block.
const BLOCK: u32 = 4096;

/// The most blocks that are told of at once.
const MOST_BLOCKS: u32 = 8192;

/// What is told of the front of some bytes: how many have blocks of the same kind, and whether these are zeros.
#[derive(Clone, Copy)]
struct Kind {
    len: u32,
    blank: bool,
}

/// What a client is told of the first bytes: how many have this state.
#[derive(Clone, Copy, PartialEq, Eq)]
pub struct State {
    pub len: u32,
    pub state: u32,
}

/// Whether all bytes are zeros.
fn is_blank(bytes: &[u8]) -> bool
    ensures { result ≡ is_blank_of bytes.now }
{
    bytes.iter().all(|byte| *byte == 0)
}

/// Whether blocks are of the same kind.
fn same_kind(here: bool, kind: bool) -> bool
    ensures { result ≡ same_kind_of here kind }
{
    if here { kind } else { !kind }
}

/// Whether a block of an array is zeros.
fn is_blank_at<T: Served>(served: &mut T, export: usize, at: u64, len: u32) -> Result<bool, Fault>
    requires few { len ≤ 4096 }
    requires inside { at + len < 2 ^ 64 }
    ensures data { IfOk result (λ blank. (b : Array) → T.shows served.old export ≡ Some b → (blank ≡ is_blank_of (take len (drop at b.bytes))) × (length (take len (drop at b.bytes)) ≡ len)) }
    ensures fails { result ≡ Err Fault.Io → T.may_fail served.old export at len }
    ensures shows { ShowsSame T.shows served.old served.new }
    ensures calm { StaysCalm T.may_fail served.old served.new }
{
    let mut room = [0u8; 4096];
    let out = &mut room[..len as usize];
    match served.read(export, at, out) {
        Ok(()) => Ok(is_blank(out)),
        Err(fault) => Err(fault),
    }
}

/// How many bytes at the front of so many have blocks of this kind.
fn alike_at<T: Served>(
    served: &mut T,
    export: usize,
    offset: u64,
    count: u32,
    blank: bool,
) -> Result<u32, Fault>
    requires inside { offset + count < 2 ^ 64 }
    ensures data { IfOk result (λ n. (b : Array) → T.shows served.old export ≡ Some b → n ≡ alike most_blocks blank (asked_bytes offset count b.bytes)) }
    ensures fails { result ≡ Err Fault.Io → MayFail (T.may_fail served.old) export offset count }
    ensures shows { ShowsSame T.shows served.old served.new }
    ensures calm { StaysCalm T.may_fail served.old served.new }
{
    let mut done = 0;
    let mut left = MOST_BLOCKS;
    while 0 < left {
        if done == count {
            return Ok(done);
        }
        let part = (count - done).min(BLOCK);
        let here = is_blank_at(served, export, offset + done as u64, part)?;
        if !same_kind(here, blank) {
            return Ok(done);
        }
        done += part;
        left -= 1;
    }
    Ok(done)
}

/// What is told of the front of so many bytes.
fn first_kind_at<T: Served>(
    served: &mut T,
    export: usize,
    offset: u64,
    count: u32,
) -> Result<Kind, Fault>
    requires inside { offset + count < 2 ^ 64 }
    ensures data { IfOk result (λ kind. (b : Array) → T.shows served.old export ≡ Some b → (kind.len ≡ first_alike (asked_bytes offset count b.bytes)) × (kind.blank ≡ first_kind (asked_bytes offset count b.bytes))) }
    ensures fails { result ≡ Err Fault.Io → MayFail (T.may_fail served.old) export offset count }
    ensures shows { ShowsSame T.shows served.old served.new }
    ensures calm { StaysCalm T.may_fail served.old served.new }
{
    let blank = is_blank_at(served, export, offset, count.min(BLOCK))?;
    let len = alike_at(served, export, offset, count, blank)?;
    Ok(Kind { len, blank })
}

/// The state of a range that reads as zeros, or of another.
fn state_of(blank: bool) -> u32
    ensures { result ≡ state_by blank }
{
    if blank { 2 } else { 0 }
}

/// What is told of the zeros that a request asks about, where they are wanted.
pub fn zeros_at<T: Served>(
    served: &mut T,
    export: usize,
    wanted: bool,
    request: &Request,
) -> Result<Option<State>, Fault>
    requires inside { request.now.offset + request.now.length < 2 ^ 64 }
    ensures data { IfOk result (λ told. (b : Array) → T.shows served.old export ≡ Some b → told ≡ zeros_told wanted b request.now) }
    ensures fails { result ≡ Err Fault.Io → MayFail (T.may_fail served.old) export request.now.offset request.now.length }
    ensures shows { ShowsSame T.shows served.old served.new }
    ensures calm { StaysCalm T.may_fail served.old served.new }
{
    if !wanted {
        return Ok(None);
    }
    let kind = first_kind_at(served, export, request.offset, request.length)?;
    Ok(Some(State {
        len: kind.len,
        state: state_of(kind.blank),
    }))
}

/// The state of a range that is marked, or is not.
fn mark_of(marked: bool) -> u32
    ensures { result ≡ mark_by marked }
{
    if marked { 1 } else { 0 }
}

/// What is told of the marks that a request asks about, where they are wanted.
pub fn marks_at<T: Served>(
    served: &mut T,
    export: usize,
    wanted: bool,
    request: &Request,
) -> Result<Option<State>, Fault>
    requires inside { request.now.offset + request.now.length < 2 ^ 64 }
    ensures data { IfOk result (λ told. (b : Array) → T.shows served.old export ≡ Some b → told ≡ marks_told wanted b request.now) }
    ensures fails { result ≡ Err Fault.Io → MayFail (T.may_fail served.old) export request.now.offset request.now.length }
    ensures shows { ShowsSame T.shows served.old served.new }
    ensures calm { StaysCalm T.may_fail served.old served.new }
{
    if !wanted {
        return Ok(None);
    }
    let told = served.marks(export, request.offset, request.length)?;
    Ok(Some(State {
        len: told.len,
        state: mark_of(told.marked),
    }))
}
