// A request is answered.
ghost use Rattle.std.specs.Prelude.{◌≡◌, ◌+◌, ◌^◌, ◌<◌, ◌≤◌, [], ◌++◌, length, take, drop, OnOk, Some, Err, Option, nat_lt};
ghost use Rattle.nbd_read_session.specs.Kept.{ShowsSame, StaysCalm};
ghost use Rattle.nbd_read_session.specs.declared.served.Fault.{Fault as FaultOf};
ghost use Rattle.nbd_messages.specs.Reading.{data_start, error_reply};
ghost use Rattle.nbd_read_session.specs.Replied.{is_invalid_read, data_reply, given_reply, read_reply, is_invalid_state as is_invalid_state_of, states_told, given_state, state_reply, reply_to, fault_error, MayFail, HasCause};
ghost use Rattle.nbd_read_session.specs.Blocks.{Array};

use crate::describing::{State, marks_at, zeros_at};
use crate::{Fault, Served};
use nbd_messages::{
    Command, Request, push_data_start, push_error, push_simple_reply, push_state_chunk,
};
use nbd_options::Contexts;
use std::alloc::AllocError;

/// The longest read: 32 MiB.
const LONGEST: u32 = 33_554_432;

/// The protocol's numbers of errors.
const NOT_PERMITTED: u32 = 1;

const IO: u32 = 5;

const NO_MEMORY: u32 = 12;

const INVALID: u32 = 22;

/// Whether a request goes past the end of an export of so many bytes.
fn is_past(size: u64, request: &Request) -> bool
    ensures { result ≡ nat_lt size (request.now.offset + request.now.length) }
{
    match request.offset.checked_add(request.length as u64) {
        Some(end) => size < end,
        None => true,
    }
}

/// Whether a read is invalid, of an export of so many bytes.
fn is_invalid(size: u64, request: &Request) -> bool
    ensures { result ≡ is_invalid_read size request.now }
{
    if 0 < request.flags {
        return true;
    }
    if LONGEST < request.length {
        return true;
    }
    is_past(size, request)
}

/// The protocol's number of a fault.
fn error_of(fault: Fault) -> u32
    ensures { result ≡ fault_error fault }
{
    match fault {
        Fault::Io => IO,
        Fault::NoMemory => NO_MEMORY,
    }
}

/// Adds a read's bytes.
fn push_data<T: Served>(
    served: &mut T,
    export: usize,
    request: &Request,
    answer: &mut Vec<u8>,
) -> Result<(), Fault>
    requires inside { request.now.offset + request.now.length < 2 ^ 64 }
    ensures data { OnOk result ((b : Array) → T.shows served.old export ≡ Some b → answer.new.items ≡ answer.old.items ++ take request.now.length (drop request.now.offset b.bytes)) }
    ensures fails { result ≡ Err Fault.Io → T.may_fail served.old export request.now.offset request.now.length }
    ensures shows { ShowsSame T.shows served.old served.new }
    ensures calm { StaysCalm T.may_fail served.old served.new }
{
    let start = answer.len();
    let Some(end) = start.checked_add(request.length as usize) else {
        return Err(Fault::NoMemory);
    };
    let Ok(()) = answer.resize(end, 0) else {
        return Err(Fault::NoMemory);
    };
    let out = &mut answer.as_mut_slice()[start..];
    match served.read(export, request.offset, out) {
        Ok(()) => Ok(()),
        Err(fault) => Err(fault),
    }
}

/// Answers a read.
fn reply_read<T: Served>(
    served: &mut T,
    export: usize,
    size: u64,
    structured: bool,
    request: &Request,
    answer: &mut Vec<u8>,
) -> Result<(), AllocError>
    requires { answer.old.items ≡ [] }
    ensures reply { OnOk result ((b : Array) → T.shows served.old export ≡ Some b → (fault : Option FaultOf) × HasCause (T.may_fail served.old) export fault request.now × (answer.new.items ≡ read_reply structured fault size b.bytes request.now)) }
    ensures shows { ShowsSame T.shows served.old served.new }
    ensures calm { StaysCalm T.may_fail served.old served.new }
{
    if is_invalid(size, request) {
        return push_error(answer, structured, INVALID, request);
    }
    push_data_start(answer, structured, request)?;
    if request.length == 0 {
        return Ok(());
    }
    match push_data(served, export, request, answer) {
        Ok(()) => Ok(()),
        Err(fault) => {
            answer.clear();
            push_error(answer, structured, error_of(fault), request)?;
            Ok(())
        }
    }
}

/// The only flag that a request about blocks may have: one range is enough.
const ONE: u16 = 8;

/// Whether a request about blocks is invalid, of an export of so many bytes.
fn is_invalid_state(size: u64, request: &Request) -> bool
    ensures { result ≡ is_invalid_state_of size request.now }
{
    if request.length == 0 {
        return true;
    }
    if request.flags != 0 && request.flags != ONE {
        return true;
    }
    is_past(size, request)
}

/// Adds a chunk for each context of which something is told.
fn push_states(
    cookie: u64,
    zeros: Option<State>,
    marks: Option<State>,
    answer: &mut Vec<u8>,
) -> Result<(), AllocError>
    ensures { OnOk result (answer.new.items ≡ answer.old.items ++ states_told cookie zeros marks) }
{
    if let Some(zeros) = zeros {
        push_state_chunk(answer, marks.is_none(), cookie, 1, zeros.len, zeros.state)?;
    }
    if let Some(marks) = marks {
        push_state_chunk(answer, true, cookie, 2, marks.len, marks.state)?;
    }
    Ok(())
}

/// Answers a good request about blocks.
fn tell_state<T: Served>(
    served: &mut T,
    export: usize,
    contexts: Contexts,
    structured: bool,
    request: &Request,
    answer: &mut Vec<u8>,
) -> Result<(), AllocError>
    requires none { answer.old.items ≡ [] }
    requires inside { request.now.offset + request.now.length < 2 ^ 64 }
    ensures reply { OnOk result ((b : Array) → T.shows served.old export ≡ Some b → (fault : Option FaultOf) × HasCause (T.may_fail served.old) export fault request.now × (answer.new.items ≡ given_state contexts structured fault b request.now)) }
    ensures shows { ShowsSame T.shows served.old served.new }
    ensures calm { StaysCalm T.may_fail served.old served.new }
{
    let zeros = match zeros_at(served, export, contexts.allocation, request) {
        Ok(zeros) => zeros,
        Err(fault) => return push_error(answer, structured, error_of(fault), request),
    };
    match marks_at(served, export, contexts.bitmap, request) {
        Ok(marks) => push_states(request.cookie, zeros, marks, answer),
        Err(fault) => push_error(answer, structured, error_of(fault), request),
    }
}

/// Answers a request about blocks.
fn reply_state<T: Served>(
    served: &mut T,
    export: usize,
    size: u64,
    contexts: Contexts,
    structured: bool,
    request: &Request,
    answer: &mut Vec<u8>,
) -> Result<(), AllocError>
    requires { answer.old.items ≡ [] }
    ensures reply { OnOk result ((b : Array) → T.shows served.old export ≡ Some b → (fault : Option FaultOf) × HasCause (T.may_fail served.old) export fault request.now × (answer.new.items ≡ state_reply contexts structured fault size b request.now)) }
    ensures shows { ShowsSame T.shows served.old served.new }
    ensures calm { StaysCalm T.may_fail served.old served.new }
{
    if !contexts.allocation && !contexts.bitmap {
        return push_error(answer, structured, INVALID, request);
    }
    if is_invalid_state(size, request) {
        return push_error(answer, structured, INVALID, request);
    }
    tell_state(served, export, contexts, structured, request, answer)
}

/// Answers a request, with arrays that are only read.
pub fn reply<T: Served>(
    served: &mut T,
    export: usize,
    size: u64,
    contexts: Contexts,
    structured: bool,
    request: &Request,
    answer: &mut Vec<u8>,
) -> Result<(), AllocError>
    requires { answer.old.items ≡ [] }
    ensures reply { OnOk result ((b : Array) → T.shows served.old export ≡ Some b → (fault : Option FaultOf) × HasCause (T.may_fail served.old) export fault request.now × (answer.new.items ≡ reply_to contexts structured fault size b request.now)) }
    ensures shows { ShowsSame T.shows served.old served.new }
    ensures calm { StaysCalm T.may_fail served.old served.new }
{
    match request.command {
        Command::Read => reply_read(served, export, size, structured, request, answer),
        Command::Disconnect => Ok(()),
        Command::Write => push_simple_reply(answer, NOT_PERMITTED, request.cookie),
        Command::Trim => push_simple_reply(answer, NOT_PERMITTED, request.cookie),
        Command::WriteZeroes => push_simple_reply(answer, NOT_PERMITTED, request.cookie),
        Command::Flush => {
            let error = if 0 < request.flags { INVALID } else { 0 };
            push_simple_reply(answer, error, request.cookie)
        }
        Command::BlockStatus => reply_state(
            served, export, size, contexts, structured, request, answer,
        ),
        Command::Other => push_simple_reply(answer, INVALID, request.cookie),
    }
}
