// A message is read and answered.
ghost use Rattle.std.specs.Prelude.{◌≡◌, ◌<◌, ◌≤◌, ℕ, List, [], length, IfOk, IfSome, OnOk, MatchBool, MatchOption};
ghost use Rattle.std.specs.Io.KnownBytes.{Consumes};
ghost use Rattle.nbd_read_session.specs.Heard.{IsShort, IsRead};
ghost use Rattle.nbd_messages.specs.Writing.{payload};
ghost use Rattle.nbd_read_session.specs.Blocks.{Array};
ghost use Rattle.nbd_read_session.specs.Kept.{ShowsSame, StaysCalm};
ghost use Rattle.nbd_read_session.specs.Talk.{AreArrays, NoneIsWhole, chosen as chosen_of};
ghost use Rattle.nbd_options.specs.declared.export.Export.{Export as ExportOf};
ghost use Rattle.nbd_options.specs.declared.session.Place.{Place as PlaceOf};
ghost use Rattle.nbd_read_session.specs.Turns.{IsTurn, IsOpened, IsAskedTurn, IsEnd, IsAsked, IsRequested, IsHaggledFor, IsReplied};
ghost use Rattle.nbd_options.specs.declared.session.Stage.TheVariants.{Opening, Haggling, Serving};

use crate::Served;
use crate::hearing::{fill, skip};
use crate::replying::reply;
use crate::stopped::Stopped;
use nbd_messages::{
    ASKED_BYTES, Asked, Command, REQUEST_BYTES, Request, asked_in, request_in, u32_at,
};
use nbd_options::{Contexts, Described, Export, Place, Session, Stage, haggle, haggle_unread};
use std::io::Read;

/// The longest data of an option that are looked at.
const LONGEST_TEXT: u32 = 65536;

/// Reads the client's flags.
fn open<R: Read>(session: &mut Session, reader: &mut R) -> Result<bool, Stopped>
    requires { session.old.stage ≡ Opening }
    ensures { IfOk result (λ went. MatchBool went
        (IsOpened (R.remaining reader.old) (R.remaining reader.new) session.old session.new)
        (IsEnd (R.remaining reader.old) session.old)) }
{
    let mut flags = [0u8; 4];
    match fill(reader, flags.as_mut_slice()) {
        Ok(true) => {}
        Ok(false) => return Ok(false),
        Err(error) => return Err(Stopped::Unheard(error)),
    }
    let flags = u32_at(flags.as_slice(), 0);
    if 4 <= flags {
        return Ok(false);
    }
    session.no_zeroes = 2 <= flags;
    session.stage = Stage::Haggling;
    Ok(true)
}

/// Reads bytes that nobody wants, or tells that the input ends before.
fn unheard<R: Read>(reader: &mut R, count: u64) -> Result<bool, Stopped>
    ensures { IfOk result (λ whole. MatchBool whole (IsRead (R.remaining reader.old) (R.remaining reader.new) count) (IsShort (R.remaining reader.old) count)) }
{
    match skip(reader, count) {
        Ok(whole) => Ok(whole),
        Err(error) => Err(Stopped::Unheard(error)),
    }
}

/// Reads so many bytes, or tells that the input ends before.
fn heard<R: Read>(reader: &mut R, text: &mut Vec<u8>, count: u32) -> Result<bool, Stopped>
    ensures { IfOk result (λ whole. MatchBool whole ((length text.new.items ≡ count) × Consumes (R.remaining reader.old) (R.remaining reader.new) text.new.items) (IsShort (R.remaining reader.old) count)) }
{
    text.resize(count as usize, 0)?;
    match fill(reader, text.as_mut_slice()) {
        Ok(whole) => Ok(whole),
        Err(error) => Err(Stopped::Unheard(error)),
    }
}

/// Reads an option's header. `None` where the input ends before, or its magic number is another.
#[tactic(auto, using(crate::proofs::Wholes::none_asked))]
fn hear_asked<R: Read>(reader: &mut R) -> Result<Option<Asked>, Stopped>
    ensures { IfOk result (λ asked. MatchOption asked (IfSome (R.remaining reader.old) (NoneIsWhole Haggling)) (IsAsked (R.remaining reader.old) (R.remaining reader.new))) }
{
    let mut head = [0u8; ASKED_BYTES];
    match fill(reader, head.as_mut_slice()) {
        Ok(true) => Ok(asked_in(head.as_slice())),
        Ok(false) => Ok(None),
        Err(error) => Err(Stopped::Unheard(error)),
    }
}

/// Reads a request's header. `None` where the input ends before, or its magic number is another.
#[tactic(auto, using(crate::proofs::Wholes::none_requested))]
fn hear_request<R: Read>(reader: &mut R) -> Result<Option<Request>, Stopped>
    ensures { IfOk result (λ request. MatchOption request ((place : PlaceOf) → IfSome (R.remaining reader.old) (NoneIsWhole (Serving place))) (IsRequested (R.remaining reader.old) (R.remaining reader.new))) }
{
    let mut head = [0u8; REQUEST_BYTES];
    match fill(reader, head.as_mut_slice()) {
        Ok(true) => Ok(request_in(head.as_slice())),
        Ok(false) => Ok(None),
        Err(error) => Err(Stopped::Unheard(error)),
    }
}

/// Reads an option's data, and answers it.
fn haggle_for<R: Read>(
    exports: &[Export<'_>],
    session: &mut Session,
    asked: Asked,
    reader: &mut R,
    text: &mut Vec<u8>,
    answer: &mut Vec<u8>,
) -> Result<bool, Stopped>
    requires { answer.old.items ≡ [] }
    ensures { IfOk result (λ whole. MatchBool whole (IsHaggledFor exports.now (R.remaining reader.old) (R.remaining reader.new) asked session.old session.new answer.new.items) (IsShort (R.remaining reader.old) asked.length)) }
{
    if LONGEST_TEXT < asked.length {
        if !unheard(reader, asked.length as u64)? {
            return Ok(false);
        }
        haggle_unread(session, asked.option, answer)?;
        return Ok(true);
    }
    if !heard(reader, text, asked.length)? {
        return Ok(false);
    }
    haggle(exports, session, asked.option, text.as_slice(), answer)?;
    Ok(true)
}

/// No context.
const NO_CONTEXTS: Contexts = Contexts {
    allocation: false,
    bitmap: false,
};

/// The contexts in which an export's blocks may be asked about.
fn chosen(described: Option<Described>, export: usize) -> Contexts
    ensures { result ≡ chosen_of described export }
{
    match described {
        Some(described) if described.export == export => described.contexts,
        _ => NO_CONTEXTS,
    }
}

/// Answers a request, and ends the session where the client disconnects.
fn serve_request<T: Served>(
    served: &mut T,
    place: Place,
    request: &Request,
    session: &mut Session,
    answer: &mut Vec<u8>,
) -> Result<(), Stopped>
    requires { answer.old.items ≡ [] }
    ensures replied { OnOk result (IsReplied (T.shows served.old) (T.may_fail served.old) place request.now session.old session.new answer.new.items) }
    ensures shows { ShowsSame T.shows served.old served.new }
    ensures calm { StaysCalm T.may_fail served.old served.new }
{
    reply(
        served,
        place.export,
        place.size,
        chosen(session.described, place.export),
        session.structured,
        request,
        answer,
    )?;
    if request.command == Command::Disconnect {
        session.stage = Stage::Over;
    }
    Ok(())
}

/// Reads what follows a request's header.
fn hear_payload<R: Read>(request: &Request, reader: &mut R) -> Result<bool, Stopped>
    ensures { IfOk result (λ whole. MatchBool whole (IsRead (R.remaining reader.old) (R.remaining reader.new) (payload request.now)) (IsShort (R.remaining reader.old) (payload request.now))) }
{
    if request.command != Command::Write {
        return Ok(true);
    }
    unheard(reader, request.length as u64)
}

/// Reads an option and answers it. `false` where no whole option comes.
fn option<R: Read>(
    exports: &[Export<'_>],
    session: &mut Session,
    reader: &mut R,
    text: &mut Vec<u8>,
    answer: &mut Vec<u8>,
) -> Result<bool, Stopped>
    requires stage { session.old.stage ≡ Haggling }
    requires none { answer.old.items ≡ [] }
    ensures { IfOk result (λ went. MatchBool went
        (IsAskedTurn exports.now (R.remaining reader.old) (R.remaining reader.new) session.old session.new answer.new.items)
        (IsEnd (R.remaining reader.old) session.old)) }
{
    let Some(asked) = hear_asked(reader)? else {
        return Ok(false);
    };
    if !haggle_for(exports, session, asked, reader, text, answer)? {
        return Ok(false);
    }
    Ok(true)
}

/// Reads a request and answers it. `false` where no whole request comes.
fn request<T: Served, R: Read>(
    served: &mut T,
    place: Place,
    session: &mut Session,
    reader: &mut R,
    answer: &mut Vec<u8>,
) -> Result<bool, Stopped>
    requires stage { session.old.stage ≡ Serving place }
    requires none { answer.old.items ≡ [] }
    ensures turn { IfOk result (λ went. MatchBool went
        ((exports : List ExportOf) (arrays : ℕ → Array) → AreArrays (T.shows served.old) arrays → IsTurn exports arrays (T.may_fail served.old) (R.remaining reader.old) (R.remaining reader.new) session.old session.new answer.new.items)
        (IsEnd (R.remaining reader.old) session.old)) }
    ensures shows { ShowsSame T.shows served.old served.new }
    ensures calm { StaysCalm T.may_fail served.old served.new }
{
    let Some(request) = hear_request(reader)? else {
        return Ok(false);
    };
    if !hear_payload(&request, reader)? {
        return Ok(false);
    }
    serve_request(served, place, &request, session, answer)?;
    Ok(true)
}

/// Reads a message and answers it. `false` where no whole message comes.
pub fn turn<T: Served, R: Read>(
    served: &mut T,
    exports: &[Export<'_>],
    session: &mut Session,
    reader: &mut R,
    text: &mut Vec<u8>,
    answer: &mut Vec<u8>,
) -> Result<bool, Stopped>
    requires { answer.old.items ≡ [] }
    ensures turn { IfOk result (λ went. MatchBool went
        ((arrays : ℕ → Array) → AreArrays (T.shows served.old) arrays → IsTurn exports.now arrays (T.may_fail served.old) (R.remaining reader.old) (R.remaining reader.new) session.old session.new answer.new.items)
        (IsEnd (R.remaining reader.old) session.old)) }
    ensures shows { ShowsSame T.shows served.old served.new }
    ensures calm { StaysCalm T.may_fail served.old served.new }
{
    match session.stage {
        Stage::Opening => {
            if !open(session, reader)? {
                return Ok(false);
            }
            Ok(true)
        }
        Stage::Haggling => option(exports, session, reader, text, answer),
        Stage::Serving(place) => request(served, place, session, reader, answer),
        Stage::Over => Ok(false),
    }
}
