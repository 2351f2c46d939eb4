// A client comes to an export.
ghost use Rattle.std.specs.Prelude.{◌≡◌, ◌<◌, ◌≤◌, [], false, true, IfOk, IfSome, MatchBool, OnOk, None, length};
ghost use Rattle.std.specs.Io.KnownBytes.{Keeps};
ghost use Rattle.nbd_options.specs.Haggled.{IsReaction};
ghost use Rattle.nbd_write_session.specs.Come.{AsksNone, Comes, Haggles, Opens};
ghost use Rattle.nbd_write_session.specs.Haggling.{IsOpened, goes_on, is_passed, passed};
ghost use Rattle.nbd_write_session.specs.Stream.{left};

use crate::ended::Ended;
use crate::input::Input;
use crate::line::said;
use nbd_messages::{ASKED_BYTES, Asked, asked_in, push_bare_reply, push_greeting, u32_at};
use nbd_options::{Export, Place, Session, Stage, haggle, haggle_unread};
use std::alloc::Global;
use std::io::{Read, Write};

/// The longest data of an option that are looked at.
const LONGEST_TEXT: u32 = 65536;

/// Hears until so many bytes are there. `false` where the input ends before.
fn waited<R: Read>(input: &mut Input, reader: &mut R, count: usize) -> Result<bool, Ended>
    ensures keeps { IfOk result (λ _. Keeps (left input.old (R.remaining reader.old)) (left input.new (R.remaining reader.new))) }
    ensures there { IfOk result (λ there. there ≡ true → count ≤ length input.new.heard) }
    ensures wanted { IfOk result (λ there. there ≡ true → 0 < count → input.new.unwanted ≡ 0) }
    ensures short { IfOk result (λ there. there ≡ false → IfSome (left input.new (R.remaining reader.new)) (λ bytes. length bytes < count)) }
{
    for _ in 0..u64::MAX {
        if count <= input.len() {
            return Ok(true);
        }
        match input.hear(reader) {
            Ok(true) => {}
            Ok(false) => return Ok(false),
            Err(error) => return Err(Ended::Unheard(error)),
        }
    }
    Err(Ended::Stuck)
}

/// Hears the client's flags. `false` where it goes.
fn open<R: Read>(input: &mut Input, reader: &mut R, session: &mut Session) -> Result<bool, Ended>
    requires structured { session.old.structured ≡ false }
    requires described { session.old.described ≡ None }
    ensures opens { IfOk result (λ went. MatchBool went
        (Opens session.new (left input.old (R.remaining reader.old)) (left input.new (R.remaining reader.new)))
        (IfSome (left input.old (R.remaining reader.old)) (λ bytes. IsOpened bytes → ⊥))) }
    ensures stage { IfOk result (λ went. went ≡ true → goes_on session.new.stage ≡ true) }
{
    if !waited(input, reader, 4)? {
        return Ok(false);
    }
    let flags = u32_at(&input.heard()[..4], 0);
    if 4 <= flags {
        return Err(Ended::NoClient);
    }
    session.no_zeroes = 2 <= flags;
    session.stage = Stage::Haggling;
    input.take(4);
    Ok(true)
}

/// The type of a reply to an option that is not known.
const UNSUPPORTED: u32 = 2_147_483_649;

/// Answers an option whose data are not looked at: of contexts, as there are none, and one whose data are too long.
fn decline(session: &mut Session, asked: Asked, answer: &mut Vec<u8>) -> Result<(), Ended>
    requires { answer.old.items ≡ [] }
    ensures { OnOk result (IsReaction answer.new.items session.new (passed session.old asked)) }
{
    if LONGEST_TEXT < asked.length {
        haggle_unread(session, asked.option, answer)?;
    } else {
        push_bare_reply(answer, asked.option, UNSUPPORTED)?;
    }
    Ok(())
}

/// Whether an option's data are not looked at.
fn is_declined(asked: Asked) -> bool
    ensures { result ≡ is_passed asked }
{
    LONGEST_TEXT < asked.length || asked.option == 9 || asked.option == 10
}

/// Hears an option, and answers it. `false` where the client goes.
fn hear_option<R: Read>(
    exports: &[Export<'_>],
    input: &mut Input,
    reader: &mut R,
    session: &mut Session,
    answer: &mut Vec<u8>,
) -> Result<bool, Ended>
    requires { goes_on session.old.stage ≡ true }
    ensures { IfOk result (λ went. MatchBool went
        (Haggles exports.now session.old session.new (left input.old (R.remaining reader.old)) (left input.new (R.remaining reader.new)) answer.new.items)
        (AsksNone (left input.old (R.remaining reader.old)) × (session.new ≡ session.old))) }
{
    if !waited(input, reader, ASKED_BYTES)? {
        return Ok(false);
    }
    let Some(asked) = asked_in(&input.heard()[..ASKED_BYTES]) else {
        return Err(Ended::NoClient);
    };
    input.take(ASKED_BYTES);
    answer.clear();
    if is_declined(asked) {
        input.skip(asked.length as u64);
        decline(session, asked, answer)?;
        return Ok(true);
    }
    let length = asked.length as usize;
    if !waited(input, reader, length)? {
        return Ok(false);
    }
    haggle(
        exports,
        session,
        asked.option,
        &input.heard()[..length],
        answer,
    )?;
    input.take(length);
    Ok(true)
}

/// A client comes to an export, and it is told which one, and whether the client takes structured replies. `None` where it goes.
pub fn chosen<R: Read, W: Write>(
    alloc: Global,
    exports: &[Export<'_>],
    input: &mut Input,
    reader: &mut R,
    writer: &mut W,
) -> Result<Option<(Place, bool)>, Ended>
    ensures { IfOk result (λ got. Comes exports.now got (left input.old (R.remaining reader.old)) (left input.new (R.remaining reader.new)) (W.contents writer.old) (W.contents writer.new)) }
{
    let mut session = Session {
        no_zeroes: false,
        structured: false,
        described: None,
        stage: Stage::Opening,
    };
    let mut answer = Vec::new(alloc);
    push_greeting(&mut answer)?;
    said(writer, answer.as_slice())?;
    if !open(input, reader, &mut session)? {
        return Ok(None);
    }
    for _ in 0..u64::MAX {
        if !hear_option(exports, input, reader, &mut session, &mut answer)? {
            return Ok(None);
        }
        said(writer, answer.as_slice())?;
        match session.stage {
            Stage::Serving(place) => return Ok(Some((place, session.structured))),
            Stage::Over => return Ok(None),
            Stage::Opening => {}
            Stage::Haggling => {}
        }
    }
    Err(Ended::Stuck)
}
