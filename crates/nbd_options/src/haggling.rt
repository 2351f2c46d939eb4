// An option is answered.
ghost use Rattle.std.specs.Prelude.{◌≡◌, ◌+◌, ◌≤◌, [], ◌++◌, OnOk, IfOk, length, true, if◌then◌else◌};
ghost use Rattle.std.specs.Option.{option_map};
ghost use Rattle.nbd_messages.specs.Layout.{number_at};
ghost use Rattle.nbd_options.specs.Haggled.{named, IsReaction, haggled, haggled_unread, named_export, listed, asked_name as asked_name_of, informed, on_export, without_data, with_structure, on_contexts, context_name as context_name_of, asked_by as asked_by_of, asks_for as asks_for_of, asks as asks_of, offered as offered_of, is_fitting as is_fitting_of, contexts_at, told_blocks, told_context, told_contexts, choosing, refused, aborted};
ghost use Rattle.nbd_options.specs.declared.session.Place.{Place as PlaceOf};

use crate::context::Context;
use crate::export::Export;
use crate::finding::found;
use crate::session::{Contexts, Described, Place, Session, Stage};
use nbd_messages::{
    BlockSizes, push_bare_reply, push_blocks_info, push_context, push_export_info,
    push_export_reply, push_listed_name, u16_at, u32_at,
};
use std::alloc::AllocError;

/// The types of replies.
const ACKNOWLEDGED: u32 = 1;

const LISTING: u32 = 2;

const INFORMING: u32 = 3;

const TELLING: u32 = 4;

const UNSUPPORTED: u32 = 2_147_483_649;

const MALFORMED: u32 = 2_147_483_651;

const UNKNOWN: u32 = 2_147_483_654;

const TOO_LONG: u32 = 2_147_483_657;

/// The name in the data of an option on an export, which go on with numbers of facts. `None` where they are malformed.
fn asked_name(text: &[u8]) -> Option<&[u8]>
    ensures { option_map (λ name. name.now) result ≡ asked_name_of text.now }
{
    if text.len() < 6 {
        return None;
    }
    let len = u32_at(text, 0) as usize;
    if text.len() - 6 < len {
        return None;
    }
    let facts = u16_at(text, 4 + len) as usize;
    if text.len() != 6 + len + 2 * facts {
        return None;
    }
    Some(&text[4..4 + len])
}

/// Answers an export's name, by which the haggling ends.
fn name_export(
    exports: &[Export<'_>],
    session: &mut Session,
    name: &[u8],
    answer: &mut Vec<u8>,
) -> Result<(), AllocError>
    requires { answer.old.items ≡ [] }
    ensures { OnOk result (IsReaction answer.new.items session.new (named_export session.old (named exports.now name.now))) }
{
    let Some(place) = found(exports, name) else {
        session.stage = Stage::Over;
        return Ok(());
    };
    let zeros = if session.no_zeroes { 0 } else { 124 };
    push_export_reply(answer, place.size, place.flags, zeros)?;
    session.stage = Stage::Serving(place);
    Ok(())
}

/// Lists all exports.
fn list(exports: &[Export<'_>], answer: &mut Vec<u8>) -> Result<(), AllocError>
    requires { answer.old.items ≡ [] }
    ensures { OnOk result (answer.new.items ≡ listed exports.now) }
{
    for export in exports {
        push_listed_name(answer, 3, LISTING, export.name)?;
    }
    push_bare_reply(answer, 3, ACKNOWLEDGED)
}

/// Tells the lengths of requests that an export takes, where they are told.
fn push_blocks(
    option: u32,
    blocks: Option<BlockSizes>,
    answer: &mut Vec<u8>,
) -> Result<(), AllocError>
    ensures { OnOk result (answer.new.items ≡ answer.old.items ++ told_blocks option blocks) }
{
    match blocks {
        Some(blocks) => push_blocks_info(answer, option, INFORMING, blocks),
        None => Ok(()),
    }
}

/// Tells an export's size, flags and block sizes, or that there is no such export.
fn inform(
    session: &Session,
    option: u32,
    stage: Stage,
    place: Option<Place>,
    answer: &mut Vec<u8>,
) -> Result<Session, AllocError>
    requires { answer.old.items ≡ [] }
    ensures { IfOk result (λ after. IsReaction answer.new.items after (informed session.now option stage place)) }
{
    let Some(place) = place else {
        push_bare_reply(answer, option, UNKNOWN)?;
        return Ok(*session);
    };
    push_export_info(answer, option, INFORMING, place.size, place.flags)?;
    push_blocks(option, place.blocks, answer)?;
    push_bare_reply(answer, option, ACKNOWLEDGED)?;
    let mut after = *session;
    after.stage = stage;
    Ok(after)
}

/// Answers an option on an export: tells its size and flags, and where `goes` goes on with it.
fn on_place(
    exports: &[Export<'_>],
    session: &mut Session,
    option: u32,
    goes: bool,
    text: &[u8],
    answer: &mut Vec<u8>,
) -> Result<(), AllocError>
    requires { answer.old.items ≡ [] }
    ensures { OnOk result (IsReaction answer.new.items session.new (on_export option goes exports.now session.old (asked_name_of text.now))) }
{
    let Some(name) = asked_name(text) else {
        return push_bare_reply(answer, option, MALFORMED);
    };
    let place = found(exports, name);
    let stage = match place {
        Some(place) if goes => Stage::Serving(place),
        _ => session.stage,
    };
    *session = inform(session, option, stage, place, answer)?;
    Ok(())
}

/// Answers an option whose data are to be none: the list of all exports.
fn list_all(
    exports: &[Export<'_>],
    session: &mut Session,
    text: &[u8],
    answer: &mut Vec<u8>,
) -> Result<(), AllocError>
    requires { answer.old.items ≡ [] }
    ensures { OnOk result (IsReaction answer.new.items session.new (without_data session.old 3 text.now (record { answer = listed exports.now; after = session.old }))) }
{
    if !text.is_empty() {
        return push_bare_reply(answer, 3, MALFORMED);
    }
    list(exports, answer)
}

/// Answers an option whose data are to be none: structured replies are taken from then on.
fn structure(session: &mut Session, text: &[u8], answer: &mut Vec<u8>) -> Result<(), AllocError>
    requires { answer.old.items ≡ [] }
    ensures { OnOk result (IsReaction answer.new.items session.new (without_data session.old 8 text.now (with_structure session.old))) }
{
    if !text.is_empty() {
        return push_bare_reply(answer, 8, MALFORMED);
    }
    push_bare_reply(answer, 8, ACKNOWLEDGED)?;
    session.structured = true;
    Ok(())
}

/// Ends the session, as the client asks.
fn abort(session: &mut Session, answer: &mut Vec<u8>) -> Result<(), AllocError>
    requires { answer.old.items ≡ [] }
    ensures { OnOk result (IsReaction answer.new.items session.new (aborted session.old)) }
{
    push_bare_reply(answer, 2, ACKNOWLEDGED)?;
    session.stage = Stage::Over;
    Ok(())
}

/// The name in the data of an option on contexts, which go on with queries. `None` where they are malformed.
fn context_name(text: &[u8]) -> Option<&[u8]>
    ensures { option_map (λ name. name.now) result ≡ context_name_of text.now }
{
    if text.len() < 8 {
        return None;
    }
    let len = u32_at(text, 0) as usize;
    if text.len() - 8 < len {
        return None;
    }
    Some(&text[4..4 + len])
}

/// Whether a query is of a context.
fn is_fitting(context: Context, chooses: bool, query: &[u8]) -> bool
    ensures { result ≡ is_fitting_of context chooses query.now }
{
    if query == context.name() {
        return true;
    }
    !chooses && context.is_front(query)
}

/// Whether a query fits, or one before did.
fn once(fits: bool, found: bool) -> bool
    ensures { result ≡ (if fits then true else found) }
{
    if fits {
        return true;
    }
    found
}

/// Whether one of so many queries is of a context. `None` where they are malformed.
fn asked_by(context: Context, chooses: bool, start: bool, count: u32, text: &[u8]) -> Option<bool>
    ensures { result ≡ asked_by_of context chooses start count text.now }
{
    let mut found = start;
    let mut left = count;
    let mut rest = text;
    while 0 < left {
        if rest.len() < 4 {
            return None;
        }
        let len = u32_at(rest, 0) as usize;
        if rest.len() - 4 < len {
            return None;
        }
        found = once(is_fitting(context, chooses, &rest[4..4 + len]), found);
        rest = &rest[4 + len..];
        left -= 1;
    }
    if !rest.is_empty() {
        return None;
    }
    Some(found)
}

/// Whether the data of an option on contexts ask for one. `None` where they are malformed.
fn asks_for(context: Context, chooses: bool, text: &[u8], len: usize) -> Option<bool>
    requires name { len ≡ number_at text.now 0 4 }
    requires inside { 8 + len ≤ length text.now }
    ensures { result ≡ asks_for_of context chooses text.now }
{
    let count = u32_at(text, 4 + len);
    let start = !chooses && count == 0;
    asked_by(context, chooses, start, count, &text[8 + len..])
}

/// The contexts for which the data of an option ask. `None` where they are malformed.
fn asks(chooses: bool, text: &[u8], len: usize) -> Option<Contexts>
    requires name { len ≡ number_at text.now 0 4 }
    requires inside { 8 + len ≤ length text.now }
    ensures { result ≡ asks_of chooses text.now }
{
    let allocation = asks_for(Context::Allocation, chooses, text, len)?;
    let bitmap = asks_for(Context::Bitmap, chooses, text, len)?;
    Some(Contexts { allocation, bitmap })
}

/// The contexts that are asked for, of those that an export has.
fn offered(bitmap: bool, asks: Contexts) -> Contexts
    ensures { result ≡ offered_of bitmap asks }
{
    Contexts {
        allocation: asks.allocation,
        bitmap: bitmap && asks.bitmap,
    }
}

/// Tells a context, where it was asked for.
fn push_told(
    option: u32,
    chooses: bool,
    context: Context,
    asks: bool,
    answer: &mut Vec<u8>,
) -> Result<(), AllocError>
    ensures { OnOk result (answer.new.items ≡ answer.old.items ++ told_context option chooses context asks) }
{
    if !asks {
        return Ok(());
    }
    push_context(
        answer,
        option,
        TELLING,
        context.number(chooses),
        context.name(),
    )
}

/// Tells the contexts that were asked for.
fn push_all(
    option: u32,
    chooses: bool,
    contexts: Contexts,
    answer: &mut Vec<u8>,
) -> Result<(), AllocError>
    requires { answer.old.items ≡ [] }
    ensures { OnOk result (answer.new.items ≡ told_contexts option chooses contexts) }
{
    push_told(
        option,
        chooses,
        Context::Allocation,
        contexts.allocation,
        answer,
    )?;
    push_told(option, chooses, Context::Bitmap, contexts.bitmap, answer)
}

/// A session in which these contexts may be asked about, where they were chosen.
fn choose(session: &mut Session, chooses: bool, described: Option<Described>)
    ensures { session.new ≡ choosing chooses session.old described }
{
    if chooses {
        session.described = described;
    }
}

/// Refuses an option on contexts.
fn refuse(
    session: &mut Session,
    option: u32,
    chooses: bool,
    kind: u32,
    answer: &mut Vec<u8>,
) -> Result<(), AllocError>
    requires { answer.old.items ≡ [] }
    ensures { OnOk result (IsReaction answer.new.items session.new (refused option chooses session.old kind)) }
{
    choose(session, chooses, None);
    push_bare_reply(answer, option, kind)
}

/// Answers an option on contexts, of an export that there may be, and of queries that may be malformed.
fn tell(
    session: &mut Session,
    option: u32,
    chooses: bool,
    place: Option<Place>,
    asks: Option<Contexts>,
    answer: &mut Vec<u8>,
) -> Result<(), AllocError>
    requires { answer.old.items ≡ [] }
    ensures { OnOk result (IsReaction answer.new.items session.new (contexts_at option chooses session.old place asks)) }
{
    let Some(asks) = asks else {
        return refuse(session, option, chooses, MALFORMED, answer);
    };
    let Some(place) = place else {
        return refuse(session, option, chooses, UNKNOWN, answer);
    };
    let contexts = offered(place.bitmap, asks);
    let described = Described {
        export: place.export,
        contexts,
    };
    choose(session, chooses, Some(described));
    push_all(option, chooses, contexts, answer)?;
    push_bare_reply(answer, option, ACKNOWLEDGED)
}

/// Answers an option on contexts: lists them, or chooses.
fn contexts(
    exports: &[Export<'_>],
    session: &mut Session,
    option: u32,
    chooses: bool,
    text: &[u8],
    answer: &mut Vec<u8>,
) -> Result<(), AllocError>
    requires { answer.old.items ≡ [] }
    ensures { OnOk result (IsReaction answer.new.items session.new (on_contexts option chooses exports.now session.old text.now)) }
{
    if !session.structured {
        return refuse(session, option, chooses, MALFORMED, answer);
    }
    let Some(name) = context_name(text) else {
        return refuse(session, option, chooses, MALFORMED, answer);
    };
    let place = found(exports, name);
    let asks = asks(chooses, text, name.len());
    tell(session, option, chooses, place, asks, answer)
}

/// Answers an option with these data.
pub fn haggle(
    exports: &[Export<'_>],
    session: &mut Session,
    option: u32,
    text: &[u8],
    answer: &mut Vec<u8>,
) -> Result<(), AllocError>
    requires { answer.old.items ≡ [] }
    ensures { OnOk result (IsReaction answer.new.items session.new (haggled exports.now session.old option text.now)) }
{
    match option {
        1 => name_export(exports, session, text, answer),
        2 => abort(session, answer),
        3 => list_all(exports, session, text, answer),
        6 => on_place(exports, session, 6, false, text, answer),
        7 => on_place(exports, session, 7, true, text, answer),
        8 => structure(session, text, answer),
        9 => contexts(exports, session, 9, false, text, answer),
        10 => contexts(exports, session, 10, true, text, answer),
        _ => push_bare_reply(answer, option, UNSUPPORTED),
    }
}

/// Answers an option whose data are too long.
pub fn haggle_unread(
    session: &mut Session,
    option: u32,
    answer: &mut Vec<u8>,
) -> Result<(), AllocError>
    requires { answer.old.items ≡ [] }
    ensures { OnOk result (IsReaction answer.new.items session.new (haggled_unread session.old option)) }
{
    if option == 1 {
        session.stage = Stage::Over;
        return Ok(());
    }
    push_bare_reply(answer, option, TOO_LONG)
}
