// What a server says is written.
ghost use Rattle.std.specs.Prelude.{◌≡◌, ◌+◌, ◌^◌, ◌<◌, [], ◌++◌, length, OnOk};
ghost use Rattle.nbd_messages.specs.Replies.{greeting, option_front, option_reply, listed_name, context_info, export_info, blocks_info, export_reply, simple_reply, last_flag, chunk_kind, chunk_front, bare_chunk, error_chunk, data_front, block_state, state_chunk};

use crate::blocks::BlockSizes;
use crate::numbers::{push_u16, push_u32, push_u64};
use std::alloc::AllocError;

/// Adds what a server says first.
#[tactic(auto, unfolding(crate::specs::Replies::greeting))]
pub fn push_greeting(out: &mut Vec<u8>) -> Result<(), AllocError>
    ensures { OnOk result (out.new.items ≡ out.old.items ++ greeting) }
{
    push_u64(out, 0x4e42_444d_4147_4943)?;
    push_u64(out, 0x4948_4156_454f_5054)?;
    push_u16(out, 3)
}

/// Adds the front of a reply to an option: its type, and the length of its data.
#[tactic(auto, unfolding(crate::specs::Replies::option_front))]
fn push_option_front(out: &mut Vec<u8>, option: u32, kind: u32, len: u32) -> Result<(), AllocError>
    ensures { OnOk result (out.new.items ≡ out.old.items ++ option_front option kind len) }
{
    push_u64(out, 0x0003_e889_0455_65a9)?;
    push_u32(out, option)?;
    push_u32(out, kind)?;
    push_u32(out, len)
}

/// Adds a reply to an option that has no data.
pub fn push_bare_reply(out: &mut Vec<u8>, option: u32, kind: u32) -> Result<(), AllocError>
    ensures { OnOk result (out.new.items ≡ out.old.items ++ option_reply option kind []) }
{
    push_option_front(out, option, kind, 0)
}

/// Adds a reply to an option that lists an export.
#[tactic(auto, unfolding(crate::specs::Replies::listed_name), using(crate::proofs::Lengths::length_listed_name))]
pub fn push_listed_name(
    out: &mut Vec<u8>,
    option: u32,
    kind: u32,
    name: &[u8],
) -> Result<(), AllocError>
    requires { length name.now < 2 ^ 31 }
    ensures { OnOk result (out.new.items ≡ out.old.items ++ option_reply option kind (listed_name name.now)) }
{
    push_option_front(out, option, kind, 4 + name.len() as u32)?;
    push_u32(out, name.len() as u32)?;
    out.extend_from_slice(name)
}

/// Adds a reply to an option that tells a context: its number, and its name.
#[tactic(auto, unfolding(crate::specs::Replies::context_info), using(crate::proofs::Lengths::length_context_info))]
pub fn push_context(
    out: &mut Vec<u8>,
    option: u32,
    kind: u32,
    number: u32,
    name: &[u8],
) -> Result<(), AllocError>
    requires { length name.now < 2 ^ 31 }
    ensures { OnOk result (out.new.items ≡ out.old.items ++ option_reply option kind (context_info number name.now)) }
{
    push_option_front(out, option, kind, 4 + name.len() as u32)?;
    push_u32(out, number)?;
    out.extend_from_slice(name)
}

/// Adds a reply to an option on an export: its size in bytes, and its flags.
#[tactic(auto, using(crate::proofs::Lengths::length_export_info))]
pub fn push_export_info(
    out: &mut Vec<u8>,
    option: u32,
    kind: u32,
    size: u64,
    flags: u16,
) -> Result<(), AllocError>
    ensures { OnOk result (out.new.items ≡ out.old.items ++ option_reply option kind (export_info size flags)) }
{
    push_option_front(out, option, kind, 12)?;
    push_info(out, size, flags)?;
    Ok(())
}

#[tactic(auto, unfolding(crate::specs::Replies::export_info))]
fn push_info(out: &mut Vec<u8>, size: u64, flags: u16) -> Result<(), AllocError>
    ensures { OnOk result (out.new.items ≡ out.old.items ++ export_info size flags) }
{
    push_u16(out, 0)?;
    push_u64(out, size)?;
    push_u16(out, flags)
}

/// Adds a reply to an option on an export: the least, the best and the greatest length of a request, in bytes.
#[tactic(auto, using(crate::proofs::Lengths::length_blocks_info))]
pub fn push_blocks_info(
    out: &mut Vec<u8>,
    option: u32,
    kind: u32,
    blocks: BlockSizes,
) -> Result<(), AllocError>
    ensures { OnOk result (out.new.items ≡ out.old.items ++ option_reply option kind (blocks_info blocks.least blocks.best blocks.most)) }
{
    push_option_front(out, option, kind, 14)?;
    push_blocks(out, blocks)?;
    Ok(())
}

#[tactic(auto, unfolding(crate::specs::Replies::blocks_info))]
fn push_blocks(out: &mut Vec<u8>, blocks: BlockSizes) -> Result<(), AllocError>
    ensures { OnOk result (out.new.items ≡ out.old.items ++ blocks_info blocks.least blocks.best blocks.most) }
{
    push_u16(out, 3)?;
    push_u32(out, blocks.least)?;
    push_u32(out, blocks.best)?;
    push_u32(out, blocks.most)
}

/// Adds the end of the haggling by an export's name: its size in bytes, its flags, and so many zeros.
#[tactic(auto, unfolding(crate::specs::Replies::export_reply))]
pub fn push_export_reply(
    out: &mut Vec<u8>,
    size: u64,
    flags: u16,
    zeros: usize,
) -> Result<(), AllocError>
    requires { zeros < 2 ^ 32 }
    ensures { OnOk result (out.new.items ≡ out.old.items ++ export_reply size flags zeros) }
{
    push_u64(out, size)?;
    push_u16(out, flags)?;
    let len = out.len() + zeros;
    out.resize(len, 0)
}

/// Adds a simple reply: the error or 0, and the request's cookie.
#[tactic(auto, unfolding(crate::specs::Replies::simple_reply))]
pub fn push_simple_reply(out: &mut Vec<u8>, error: u32, cookie: u64) -> Result<(), AllocError>
    ensures { OnOk result (out.new.items ≡ out.old.items ++ simple_reply error cookie) }
{
    push_u32(out, 0x6744_6698)?;
    push_u32(out, error)?;
    push_u64(out, cookie)
}

/// The flags of a chunk: whether it is the reply's last one.
fn last_flag_of(last: bool) -> u16
    ensures { result ≡ last_flag last }
{
    if last { 1 } else { 0 }
}

/// Adds the front of a chunk of a structured reply: whether it is the last one, its type, the request's cookie, and the length of
/// its data.
#[tactic(auto, unfolding(crate::specs::Replies::chunk_front))]
fn push_chunk_front(
    out: &mut Vec<u8>,
    last: bool,
    kind: u16,
    cookie: u64,
    len: u32,
) -> Result<(), AllocError>
    ensures { OnOk result (out.new.items ≡ out.old.items ++ chunk_front last kind cookie len) }
{
    push_chunk_kind(out, last, kind)?;
    push_u64(out, cookie)?;
    push_u32(out, len)
}

#[tactic(auto, unfolding(crate::specs::Replies::chunk_kind))]
fn push_chunk_kind(out: &mut Vec<u8>, last: bool, kind: u16) -> Result<(), AllocError>
    ensures { OnOk result (out.new.items ≡ out.old.items ++ chunk_kind last kind) }
{
    push_u32(out, 0x668e_33ef)?;
    push_u16(out, last_flag_of(last))?;
    push_u16(out, kind)
}

/// Adds a structured reply that has no data.
pub fn push_bare_chunk(out: &mut Vec<u8>, cookie: u64) -> Result<(), AllocError>
    ensures { OnOk result (out.new.items ≡ out.old.items ++ bare_chunk cookie) }
{
    push_chunk_front(out, true, 0, cookie, 0)
}

/// Adds a structured reply that tells an error, without words.
pub fn push_error_chunk(out: &mut Vec<u8>, error: u32, cookie: u64) -> Result<(), AllocError>
    ensures { OnOk result (out.new.items ≡ out.old.items ++ error_chunk error cookie) }
{
    push_chunk_front(out, true, 32769, cookie, 6)?;
    push_u32(out, error)?;
    push_u16(out, 0)
}

/// Adds the front of a structured reply to a read: how many bytes, and their offset.
pub fn push_data_front(
    out: &mut Vec<u8>,
    cookie: u64,
    offset: u64,
    len: u32,
) -> Result<(), AllocError>
    requires { len < 2 ^ 31 }
    ensures { OnOk result (out.new.items ≡ out.old.items ++ data_front cookie offset len) }
{
    push_chunk_front(out, true, 1, cookie, 8 + len)?;
    push_u64(out, offset)
}

/// Adds a chunk of a structured reply, the last one or not, that tells the state of so many bytes.
pub fn push_state_chunk(
    out: &mut Vec<u8>,
    last: bool,
    cookie: u64,
    context: u32,
    len: u32,
    state: u32,
) -> Result<(), AllocError>
    ensures { OnOk result (out.new.items ≡ out.old.items ++ state_chunk last cookie context len state) }
{
    push_chunk_front(out, last, 5, cookie, 12)?;
    push_block_state(out, context, len, state)
}

#[tactic(auto, unfolding(crate::specs::Replies::block_state))]
fn push_block_state(out: &mut Vec<u8>, context: u32, len: u32, state: u32) -> Result<(), AllocError>
    ensures { OnOk result (out.new.items ≡ out.old.items ++ block_state context len state) }
{
    push_u32(out, context)?;
    push_u32(out, len)?;
    push_u32(out, state)
}
