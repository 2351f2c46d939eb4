//! The messages of the Network Block Device protocol, and nothing of a session: what bytes are an option's or a request's header,
//! what the commands and their flags ask for, the flags and block sizes of an export, and the bytes of each answer. It stands on
//! `byteorder` alone.
//!
//! It promises that what is read and written are the messages of `specs/Requests`, `specs/Replies` and `specs/Reading`, byte for
//! byte. What WRITE, WRITE_ZEROES, FLUSH and FUA mean is said in `specs/Writing`.
#![tactic(auto)]

mod asked;
mod blocks;
mod command;
mod errors;
mod flags;
mod numbers;
mod reading;
mod replies;
mod request;

pub use asked::{ASKED_BYTES, Asked, asked_in};
pub use blocks::BlockSizes;
pub use command::{Command, command_of};
pub use errors::ErrorValue;
pub use flags::{
    CAN_MULTI_CONN, HAS_FLAGS, READ_FLAGS, READ_ONLY, SEND_FLUSH, SEND_FUA, SEND_WRITE_ZEROES,
    WRITE_FLAGS,
};
pub use numbers::{u16_at, u32_at};
pub use reading::{push_data_start, push_error};
pub use replies::{
    push_bare_chunk, push_bare_reply, push_blocks_info, push_context, push_data_front,
    push_error_chunk, push_export_info, push_export_reply, push_greeting, push_listed_name,
    push_simple_reply, push_state_chunk,
};
pub use request::{REQUEST_BYTES, Request, request_in};
