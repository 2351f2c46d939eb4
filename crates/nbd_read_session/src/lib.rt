//! A server of the Network Block Device protocol for one client, over any reader, any writer, and any arrays that are read. It
//! stands on `nbd_messages`, which has the protocol's messages, and on `nbd_options`, which answers options.
//!
//! It promises that, for every list of bytes that a client sends, all that is written are the protocol's answers to the messages
//! at its front: `serve`, in the words of `specs/Talk`. A read that fails is answered so, and the next request is served; no more
//! memory is taken than the longest request asks for.
#![tactic(auto)]

mod describing;
mod hearing;
mod laws;
mod replying;
mod served;
mod serving;
mod stopped;
mod turning;

pub use laws::one_answer;
pub use served::{Fault, Marked, Served};
pub use serving::serve;
pub use stopped::Stopped;
